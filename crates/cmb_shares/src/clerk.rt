//! Who makes text while a share has to wait.

use crate::desk::{Desk, Job};
use crate::message::Message;
use crate::share_run::ShareRun;
use crate::shelf::Shelf;
use crate::stages::{Draft, Free, Text};
use std::alloc::{AllocError, Global};
use std::sync::{Mutex, Wait};

// It looks for a window at one of so many calls alone: all threads that wait look at the same desk.
const LOOKS: u32 = 8;

/// A thread's part in making the text: it takes a window from the desk, makes its text piece by piece, and puts that on
/// the shelf.
#[derive(Drop)]
pub struct Clerk<'a, 'd, T: ShareRun> {
    alloc: Global,
    desk: &'d Mutex<Desk<T>>,
    shelf: &'d Mutex<Shelf<T>>,
    /// The text that it is at. There is none once memory was refused or the desk was closed.
    draft: Option<Draft<'a, T>>,
    /// Messages whose room goes back.
    spent: Vec<Message<T>>,
    /// Room for a text.
    room: Vec<u8>,
    /// Whether there were texts enough when it looked last.
    is_ahead: bool,
    looks: u32,
}

impl<'a, 'd, T: ShareRun> Clerk<'a, 'd, T> {
    /// One that makes no text yet.
    pub(crate) fn new(
        alloc: Global,
        free: Free<'a, T>,
        desk: &'d Mutex<Desk<T>>,
        shelf: &'d Mutex<Shelf<T>>,
    ) -> Clerk<'a, 'd, T> {
        Clerk {
            alloc,
            desk,
            shelf,
            draft: Some(Draft::new(free)),
            spent: Vec::new(alloc),
            room: Vec::new(alloc),
            is_ahead: false,
            looks: 0,
        }
    }

    /// Whether it can make text.
    pub(crate) fn is_able(&self) -> bool {
        self.draft.is_some()
    }

    // Whether it is at the text of a window.
    fn is_busy(&self) -> bool {
        match &self.draft {
            Some(draft) => draft.is_begun(),
            None => false,
        }
    }

    // Whether it has nothing to do, at this call, but to wait until it looks for a window.
    fn passes(&mut self) -> bool {
        self.looks = self.looks.wrapping_add(1);
        self.looks % LOOKS != 0 && !self.is_busy()
    }

    // Puts a text on the shelf, and takes room for another one. Errors: memory was refused.
    fn put<R: Wait>(&mut self, rt: &R, text: Text<T>) -> Result<(), AllocError> {
        let mut shelf = self.shelf.lock(rt);
        self.room = shelf.put(text)?;
        self.is_ahead = shelf.is_full();
        Ok(())
    }

    // Whether there are still texts enough, where there were.
    fn stays_ahead(&mut self) -> bool {
        if self.is_ahead {
            if let Some(shelf) = self.shelf.try_lock() {
                self.is_ahead = shelf.is_full();
            }
        }
        self.is_ahead
    }

    // The next window, if it has come, more text is wanted and nobody else is at the desk. Errors: the desk is closed.
    fn take_job(&mut self) -> Result<Option<Job<T>>, AllocError> {
        let is_ahead = self.stays_ahead();
        match self.desk.try_lock() {
            Some(mut desk) => desk.take(&mut self.spent, is_ahead),
            None => Ok(None),
        }
    }

    // The text that it is at. Errors: memory was refused before, or the desk was closed.
    fn take_draft(&mut self) -> Result<Draft<'a, T>, AllocError> {
        match self.draft.take() {
            Some(draft) => Ok(draft),
            None => Err(AllocError),
        }
    }

    // Takes the next window, if it has come. Says whether it did so. Errors: the desk is closed.
    fn begin(&mut self) -> Result<bool, AllocError> {
        let Some(job) = self.take_job()? else {
            return Ok(false);
        };
        let draft = self.take_draft()?;
        self.draft = Some(draft.begin(job, &mut self.spent)?);
        Ok(true)
    }

    // Goes on by a piece with the text that it is at. Errors: memory was refused.
    fn write<R: Wait>(&mut self, rt: &R) -> Result<(), AllocError> {
        let draft = self.take_draft()?;
        let (draft, text) = draft.go_on(self.alloc, &mut self.spent, &mut self.room)?;
        self.draft = Some(draft);
        if let Some(text) = text {
            self.put(rt, text)?;
        }
        Ok(())
    }

    // Goes on by a piece. Says whether there was one. Errors: the desk is closed, or memory was refused.
    fn step<R: Wait>(&mut self, rt: &R) -> Result<bool, AllocError> {
        if self.is_busy() {
            self.write(rt).and(Ok(true))
        } else {
            self.begin()
        }
    }

    /// Goes on by a piece with the text that it is at, if any: those behind it wait for it, even if its thread never
    /// has to wait.
    pub(crate) fn keep_up<R: Wait>(&mut self, rt: &R) {
        if self.is_busy() {
            self.go_on(rt);
        }
    }

    /// Goes on by a piece, if there is one. Says whether there was. Where it can't go on the desk is closed, so that
    /// all threads end: a text would be missing.
    pub(crate) fn go_on<R: Wait>(&mut self, rt: &R) -> bool {
        if self.passes() {
            return false;
        }
        match self.step(rt) {
            Ok(has_worked) => has_worked,
            Err(_) => {
                self.draft = None;
                self.desk.lock(rt).close();
                false
            }
        }
    }
}
