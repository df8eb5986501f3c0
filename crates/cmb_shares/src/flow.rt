//! The calling thread's part of a run: it is at work as the others are, and puts the windows' texts in order.

ghost use Rattle.std.specs.Prelude.{◌≡◌, IfOk, IfSome};
ghost use Rattle.cmb_shares.specs.Inner.Runs.{subject_in};

use crate::executor::Executor;
use crate::share_run::ShareRun;
use crate::shelf::Shelf;
use crate::stages::Text;
use cmb_dump_stream::{TextBuffer, TextMaker};
use std::alloc::AllocError;
use std::marker::Model;
use std::sync::{Mutex, Wait};

/// Takes the texts of windows in their order, and is at work until they have come.
#[derive(Drop)]
pub(crate) struct Flow<'a, 'd, T: ShareRun, R> {
    rt: &'d R,
    shelf: &'d Mutex<Shelf<T>>,
    executor: Executor<'a, 'd, T>,
    /// The tick up to which texts were taken.
    clock: u32,
}

impl<'a, 'd, T: ShareRun, R> Model for Flow<'a, 'd, T, R> {
    ghost use Rattle.cmb_dump_stream.specs.Parts.{Made};
    ghost use Rattle.cmb_shares.specs.Inner.Runs.{subject_in};

    ghost Value = { Made };

    ghost view = { λ f. record { subject = subject_in T.run; clock = f.clock } };
}

impl<'a, 'd, T: ShareRun, R: Wait> Flow<'a, 'd, T, R> {
    /// Goes on from tick 1.
    pub(crate) fn new(
        rt: &'d R,
        shelf: &'d Mutex<Shelf<T>>,
        executor: Executor<'a, 'd, T>,
    ) -> Flow<'a, 'd, T, R>
        ensures subject { result.subject ≡ subject_in T.run }
        ensures clock { result.clock ≡ 1 }
    {
        Flow {
            rt,
            shelf,
            executor,
            clock: 1,
        }
    }

    // Takes the text of the window that begins at a tick off the shelf, if it is there.
    fn take_text(&self, from: u32) -> Option<Text<T>>
        ensures { IfSome result (λ text. text.from ≡ from) }
    {
        match self.shelf.try_lock() {
            Some(mut shelf) => shelf.take(from),
            None => None,
        }
    }

    // Gives the room of a text back.
    fn give_back(&self, room: Vec<u8>) {
        match self.shelf.try_lock() {
            Some(mut shelf) => shelf.give_back(room),
            None => drop(room),
        }
    }

    // The text of the window that begins at a tick, once it has come. Errors: a share ended early, or memory was
    // refused.
    fn next_text(&mut self, from: u32) -> Result<Text<T>, AllocError>
        ensures text { IfOk result (λ text. text.from ≡ from) }
        ensures same { self.new ≡ self.old }
    {
        for _ in self.rt.forever() {
            if let Some(text) = self.take_text(from) {
                return Ok(text);
            }
            if !self.executor.go_on(self.rt) {
                return Err(AllocError);
            }
        }
        unreachable!()
    }
}

impl<'a, 'd, T: ShareRun, R: Wait> TextMaker for Flow<'a, 'd, T, R> {
    ghost made = { λ f. f };

    // Goes on by a window.
    fn step(mut self, kept: &mut TextBuffer<'_>) -> Result<Self, AllocError> {
        let Ok(text) = self.next_text(kept.clock()) else {
            drop(self);
            return Err(AllocError);
        };
        let Text { upto, mut text, .. } = text;
        self.clock = upto;
        let Ok(()) = kept.take_text(&mut text, upto) else {
            drop((self, text));
            return Err(AllocError);
        };
        self.give_back(text);
        Ok(self)
    }
}
