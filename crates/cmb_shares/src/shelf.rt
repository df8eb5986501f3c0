//! The texts of windows that were made, until the calling thread takes them.

ghost use Rattle.std.specs.Prelude.{◌≡◌, IfSome};

use crate::share_run::ShareRun;
use crate::stages::Text;
use std::alloc::{AllocError, Global};

// Where so many texts lie there nobody begins more: who takes them is slow. An estimate.
const MOST: usize = 32;

/// The texts of windows, in any order, and room of texts that were taken.
#[derive(Drop)]
pub struct Shelf<T: ShareRun> {
    alloc: Global,
    texts: Vec<Text<T>>,
    rooms: Vec<Vec<u8>>,
}

impl<T: ShareRun> Shelf<T> {
    /// Nothing yet.
    pub(crate) fn new(alloc: Global) -> Shelf<T> {
        Shelf {
            alloc,
            texts: Vec::new(alloc),
            rooms: Vec::new(alloc),
        }
    }

    /// Whether there are so many texts that no more are to be begun. The one that is taken next is among them or was
    /// begun, since windows are begun in their order.
    pub(crate) fn is_full(&self) -> bool {
        self.texts.len() >= MOST
    }

    /// Puts a text there, and gives room for another one. Errors: memory was refused.
    pub(crate) fn put(&mut self, text: Text<T>) -> Result<Vec<u8>, AllocError> {
        self.texts.push(text)?;
        match self.rooms.pop() {
            Some(room) => Ok(room),
            None => Ok(Vec::new(self.alloc)),
        }
    }

    /// Takes out a text that begins at a tick, if there is one.
    pub(crate) fn take(&mut self, from: u32) -> Option<Text<T>>
        ensures { IfSome result (λ text. text.from ≡ from) }
    {
        for place in 0..self.texts.len() {
            if self.texts[place].from == from {
                return Some(self.texts.swap_remove(place));
            }
        }
        None
    }

    /// Gives the room of a text back.
    pub(crate) fn give_back(&mut self, room: Vec<u8>) {
        // Where memory is refused it is given up.
        drop(self.rooms.push(room));
    }
}
