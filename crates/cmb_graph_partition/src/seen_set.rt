//! Marks that are taken off all at once.

use std::alloc::{AllocError, Global};

/// For each of some numbers whether it was seen in this round.
#[derive(Drop)]
pub(crate) struct SeenSet {
    /// For each number the last round in which it was seen.
    pub rounds: Vec<u32>,
    pub round: u32,
}

impl SeenSet {
    /// None of so many numbers was seen.
    pub(crate) fn new(alloc: Global, count: usize) -> Result<SeenSet, AllocError> {
        Ok(SeenSet {
            rounds: vec![in alloc; 0u32; count]?,
            round: 1,
        })
    }

    /// Begins another round.
    pub(crate) fn clear(&mut self) {
        self.round = self.round.wrapping_add(1);
    }

    /// Whether a number is seen for the first time in this round.
    pub(crate) fn is_new(&mut self, number: u32) -> bool {
        match self.rounds.get_mut(number as usize) {
            None => false,
            Some(last) => {
                let is_new = *last != self.round;
                *last = self.round;
                is_new
            }
        }
    }
}
