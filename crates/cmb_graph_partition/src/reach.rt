//! Numbers that are found once each, as classes that are reached from some by steps to children.

use crate::lists::Lists;
use crate::seen_set::SeenSet;
use std::alloc::{AllocError, Global};

/// What a search among so many numbers takes.
#[derive(Drop)]
pub(crate) struct Search {
    // Has the numbers that were found in front, in this order.
    found: Vec<u32>,
    // How many were found.
    count: usize,
    seen: SeenSet,
}

// Adds those of a list behind so many that weren't seen in this round, and answers how many there are then. What is
// beyond the marks is passed over.
fn add_new(found: &mut [u32], count: usize, rounds: &mut [u32], round: u32, list: &[u32]) -> usize {
    let mut count = count;
    for number in list {
        // There is no more room where all have been found.
        let Some(place) = found.get_mut(count) else {
            return count;
        };
        if let Some(seen) = rounds.get_mut(*number as usize) {
            *place = *number;
            count = count.wrapping_add(usize::from(*seen != round));
            *seen = round;
        }
    }
    count
}

impl Search {
    /// Nothing has been found yet among so many numbers.
    pub(crate) fn new(alloc: Global, numbers: usize) -> Result<Search, AllocError> {
        Ok(Search {
            found: vec![in alloc; 0u32; numbers]?,
            count: 0,
            seen: SeenSet::new(alloc, numbers)?,
        })
    }

    /// Begins another search.
    pub(crate) fn clear(&mut self) {
        self.seen.clear();
        self.count = 0;
    }

    /// Finds the numbers of a list, but for those that have been found.
    pub(crate) fn add(&mut self, list: &[u32]) {
        self.count = add_new(
            &mut self.found,
            self.count,
            &mut self.seen.rounds,
            self.seen.round,
            list,
        );
    }

    /// Finds what is reached from some classes, each once.
    pub(crate) fn reach(&mut self, children: &Lists, starts: &[u32]) {
        self.clear();
        self.add(starts);
        for next in 0..self.found.len() {
            let Some(class) = self.found().get(next) else {
                return;
            };
            let class = *class as usize;
            self.add(children.of(class));
        }
    }

    /// What has been found.
    pub(crate) fn found(&self) -> &[u32] {
        match self.found.get(..self.count) {
            None => &[],
            Some(found) => found,
        }
    }
}
