//! Sinks, numbered in the order of their nets.

use crate::lists::{begin, set};
use std::alloc::{AllocError, Global};

/// The sinks of classes.
#[derive(Drop)]
pub(crate) struct Sinks {
    /// For each class the number of its sink; of one that has none a number that no sink has.
    pub of_classes: Vec<u32>,
    /// For each sink its class.
    pub classes: Vec<u32>,
    /// All sinks, in the order of their classes.
    pub in_order: Vec<u32>,
}

// Marks sinks by a 1, and answers how many there are.
fn mark(marks: &mut [u32], sinks: &[u32]) -> usize {
    let mut count = 0_usize;
    for sink in sinks {
        if let Some(mark) = marks.get_mut(*sink as usize) {
            *mark = 1;
            count = count.saturating_add(1);
        }
    }
    count
}

impl Sinks {
    // Notes the sink of a class.
    fn note(&mut self, class: u32, sink: u32) -> Result<(), AllocError> {
        set(&mut self.of_classes, class, sink);
        set(&mut self.classes, sink, class);
        self.in_order.push(sink)?;
        Ok(())
    }

    // Notes the sinks of classes, which are nets, by the numbers of nets.
    fn note_all(&mut self, numbers: &[u32], sinks: &[u32]) -> Result<(), AllocError> {
        let mut class = 0_u32;
        for sink in sinks {
            if let Some(number) = numbers.get(*sink as usize) {
                self.note(class, *number)?;
            }
            class = class.wrapping_add(1);
        }
        Ok(())
    }
}

// No sinks of so many classes, with room for so many.
fn none(alloc: Global, classes: usize, count: usize) -> Result<Sinks, AllocError> {
    Ok(Sinks {
        of_classes: vec![in alloc; u32::MAX; classes]?,
        classes: vec![in alloc; 0u32; count]?,
        in_order: Vec::with_capacity(alloc, count)?,
    })
}

/// The sinks of classes, which are nets, numbered. What stands for no sink is the number of no net.
pub(crate) fn numbered(alloc: Global, sinks: &[u32], nets: usize) -> Result<Sinks, AllocError> {
    let mut numbers = vec![in alloc; 0u32; nets]?;
    let count = mark(&mut numbers, sinks);
    begin(&mut numbers);
    let mut found = none(alloc, sinks.len(), count)?;
    found.note_all(&numbers, sinks).and(Ok(found))
}
