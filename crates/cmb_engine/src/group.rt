//! Groups of flip-flops.

ghost use Rattle.std.specs.Prelude.{◌≡◌, ◌++◌, ◌∷◌, [], OnOk};

use crate::cell::Pin;
use cmb_design_model::Clock;
use std::alloc::{AllocError, Global};

/// A flip-flop: its clock, the pin of its data, and its slot.
#[derive(Clone, Copy)]
pub(crate) struct Member {
    pub clock: Clock,
    pub pin: Pin,
    pub slot: u32,
}

/// Flip-flops whose samples arrive at the same ticks: their clock, how many ticks after they were taken samples arrive,
/// their slots, and side by side with these the nets of their data.
#[derive(Drop)]
pub(crate) struct Group {
    pub clock: Clock,
    pub delay: u32,
    pub flops: Vec<u32>,
    pub sources: Vec<u32>,
}

impl Group {
    /// A group without flip-flops.
    pub(crate) fn new(alloc: Global, clock: Clock, delay: u32) -> Group
        ensures clock { result.clock ≡ clock }
        ensures delay { result.delay ≡ delay }
        ensures flops { result.flops.items ≡ [] }
        ensures sources { result.sources.items ≡ [] }
    {
        Group {
            clock,
            delay,
            flops: Vec::new(alloc),
            sources: Vec::new(alloc),
        }
    }

    /// Adds a flip-flop, with the net of its data.
    pub(crate) fn push(&mut self, slot: u32, net: u32) -> Result<(), AllocError>
        ensures clock { self.new.clock ≡ self.old.clock }
        ensures delay { self.new.delay ≡ self.old.delay }
        ensures flops { OnOk result (self.new.flops.items ≡ self.old.flops.items ++ slot ∷ []) }
        ensures sources { OnOk result (self.new.sources.items ≡ self.old.sources.items ++ net ∷ []) }
    {
        self.flops.push(slot)?;
        self.sources.push(net)?;
        Ok(())
    }
}
