//! What looks like a slip in a design that was simulated.

ghost use Rattle.std.specs.Prelude.{◌≡◌, IfOk, IfSome};
ghost use Rattle.cmb_count.specs.DriverKinds.{silent_count};
ghost use Rattle.cmb_report.specs.Slips.{IsFirstSilent, IsLate};

use cmb_count::{Between, Longest, count_silent, is_silent_input, longest_path};
use cmb_design_model::{Clock, Design};
use std::alloc::{AllocError, Global};

/// Inputs that are x at each tick below the horizon.
#[derive(Clone, Copy, Debug, PartialEq, Eq)]
pub struct Silent {
    pub count: usize,
    /// The first of them, where there is one.
    pub first: Option<usize>,
}

/// A path between the flip-flops of a clock that takes longer than its period.
#[derive(Clone, Copy, Debug, PartialEq, Eq)]
pub struct Late {
    /// The data at which it ends.
    pub net: usize,
    pub ticks: u64,
}

fn first_silent(design: &Design) -> Option<usize>
    ensures { IsFirstSilent design.now result }
{
    for net in 0..design.netlist().len() {
        if is_silent_input(design, net) {
            return Some(net);
        }
    }
    None
}

/// The inputs that are x at each tick below the horizon.
pub fn silent_inputs(design: &Design) -> Silent
    ensures count { result.count ≡ silent_count design.now }
    ensures first { IsFirstSilent design.now result.first }
{
    Silent {
        count: count_silent(design),
        first: first_silent(design),
    }
}

/// The longest path between the flip-flops of a clock, where that takes longer than the clock's period.
pub fn late_path(alloc: Global, design: &Design, clock: Clock) -> Result<Option<Late>, AllocError>
    ensures { IfOk result (λ late. IfSome late (λ path. IsLate design.now clock path.net path.ticks)) }
{
    match longest_path(alloc, design, Between::Clocked(clock))? {
        Longest::Path { net, ticks } if u64::from(clock.period) < ticks => {
            Ok(Some(Late { net, ticks }))
        }
        _ => Ok(None),
    }
}
