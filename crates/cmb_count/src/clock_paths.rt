//! The longest paths to data of the flip-flops of each clock.

ghost use Rattle.std.specs.Prelude.{◌≡◌, ℕ, ◌+◌, ◌<◌, length, IfOk, OnOk};
ghost use Rattle.cmb_count.specs.Clocks.{is_first_clocked};
ghost use Rattle.cmb_count.specs.Findings.{AreClockPaths, ArePaths, first_nets};
ghost use Rattle.cmb_count.specs.Inner.ClockSets.{AreClocksBelow};

use crate::drivers::{DriverKind, has_kind};
use crate::findings::push_first;
use crate::paths::{Between, Longest, longest_path};
use cmb_design_model::{Clock, Design};
use std::alloc::{AllocError, Global};
use std::collections::BTreeSet;

/// The longest paths to data of the flip-flops of a clock.
#[derive(Clone, Copy, Debug, PartialEq, Eq)]
pub struct ClockPaths {
    pub clock: Clock,
    /// From its own flip-flops.
    pub own: Longest,
    /// From inputs.
    pub inputs: Longest,
    /// From the flip-flops of other clocks.
    pub others: Longest,
}

/// The longest paths to data of the flip-flops of a clock.
pub fn paths_of(alloc: Global, design: &Design, clock: Clock) -> Result<ClockPaths, AllocError>
    ensures clock { IfOk result (λ paths. paths.clock ≡ clock) }
    ensures paths { IfOk result (ArePaths design.now) }
{
    Ok(ClockPaths {
        clock,
        own: longest_path(alloc, design, Between::Clocked(clock))?,
        inputs: longest_path(alloc, design, Between::InputsTo(clock))?,
        others: longest_path(alloc, design, Between::OthersTo(clock))?,
    })
}

// Adds a net's clock, and says whether the net is the first flip-flop that has it.
fn note_flop(
    clocks: &mut BTreeSet<(u32, u32)>,
    design: &Design,
    net: usize,
) -> Result<bool, AllocError>
    requires net { net < length design.now.netlist.names }
    requires before { AreClocksBelow design.now net clocks.old }
    ensures first { IfOk result (λ first. first ≡ is_first_clocked design.now net) }
    ensures before { OnOk result (AreClocksBelow design.now (net + 1) clocks.new) }
{
    if !has_kind(&DriverKind::Flops, design.netlist().driver(net)) {
        return Ok(false);
    }
    let clock = design.clock(net);
    let new = clocks.insert((clock.first, clock.period))?;
    Ok(new)
}

// The first flip-flops of the first so many clocks.
fn first_flops(alloc: Global, design: &Design, most: usize) -> Result<Vec<u32>, AllocError>
    ensures { IfOk result (λ nets. nets.items
        ≡ first_nets most (is_first_clocked design.now) (length design.now.netlist.names)) }
{
    let mut clocks = BTreeSet::new(alloc);
    let mut nets = Vec::new(alloc);
    for net in 0..design.netlist().len() {
        let first = note_flop(&mut clocks, design, net)?;
        push_first(&mut nets, most, net, first)?;
    }
    Ok(nets)
}

/// The first so many clocks, in the order of their first flip-flops, with their longest paths.
pub fn paths_by_clock(
    alloc: Global,
    design: &Design,
    most: usize,
) -> Result<Vec<ClockPaths>, AllocError>
    ensures { IfOk result (λ paths. AreClockPaths design.now most paths.items) }
{
    let flops = first_flops(alloc, design, most)?;
    let mut all = Vec::with_capacity(alloc, flops.len())?;
    for net in flops.as_slice() {
        all.push(paths_of(alloc, design, design.clock(*net as usize))?)?;
    }
    Ok(all)
}
