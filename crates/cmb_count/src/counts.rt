//! All counts of a design.

ghost use Rattle.std.specs.Prelude.{IfOk};
ghost use Rattle.cmb_count.specs.Counting.{AreCounts, AreGateCounts};

use crate::clocks::count_clocks;
use crate::drivers::{DriverKind, count_drivers, count_silent, count_still};
use crate::largest::largest_delay;
use crate::loops::count_loops;
use crate::paths::{Between, Longest, longest_path};
use crate::unused::count_unused;
use cmb_design_model::Design;
use cmb_graph::Steps;
use cmb_netlist::{Kind, Netlist};
use std::alloc::{AllocError, Global};

/// How many gates of each kind there are.
#[derive(Clone, Copy, Debug, PartialEq, Eq)]
pub struct GateCounts {
    pub and: usize,
    pub nand: usize,
    pub or: usize,
    pub nor: usize,
    pub xor: usize,
    pub xnor: usize,
    pub not: usize,
    pub buff: usize,
}

/// What a design is made of.
#[derive(Clone, Copy, Debug, PartialEq, Eq)]
pub struct Counts {
    pub nets: usize,
    pub inputs: usize,
    /// Inputs that are x at each tick below the horizon.
    pub silent: usize,
    pub gates: GateCounts,
    /// Flip-flops.
    pub flops: usize,
    /// Flip-flops with no sample tick below the horizon.
    pub still: usize,
    /// Nets in feedback loops, through gates and flip-flops.
    pub in_loops: usize,
    /// Nets in feedback loops through gates alone.
    pub in_gate_loops: usize,
    /// Nets that no pin reads and that are no outputs.
    pub unused: usize,
    /// The largest delay of a pin, in ticks; 0 where there are no pins.
    pub largest_delay: u32,
    /// The longest path from inputs and flip-flops through gates.
    pub longest: Longest,
    /// The different clocks of flip-flops.
    pub clocks: usize,
    /// The rows of the table of delays, without its header.
    pub delay_rows: usize,
    /// The rows of the table of stimuli, without its header.
    pub stimulus_rows: usize,
    /// The rows of the table of clocks, without its header.
    pub clock_rows: usize,
    /// The rows of the table of first levels, without its header.
    pub initial_rows: usize,
}

fn count_gates(netlist: &Netlist) -> GateCounts
    ensures { AreGateCounts netlist.now result }
{
    GateCounts {
        and: count_drivers(netlist, &DriverKind::Gates(Kind::And)),
        nand: count_drivers(netlist, &DriverKind::Gates(Kind::Nand)),
        or: count_drivers(netlist, &DriverKind::Gates(Kind::Or)),
        nor: count_drivers(netlist, &DriverKind::Gates(Kind::Nor)),
        xor: count_drivers(netlist, &DriverKind::Gates(Kind::Xor)),
        xnor: count_drivers(netlist, &DriverKind::Gates(Kind::Xnor)),
        not: count_drivers(netlist, &DriverKind::Gates(Kind::Not)),
        buff: count_drivers(netlist, &DriverKind::Gates(Kind::Buff)),
    }
}

/// Counts what a design is made of.
pub fn count_design(alloc: Global, design: &Design) -> Result<Counts, AllocError>
    ensures { IfOk result (AreCounts design.now) }
{
    let netlist = design.netlist();
    Ok(Counts {
        nets: netlist.len(),
        inputs: count_drivers(netlist, &DriverKind::Inputs),
        silent: count_silent(design),
        gates: count_gates(netlist),
        flops: count_drivers(netlist, &DriverKind::Flops),
        still: count_still(design),
        in_loops: count_loops(alloc, netlist, Steps::All)?,
        in_gate_loops: count_loops(alloc, netlist, Steps::Gates)?,
        unused: count_unused(alloc, netlist)?,
        largest_delay: largest_delay(design),
        longest: longest_path(alloc, design, Between::All)?,
        clocks: count_clocks(alloc, design)?,
        delay_rows: design.delay_rows(),
        stimulus_rows: design.stimulus_rows(),
        clock_rows: design.clock_rows(),
        initial_rows: design.initial_rows(),
    })
}
