//! Nets in feedback loops.

ghost use Rattle.std.specs.Prelude.{IfOk};
ghost use Rattle.cmb_count.specs.Loops.{IsLoopCount};

use cmb_graph::{Steps, nets_in_loops};
use cmb_netlist::Netlist;
use std::alloc::{AllocError, Global};

/// How many nets are in feedback loops: through gates and flip-flops, or through gates alone.
pub fn count_loops(alloc: Global, netlist: &Netlist, steps: Steps) -> Result<usize, AllocError>
    ensures { IfOk result (IsLoopCount netlist.now steps) }
{
    let marks = nets_in_loops(alloc, netlist, steps)?;
    Ok(marks.iter().filter(|mark| **mark).count())
}
