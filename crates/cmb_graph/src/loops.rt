//! Which nets are in loops, and the strongly connected components.

ghost use Rattle.std.specs.Prelude.{IfOk};
ghost use Rattle.cmb_graph.specs.Loops.{AreLoops, AreStrongComponents};
ghost use Rattle.cmb_graph.specs.Inner.Search.{IsBegun};

use crate::path::search_all;
use crate::search::{Search, Seen};
use crate::steps::Steps;
use cmb_netlist::Netlist;
use std::alloc::{AllocError, Global};

/// A search of so many nets, of which none was found.
fn begin(alloc: Global, count: usize) -> Result<Search, AllocError>
    ensures { IfOk result (IsBegun count) }
{
    Ok(Search {
        seen: vec![in alloc; Seen::New; count]?,
        marks: vec![in alloc; false; count]?,
        numbers: vec![in alloc; 0usize; count]?,
        done: 0,
        path: Vec::new(alloc),
        starts: Vec::new(alloc),
        frames: Vec::new(alloc),
    })
}

/// A search that found each net.
fn searched(alloc: Global, netlist: &Netlist, steps: Steps) -> Result<Search, AllocError>
    ensures loops { IfOk result (λ search. AreLoops netlist.now steps search.marks.items) }
    ensures parts { IfOk result (λ search. AreStrongComponents netlist.now steps search.numbers.items) }
{
    let mut search = begin(alloc, netlist.len())?;
    search_all(&mut search, netlist, steps)?;
    Ok(search)
}

/// For each net whether it is in a feedback loop: whether steps lead from it back to it. A flip-flop's data is read by
/// a step too, so a ring through a flip-flop is a loop; `Steps::Gates` leaves these steps out, and finds the loops of
/// gates alone, which are called combinational. A net that a loop only reads, or that only reads a loop, isn't in it.
///
/// The nets are parted into their strongly connected components by one search along a path (H. N. Gabow, *Path-based
/// depth-first search for strong and biconnected components*, Information Processing Letters 74, 2000), without
/// recursion. Work and room are linear in the nets and pins.
pub fn nets_in_loops(
    alloc: Global,
    netlist: &Netlist,
    steps: Steps,
) -> Result<Vec<bool>, AllocError>
    ensures { IfOk result (λ marks. AreLoops netlist.now steps marks.items) }
{
    Ok(searched(alloc, netlist, steps)?.marks)
}

/// The strongly connected components of a netlist: for each net a number, the same for two nets just where steps lead
/// from each to the other. Steps lead to numbers that are as low or lower, so whoever goes by rising numbers finds what
/// a component reads before it. A number is how many nets come before its component.
///
/// The search is that of `nets_in_loops`. Work and room are linear in the nets and pins.
pub fn strong_components(
    alloc: Global,
    netlist: &Netlist,
    steps: Steps,
) -> Result<Vec<usize>, AllocError>
    ensures { IfOk result (λ numbers. AreStrongComponents netlist.now steps numbers.items) }
{
    Ok(searched(alloc, netlist, steps)?.numbers)
}
