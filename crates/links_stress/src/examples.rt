//! The worked examples of boards and links, over a flip-flop q (net 0) that samples its own inverse d (net 1) at ticks
//! 2, 6 and 10: q changes at 0, 3, 7 and 11.

ghost use Rattle.std.specs.Prelude.{◌≡◌, IfOk};

mod boards;
mod links;

use crate::circuit::Circuit;
use crate::exact::ExactCluster;
use crate::trouble::Trouble;
use boards::{board_threads, board_words, closed_board};
use cmb_core_cluster::Clustering;
use links::{capacities, closed_link, full_link, link_threads};
use std::alloc::Global;
use std::sync::Wait;
use std::thread::Threads;

// The flip-flop in cluster 0, its inverse in cluster 1, up to tick 12.
fn toggle(alloc: Global) -> Result<Circuit, Trouble> {
    Circuit::read(alloc, b"q = DFF(d)\nd = NOT(q)\n", &[0, 1], 12)
}

// Both nets in one cluster, so that each of its steps lets q go on.
fn source(alloc: Global, circuit: &Circuit) -> Result<ExactCluster, Trouble>
    ensures { IfOk result (λ cluster. cluster ≡ circuit.now.design) }
{
    let Ok(one) = Clustering::spread(alloc, 2, 1) else {
        return Err(Trouble::Memory);
    };
    if one.nets() != circuit.design.netlist().len() || one.clusters() != 1 {
        return Err(Trouble::Circuit);
    }
    Ok(ExactCluster::open(alloc, &circuit.design, &one, 0)?)
}

// The trouble, unless what is expected holds.
fn expect(holds: bool, trouble: Trouble) -> Result<(), Trouble> {
    if holds { Ok(()) } else { Err(trouble) }
}

// Prints how an example came out. True where it came out as worked out, and its line could be printed.
fn tell(rt: &impl Print, name: &str, outcome: Result<(), Trouble>) -> bool {
    match outcome {
        Ok(()) => println!(rt; "{name}: as worked out").is_ok(),
        Err(trouble) => {
            let _ = println!(rt; "{name}: {trouble}");
            false
        }
    }
}

// Prints a line for each example over the flip-flop, up to the first that goes wrong. True where none does.
fn run_over<R: Print + Threads + Wait + Sync>(rt: &R, alloc: Global, circuit: &Circuit) -> bool {
    tell(rt, "board_words", board_words(alloc, circuit))
        && tell(rt, "board_threads", board_threads(rt, alloc, circuit))
        && tell(rt, "closed_board", closed_board(alloc, circuit))
        && tell(rt, "full_link", full_link(rt, alloc, circuit))
        && tell(rt, "closed_link", closed_link(rt, alloc, circuit))
        && tell(rt, "capacities", capacities(alloc, circuit))
        && tell(rt, "link_threads", link_threads(rt, alloc, circuit))
}

/// Runs the examples and prints a line for each, up to the first that goes wrong. True where none does.
pub fn run_examples<R: Print + Threads + Wait + Sync>(rt: &R, alloc: Global) -> bool {
    match toggle(alloc) {
        Ok(circuit) => run_over(rt, alloc, &circuit),
        Err(trouble) => tell(rt, "examples", Err(trouble)),
    }
}
