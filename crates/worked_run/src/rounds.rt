//! Runs in rounds: the texts don't change with clusters and workers. They were made by another simulator.

use crate::checks::{holds, same};
use cmb_design_model::Design;
use cmb_links::Workers;
use cmb_run_exact::RunFault;
use cmb_run_rounds::run_rounds;
use cmb_run_text::vcd_text;
use std::alloc::Global;
use std::process::Abort;
use std::sync::Wait;
use std::test::Fail;
use std::thread::Threads;
use worked_designs::{Inputs, bare, of_design, or_fail, sampled, spread, stimulated, text_of};

// The text of a run in which the nets are spread over so many clusters.
fn run_text<R: Threads + Wait + Sync>(
    rt: &R,
    alloc: Global,
    design: &Design,
    clusters: u32,
    workers: u32,
) -> Result<Vec<u8>, Fail> {
    let workers = Workers::new(workers)?;
    let clustering = spread(alloc, design, clusters)?;
    let run = run_rounds(rt, alloc, design, &clustering, workers)?;
    or_fail(vcd_text(alloc, design, &run.collector))
}

// The text is the same by any workers, also where some have no cluster and some clusters no net.
fn all_alike<R: Abort + Threads + Wait + Sync>(
    rt: &R,
    alloc: Global,
    design: &Design,
    text: &[u8],
) -> Result<(), Fail> {
    for clusters in [1u32, 2, 64] {
        for workers in [1u32, 2, 3, 64] {
            holds(
                rt,
                run_text(rt, alloc, design, clusters, workers)?.as_slice() == text,
            );
        }
    }
    Ok(())
}

// The text of these inputs up to a horizon is that of these references and this body.
fn writes<R: AllocGlobal + Abort + Threads + Wait + Sync>(
    rt: &R,
    inputs: Inputs<'_>,
    horizon: u32,
    references: &str,
    body: &str,
) -> Result<(), Fail> {
    let text = text_of(rt.alloc(), references, body)?;
    of_design(
        rt.alloc(),
        inputs,
        sampled(horizon),
        |design| all_alike(rt, rt.alloc(), design, text.as_bytes()),
    )
}

#[test]
fn inverter(rt: HostRuntime) -> Result<(), Fail> {
    let inputs = stimulated(
        b"INPUT(a) OUTPUT(y) y = NOT(a)",
        b"tick,net,value\n0,a,0\n5,a,1\n",
    );
    writes(&rt, inputs, 10, "a y", "#0 0! x\" #1 1\" #5 1! #6 0\" #10")
}

/// A flip-flop and an inverter in a ring. It is known after twelve ticks.
pub const TOGGLE: &[u8] = b"q = DFF(d) d = NOT(q)";

/// The text of the toggle: its references, and the lines behind the header.
pub const TOGGLE_TEXT: (&str, &str) = (
    "q d",
    "#0 0! x\" #1 1\" #3 1! #4 0\" #7 0! #8 1\" #11 1! #12",
);

#[test]
fn toggle(rt: HostRuntime) -> Result<(), Fail> {
    writes(&rt, bare(TOGGLE), 12, TOGGLE_TEXT.0, TOGGLE_TEXT.1)
}

// How many rounds a design takes by so many workers, where the nets are spread over as many clusters.
fn rounds_by<R: Threads + Wait + Sync>(
    rt: &R,
    alloc: Global,
    design: &Design,
    workers: u32,
) -> Result<u32, Fail> {
    let count = Workers::new(workers)?;
    let clustering = spread(alloc, design, workers)?;
    let run = run_rounds(rt, alloc, design, &clustering, count)?;
    Ok(run.rounds)
}

// How many rounds the toggle takes by so many workers, of whom the first has `q` and the last has `d`.
fn rounds_of_toggle<R: Threads + Wait + Sync>(
    rt: &R,
    alloc: Global,
    workers: u32,
) -> Result<u32, Fail> {
    of_design(
        alloc,
        bare(TOGGLE),
        sampled(12),
        |design| rounds_by(rt, alloc, design, workers),
    )
}

// The clocks of `q` and `d` after each round, by hand: 3 and 4, 7 and 8, 11 and 12, then both at the end.
#[test]
fn rounds_of_one_worker(rt: HostRuntime) -> Result<(), Fail> {
    same(&rt, rounds_of_toggle(&rt, rt.alloc(), 1)?, 4);
    Ok(())
}

// Each sees of the other what it knew a round ago: 3 and 1, 3 and 4, 7 and 4, 7 and 8, 11 and 8, 11 and 12, then both
// at the end.
#[test]
fn rounds_of_two_workers(rt: HostRuntime) -> Result<(), Fail> {
    same(&rt, rounds_of_toggle(&rt, rt.alloc(), 2)?, 7);
    Ok(())
}

#[test]
fn latch(rt: HostRuntime) -> Result<(), Fail> {
    let inputs = stimulated(
        b"INPUT(r) INPUT(s) nq = NOR(s, q) q = NOR(r, nq)",
        b"tick,net,value\n0,r,1\n0,s,0\n5,r,0\n8,s,1\n",
    );
    let body = "#0 1! 0\" x# x$ #1 0$ #2 1# #5 0! #8 1\" #9 0# #10 1$ #12";
    writes(&rt, inputs, 12, "r s nq q", body)
}

// The text of no nets up to tick 1.
fn text_of_none<R: Threads + Wait + Sync>(rt: &R, alloc: Global) -> Result<Vec<u8>, Fail> {
    of_design(
        alloc,
        bare(b""),
        sampled(1),
        |design| run_text(rt, alloc, design, 2, 2),
    )
}

#[test]
fn no_nets(rt: HostRuntime) -> Result<(), Fail> {
    let text = text_of_none(&rt, rt.alloc())?;
    same(&rt, text.len(), 123);
    Ok(())
}

#[test]
fn run_faults(rt: HostRuntime) {
    same(&rt, RunFault::Write { written: 0 }.number(), 62);
    same(&rt, RunFault::Memory.number(), 70);
}
