//! The nets behind some counts.

use crate::checks::same;
use cmb_count::{Finding, Findings, count_design, counts_text, findings_of, found_nets};
use cmb_design_model::Design;
use std::alloc::{AllocError, Global};
use std::process::Abort;
use std::test::Fail;
use worked_designs::{Inputs, bare, of_design, or_fail, sampled};

// The nets are a, b, c, y, z, s and t. y and z are a loop, b has a level, and t samples at tick 100 first.
fn of_odd_nets<T: Drop, F: FnOnce(&Design) -> Result<T, Fail> + Drop>(
    alloc: Global,
    find: F,
) -> Result<T, Fail>
    requires { F.IsAlwaysCallable find }
{
    let inputs = Inputs {
        stimuli: b"tick,net,value\n0,b,1\n",
        clocks: b"net,first,period\nt,100,5\n",
        ..bare(
            b"INPUT(a)\nINPUT(b)\nINPUT(c)\nOUTPUT(y)\ny = NAND(a, z)\nz = BUFF(y)\ns = DFF(y)\nt = DFF(s)\n",
        )
    };
    of_design(alloc, inputs, sampled(100), find)
}

// The nets that each finding names, the first so many of them.
fn all_named(rt: &impl Abort, alloc: Global, design: &Design) -> Result<(), Fail> {
    for (finding, most, wanted) in [
        (Finding::Silent, 20, [0, 2].as_slice()),
        (Finding::Silent, 1, [0].as_slice()),
        (Finding::Still, 20, [6].as_slice()),
        (Finding::InGateLoops, 2, [3, 4].as_slice()),
        (Finding::Unused, 2, [1, 2].as_slice()),
        (Finding::Unused, 3, [1, 2, 6].as_slice()),
        (Finding::Unused, 0, [].as_slice()),
    ] {
        is_named(rt, alloc, design, finding, most, wanted)?;
    }
    Ok(())
}

fn is_named(
    rt: &impl Abort,
    alloc: Global,
    design: &Design,
    finding: Finding,
    most: usize,
    wanted: &[u32],
) -> Result<(), Fail> {
    let nets = or_fail(found_nets(alloc, design, finding, most))?;
    same(rt, (finding, nets.as_slice()), (finding, wanted));
    Ok(())
}

#[test]
fn found(rt: HostRuntime) -> Result<(), Fail> {
    let alloc = rt.alloc();
    of_odd_nets(alloc, |design| all_named(&rt, alloc, design))
}

// All findings of the nets, the first two of each.
fn two_of_each(alloc: Global) -> Result<Findings, Fail> {
    of_odd_nets(alloc, |design| or_fail(findings_of(alloc, design, 2)))
}

fn are_two_of_each(rt: &impl Abort, found: &Findings) {
    same(rt, found.silent.as_slice(), [0, 2].as_slice());
    same(rt, found.still.as_slice(), [6].as_slice());
    same(rt, found.in_gate_loops.as_slice(), [3, 4].as_slice());
    same(rt, found.unused.as_slice(), [1, 2].as_slice());
    same(rt, found.clocks.len(), 2);
}

#[test]
fn all_found(rt: HostRuntime) -> Result<(), Fail> {
    let found = two_of_each(rt.alloc())?;
    are_two_of_each(&rt, &found);
    Ok(())
}

// The text that tells the counts, with the first net of each.
fn told(alloc: Global, design: &Design) -> Result<Vec<u8>, AllocError> {
    let counts = count_design(alloc, design)?;
    counts_text(alloc, design, &counts, 1)
}

fn told_of_odd_nets(alloc: Global) -> Result<Vec<u8>, Fail> {
    of_odd_nets(alloc, |design| or_fail(told(alloc, design)))
}

#[test]
fn found_in_the_text(rt: HostRuntime) -> Result<(), Fail> {
    let text = told_of_odd_nets(rt.alloc())?;
    let begun =
        b"       7  nets\n       3  inputs\n       2  inputs that are x at all ticks\n       -  a\n";
    same(
        &rt,
        text.as_slice().get(..begun.len()),
        Some(begun.as_slice()),
    );
    Ok(())
}
