//! The longest paths.

use crate::checks::same;
use cmb_count::{Between, ClockPaths, Longest, longest_path, paths_by_clock, paths_of};
use cmb_design_model::{Clock, Design};
use std::alloc::Global;
use std::process::Abort;
use std::test::Fail;
use worked_designs::{Inputs, bare, of_design, or_fail, sampled};

fn longest(alloc: Global, inputs: Inputs<'_>, between: Between) -> Result<Longest, Fail> {
    of_design(
        alloc,
        inputs,
        sampled(100),
        |design| or_fail(longest_path(alloc, design, between)),
    )
}

fn path(net: usize, ticks: u64) -> Longest {
    Longest::Path { net, ticks }
}

// From a to m it takes 1 + 3 + 3 ticks. The flip-flop shows a sample after 2, so from there it takes 2 + 7 + 3 + 3.
#[test]
fn delays_of_pins_and_flip_flops(rt: HostRuntime) -> Result<(), Fail> {
    let inputs = Inputs {
        delays: b"by,name,delay\nkind,NOT,3\npin,y:2,7\nnet,q,2\n",
        ..bare(b"INPUT(a)\nOUTPUT(y)\ny = NAND(a, q)\nn = NOT(y)\nm = NOT(n)\nq = DFF(m)\n")
    };
    let found = longest(rt.alloc(), inputs, Between::All)?;
    same(&rt, found, path(3, 15));
    Ok(())
}

// The flip-flop q has the common clock, p one of its own. Each has a path of 2 ticks back to itself. The one from q to
// p takes 3, and is between clocks.
fn two_clocks() -> Inputs<'static> {
    Inputs {
        clocks: b"net,first,period\np,1,3\n",
        ..bare(b"INPUT(a)\nq = DFF(n)\nn = NOT(q)\np = DFF(k)\nk = AND(n, p)\n")
    }
}

#[test]
fn paths_of_a_clock(rt: HostRuntime) -> Result<(), Fail> {
    for (first, period, wanted) in [
        (2, 4, path(2, 2)),
        (1, 3, path(4, 2)),
        (1, 4, Longest::NoPath),
    ] {
        let between = Between::Clocked(Clock { first, period });
        same(&rt, longest(rt.alloc(), two_clocks(), between)?, wanted);
    }
    let all = longest(rt.alloc(), two_clocks(), Between::All)?;
    same(&rt, all, path(4, 3));
    Ok(())
}

// As above, and k reads the input a too: that takes 1 tick.
fn with_input() -> Inputs<'static> {
    Inputs {
        clocks: b"net,first,period\np,1,3\n",
        ..bare(b"INPUT(a)\nq = DFF(n)\nn = NOT(q)\np = DFF(k)\nk = AND(n, p, a)\n")
    }
}

// Their clocks are that of q and then that of p.
fn wanted_paths() -> [ClockPaths; 2] {
    [
        ClockPaths {
            clock: Clock {
                first: 2,
                period: 4,
            },
            own: path(2, 2),
            inputs: Longest::NoPath,
            others: Longest::NoPath,
        },
        ClockPaths {
            clock: Clock {
                first: 1,
                period: 3,
            },
            own: path(4, 2),
            inputs: path(4, 1),
            others: path(4, 3),
        },
    ]
}

fn has_wanted_paths(rt: &impl Abort, alloc: Global, design: &Design) -> Result<(), Fail> {
    let all = or_fail(paths_by_clock(alloc, design, 20))?;
    same(rt, all.as_slice(), wanted_paths().as_slice());
    let first = or_fail(paths_by_clock(alloc, design, 1))?;
    same(rt, first.as_slice(), &wanted_paths()[..1]);
    let clock = Clock {
        first: 1,
        period: 3,
    };
    let one = or_fail(paths_of(alloc, design, clock))?;
    same(rt, one, wanted_paths()[1]);
    Ok(())
}

#[test]
fn paths_from_inputs_and_other_clocks(rt: HostRuntime) -> Result<(), Fail> {
    let alloc = rt.alloc();
    of_design(
        alloc,
        with_input(),
        sampled(100),
        |design| has_wanted_paths(&rt, alloc, design),
    )
}

// A loop counts where a path leads to it and on to an output. The loop of y and w is reached by no input; z reads both.
#[test]
fn loops_of_gates(rt: HostRuntime) -> Result<(), Fail> {
    for (netlist, wanted) in [
        (b"INPUT(a)\ny = NOT(a)\n".as_slice(), Longest::NoPath),
        (b"INPUT(a)\nOUTPUT(a)\n".as_slice(), path(0, 0)),
        (
            b"INPUT(a)\nOUTPUT(z)\ny = NAND(a, z)\nz = BUFF(y)\n".as_slice(),
            Longest::Unbounded,
        ),
        (
            b"INPUT(a)\nOUTPUT(v)\ny = NAND(a, z)\nz = BUFF(y)\nv = NOT(a)\n".as_slice(),
            path(3, 1),
        ),
        (
            b"INPUT(a)\nOUTPUT(z)\ny = NOT(w)\nw = NOT(y)\nv = NOT(a)\nz = AND(y, v)\n".as_slice(),
            path(4, 2),
        ),
    ] {
        same(
            &rt,
            longest(rt.alloc(), bare(netlist), Between::All)?,
            wanted,
        );
    }
    Ok(())
}
