//! A design of two parts that have nothing in common, and one of them alone.

ghost use Rattle.std.specs.Prelude.{◌≡◌};
ghost use Rattle.cmb_design_model.specs.Exact.{nets_of};

use crate::checks::holds;
use cmb_cone::{closure, restrict};
use cmb_design_model::{Design, Settings};
use cmb_netlist::{Driver, Kind, Netlist};
use cmb_wave::Level;
use std::alloc::Global;
use std::process::Abort;
use std::test::Fail;
use worked_designs::{Inputs, has_gate, has_input, has_name, of_design};

/// What is found out about the design. Its nets are `a`, `b`, `y`, `z` and `q`, by their numbers. `y` is made of `a`,
/// `z` of `b` with a delay of two ticks, and `q` samples `z` at ticks 3 and 7.
pub fn of_two_parts<T: Drop, F: FnOnce(&Design) -> Result<T, Fail> + Drop>(
    alloc: Global,
    find: F,
) -> Result<T, Fail>
    requires { F.IsAlwaysCallable find }
{
    let inputs = Inputs {
        netlist: b"INPUT(a)\nINPUT(b)\nOUTPUT(y)\nOUTPUT(z)\ny = NOT(a)\nz = NOT(b)\nq = DFF(z)\n",
        delays: b"by,name,delay\nnet,z,2\n",
        stimuli: b"tick,net,value\n0,a,1\n0,b,0\n4,b,1\n",
        clocks: b"",
        initial: b"",
    };
    let settings = Settings {
        horizon: 8,
        clock: Some((3, 4)),
        init: Level::X,
    };
    of_design(alloc, inputs, settings, find)
}

/// Ends the test unless a design has as many nets and ticks.
pub fn are_two_parts(rt: &impl Abort, design: &Design)
    ensures nets { nets_of design.now ≡ 5 }
    ensures horizon { design.now.horizon ≡ 8 }
{
    holds(rt, design.netlist().len() == 5);
    holds(rt, design.horizon() == 8);
}

/// Whether a netlist is that of `b`, `z` and `q` alone.
fn is_second_part(netlist: &Netlist) -> bool {
    netlist.len() == 3
        && has_name(netlist, 0, b"b")
        && has_name(netlist, 1, b"z")
        && has_name(netlist, 2, b"q")
        && has_input(netlist, 0)
        && has_gate(netlist, 1, Kind::Not, &[0])
        && matches!(netlist.driver(2), Driver::Flop(1))
        && netlist.outputs() == [1].as_slice()
}

/// Whether the closure of `y` is `a` and `y`, and that of `q` is `b`, `z` and `q`.
fn are_closures(rt: &impl Abort, alloc: Global, design: &Design) -> Result<bool, Fail> {
    are_two_parts(rt, design);
    let first = closure(alloc, design.netlist(), &[2])?;
    let second = closure(alloc, design.netlist(), &[4])?;
    Ok(first.as_slice() == [0, 2].as_slice() && second.as_slice() == [1, 3, 4].as_slice())
}

/// What is found out about the design of what `q` depends on, alone.
pub fn of_second_part<T: Drop, F: FnOnce(&Design) -> Result<T, Fail> + Drop>(
    rt: &impl Abort,
    alloc: Global,
    design: &Design,
    find: F,
) -> Result<T, Fail>
    requires { F.IsAlwaysCallable find }
{
    are_two_parts(rt, design);
    let nets = closure(alloc, design.netlist(), &[4])?;
    let part = restrict(alloc, design, &nets)?;
    let found = find(&part);
    drop(part);
    found
}

/// Whether it has the nets and the horizon that it should have.
fn has_second_part(rt: &impl Abort, alloc: Global, design: &Design) -> Result<bool, Fail> {
    of_second_part(
        rt,
        alloc,
        design,
        |part| Ok(is_second_part(part.netlist()) && part.horizon() == 8),
    )
}

#[test]
fn what_nets_depend_on(rt: HostRuntime) -> Result<(), Fail> {
    let alloc = rt.alloc();
    let are_whole = of_two_parts(alloc, |design| are_closures(&rt, alloc, design))?;
    holds(&rt, are_whole);
    Ok(())
}

#[test]
fn design_of_a_part(rt: HostRuntime) -> Result<(), Fail> {
    let alloc = rt.alloc();
    let is_whole = of_two_parts(alloc, |design| has_second_part(&rt, alloc, design))?;
    holds(&rt, is_whole);
    Ok(())
}
