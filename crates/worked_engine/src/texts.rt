//! The text of chosen nets.

ghost use Rattle.cmb_design_model.specs.Exact.{nets_of};
ghost use Rattle.cmb_dump.specs.Shown.{AreAmong};

use crate::checks::holds;
use crate::parts::{are_two_parts, of_second_part, of_two_parts};
use cmb_chosen::part_of;
use cmb_design_model::Design;
use cmb_dump_stream::write_stream;
use cmb_io::Room;
use std::alloc::Global;
use std::process::Abort;
use std::test::Fail;
use worked_designs::text_of;

/// The text of chosen nets.
fn shown(alloc: Global, design: &Design, nets: &[u32]) -> Result<Vec<u8>, Fail>
    requires { AreAmong (nets_of design.now) nets.now }
{
    let mut room = Room::new(alloc, 0)?;
    write_stream(alloc, design, Some(nets), &mut room)?;
    Ok(room.bytes)
}

/// Whether the text of `b` and `q` is as it should be. The inverter `z` of `b` is 1 from tick 2 on and 0 from tick 6
/// on, and `q` shows what was sampled at tick 3 a tick later.
fn shows_two(rt: &impl Abort, alloc: Global, design: &Design) -> Result<bool, Fail> {
    are_two_parts(rt, design);
    let text = shown(alloc, design, &[1, 4])?;
    let wanted = text_of(alloc, "b q", "#0 0! x\" #4 1! 1\" #8")?;
    Ok(text.as_slice() == wanted.as_bytes())
}

/// Whether the text of all nets of a design of three is that of `b`, `z` and `q`.
fn shows_three(alloc: Global, part: &Design) -> Result<bool, Fail> {
    if part.netlist().len() == 3 {
        let text = shown(alloc, part, &[0, 1, 2])?;
        let wanted = text_of(alloc, "b z q", "#0 0! x\" x# #2 1\" #4 1! 1# #6 0\" #8")?;
        return Ok(text.as_slice() == wanted.as_bytes());
    }
    Ok(false)
}

/// Whether the part on which `b` and `q` depend has three nets, of which these are the first and the last.
fn has_part(rt: &impl Abort, alloc: Global, design: &Design) -> Result<bool, Fail> {
    are_two_parts(rt, design);
    let part = part_of(alloc, design, &[1, 4])?;
    let is_part = part.design.netlist().len() == 3 && part.nets.as_slice() == [0, 2].as_slice();
    drop(part);
    Ok(is_part)
}

/// Whether the part on which `q` depends has the text of its three nets.
fn shows_part(rt: &impl Abort, alloc: Global, design: &Design) -> Result<bool, Fail> {
    of_second_part(rt, alloc, design, |part| shows_three(alloc, part))
}

#[test]
fn two_nets(rt: HostRuntime) -> Result<(), Fail> {
    let alloc = rt.alloc();
    let are_shown = of_two_parts(alloc, |design| shows_two(&rt, alloc, design))?;
    holds(&rt, are_shown);
    Ok(())
}

#[test]
fn part_of_two_nets(rt: HostRuntime) -> Result<(), Fail> {
    let alloc = rt.alloc();
    let have_part = of_two_parts(alloc, |design| has_part(&rt, alloc, design))?;
    holds(&rt, have_part);
    Ok(())
}

#[test]
fn all_nets_of_a_part(rt: HostRuntime) -> Result<(), Fail> {
    let alloc = rt.alloc();
    let is_shown = of_two_parts(alloc, |design| shows_part(&rt, alloc, design))?;
    holds(&rt, is_shown);
    Ok(())
}
