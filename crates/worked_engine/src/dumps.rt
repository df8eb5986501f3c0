//! The text that a dump gave last.

use crate::checks::holds;
use crate::parts::of_two_parts;
use cmb_design_model::Design;
use cmb_dump::Dump;
use std::alloc::Global;
use std::test::Fail;

/// Whether the last line of a run up to tick 8 takes the place of what a list had, and the dump is left with nothing.
fn is_swapped(alloc: Global, design: &Design) -> Result<bool, Fail> {
    let mut dump = Dump::at(alloc, design, None, 1)?;
    dump.pass(design.horizon())?;
    let mut room = Vec::from_slice(alloc, b"a part before")?;
    dump.swap_text(&mut room);
    Ok(room.as_slice() == b"#8\n".as_slice() && dump.text().is_empty())
}

#[test]
fn text_is_swapped(rt: HostRuntime) -> Result<(), Fail> {
    let alloc = rt.alloc();
    let swaps = of_two_parts(alloc, |design| is_swapped(alloc, design))?;
    holds(&rt, swaps);
    Ok(())
}
