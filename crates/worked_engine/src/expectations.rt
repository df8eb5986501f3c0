//! What is expected of a run.

use crate::checks::holds;
use crate::parts::{are_two_parts, of_two_parts};
use cmb_chosen::expected_differences;
use cmb_design_model::{Design, Expected};
use cmb_expect::{differing_rows, levels_found};
use cmb_wave::Level;
use std::alloc::Global;
use std::process::Abort;
use std::test::Fail;

// `z` is 1 from tick 2 on and 0 from tick 6 on, `q` is x before tick 4, and `b` rises there.
const ROWS: [Expected; 4] = [
    Expected {
        tick: 6,
        net: 3,
        level: Level::One,
    },
    Expected {
        tick: 4,
        net: 1,
        level: Level::One,
    },
    Expected {
        tick: 5,
        net: 3,
        level: Level::One,
    },
    Expected {
        tick: 3,
        net: 4,
        level: Level::One,
    },
];

/// Whether the levels are found that the run has there, and the rows that differ are told.
fn finds_four(rt: &impl Abort, alloc: Global, design: &Design) -> Result<bool, Fail> {
    are_two_parts(rt, design);
    let found = levels_found(alloc, design, &ROWS)?;
    let told = differing_rows(alloc, design, &ROWS, &found)?;
    let levels = [Level::Zero, Level::One, Level::One, Level::X];
    let text = b"tick,net,expected,value\n6,z,1,0\n3,q,1,x\n";
    Ok(
        found.as_slice() == levels.as_slice()
            && told.text.as_slice() == text.as_slice()
            && told.count == 2,
    )
}

/// Whether the same rows differ where only nets are simulated on which they depend.
fn tells_four(rt: &impl Abort, alloc: Global, design: &Design) -> Result<bool, Fail> {
    are_two_parts(rt, design);
    let told = expected_differences(alloc, design, &ROWS)?;
    let text = b"tick,net,expected,value\n6,z,1,0\n3,q,1,x\n";
    Ok(told.text.as_slice() == text.as_slice() && told.count == 2)
}

#[test]
fn levels_of_four_rows(rt: HostRuntime) -> Result<(), Fail> {
    let alloc = rt.alloc();
    let are_found = of_two_parts(alloc, |design| finds_four(&rt, alloc, design))?;
    holds(&rt, are_found);
    Ok(())
}

#[test]
fn differences_of_four_rows(rt: HostRuntime) -> Result<(), Fail> {
    let alloc = rt.alloc();
    let are_told = of_two_parts(alloc, |design| tells_four(&rt, alloc, design))?;
    holds(&rt, are_told);
    Ok(())
}
