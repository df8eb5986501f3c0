//! How active nets are.

use crate::checks::holds;
use crate::parts::{are_two_parts, of_two_parts};
use cmb_activity::{Activity, activities, activity_text};
use cmb_design_model::Design;
use std::alloc::Global;
use std::process::Abort;
use std::test::Fail;

/// Whether the table of `b`, `z` and `q` is as it should be. `b` rises at tick 4, its inverter `z` is 1 from tick 2 on
/// and 0 from tick 6 on, and `q` is 1 from tick 4 on; before these ticks `z` and `q` are x.
fn tells_three(rt: &impl Abort, alloc: Global, design: &Design) -> Result<bool, Fail> {
    are_two_parts(rt, design);
    let text = activity_text(alloc, design, &[1, 3, 4])?;
    let wanted = b"net,changes,low,high,unknown\nb,1,4,4,0\nz,2,2,4,2\nq,1,0,4,4\n";
    Ok(text.as_slice() == wanted.as_slice())
}

/// Whether `y`, the inverter of an input that is 1 at all ticks, is 0 but at tick 0, where it is x.
fn counts_one(rt: &impl Abort, alloc: Global, design: &Design) -> Result<bool, Fail> {
    are_two_parts(rt, design);
    let all = activities(alloc, design)?;
    let wanted = Activity {
        changes: 1,
        low: 7,
        high: 0,
        unknown: 1,
    };
    Ok(all.len() == 5 && all[2] == wanted)
}

#[test]
fn table_of_three_nets(rt: HostRuntime) -> Result<(), Fail> {
    let alloc = rt.alloc();
    let is_told = of_two_parts(alloc, |design| tells_three(&rt, alloc, design))?;
    holds(&rt, is_told);
    Ok(())
}

#[test]
fn counts_of_a_net(rt: HostRuntime) -> Result<(), Fail> {
    let alloc = rt.alloc();
    let is_counted = of_two_parts(alloc, |design| counts_one(&rt, alloc, design))?;
    holds(&rt, is_counted);
    Ok(())
}
