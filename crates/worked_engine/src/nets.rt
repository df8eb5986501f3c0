//! Lists of nets.

use crate::checks::holds;
use cmb_cone::{places_in, rising};
use std::alloc::AllocError;

#[test]
fn each_net_once(rt: HostRuntime) -> Result<(), AllocError> {
    let nets = rising(rt.alloc(), 5, &[3, 1, 3])?;
    holds(&rt, nets.as_slice() == [1, 3].as_slice());
    Ok(())
}

#[test]
fn places_of_nets(rt: HostRuntime) -> Result<(), AllocError> {
    let places = places_in(rt.alloc(), 5, &[1, 3, 4], &[1, 4])?;
    holds(&rt, places.as_slice() == [0, 2].as_slice());
    Ok(())
}
