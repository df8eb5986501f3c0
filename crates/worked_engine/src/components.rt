//! Strongly connected components.

use crate::checks::holds;
use cmb_bench::read_bench;
use cmb_graph::{Steps, strong_components};
use cmb_netlist::Netlist;
use std::alloc::Global;
use std::test::Fail;

/// Two rings, of a and b and of c and d, read an input; y reads both.
pub fn two_rings(alloc: Global) -> Result<Netlist, Fail> {
    let text = b"INPUT(i)\na = DFF(b)\nb = NAND(i, a)\nc = DFF(d)\nd = NAND(i, c)\ny = AND(a, c)\n";
    Ok(read_bench(alloc, text)?)
}

/// Whether the nets of a netlist have these components.
fn has_components(
    alloc: Global,
    netlist: &Netlist,
    steps: Steps,
    wanted: &[usize],
) -> Result<bool, Fail> {
    let found = strong_components(alloc, netlist, steps)?;
    Ok(found.as_slice() == wanted)
}

/// Whether those of the two rings do.
fn rings_have(alloc: Global, steps: Steps, wanted: &[usize]) -> Result<bool, Fail> {
    let netlist = two_rings(alloc)?;
    has_components(alloc, &netlist, steps, wanted)
}

// Each component has as its number how many nets come before it: none before the input, one before the first ring,
// three before the second, five before y. Where steps to a flip-flop's data don't count, each net is alone.
#[test]
fn rings_and_lone_nets(rt: HostRuntime) -> Result<(), Fail> {
    holds(
        &rt,
        rings_have(rt.alloc(), Steps::All, &[0, 1, 1, 3, 3, 5])?,
    );
    holds(
        &rt,
        rings_have(rt.alloc(), Steps::Gates, &[0, 1, 2, 3, 4, 5])?,
    );
    Ok(())
}
