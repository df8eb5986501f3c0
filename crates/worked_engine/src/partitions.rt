//! Partitions.

use crate::checks::{holds, same};
use cmb_bench::read_bench;
use cmb_graph_partition::{Partition, Share, load, partition, structure_of, total};
use cmb_netlist::Netlist;
use std::alloc::Global;
use std::test::Fail;

/// Whether two shares drive just the nets with these marks, in whichever order.
fn are_shares(shares: &[Share], one: &[bool], other: &[bool]) -> bool {
    match shares {
        [a, b] => {
            let (a, b) = (a.driven.as_slice(), b.driven.as_slice());
            a == one && b == other || a == other && b == one
        }
        _ => false,
    }
}

/// Whether a partition has two shares of these nets, and just the nets with these marks cross.
fn is_cut(found: &Option<Partition>, one: &[bool], other: &[bool], crossing: &[bool]) -> bool {
    match found {
        None => false,
        Some(found) => {
            are_shares(&found.shares, one, other) && found.crossing.as_slice() == crossing
        }
    }
}

/// The partition of a netlist into so many shares at most, where nets cost so much.
fn cut_by(
    alloc: Global,
    netlist: &Netlist,
    costs: &[u32],
    most: u32,
) -> Result<Option<Partition>, Fail> {
    match structure_of(alloc, netlist)? {
        Some(structure) if costs.len() == netlist.len() => {
            Ok(partition(alloc, netlist, structure, costs, most)?)
        }
        _ => Ok(None),
    }
}

/// The partition of a netlist into so many shares at most, where each net costs as much as any other.
fn cut_into(alloc: Global, netlist: &Netlist, most: u32) -> Result<Option<Partition>, Fail> {
    let costs = vec![in alloc; 1u32; netlist.len()]?;
    cut_by(alloc, netlist, &costs, most)
}

/// The partition of two flip-flops that read nothing of each other.
fn apart(alloc: Global) -> Result<Option<Partition>, Fail> {
    let text = b"a = DFF(na)\nna = NOT(a)\nb = DFF(nb)\nnb = NOT(b)\n";
    let netlist = read_bench(alloc, text)?;
    cut_into(alloc, &netlist, 2)
}

// Each share has to have a flip-flop, and with it goes what it needs.
#[test]
fn two_rings(rt: HostRuntime) -> Result<(), Fail> {
    let found = apart(rt.alloc())?;
    let one = [true, true, false, false];
    let other = [false, false, true, true];
    holds(&rt, is_cut(&found, &one, &other, &[false; 4]));
    Ok(())
}

/// Two flip-flops and an input. The data of both read the input and s, and s reads both flip-flops.
fn entangled(alloc: Global) -> Result<Netlist, Fail> {
    let text = b"INPUT(i)\na = DFF(g)\nb = DFF(h)\ng = AND(i, s)\nh = OR(i, s)\ns = XOR(a, b)\n";
    Ok(read_bench(alloc, text)?)
}

/// Their partition into so many shares at most.
fn cut_for(alloc: Global, most: u32) -> Result<Option<Partition>, Fail> {
    let netlist = entangled(alloc)?;
    cut_into(alloc, &netlist, most)
}

// All nets but the input reach one another. There are two flip-flops, so there is one way to cut them, also where more
// shares are allowed: each share drives the input and s, and each flip-flop crosses.
#[test]
fn one_component(rt: HostRuntime) -> Result<(), Fail> {
    let one = [true, true, false, true, false, true];
    let other = [true, false, true, false, true, true];
    let crossing = [false, true, true, false, false, false];
    for most in [2, 7] {
        let found = cut_for(rt.alloc(), most)?;
        holds(&rt, is_cut(&found, &one, &other, &crossing));
    }
    Ok(())
}

#[test]
fn one_share_is_none(rt: HostRuntime) -> Result<(), Fail> {
    for most in [0, 1] {
        holds(&rt, cut_for(rt.alloc(), most)?.is_none());
    }
    Ok(())
}

/// The partition of one flip-flop.
fn single(alloc: Global) -> Result<Option<Partition>, Fail> {
    let netlist = read_bench(alloc, b"a = DFF(n)\nn = NOT(a)\n")?;
    cut_into(alloc, &netlist, 4)
}

#[test]
fn nothing_to_part(rt: HostRuntime) -> Result<(), Fail> {
    holds(&rt, single(rt.alloc())?.is_none());
    Ok(())
}

/// The partition of a ring of three flip-flops into two shares.
fn ring(alloc: Global) -> Result<Option<Partition>, Fail> {
    let netlist = read_bench(alloc, b"a = DFF(c)\nb = DFF(a)\nc = DFF(b)\n")?;
    cut_into(alloc, &netlist, 2)
}

/// How many marks there are.
fn count(marks: &[bool]) -> usize {
    marks.iter().filter(|mark| **mark).count()
}

/// How many flip-flops of the ring cross.
fn crossings(found: &Option<Partition>) -> usize {
    match found {
        None => 0,
        Some(found) => count(&found.crossing),
    }
}

// Wherever a ring of three is cut in two, two steps lead from one part to the other.
#[test]
fn ring_of_three(rt: HostRuntime) -> Result<(), Fail> {
    let found = ring(rt.alloc())?;
    same(&rt, crossings(&found), 2);
    Ok(())
}

/// The partition of four flip-flops, each of which reads itself, into two shares, where they cost so much.
fn weighed(alloc: Global, costs: &[u32]) -> Result<Option<Partition>, Fail> {
    let netlist = read_bench(alloc, b"a = DFF(a)\nb = DFF(b)\nc = DFF(c)\nd = DFF(d)\n")?;
    cut_by(alloc, &netlist, costs, 2)
}

// The first costs as much as the others together.
#[test]
fn costs_count(rt: HostRuntime) -> Result<(), Fail> {
    let found = weighed(rt.alloc(), &[3, 1, 1, 1])?;
    let one = [true, false, false, false];
    let other = [false, true, true, true];
    holds(&rt, is_cut(&found, &one, &other, &[false; 4]));
    Ok(())
}

/// What nets cost, where each costs what stands at its place.
const COSTS: [u32; 6] = [0, 3, 3, 4, 4, 4];

/// What the nets with a mark cost, where there is a mark for each net.
fn cost_of(driven: Vec<bool>) -> Option<u64> {
    if driven.as_slice().len() != COSTS.len() {
        return None;
    }
    Some(load(&COSTS, &Share { driven }))
}

// The second, the fourth and the last cost 3 and twice 4, and all together 18.
#[test]
fn costs(rt: HostRuntime) -> Result<(), Fail> {
    let driven = vec![in rt.alloc(); true, true, false, true, false, true]?;
    holds(&rt, cost_of(driven) == Some(11));
    holds(&rt, total(&COSTS) == 18);
    Ok(())
}
