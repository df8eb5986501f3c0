//! The partition that comes of sinks in parts.

ghost use Rattle.std.specs.Prelude.{◌≡◌, ◌<◌, ◌≤◌, length, All, IfOk};
ghost use Rattle.cmb_netlist.specs.Netlist.{IsNetlist};
ghost use Rattle.cmb_graph_partition.specs.Inner.Shapes.{IsShaped};

use crate::lists::all_at;
use crate::shares::{Partition, Share};
use cmb_graph::{Steps, targets_from};
use cmb_netlist::{Driver, Netlist};
use std::alloc::{AllocError, Global};

// The parts with clusters, as a set: a bit for each.
fn set_of(counts: &[u16; 16], count: u32) -> u32
    requires { count ≤ 16 }
{
    let mut set = 0_u32;
    for number in 0..count {
        set |= u32::from(counts[number as usize] != 0) << number;
    }
    set
}

// For each class the parts with clusters that need it.
fn sets_of_classes(alloc: Global, counts: &[[u16; 16]], count: u32) -> Result<Vec<u32>, AllocError>
    requires { count ≤ 16 }
{
    let mut sets = Vec::with_capacity(alloc, counts.len())?;
    for one in counts {
        sets.push(set_of(one, count))?;
    }
    Ok(sets)
}

// Whether a net is an input.
fn is_input(netlist: &Netlist, net: usize) -> bool
    requires { net < length netlist.now.names }
{
    matches!(netlist.driver(net), Driver::Input)
}

// What a net reads is driven by all parts that drive the net. Else, an input is driven there too, and anything else
// crosses.
fn note_reads(sets: &mut [u32], crossing: &mut [bool], netlist: &Netlist, net: usize)
    requires net { net < length netlist.now.names }
    requires sound { IsNetlist netlist.now }
    requires long { length sets.old ≡ length netlist.now.names }
    requires crossing { length crossing.old ≡ length netlist.now.names }
{
    let own = sets[net];
    for target in targets_from(netlist, Steps::All, net) {
        let target = *target as usize;
        if own & !sets[target] != 0 {
            if is_input(netlist, target) {
                sets[target] |= own;
            } else {
                crossing[target] = true;
            }
        }
    }
}

// Notes what all nets read, and answers which of them cross.
fn crossing_of(alloc: Global, netlist: &Netlist, sets: &mut [u32]) -> Result<Vec<bool>, AllocError>
    requires { length sets.old ≡ length netlist.now.names }
    ensures long { IfOk result (λ crossing. length crossing.items ≡ length netlist.now.names) }
    ensures sound { IfOk result (λ _. IsNetlist netlist.now) }
{
    let mut crossing = vec![in alloc; false; netlist.len()]?;
    for net in 0..netlist.len() {
        note_reads(sets, &mut crossing, netlist, net);
    }
    Ok(crossing)
}

// Inputs that nobody reads are driven by the first part.
fn add_unread(sets: &mut [u32]) {
    for set in sets.iter_mut() {
        if *set == 0 {
            *set = 1;
        }
    }
}

// The nets that a part drives.
fn driven_by(alloc: Global, sets: &[u32], number: u32) -> Result<Vec<bool>, AllocError>
    requires { number < 16 }
    ensures { IfOk result (λ driven. length driven.items ≡ length sets.now) }
{
    let mut driven = vec![in alloc; false; sets.len()]?;
    for net in 0..sets.len() {
        driven[net] = sets[net] >> number & 1 == 1;
    }
    Ok(driven)
}

fn shares_of(alloc: Global, sets: &[u32], count: u32) -> Result<Vec<Share>, AllocError>
    requires { count ≤ 16 }
    ensures count { IfOk result (λ shares. length shares.items ≡ count) }
    ensures marks { IfOk result (λ shares.
        All (λ share. length share.driven.items ≡ length sets.now) shares.items) }
{
    let mut shares = Vec::with_capacity(alloc, count as usize)?;
    for number in 0..count {
        let driven = driven_by(alloc, sets, number)?;
        shares.push(Share { driven })?;
    }
    Ok(shares)
}

// The first part of a set from one on, and behind the last the first again.
fn first_from(set: u32, turn: u32) -> u32
    requires { turn < 16 }
{
    let later = set >> turn;
    if later == 0 {
        set.trailing_zeros()
    } else {
        later.trailing_zeros() + turn
    }
}

// The turn after one.
fn next_turn(turn: u32, count: u32) -> u32
    requires { turn < count }
    ensures { result < count }
{
    if turn + 1 == count { 0 } else { turn + 1 }
}

// The owner of a net is one of the parts that drive it, each in turn.
fn owners_of(alloc: Global, sets: &[u32], count: u32) -> Result<Vec<u32>, AllocError>
    requires some { 1 ≤ count }
    requires few { count ≤ 16 }
    ensures nets { IfOk result (λ owners. length owners.items ≡ length sets.now) }
    ensures below { IfOk result (λ owners. All (λ owner. owner < count) owners.items) }
{
    let mut owners = Vec::with_capacity(alloc, sets.len())?;
    let mut turn = 0_u32;
    for set in sets {
        owners.push(first_from(*set, turn).min(count - 1))?;
        turn = next_turn(turn, count);
    }
    Ok(owners)
}

/// The partition in which each class's nets are driven by the parts with clusters that need it. That it is one is
/// checked apart.
pub(crate) fn partition_by(
    alloc: Global,
    netlist: &Netlist,
    classes: &[u32],
    counts: &[[u16; 16]],
    count: u32,
) -> Result<Partition, AllocError>
    requires some { 1 ≤ count }
    requires few { count ≤ 16 }
    requires nets { length classes.now ≡ length netlist.now.names }
    ensures shaped { IfOk result (IsShaped netlist.now) }
    ensures count { IfOk result (λ partition. length partition.shares.items ≡ count) }
{
    let of_classes = sets_of_classes(alloc, counts, count)?;
    let mut sets = all_at(alloc, &of_classes, classes)?;
    drop(of_classes);
    let crossing = crossing_of(alloc, netlist, &mut sets)?;
    add_unread(&mut sets);
    let owners = owners_of(alloc, &sets, count)?;
    let shares = shares_of(alloc, &sets, count)?;
    Ok(Partition {
        owners,
        crossing,
        shares,
    })
}
