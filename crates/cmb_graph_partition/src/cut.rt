//! The nets of a netlist partitioned into so many shares at most.

ghost use Rattle.std.specs.Prelude.{◌≡◌, ◌≤◌, length, IfOk, IfSome};
ghost use Rattle.cmb_graph_partition.specs.Partitions.{IsPartition};
ghost use Rattle.cmb_graph_partition.specs.Inner.Shapes.{IsShaped};

use crate::check::is_lawful;
use crate::classes::Classes;
use crate::clusters::{clusters_within, shared_classes};
use crate::driven::partition_by;
use crate::forest::trees_of_one;
use crate::lists::{Lists, at};
use crate::members::members_of;
use crate::moves::Placement;
use crate::parts::{PartNumber, Parts, Place};
use crate::reach::Search;
use crate::shares::{Partition, Share};
use crate::structure::Structure;
use cmb_netlist::Netlist;
use std::alloc::{AllocError, Global};

/// A netlist is partitioned into no more shares than this.
pub const MOST_SHARES: usize = 16;

// A cluster weighs this part of an even share at most: an estimate.
const CLUSTER: u32 = 8;

// What all classes weigh.
fn total_of(weights: &[u32]) -> u32 {
    let mut sum = 0_u32;
    for weight in weights {
        sum = sum.saturating_add(*weight);
    }
    sum
}

// Clusters that are small beside an even share, as the root of each sink.
fn roots_within(alloc: Global, classes: &Classes, count: u32) -> Result<Vec<u32>, AllocError>
    requires { 1 ≤ count }
{
    let shared = shared_classes(alloc, classes)?;
    let even = total_of(&classes.weights) / count;
    clusters_within(alloc, classes, &shared, even / CLUSTER)
}

// The sinks that are roots.
fn roots_of(alloc: Global, roots: &[u32], sinks: &[u32]) -> Result<Vec<u32>, AllocError> {
    let mut found = Vec::new(alloc);
    for sink in sinks {
        if at(roots, *sink) == *sink {
            found.push(*sink)?;
        }
    }
    Ok(found)
}

// For each sink the part of its root.
fn spread(
    alloc: Global,
    roots: &[u32],
    places: &[Place],
) -> Result<Vec<Option<PartNumber>>, AllocError> {
    let mut spread = Vec::with_capacity(alloc, roots.len())?;
    for root in roots {
        spread.push(match places.get(*root as usize) {
            None => None,
            Some(place) => place.part,
        })?;
    }
    Ok(spread)
}

// Clusters of sinks.
#[derive(Clone, Copy)]
struct Clusters<'a> {
    // For each sink its cluster, which is named by a sink, its root.
    roots: &'a [u32],
    // All clusters.
    all: &'a [u32],
    // For each class the clusters that need it.
    needed: &'a Lists,
}

// What is in each part, with clusters moved. Those that aren't in a part yet are put into one.
fn placed(
    alloc: Global,
    classes: &Classes,
    clusters: &Clusters,
    count: u32,
    found: &[Option<PartNumber>],
) -> Result<Parts, AllocError>
    requires { count ≤ 16 }
{
    let of_sinks = &classes.cones.sinks.classes;
    let starts = Lists::grouped(alloc, clusters.roots, of_sinks, of_sinks.len())?;
    let placement = Placement {
        weights: &classes.weights,
        needed: clusters.needed,
        starts: &starts,
        children: &classes.cones.children,
        count,
    };
    let mut search = Search::new(alloc, classes.weights.len())?;
    let mut parts = placement.parts_with(alloc, of_sinks.len(), found)?;
    placement.insert_all(alloc, &mut search, &mut parts, clusters.all)?;
    placement.refine(&mut search, &mut parts, clusters.all);
    Ok(parts)
}

// For each sink the part of its cluster, with clusters put into parts and moved.
fn rough(
    alloc: Global,
    classes: &Classes,
    count: u32,
) -> Result<Vec<Option<PartNumber>>, AllocError>
    requires some { 1 ≤ count }
    requires few { count ≤ 16 }
{
    let roots = roots_within(alloc, classes, count)?;
    let all = roots_of(alloc, &roots, &classes.cones.sinks.in_order)?;
    let needed = members_of(alloc, &classes.cones.needed, &roots)?;
    let clusters = Clusters {
        roots: &roots,
        all: &all,
        needed: &needed,
    };
    let parts = placed(alloc, classes, &clusters, count, &[])?;
    spread(alloc, &roots, &parts.places)
}

// What is in each part, with single sinks moved.
fn refined(
    alloc: Global,
    classes: &Classes,
    count: u32,
    found: &[Option<PartNumber>],
) -> Result<Parts, AllocError>
    requires { count ≤ 16 }
{
    let singles = trees_of_one(alloc, classes.cones.sinks.classes.len())?;
    let clusters = Clusters {
        roots: &singles,
        all: &classes.cones.sinks.in_order,
        needed: &classes.cones.needed,
    };
    placed(alloc, classes, &clusters, count, found)
}

// The partition into so many parts, before it is checked.
fn cut(
    alloc: Global,
    netlist: &Netlist,
    classes: &Classes,
    count: u32,
) -> Result<Partition, AllocError>
    requires some { 1 ≤ count }
    requires few { count ≤ 16 }
    requires nets { length classes.now.families.of_nets.items ≡ length netlist.now.names }
    ensures shaped { IfOk result (IsShaped netlist.now) }
    ensures count { IfOk result (λ partition. length partition.shares.items ≡ count) }
{
    let found = rough(alloc, classes, count)?;
    let parts = refined(alloc, classes, count, &found)?;
    partition_by(
        alloc,
        netlist,
        &classes.families.of_nets,
        &parts.counts,
        count,
    )
}

// Whether a share has nothing to drive.
fn is_idle(share: &Share) -> bool {
    !share.driven.contains(&true)
}

// So many shares a netlist is cut into: no more than it has sinks.
fn count_for(most: u32, sinks: &[u32]) -> u32
    ensures most { result ≤ most }
    ensures few { result ≤ 16 }
{
    most.min(sinks.len().min(MOST_SHARES) as u32)
}

/// Partitions the nets of a netlist into two shares at least and so many at most, and 16 at most, so that the share
/// with the most to do has as little as may be, by what each net costs (any unit). What crosses from one share to
/// another are flip-flops. Any share may read any other, so a netlist is cut also where all its nets reach one another.
///
/// A flip-flop needs the gates in its cone, back to flip-flops and inputs. Gates that several shares need are driven by
/// each of them, and who reads a flip-flop of another share is given it; both cost. Flip-flops that need the same heavy
/// gates are put together in clusters; clusters are put into parts, each where it costs the least, and moved singly as
/// long as that pays, and then their flip-flops (replication-aided partitioning: H. Wang and S. Beamer, *RepCut*,
/// ASPLOS 2023; single moves: C. M. Fiduccia and R. M. Mattheyses, *A linear-time heuristic for improving network
/// partitions*, Design Automation Conference 1982). What the parts weigh is measured by the sum of the fourth powers.
///
/// The answer is `None` where there is nothing to part, which is to say fewer than two sinks (flip-flops, and nets that
/// nothing reads), or a share that would be left with nothing. Shares can come out heavy where cones overlap much:
/// `load` and `total` tell. What comes of it is checked.
pub fn partition(
    alloc: Global,
    netlist: &Netlist,
    structure: Structure,
    costs: &[u32],
    most: u32,
) -> Result<Option<Partition>, AllocError>
    requires structure { structure ≡ length netlist.now.names }
    requires costs { length costs.now ≡ length netlist.now.names }
    ensures partition { IfOk result (λ found. IfSome found (IsPartition netlist.now)) }
    ensures some { IfOk result (λ found. IfSome found (λ partition. 2 ≤ length partition.shares.items)) }
    ensures few { IfOk result (λ found. IfSome found (λ partition. length partition.shares.items ≤ most)) }
{
    let classes = structure.weighed(alloc, costs)?;
    let count = count_for(most, &classes.cones.sinks.in_order);
    if count < 2 {
        drop(classes);
        return Ok(None);
    }
    let found = cut(alloc, netlist, &classes, count);
    drop(classes);
    let partition = found?;
    if !is_lawful(netlist, &partition) || partition.shares.iter().any(is_idle) {
        drop(partition);
        return Ok(None);
    }
    Ok(Some(partition))
}
