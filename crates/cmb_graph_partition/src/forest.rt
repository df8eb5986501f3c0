//! Trees of sinks, as a list that has for each sink the next one on the way to its root. That is none that comes after
//! the sink.

use crate::lists::{at, begin, set};
use crate::seen_set::SeenSet;
use std::alloc::{AllocError, Global};

/// Each of so many sinks is a tree.
pub(crate) fn trees_of_one(alloc: Global, sinks: usize) -> Result<Vec<u32>, AllocError> {
    // Lists of one item each begin at 0, 1, 2 and so on.
    let mut parents = vec![in alloc; 1u32; sinks]?;
    begin(&mut parents);
    Ok(parents)
}

// The root of a sink's tree: its least sink. The way to it becomes shorter.
fn root(parents: &mut [u32], sink: u32) -> u32 {
    let mut next = sink;
    let mut parent = at(parents, next);
    while parent < next {
        let above = at(parents, parent).min(parent);
        set(parents, next, above);
        next = above;
        parent = at(parents, next);
    }
    next
}

// Makes one tree of those of two sinks, and answers its root.
fn unite(parents: &mut [u32], one: u32, other: u32) -> u32 {
    let first = root(parents, one);
    let second = root(parents, other);
    let low = first.min(second);
    set(parents, first.max(second), low);
    low
}

/// Makes one tree of those of some sinks, and gives its root that weight.
pub(crate) fn unite_all(parents: &mut [u32], weights: &mut [u32], sinks: &[u32], weight: u32) {
    if let Some(first) = sinks.first() {
        let mut root = *first;
        for sink in sinks {
            if at(parents, *sink) != root {
                root = unite(parents, root, *sink);
            }
        }
        set(weights, root, weight);
    }
}

/// What the trees of some sinks weigh, with so much besides, unless that is more than `most`.
pub(crate) fn weight_within(
    parents: &mut [u32],
    weights: &[u32],
    seen: &mut SeenSet,
    sinks: &[u32],
    besides: u32,
    most: u32,
) -> Option<u32> {
    let mut sum = besides;
    let mut last = u32::MAX;
    seen.clear();
    for sink in sinks {
        // Mostly sinks are of the same tree as the one before.
        if at(parents, *sink) != last {
            last = root(parents, *sink);
            if seen.is_new(last) {
                sum = sum.saturating_add(at(weights, last));
            }
            if sum > most {
                return None;
            }
        }
    }
    Some(sum)
}

/// Makes all ways one step long: then the list has for each sink its root.
pub(crate) fn flatten(parents: &mut [u32]) {
    for sink in 0..parents.len() {
        parents[sink] = at(parents, parents[sink]);
    }
}
