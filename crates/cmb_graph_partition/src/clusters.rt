//! Clusters of sinks that need the same heavy classes.

use crate::classes::Classes;
use crate::forest::{flatten, trees_of_one, unite_all, weight_within};
use crate::lists::all_at;
use crate::seen_set::SeenSet;
use std::alloc::{AllocError, Global};

/// A number with what stands behind it weighs.
#[derive(Clone, Copy)]
pub(crate) struct Weighed {
    pub number: u32,
    pub weight: u32,
}

/// Puts the heaviest first.
pub(crate) fn from_heaviest(list: &mut Vec<Weighed>) -> Result<(), AllocError> {
    list.sort_by_key(|weighed| u32::MAX - weighed.weight)
}

/// The classes that several sinks need, the heaviest first.
pub(crate) fn shared_classes(alloc: Global, classes: &Classes) -> Result<Vec<Weighed>, AllocError> {
    let mut shared = Vec::new(alloc);
    let mut number = 0_u32;
    for weight in &classes.weights {
        if classes.cones.needed.of(number as usize).len() > 1 {
            shared.push(Weighed {
                number,
                weight: *weight,
            })?;
        }
        number = number.wrapping_add(1);
    }
    from_heaviest(&mut shared).and(Ok(shared))
}

/// Clusters that weigh no more than that, as the root of each sink: from the heaviest class on, the sinks that need it
/// become one cluster.
pub(crate) fn clusters_within(
    alloc: Global,
    classes: &Classes,
    shared: &[Weighed],
    most: u32,
) -> Result<Vec<u32>, AllocError> {
    let of_sinks = &classes.cones.sinks.classes;
    let mut seen = SeenSet::new(alloc, of_sinks.len())?;
    let mut weights = all_at(alloc, &classes.weights, of_sinks)?;
    let mut roots = trees_of_one(alloc, of_sinks.len())?;
    for class in shared {
        let sinks = classes.cones.needed.of(class.number as usize);
        let sum = weight_within(&mut roots, &weights, &mut seen, sinks, class.weight, most);
        if let Some(weight) = sum {
            unite_all(&mut roots, &mut weights, sinks, weight);
        }
    }
    flatten(&mut roots);
    Ok(roots)
}
