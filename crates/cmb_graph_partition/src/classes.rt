//! Which sinks need each class, and what it weighs.

use crate::families::Families;
use crate::lists::Lists;
use crate::reach::Search;
use crate::sinks::{Sinks, numbered};
use cmb_netlist::Netlist;
use std::alloc::{AllocError, Global};

// To find which sinks need each class may take so many steps for each net, and so many more: an estimate.
const STEPS: usize = 64;

const FEW_STEPS: usize = 1_000_000;

/// What reaches classes, and what they reach. Sinks are numbered.
#[derive(Drop)]
pub(crate) struct Cones {
    /// For each class the sinks that need it: those that reach it by steps to parents.
    pub needed: Lists,
    /// For each class those whose parent it is.
    pub children: Lists,
    pub sinks: Sinks,
}

/// The classes of a netlist's nets, and those of imports, with what they weigh.
#[derive(Drop)]
pub(crate) struct Classes {
    pub families: Families,
    pub cones: Cones,
    /// For each class what it weighs.
    pub weights: Vec<u32>,
}

// Finds the sinks that need a class: its own, and those that need its parents.
fn find_needed(search: &mut Search, needed: &Lists, own: u32, parents: &[u32]) {
    search.clear();
    search.add(&[own]);
    for parent in parents {
        search.add(needed.of(*parent as usize));
    }
}

// How many steps it takes to find these sinks.
fn steps_to(needed: &Lists, parents: &[u32]) -> usize {
    let mut steps = 0_usize;
    for parent in parents {
        steps = steps.saturating_add(needed.of(*parent as usize).len());
    }
    steps
}

// For each class the sinks that need it. Classes come behind their parents. `None` where that takes too many steps.
fn all_needed(
    alloc: Global,
    sinks: &Sinks,
    parents: &Lists,
    most: usize,
) -> Result<Option<Lists>, AllocError> {
    let mut search = Search::new(alloc, sinks.classes.len())?;
    let mut needed = Lists::new(alloc);
    let mut steps = 0_usize;
    for class in 0..sinks.of_classes.len() {
        let parents = parents.of(class);
        steps = steps.saturating_add(steps_to(&needed, parents));
        if steps > most {
            return Ok(None);
        }
        find_needed(&mut search, &needed, sinks.of_classes[class], parents);
        needed.push(search.found())?;
    }
    Ok(Some(needed))
}

/// What reaches the classes of a netlist. `None` where it takes too many steps to find which sinks need them.
pub(crate) fn cones_of(
    alloc: Global,
    netlist: &Netlist,
    families: &Families,
) -> Result<Option<Cones>, AllocError> {
    let sinks = numbered(alloc, &families.sinks, netlist.len())?;
    let most = netlist.len() * STEPS + FEW_STEPS;
    match all_needed(alloc, &sinks, &families.parents, most)? {
        None => Ok(None),
        Some(needed) => Ok(Some(Cones {
            children: families.parents.turned(alloc, families.imports.len())?,
            needed,
            sinks,
        })),
    }
}
