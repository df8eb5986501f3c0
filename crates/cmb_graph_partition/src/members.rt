//! The clusters that need classes.

use crate::lists::Lists;
use crate::reach::Search;
use std::alloc::{AllocError, Global};

// Finds the clusters of some sinks, each once.
fn find_roots(search: &mut Search, roots: &[u32], sinks: &[u32]) {
    search.clear();
    let mut last = u32::MAX;
    for sink in sinks {
        // Mostly sinks are of the same cluster as the one before.
        if let Some(root) = roots.get(*sink as usize)
            && *root != last
        {
            last = *root;
            search.add(&[last]);
        }
    }
}

/// For each class the clusters that need it, each by its root, where these are the sinks that need it.
pub(crate) fn members_of(
    alloc: Global,
    needed: &Lists,
    roots: &[u32],
) -> Result<Lists, AllocError> {
    let mut search = Search::new(alloc, roots.len())?;
    let mut members = Lists::new(alloc);
    for class in 0..needed.ends.len() {
        find_roots(&mut search, roots, needed.of(class));
        members.push(search.found())?;
    }
    Ok(members)
}
