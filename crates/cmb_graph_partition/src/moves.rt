//! Clusters put into parts, and moved as long as that pays.

ghost use Rattle.std.specs.Prelude.{◌≤◌};

use crate::clusters::{Weighed, from_heaviest};
use crate::lists::Lists;
use crate::parts::{PartNumber, Parts, Place};
use crate::reach::Search;
use std::alloc::{AllocError, Global};

// So often clusters are gone through, at most: an estimate.
const PASSES: u32 = 2;

/// Clusters for so many parts. A cluster is named by a sink, its root.
#[derive(Clone, Copy)]
pub(crate) struct Placement<'a> {
    /// For each class what it weighs.
    pub weights: &'a [u32],
    /// For each class the clusters that need it.
    pub needed: &'a Lists,
    /// For each cluster the classes of its sinks: it needs these, and what is reached from them.
    pub starts: &'a Lists,
    /// For each class its children.
    pub children: &'a Lists,
    /// How many parts there are.
    pub count: u32,
    ghost few: { count ≤ 16 },
}

// Clusters that are in no part, the heaviest first.
fn in_order(alloc: Global, parts: &Parts, clusters: &[u32]) -> Result<Vec<Weighed>, AllocError> {
    let mut order = Vec::new(alloc);
    for cluster in clusters {
        if let Some(place) = parts.places.get(*cluster as usize)
            && place.part.is_none()
        {
            order.push(Weighed {
                number: *cluster,
                weight: place.weight(),
            })?;
        }
    }
    from_heaviest(&mut order).and(Ok(order))
}

impl<'a> Placement<'a> {
    /// The parts, with each cluster where it is, if it is anywhere.
    pub(crate) fn parts_with(
        &self,
        alloc: Global,
        clusters: usize,
        of: &[Option<PartNumber>],
    ) -> Result<Parts, AllocError> {
        let mut parts = Parts::new(alloc, clusters, self.weights.len())?;
        parts.settle(of);
        for class in 0..self.weights.len() {
            parts.note(
                self.count,
                class,
                self.needed.of(class),
                self.weights[class],
            );
        }
        Ok(parts)
    }

    // The part with which a cluster costs the least, but for one part, if that is less than so much.
    fn cheapest(
        &self,
        parts: &Parts,
        place: &Place,
        but: Option<u32>,
        most: f64,
    ) -> Option<PartNumber> {
        let mut best = None;
        let mut least = most;
        for number in 0..self.count {
            if but != Some(number) {
                let part = PartNumber::of(number);
                let rise = parts.rise(part, place);
                if rise < least {
                    least = rise;
                    best = Some(part);
                }
            }
        }
        best
    }

    // Puts a cluster that is in no part into one. It needs the classes of its cone.
    fn put(&self, parts: &mut Parts, cluster: usize, cone: &[u32], part: PartNumber) {
        for class in cone {
            let class = *class as usize;
            if let Some(weight) = self.weights.get(class) {
                parts.add(part, cluster, class, *weight, self.needed.of(class));
            }
        }
        if let Some(place) = parts.places.get_mut(cluster) {
            place.part = Some(part);
        }
    }

    // Takes a cluster out of its part.
    fn take(&self, parts: &mut Parts, cluster: usize, cone: &[u32], part: PartNumber) {
        if let Some(place) = parts.places.get_mut(cluster) {
            place.part = None;
            place.alone = 0;
        }
        for class in cone {
            let class = *class as usize;
            if let Some(weight) = self.weights.get(class) {
                parts.remove(part, class, *weight, self.needed.of(class));
            }
        }
    }

    // Puts a cluster where it costs the least.
    fn insert(&self, search: &mut Search, parts: &mut Parts, cluster: usize) {
        if let Some(place) = parts.places.get(cluster)
            && let Some(part) = self.cheapest(parts, place, None, f64::MAX)
        {
            search.reach(self.children, self.starts.of(cluster));
            self.put(parts, cluster, search.found(), part);
        }
    }

    // Moves a cluster to the part with which it costs the least, and answers whether there is a better one than its
    // own.
    fn shift(&self, search: &mut Search, parts: &mut Parts, cluster: usize) -> bool {
        let Some(place) = parts.places.get(cluster) else {
            return false;
        };
        let Some(own) = place.part else {
            return false;
        };
        let fall = parts.fall(own, place);
        match self.cheapest(parts, place, Some(own.number), fall) {
            None => false,
            Some(part) => {
                search.reach(self.children, self.starts.of(cluster));
                let cone = search.found();
                self.take(parts, cluster, cone, own);
                self.put(parts, cluster, cone, part);
                true
            }
        }
    }

    // Moves each cluster that it pays to move, and answers how many.
    fn pass(&self, search: &mut Search, parts: &mut Parts, clusters: &[u32]) -> usize {
        let mut moves = 0_usize;
        for cluster in clusters {
            if self.shift(search, parts, *cluster as usize) {
                moves = moves.saturating_add(1);
            }
        }
        moves
    }

    /// Moves single clusters, each where that pays at once, as long as it pays to move more than a few of them.
    pub(crate) fn refine(&self, search: &mut Search, parts: &mut Parts, clusters: &[u32]) {
        for _ in 0..PASSES {
            if self.pass(search, parts, clusters) <= clusters.len() / 256 {
                return;
            }
        }
    }

    /// Puts the clusters that are in no part into parts, each where it costs the least, the heaviest first.
    pub(crate) fn insert_all(
        &self,
        alloc: Global,
        search: &mut Search,
        parts: &mut Parts,
        clusters: &[u32],
    ) -> Result<(), AllocError> {
        let order = in_order(alloc, parts, clusters)?;
        for weighed in &order {
            self.insert(search, parts, weighed.number as usize);
        }
        Ok(())
    }
}
