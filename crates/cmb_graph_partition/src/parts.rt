//! Parts with clusters, what they weigh, and what it would cost to move clusters.

ghost use Rattle.std.specs.Prelude.{◌≡◌, ◌<◌, ◌≤◌};

use std::alloc::{AllocError, Global};

/// A part, by its number.
#[derive(Clone, Copy)]
pub(crate) struct PartNumber {
    pub number: u32,
    ghost below: { number < 16 },
}

impl PartNumber {
    /// The part of a number.
    pub(crate) fn of(number: u32) -> PartNumber
        requires { number < 16 }
        ensures { result.number ≡ number }
    {
        PartNumber { number }
    }
}

/// Where a cluster is, and what it would cost elsewhere.
#[derive(Clone, Copy)]
pub(crate) struct Place {
    /// Its part, if it is in one.
    pub part: Option<PartNumber>,
    /// For each part what the classes weigh that the cluster needs and none of the part.
    pub missing: [u64; 16],
    /// What the classes weigh that it alone needs in its part.
    pub alone: u64,
}

/// What is in each part.
#[derive(Drop)]
pub(crate) struct Parts {
    /// What the classes weigh that a part needs.
    pub loads: [u32; 16],
    /// For each class how many clusters of each part need it.
    pub counts: Vec<[u16; 16]>,
    /// For each cluster its place.
    pub places: Vec<Place>,
}

// The fourth power of a load. The sum of these is the less, the more even the loads are.
fn fourth(load: u32) -> f64 {
    let load = f64::from(load);
    load * load * load * load
}

// The weight of so much, cut off at what a weight may be.
fn cut_off(sum: u64) -> u32 {
    sum.min(u64::from(u32::MAX)) as u32
}

impl Place {
    // The place of a cluster that is in no part and needs nothing yet.
    fn nowhere() -> Place {
        Place {
            part: None,
            missing: [0; 16],
            alone: 0,
        }
    }

    // Whether it is in a part.
    fn is_in(&self, part: PartNumber) -> bool {
        match self.part {
            None => false,
            Some(own) => own.number == part.number,
        }
    }

    // Notes a class that the cluster needs and so many clusters of each part: so much is missing where none does.
    fn miss(&mut self, parts: usize, counts: &[u16; 16], weight: u64)
        requires { parts ≤ 16 }
    {
        for number in 0..parts {
            if counts[number] == 0 {
                self.missing[number] = self.missing[number].wrapping_add(weight);
            }
        }
    }

    /// What a cluster weighs that is in no part: all that it needs is missing in the first part, as in any.
    pub(crate) fn weight(&self) -> u32 {
        cut_off(self.missing[0])
    }
}

// How many of some clusters are in each part.
fn counts_among(places: &[Place], clusters: &[u32]) -> [u16; 16] {
    let mut counts = [0_u16; 16];
    for cluster in clusters {
        if let Some(place) = places.get(*cluster as usize)
            && let Some(part) = place.part
        {
            let number = part.number as usize;
            counts[number] = counts[number].wrapping_add(1);
        }
    }
    counts
}

// Notes a class that so many clusters of each part need, for each cluster that needs it.
fn miss_all(places: &mut [Place], parts: usize, counts: &[u16; 16], clusters: &[u32], weight: u64)
    requires { parts ≤ 16 }
{
    for cluster in clusters {
        if let Some(place) = places.get_mut(*cluster as usize) {
            place.miss(parts, counts, weight);
        }
    }
}

// Adds so much to what none of a part needs, for each of some clusters.
fn add_missing(places: &mut [Place], part: PartNumber, clusters: &[u32], weight: u64) {
    for cluster in clusters {
        if let Some(place) = places.get_mut(*cluster as usize) {
            let sum = &mut place.missing[part.number as usize];
            *sum = sum.wrapping_add(weight);
        }
    }
}

// Adds so much to what a cluster needs alone: that one of some clusters which is in a part.
fn add_alone(places: &mut [Place], part: PartNumber, clusters: &[u32], weight: u64) {
    for cluster in clusters {
        if let Some(place) = places.get_mut(*cluster as usize)
            && place.is_in(part)
        {
            place.alone = place.alone.wrapping_add(weight);
            return;
        }
    }
}

impl Parts {
    /// So many clusters, in no part, that need nothing yet of so many classes.
    pub(crate) fn new(alloc: Global, clusters: usize, classes: usize) -> Result<Parts, AllocError> {
        Ok(Parts {
            loads: [0; 16],
            counts: vec![in alloc; [0_u16; 16]; classes]?,
            places: vec![in alloc; Place::nowhere(); clusters]?,
        })
    }

    /// Puts the first clusters into parts, before any class is noted.
    pub(crate) fn settle(&mut self, parts: &[Option<PartNumber>]) {
        for cluster in 0..parts.len() {
            if let Some(place) = self.places.get_mut(cluster) {
                place.part = parts[cluster];
            }
        }
    }

    // Notes what a class weighs of which so many clusters of a part need it, and the clusters that do.
    fn weigh(&mut self, part: PartNumber, count: u16, clusters: &[u32], weight: u32) {
        if count != 0 {
            let number = part.number as usize;
            self.loads[number] = self.loads[number].saturating_add(weight);
        }
        if count == 1 {
            add_alone(&mut self.places, part, clusters, u64::from(weight));
        }
    }

    /// Notes a class: what it weighs, and the clusters that need it, in so many parts.
    pub(crate) fn note(&mut self, parts: u32, class: usize, clusters: &[u32], weight: u32)
        requires { parts ≤ 16 }
    {
        let counts = counts_among(&self.places, clusters);
        if let Some(of_class) = self.counts.get_mut(class) {
            *of_class = counts;
        }
        let more = u64::from(weight);
        miss_all(&mut self.places, parts as usize, &counts, clusters, more);
        for number in 0..parts {
            self.weigh(
                PartNumber::of(number),
                counts[number as usize],
                clusters,
                weight,
            );
        }
    }

    /// By how much the fourth power of a part's load rises with a cluster that isn't there.
    pub(crate) fn rise(&self, part: PartNumber, place: &Place) -> f64 {
        let number = part.number as usize;
        let load = self.loads[number];
        let more = cut_off(place.missing[number]);
        fourth(load.saturating_add(more)) - fourth(load)
    }

    /// By how much it falls without one of its clusters.
    pub(crate) fn fall(&self, part: PartNumber, place: &Place) -> f64 {
        let load = self.loads[part.number as usize];
        let less = cut_off(place.alone);
        fourth(load) - fourth(load.saturating_sub(less))
    }

    // Adds to how many clusters of a part need a class, and answers how many did.
    fn recount(&mut self, part: PartNumber, class: usize, more: u16) -> u16 {
        match self.counts.get_mut(class) {
            None => u16::MAX,
            Some(counts) => {
                let count = counts[part.number as usize];
                counts[part.number as usize] = count.wrapping_add(more);
                count
            }
        }
    }

    // Adds so much to what a cluster needs alone in its part.
    fn add_to(&mut self, cluster: usize, weight: u64) {
        if let Some(place) = self.places.get_mut(cluster) {
            place.alone = place.alone.wrapping_add(weight);
        }
    }

    /// Notes that one more cluster of a part needs a class, one that isn't marked as there yet.
    pub(crate) fn add(
        &mut self,
        part: PartNumber,
        cluster: usize,
        class: usize,
        weight: u32,
        clusters: &[u32],
    ) {
        let number = part.number as usize;
        let more = u64::from(weight);
        let count = self.recount(part, class, 1);
        if count == 0 {
            self.loads[number] = self.loads[number].saturating_add(weight);
            add_missing(&mut self.places, part, clusters, more.wrapping_neg());
            self.add_to(cluster, more);
        } else if count == 1 {
            add_alone(&mut self.places, part, clusters, more.wrapping_neg());
        }
    }

    /// Notes that one cluster less of a part needs a class, one that isn't marked as there any more.
    pub(crate) fn remove(&mut self, part: PartNumber, class: usize, weight: u32, clusters: &[u32]) {
        let number = part.number as usize;
        let more = u64::from(weight);
        let count = self.recount(part, class, u16::MAX);
        if count == 1 {
            self.loads[number] = self.loads[number].saturating_sub(weight);
            add_missing(&mut self.places, part, clusters, more);
        } else if count == 2 {
            add_alone(&mut self.places, part, clusters, more);
        }
    }
}
