//! What a seat of a board knows. No value of these types is made but `Snapshots`.

use cmb_core_cluster::Clustering;
use cmb_design_model::Design;
use cmb_wave::Promise;
use std::collections::LinkedList;
use std::snapshot::Snapshot;

/// What a board is opened for.
pub struct BoardRun {
    pub design: Design,
    pub clustering: Clustering,
    pub workers: u32,
}

/// The same, as the table of words gets it.
#[derive(Drop)]
pub struct Snapshots {
    pub design: Snapshot<Design>,
    pub clustering: Snapshot<Clustering>,
    pub workers: u32,
}

/// What the seat published, in order, and what its loads of nets' words found. Each entry names its net.
pub struct Promised {
    pub published: LinkedList<Promise>,
    pub loads: LinkedList<Promise>,
}

/// Whether the seat raised the stop word, and what its loads of it found.
pub struct Stops {
    pub raised: bool,
    pub loads: LinkedList<bool>,
}

/// Whether the seat's worker finished, and what its loads of the number of finished workers found.
pub struct Endings {
    pub finished: bool,
    pub loads: LinkedList<u32>,
}

pub struct View {
    pub board_run: BoardRun,
    /// The seat's number: that of its worker, and for the last seat the number of workers.
    pub place: u32,
    /// No seat was cut after this one.
    pub is_last: bool,
    pub promised: Promised,
    pub stops: Stops,
    pub endings: Endings,
}
