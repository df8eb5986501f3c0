//! What a path-based search knows.

/// How far a search has come with a net.
#[derive(Clone, Copy)]
pub(crate) enum Seen {
    /// It wasn't found yet.
    New,
    /// It stands on the path, at this place.
    On(usize),
    /// All that can be reached from it was searched.
    Done,
}

/// A net on the path of which steps are left.
#[derive(Clone, Copy)]
pub(crate) struct Frame {
    /// The net's place on the path.
    pub place: usize,
    /// The next of its steps.
    pub next: usize,
}

/// A search under way.
#[derive(Drop)]
pub(crate) struct Search {
    /// For each net how far the search has come with it.
    pub seen: Vec<Seen>,
    /// For each net whether it was found in a loop.
    pub marks: Vec<bool>,
    /// For each net that is done how many were done before its part.
    pub numbers: Vec<usize>,
    /// How many nets are done.
    pub done: usize,
    /// The nets that aren't done, in the order in which they were found.
    pub path: Vec<u32>,
    /// Where the parts of the path begin. All nets of one part reach one another.
    pub starts: Vec<usize>,
    /// The nets of which steps are left, in the order of the path.
    pub frames: Vec<Frame>,
}
