//! How far a text is.

/// How far the text of a window is that was begun.
#[derive(Clone, Copy)]
pub struct Mark {
    /// How many of the nets that changed are in the buckets.
    pub done: usize,
    /// The tick up to which the window goes.
    pub upto: u32,
}
