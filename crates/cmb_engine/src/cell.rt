//! How the word of a net comes about.

/// A pin of a cell: the net that it reads, and how many ticks later.
#[derive(Clone, Copy)]
pub(crate) struct Pin {
    pub net: u32,
    pub delay: u32,
}
