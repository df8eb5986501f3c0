//! A net that changed in a window.

use crate::word::Word;

/// A net that changed in a window, and its levels at the 64 ticks up to the window's end.
#[derive(Clone, Copy)]
pub struct Changed {
    /// The number of the net.
    pub net: u16,
    /// The levels: the last place is that of the window's last tick.
    pub word: Word,
}
