//! A design's circuit: what an engine keeps of a design, and never changes.

use crate::bits::Bits;
use crate::cell::Pin;
use crate::readers::Readers;
use crate::wiring::Wiring;

/// The slots of a design and how they hang together.
#[derive(Drop)]
pub(crate) struct Circuit {
    /// The cells of the slots, and who reads each.
    pub wiring: Wiring,
    /// The nets that lines follow, and how many ticks later each does.
    pub lines: Vec<Pin>,
    /// The numbers of the lines that follow each net.
    pub followers: Readers,
    /// The nets that are told where they change, and those that lines follow.
    pub wanted: Bits,
    /// The most ticks of a window.
    pub width: u32,
}
