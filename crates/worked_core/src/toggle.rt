//! The circuit that most examples are of, and changes and pieces of its nets.

ghost use Rattle.std.specs.Prelude.{◌≡◌};

use cmb_wave::{Change, Level, Piece};
use std::alloc::Global;
use std::test::Fail;

/// A flip-flop q that samples its data d, and d, the inverse of q.
pub const TOGGLE: &[u8] = b"q = DFF(d) d = NOT(q)";

/// The number of q.
pub const Q: u32 = 0;

/// The number of d.
pub const D: u32 = 1;

/// A change.
pub fn at(tick: u32, level: Level) -> Change
    ensures { result ≡ record { tick = tick; level = level } }
{
    Change { tick, level }
}

/// A piece with one change.
pub fn pulse(alloc: Global, net: u32, from: u32, to: u32, change: Change) -> Result<Piece, Fail> {
    Ok(Piece::new(net, from, to, vec![in alloc; change]?)?)
}

/// A piece with two changes, from tick 0 on.
pub fn pair(
    alloc: Global,
    net: u32,
    to: u32,
    first: Change,
    second: Change,
) -> Result<Piece, Fail> {
    Ok(Piece::new(net, 0, to, vec![in alloc; first, second]?)?)
}
