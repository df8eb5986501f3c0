//! Words of levels: sixty-four ticks of one net in two machine words, so that one instruction works on all of them.
//!
//! This is bit-parallel simulation with delays, in which a word holds the levels of one net at neighbouring ticks:
//! P. M. Maurer and Z. Wang, *Techniques for unit-delay compiled simulation*, DAC 1990. As there are three levels, a
//! word is two planes: the places that are 1, and those that are x.
//!
//! The levels stand at *places* 0 to 63, by rising tick; which tick place 0 is, the caller knows. Each call's contract
//! speaks of levels, place by place.
#![tactic(auto)]

mod bits;
pub mod changed;
pub mod gates;
pub mod hold;
pub mod laws;
pub mod masks;
pub mod places;
pub mod splice;
pub mod word;

pub use changed::Changed;
pub use gates::{completed, completed_known, gate1, gate2, gate2_known, join, join_known};
pub use hold::{held, held_known};
pub use masks::{every, lowest, without_lowest};
pub use places::Places;
pub use splice::spliced;
pub use word::Word;
