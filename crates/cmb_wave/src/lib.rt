//! Waves of logic levels as lists of changes: pieces of a net's waveform, what is known of it, and promises.
#![tactic(auto)]

pub mod laws;
pub mod level;
pub mod piece;
pub mod search;
pub mod wave;

pub use level::{Change, Heard, Level, Promise};
pub use piece::{Piece, PieceFault};
pub use wave::{Wave, WaveFault};
