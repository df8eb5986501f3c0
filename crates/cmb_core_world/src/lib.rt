//! Worlds of clusters in one thread, in which the events of the protocol can happen: the headline, that no order of
//! events can make a wrong waveform, is theirs.
#![tactic(auto)]

pub mod laws;
mod play;
mod rounds;
pub mod world;

pub use world::World;
