//! The tables of delays, stimuli, clocks and first levels, read from their texts.
#![tactic(auto)]

mod fields;
pub mod laws;
pub mod readers;
mod records;
mod table;

pub use readers::{read_clocks, read_delays, read_initial, read_stimuli};
