//! The engine of a simulation: it goes on window by window, on words of 64 ticks.
#![tactic(auto)]

mod ahead;
mod arrivals;
mod bits;
mod cell;
mod cells;
mod circuit;
mod collect;
pub mod engine;
mod exports;
mod fanout;
mod flags;
mod flops;
mod given;
mod group;
mod known;
mod known_passes;
pub mod laws;
mod lines;
mod marks;
mod moves;
mod nodes;
mod open;
mod order;
mod plan;
mod readers;
mod role;
mod settle;
pub mod share;
mod sharing;
pub mod start;
mod state;
mod stimuli;
mod told;
mod visit;
mod walk;
mod wanted;
mod window;
pub mod windows;
mod wiring;
mod words;

pub use engine::Engine;
pub use share::ShareEngine;
pub use start::start_level;
pub use windows::Windows;
