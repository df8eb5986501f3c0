//! Nets in feedback loops: the strongly connected components of a netlist.
#![tactic(auto)]

pub mod loops;
mod part;
mod path;
mod search;
pub mod steps;

pub use loops::{nets_in_loops, strong_components};
pub use steps::{Steps, targets_from};
