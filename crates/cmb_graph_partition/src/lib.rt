//! Partitions of a netlist among logical processes, cut at flip-flops, with gates computed in several parts.
#![tactic(auto)]

mod check;
mod classes;
mod clusters;
pub mod cut;
mod driven;
mod families;
mod forest;
mod lists;
pub mod loads;
mod members;
mod moves;
mod parts;
mod reach;
mod reader_graph;
mod seen_set;
pub mod shares;
mod sinks;
pub mod structure;

pub use cut::{MOST_SHARES, partition};
pub use loads::{load, total};
pub use shares::{Partition, Share, whole_partition};
pub use structure::{Structure, structure_of};
