//! Conservative parallel simulation after Chandy and Misra (1979) and Bryant (1977): logical processes,
//! one for each net's driver, and clusters of them.
#![tactic(auto)]

mod advance;
mod below;
pub mod cluster;
pub mod clustering;
pub mod delivery;
pub mod directory;
pub mod laws;
mod merge;
mod node;
mod open;
mod pins;
pub mod process;
mod progress;
mod readers;
mod reads;
mod span;
mod stepping;
mod trim;

pub use cluster::Cluster;
pub use clustering::{Clustering, ClusteringFault};
pub use delivery::{DeliverFault, Stranger};
