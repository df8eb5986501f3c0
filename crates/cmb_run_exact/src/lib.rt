//! What runs of workers stand on: clusters and pieces that are exact in the run's design by their type, and faults.
#![tactic(auto)]

pub mod cluster_run;
pub mod exact_cluster;
pub mod run_fault;

pub use cluster_run::ClusterRun;
pub use exact_cluster::{ExactCluster, Posted};
pub use run_fault::RunFault;
