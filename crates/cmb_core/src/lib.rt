//! The door to the protocol of Chandy and Misra and of Bryant: clusters of logical processes, the events between them,
//! and worlds in which these events can happen in any order.
#![tactic(auto)]

pub use cmb_core_cluster::{Cluster, Clustering, ClusteringFault, DeliverFault, Stranger};
pub use cmb_core_protocol::{Event, PlayFault, Reply};
pub use cmb_core_world::World;
pub use cmb_netlist::PartCount;
