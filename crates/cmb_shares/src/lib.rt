//! The text of a run by threads of which each simulates a share of the nets, with feedback among them: each share is a
//! logical process, and a channel leads from each to each that it feeds.
#![tactic(auto)]

mod berth;
mod channel;
mod clerk;
pub mod costs;
mod desk;
mod executor;
mod feeders;
mod flow;
mod gathered;
pub mod laws;
mod message;
pub mod opening;
mod part;
mod share_run;
mod shelf;
mod simulator;
mod stages;
mod station;
mod stations;
pub mod team;
pub mod text;

pub use costs::costs_of;
pub use opening::Shares;
pub use team::write_team;
pub use text::write_shares;
