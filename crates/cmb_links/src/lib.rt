//! What the threads of a run share: a board of promises in atomic words, and bounded links for pieces.
#![tactic(auto)]

mod board;
mod end;
mod fault;
mod link;
mod view;
mod workers;

pub use board::{Board, Ending, Seat};
pub use cmb_netlist::PartCount;
pub use fault::{LinkFault, WorkersFault};
pub use link::{Full, Link, PutPass, TakePass};
pub use workers::Workers;
