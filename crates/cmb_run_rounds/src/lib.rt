//! Runs in rounds: in each, every worker steps its clusters, and then what is new is passed on.
#![tactic(auto)]

mod collected;
mod gauge;
mod round_worker;
pub mod rounds;

pub use rounds::{Run, run_rounds};
