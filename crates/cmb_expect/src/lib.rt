//! What was expected of a run, compared with it.
#![tactic(auto)]

pub mod observe;
mod probe;
pub mod text;
mod trace;

pub use observe::levels_found;
pub use text::{Differences, differing_rows};
