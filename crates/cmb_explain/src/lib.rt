//! What each fault of a simulation means, where it stands and what to do about it: the one table that the program, its
//! documents and the library's texts share.
#![tactic(auto)]

pub mod explanation;
mod netlist;
mod running;
mod settings;
mod tables;
mod text;

pub use explanation::{Explanation, Place, explanation_of};
pub use text::{explained, fault_list};
