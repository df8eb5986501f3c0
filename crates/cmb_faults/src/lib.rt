//! What comes of a whole simulation: faults with their numbers and places, and answers.
#![tactic(auto)]

pub mod answer;
pub mod fault;
pub mod laws;

pub use answer::{Comparison, Done, Report};
pub use fault::{Fault, fault_line};
