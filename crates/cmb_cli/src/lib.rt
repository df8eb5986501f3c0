//! The program's command line: what its words ask for, and what is said of words that ask for nothing.
#![tactic(auto)]

mod clock;
mod explaining;
mod help;
mod options;
pub mod reading;
mod reporting;

pub use reading::{LineFault, line_message, read_line};
