//! The part of a design on which chosen nets depend, how active these are, and what was expected of them.
#![tactic(auto)]

pub mod activities;
pub mod expectations;
pub mod part;

pub use activities::chosen_activity_text;
pub use expectations::expected_differences;
pub use part::{Part, part_of};
