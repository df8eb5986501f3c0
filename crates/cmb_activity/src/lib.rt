//! The switching activity of nets: how often each changes, and at how many ticks it is 0, 1 and x.
#![tactic(auto)]

mod activity;
mod counting;
mod measure;
mod tally;
pub mod text;

pub use activity::Activity;
pub use measure::activities;
pub use text::{activity_text, push_field};
