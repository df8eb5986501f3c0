//! Parts of a design: nets that ask for no others, and the design of these alone.
#![tactic(auto)]

pub mod closed;
pub mod laws;
mod part;
pub mod restriction;

pub use closed::{closure, rising};
pub use part::places_in;
pub use restriction::restrict;
