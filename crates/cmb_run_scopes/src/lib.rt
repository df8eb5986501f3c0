//! The declarations of a text with scopes: names are parted into modules, and bits are put together as buses.
#![tactic(auto)]

mod bits;
mod grouping;
pub mod header;
pub mod laws;
mod parts;
mod references;
pub mod writing;

pub use header::{Headers, headers_of};
pub use writing::write_scoped;
