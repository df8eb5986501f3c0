//! The value change dump of a run, window by window, from the words of the nets that changed in each.
#![tactic(auto)]

mod bucket;
pub mod dump;
mod fill;
mod mark;
mod pick;
mod room;
pub mod shown;
mod tail;
mod tails;
mod text;

pub use dump::Dump;
pub use shown::Shown;
