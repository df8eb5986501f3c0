//! What is collected of a run, and its text as a value change dump.
#![tactic(auto)]

pub mod chosen;
pub mod collector;
pub mod examples;
pub mod fault;
pub mod laws;
pub mod lines;
pub mod ready_codes;
pub mod text;
mod ticks;
mod value_changes;
pub mod writer;

pub use chosen::vcd_text_of;
pub use collector::Collector;
pub use fault::CollectFault;
pub use text::vcd_text;
pub use writer::VcdWriter;
