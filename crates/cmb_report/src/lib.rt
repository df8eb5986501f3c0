//! What the program says of a run beside the one line of a fault: a fault in words, with its file, its line and what
//! stands there; how far the text is meanwhile; and what the run took.
#![tactic(auto)]

mod clocks;
mod designs;
mod kinds;
pub mod laws;
mod netlist;
mod notes;
pub mod piped;
pub mod processor;
mod record;
pub mod recorded;
mod right;
mod shown;
pub mod slips;
pub mod stats;
mod table;
pub mod text_progress;
pub mod timed;
pub mod watched;
pub mod words;

pub use notes::run_notes;
pub use piped::Piped;
pub use processor::processor_of;
pub use recorded::Recorded;
pub use slips::{Late, Silent, late_path, silent_inputs};
pub use stats::{Stats, peak_of, stats_text};
pub use text_progress::TextProgress;
pub use timed::Timed;
pub use watched::{Watch, Watched};
pub use words::{Given, done_words, fault_words, input_name};
