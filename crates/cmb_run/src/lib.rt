//! The door to runs: what is collected of a run, its text and the sinks that take it, runs in rounds, and free runs.
#![tactic(auto)]

pub use cmb_io::{Failed, Limited, Room, Sink, ToWriter, write_whole};
pub use cmb_run_exact::RunFault;
pub use cmb_run_free::{OpenGate, Turnstile, run_free, run_free_text};
pub use cmb_run_rounds::{Run, run_rounds};
pub use cmb_run_scopes::{Headers, headers_of, write_scoped};
pub use cmb_run_text::{CollectFault, Collector, VcdWriter, vcd_text, vcd_text_of};
