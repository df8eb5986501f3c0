//! Free runs: workers that simulate clusters without rounds, and exchange messages and null messages while they run.
#![tactic(auto)]

mod backlog;
mod collect;
mod crew;
mod ends;
mod outbound;
mod passing;
mod run;
mod text_run;
mod text_writer;
mod threads;
mod turnstile;
mod worker;
mod worker_seat;

pub use run::run_free;
pub use text_run::run_free_text;
pub use turnstile::{OpenGate, Turnstile};
