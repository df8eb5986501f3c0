//! The program's calls of the operating system: files, printed texts, what a run took, and the exit status.
#![tactic(auto)]

pub mod files;
pub mod measures;
pub mod statuses;

pub use files::{OpenFiles, Refusal, kept, notes_of, open_files, told_of};
pub use measures::{Times, stats_of};
pub use statuses::{help, no_words, on_terminal, print_fault, refuse, refuse_clock, status_of};
