//! What a design is made of, in numbers: nets by their drivers, inputs that nothing drives, feedback loops, the
//! largest delay, the longest path, clocks and rows.
#![tactic(auto)]

mod arrivals;
pub mod clock_paths;
pub mod clocks;
mod components;
pub mod counts;
pub mod drivers;
pub mod findings;
mod largest;
pub mod loops;
pub mod paths;
mod text;
pub mod unused;

pub use clock_paths::{ClockPaths, paths_by_clock, paths_of};
pub use clocks::count_clocks;
pub use cmb_graph::Steps;
pub use counts::{Counts, GateCounts, count_design};
pub use drivers::{DriverKind, count_drivers, count_silent, count_still, is_silent_input};
pub use findings::{Finding, Findings, findings_of, found_nets};
pub use largest::largest_delay;
pub use loops::count_loops;
pub use paths::{Between, Longest, longest_path};
pub use text::counts_text;
pub use unused::count_unused;
