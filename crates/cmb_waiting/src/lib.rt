//! How a thread waits that has nothing to do: it looks again, gives the processor away, and then sleeps.
#![tactic(auto)]

pub mod idle;

pub use idle::Idle;
