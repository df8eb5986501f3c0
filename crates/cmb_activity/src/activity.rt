//! What is counted of a net.

/// What is counted of a net in a run: the toggle count and the durations of states of the switching activity format
/// (SAIF, IEEE 1801), in ticks.
#[derive(Clone, Copy, PartialEq, Eq)]
pub struct Activity {
    /// How often it changes after tick 0.
    pub changes: u32,
    /// At how many ticks it is 0.
    pub low: u32,
    /// At how many ticks it is 1.
    pub high: u32,
    /// At how many ticks it is x.
    pub unknown: u32,
}
