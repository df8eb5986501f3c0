//! What is counted of a net while a run goes on.

/// What a tick at 1 adds to a tally.
pub(crate) const HIGH: u64 = 1_048_576;

/// What a tick at x adds to a tally.
pub(crate) const UNKNOWN: u64 = 1_099_511_627_776;

/// What is counted of a net in a run: of the ticks below a clock what it does there, and of those from there on up to
/// the horizon what it does if it keeps its level. So a net that doesn't change has nothing to be counted.
///
/// It is one number, since a run goes over all tallies again and again: the changes, `HIGH` for each tick at 1, and
/// `UNKNOWN` for each at x. There are less than `HIGH` ticks. At which ticks the net is 0 isn't counted: those are the
/// others.
#[derive(Clone, Copy)]
pub(crate) struct Tally {
    pub counts: u64,
}
