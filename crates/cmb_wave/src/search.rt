//! Looking up a tick in a list of changes, by binary search.

ghost use Rattle.std.specs.Prelude.{◌≡◌, ◌≤◌, length, take, drop};
ghost use Rattle.cmb_wave.specs.Waveform.{below, last_level, at_or_after, Rises};

use crate::level::{Change, Level};

/// How many changes stand below `tick`, which is the place of the first one that doesn't.
pub(crate) fn count_below(changes: &[Change], tick: u32) -> usize
    requires { Rises 0 changes.now }
    ensures count { result ≡ below tick changes.now }
    ensures bound { result ≤ length changes.now }
{
    changes.partition_point(|change| change.tick < tick)
}

/// The level after the first `count` changes, `before` where `count` is 0.
#[tactic(auto, using(crate::proofs::Lists::last_level_take))]
pub fn level_after(before: Level, changes: &[Change], count: usize) -> Level
    requires { count ≤ length changes.now }
    ensures { result ≡ last_level before (take count changes.now) }
{
    if count == 0 {
        before
    } else {
        changes[count - 1].level
    }
}

/// The changes at or after `tick`.
#[tactic(auto, using(crate::proofs::Lists::slice_from))]
pub(crate) fn since(changes: &[Change], tick: u32) -> &[Change]
    requires { Rises 0 changes.now }
    ensures { result.now ≡ at_or_after tick changes.now }
{
    let first = count_below(changes, tick);
    &changes[first..]
}

/// The changes of a list at or after some tick, and the level before the first of them.
#[derive(Clone, Copy)]
pub struct Rest<'a> {
    pub level: Level,
    pub changes: &'a [Change],
}

/// What is left of a list of changes from `tick` on, where `before` is the level before its first change.
pub fn left_from(before: Level, changes: &[Change], tick: u32) -> Rest<'_>
    requires { Rises 0 changes.now }
    ensures level { result.level ≡ last_level before (take (below tick changes.now) changes.now) }
    ensures changes { result.changes.now ≡ drop (below tick changes.now) changes.now }
{
    let count = count_below(changes, tick);
    Rest {
        level: level_after(before, changes, count),
        changes: &changes[count..],
    }
}
