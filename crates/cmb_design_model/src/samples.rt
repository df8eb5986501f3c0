//! Sample ticks, and levels by their changes.

ghost use Rattle.std.specs.Prelude.{◌≡◌, ◌<◌, ◌≤◌, IfSome};
ghost use Rattle.cmb_wave.specs.declared.level.Level.TheVariants.{X};
ghost use Rattle.cmb_wave.specs.Waveform.{Rises, changes_below, level_at};
ghost use Rattle.cmb_design_model.specs.Ranges.{AreTicks};
ghost use Rattle.cmb_design_model.specs.Timing.{common_clock, last_sample, next_sample};

use crate::rows::Clock;
use cmb_wave::search::{left_from, level_after};
use cmb_wave::{Change, Level};

/// The level at a tick that changes in order tell.
pub(crate) fn level_told(changes: &[Change], tick: u32) -> Level
    requires { Rises 0 changes.now }
    ensures { result ≡ level_at X changes.now tick }
{
    let count = changes.partition_point(|change| change.tick <= tick);
    level_after(Level::X, changes, count)
}

/// The changes at ticks below this one.
pub(crate) fn told_before(changes: &[Change], tick: u32) -> &[Change]
    requires { Rises 0 changes.now }
    ensures { result.now ≡ changes_below tick changes.now }
{
    let rest = left_from(Level::X, changes, tick).changes;
    &changes[..changes.len() - rest.len()]
}

/// The clock of each flip-flop that has none of its own.
pub(crate) fn clock_for_all(clock: Option<Clock>) -> Clock
    ensures { result ≡ common_clock clock }
{
    match clock {
        None => Clock {
            first: 0,
            period: 1,
        },
        Some(clock) => Clock {
            first: clock.first,
            period: clock.period.max(1),
        },
    }
}

#[tactic(auto, unfolding(crate::specs::Timing::last_sample))]
pub(crate) fn last_at(clock: Clock, tick: u32) -> Option<u32>
    requires { 1 ≤ clock.period }
    ensures value { result ≡ last_sample clock tick }
    ensures small { IfSome result (λ sample. sample ≤ tick) }
{
    if tick < clock.first {
        return None;
    }
    let turns = (tick - clock.first) / clock.period;
    Some(clock.first + turns * clock.period)
}

#[tactic(auto, unfolding(crate::specs::Timing::next_sample))]
pub(crate) fn next_at(clock: Clock, tick: u32) -> u32
    requires clock { AreTicks clock.first clock.period }
    requires tick { tick ≤ 1000000 }
    ensures value { result ≡ next_sample clock tick }
    ensures small { (tick ≤ result) × (result < 2000000) }
{
    let wait = tick.saturating_sub(clock.first);
    let turns = (wait + (clock.period - 1)) / clock.period;
    clock.first + turns * clock.period
}
