//! When samples arrive in a window.

ghost use Rattle.std.specs.Prelude.{◌≡◌, ℕ, ◌+◌, ◌-◌, ◌%◌, ◌<◌, ◌≤◌, ◌&&◌, ◌==◌, nat_le};
ghost use Rattle.cmb_engine.specs.Inner.Arrivals.{IsArrival};
ghost use Rattle.cmb_engine.specs.Inner.Cells.{IsPace};
ghost use Rattle.cmb_engine.specs.Rows.{arrives_by};
ghost use Rattle.cmb_engine.specs.Inner.Windows.{HasWindow};

use cmb_design_model::Clock;

/// When the samples of a clock, some ticks after they were taken, arrive first in a window. Flip-flops that are visited
/// one after another mostly have the same clock and delay, so that what was worked out for one serves the next.
#[derive(Clone, Copy)]
pub(crate) struct Arrival {
    pub clock: Clock,
    pub delay: u32,
    pub place: u32,
}

/// The first place, from one on, at which a flip-flop with this clock and delay gets a sample, in the words that end
/// before a tick; 64 or more where it gets none.
pub(crate) fn first_arrival(clock: Clock, delay: u32, to: u32, first: u32) -> u32
    requires clock { IsPace clock }
    requires delay { delay ≤ 1000000 }
    requires window { HasWindow to first }
    ensures reach { first ≤ result }
    ensures arrives { (place : ℕ) → first ≤ place → place < 64
        → arrives_by clock delay (to + place - 64) ≡ (nat_le result place && ((place - result) % clock.period == 0)) }
{
    let start = to + first - 64;
    let begin = clock.first + delay;
    if start <= begin {
        return begin - start + first;
    }
    let over = (start - begin) % clock.period;
    if over == 0 {
        first
    } else {
        first + (clock.period - over)
    }
}

/// The arrival for this clock and delay, which is the last one where that had the same.
#[inline]
pub(crate) fn arrival_of(last: Arrival, clock: Clock, delay: u32, to: u32, first: u32) -> Arrival
    requires last { IsArrival last to first }
    requires clock { IsPace clock }
    requires delay { delay ≤ 1000000 }
    requires window { HasWindow to first }
    ensures arrival { IsArrival result to first }
    ensures clock { result.clock ≡ clock }
    ensures delay { result.delay ≡ delay }
{
    if last.clock == clock && last.delay == delay {
        last
    } else {
        Arrival {
            clock,
            delay,
            place: first_arrival(clock, delay, to, first),
        }
    }
}

/// An arrival to begin a window with: that of a clock that samples at each tick.
pub(crate) fn any_arrival(to: u32, first: u32) -> Arrival
    requires window { HasWindow to first }
    ensures { IsArrival result to first }
{
    let clock = Clock {
        first: 0,
        period: 1,
    };
    Arrival {
        clock,
        delay: 0,
        place: first_arrival(clock, 0, to, first),
    }
}
