//! Calendars.

ghost use Rattle.std.specs.Prelude.{◌≡◌, ◌≤◌, IfOk, OnOk};

use crate::checks::holds;
use cmb_wave::Level;
use cmb_wheel::{Calendar, LevelEvent};
use std::alloc::{AllocError, Global};

const EARLY: LevelEvent = LevelEvent {
    tick: 1,
    slot: 2,
    level: Level::X,
};

const NEXT: LevelEvent = LevelEvent {
    tick: 9,
    slot: 1,
    level: Level::Zero,
};

const LATE: LevelEvent = LevelEvent {
    tick: 128,
    slot: 0,
    level: Level::One,
};

const OUTSIDE: LevelEvent = LevelEvent {
    tick: 130,
    slot: 0,
    level: Level::Zero,
};

/// A calendar up to tick 130, with four tells.
fn noted(alloc: Global) -> Result<Calendar, AllocError>
    ensures horizon { IfOk result (λ calendar. calendar.horizon ≡ 130) }
    ensures clock { IfOk result (λ calendar. calendar.clock ≡ 0) }
{
    let mut calendar = Calendar::open(alloc, 130)?;
    for tell in [LATE, NEXT, OUTSIDE, EARLY] {
        calendar.note(tell)?;
    }
    Ok(calendar)
}

/// Whether these tells are those below a tick. What the list held before is forgotten.
fn takes(
    calendar: &mut Calendar,
    upto: u32,
    taken: &mut Vec<LevelEvent>,
    tells: &[LevelEvent],
) -> Result<bool, AllocError>
    requires later { calendar.old.clock ≤ upto }
    requires within { upto ≤ calendar.old.horizon }
    ensures horizon { OnOk result (calendar.new.horizon ≡ calendar.old.horizon) }
    ensures clock { OnOk result (calendar.new.clock ≡ upto) }
{
    calendar.take(upto, taken)?;
    Ok(taken.as_slice() == tells)
}

/// Whether what is told comes by rising ticks when its tick was passed, whether a list of 64 ticks is taken in parts or
/// several are at once, and the tell at tick 130 is gone.
fn goes_on(alloc: Global, calendar: &mut Calendar) -> Result<bool, AllocError>
    requires horizon { calendar.old.horizon ≡ 130 }
    requires clock { calendar.old.clock ≡ 0 }
{
    let mut taken = Vec::new(alloc);
    let none = takes(calendar, 1, &mut taken, &[])?;
    let first = takes(calendar, 9, &mut taken, &[EARLY])?;
    let second = takes(calendar, 129, &mut taken, &[NEXT, LATE])?;
    let last = takes(calendar, 130, &mut taken, &[])?;
    Ok(none && first && second && last && calendar.horizon() == 130)
}

fn are_in_order(alloc: Global) -> Result<bool, AllocError> {
    let mut calendar = noted(alloc)?;
    goes_on(alloc, &mut calendar)
}

#[test]
fn tells_come_in_order(rt: HostRuntime) -> Result<(), AllocError> {
    holds(&rt, are_in_order(rt.alloc())?);
    Ok(())
}
