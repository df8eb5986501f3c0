//! The lists of events, one for each day.

ghost use Rattle.std.specs.Prelude.{◌≡◌, ℕ, ◌<◌, ◌≤◌, ◌↔◌, ◌++◌, ◌∷◌, [], Contains, IfOk, OnErr, OnOk, length, map};
ghost use Rattle.std.specs.Prelude.{replicate, slice_index_or, slice_set};
ghost use Rattle.cmb_wheel.specs.Inner.Days.{early_of, Clears, IsEarly};
ghost use Rattle.cmb_wheel.specs.declared.event.LevelEvent.{LevelEvent};

use crate::event::LevelEvent;
use std::alloc::{AllocError, Global};

/// So many days without events.
pub(crate) fn empty_days(alloc: Global, count: usize) -> Result<Vec<Vec<LevelEvent>>, AllocError>
    ensures { IfOk result (λ days. map (λ list. list.items) days.items ≡ replicate count []) }
{
    let mut days = Vec::with_capacity(alloc, count)?;
    for _ in 0..count {
        days.push(Vec::new(alloc))?;
    }
    Ok(days)
}

// Gives a day of which nothing is told the room of the last past one.
fn give_room(days: &mut [Vec<LevelEvent>], next: usize, day: usize)
    requires day { day < length days.old }
    requires later { next ≤ day }
    requires past { (place : ℕ) → place < next
        → length (slice_index_or (map (λ list. list.items) days.old) place []) ≡ 0 }
    ensures { map (λ list. list.items) days.new ≡ map (λ list. list.items) days.old }
{
    if next > 0 && days[day].is_empty() {
        days.swap(next - 1, day);
    }
}

/// Adds an event to those of a day, where the lists of the days before `next` are empty.
pub(crate) fn push_event(
    days: &mut [Vec<LevelEvent>],
    next: usize,
    day: usize,
    event: LevelEvent,
) -> Result<(), AllocError>
    requires day { day < length days.old }
    requires later { next ≤ day }
    requires past { (place : ℕ) → place < next
        → length (slice_index_or (map (λ list. list.items) days.old) place []) ≡ 0 }
    ensures added { OnOk result (map (λ list. list.items) days.new ≡ slice_set (map (λ list. list.items) days.old) day
        (slice_index_or (map (λ list. list.items) days.old) day [] ++ event ∷ [])) }
    ensures failed { OnErr result (map (λ list. list.items) days.new ≡ map (λ list. list.items) days.old) }
{
    give_room(days, next, day);
    days[day].push(event)?;
    Ok(())
}

// Adds the events of a list that are below a tick.
fn push_early(list: &[LevelEvent], upto: u32, taken: &mut Vec<LevelEvent>) -> Result<(), AllocError>
    ensures { OnOk result (taken.new.items ≡ taken.old.items ++ early_of upto list.now) }
{
    for event in list {
        if event.tick < upto {
            taken.push(*event)?;
        }
    }
    Ok(())
}

/// The events of the days from one on and before another that are below a tick, in place of what `taken` held.
pub(crate) fn collect_early(
    days: &[Vec<LevelEvent>],
    first: usize,
    end: usize,
    upto: u32,
    taken: &mut Vec<LevelEvent>,
) -> Result<(), AllocError>
    requires order { first ≤ end }
    requires within { end ≤ length days.now }
    ensures { OnOk result ((event : LevelEvent) → Contains taken.new.items event
        ↔ IsEarly (map (λ list. list.items) days.now) first end upto event) }
{
    taken.clear();
    for day in first..end {
        push_early(&days[day], upto, taken)?;
    }
    Ok(())
}

/// Removes from the days from one on and before another the events below a tick.
pub(crate) fn remove_early(days: &mut [Vec<LevelEvent>], first: usize, end: usize, upto: u32)
    requires order { first ≤ end }
    requires within { end ≤ length days.old }
    ensures { Clears first end upto (map (λ list. list.items) days.old) (map (λ list. list.items) days.new) }
{
    for day in first..end {
        days[day].retain(|event| upto <= event.tick);
    }
}
