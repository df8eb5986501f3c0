//! Events in the order of their ticks.

ghost use Rattle.std.specs.Prelude.{◌↔◌, Contains, OnOk};
ghost use Rattle.cmb_wheel.specs.Calendars.{AreInOrder};
ghost use Rattle.cmb_wheel.specs.declared.event.LevelEvent.{LevelEvent};

use crate::event::LevelEvent;
use std::alloc::AllocError;

/// Puts events in the order of their ticks. Mostly they are in it already.
pub(crate) fn put_in_order(tells: &mut Vec<LevelEvent>) -> Result<(), AllocError>
    ensures same { (event : LevelEvent) → Contains tells.new.items event ↔ Contains tells.old.items event }
    ensures order { OnOk result (AreInOrder tells.new.items) }
{
    if !tells.is_sorted_by_key(|event| event.tick) {
        tells.sort_by_key(|event| event.tick)?;
    }
    Ok(())
}
