//! Events by days.

use crate::days::{collect_early, empty_days, push_event, remove_early};
use crate::event::LevelEvent;
use crate::order::put_in_order;
use std::alloc::{AllocError, Global};
use std::marker::Model;

/// The ticks of a day.
const DAY: u32 = 64;

/// The events of the ticks from a clock on and below a horizon.
#[derive(Drop)]
pub struct Calendar {
    horizon: u32,
    clock: u32,
    days: Vec<Vec<LevelEvent>>,
}

impl Model for Calendar {
    ghost use Rattle.std.specs.Prelude.{map};
    ghost use Rattle.cmb_wheel.specs.Calendars.{Calendar};

    ghost Value = { Calendar };

    ghost use Rattle.cmb_wheel.specs.Inner.Days.{AreDays, tells_of};

    ghost view = { λ a. record {
      horizon = a.horizon;
      clock = a.clock;
      tells = tells_of (map (λ list. list.items) a.days.items);
    } };

    ghost invariant = { λ a. AreDays a.horizon a.clock (map (λ list. list.items) a.days.items) };
}

impl Calendar {
    ghost use Rattle.std.specs.Prelude.{◌≡◌, ◌<◌, ◌≤◌, [], IfOk, OnErr, OnOk};
    ghost use Rattle.cmb_wheel.specs.Calendars.{AreInOrder, Notes, SameTicks, Takes};

    /// A calendar with nothing in it, from tick 0 on.
    pub fn open(alloc: Global, horizon: u32) -> Result<Calendar, AllocError>
        requires short { horizon ≤ 1000000 }
        ensures horizon { IfOk result (λ calendar. calendar.horizon ≡ horizon) }
        ensures clock { IfOk result (λ calendar. calendar.clock ≡ 0) }
        ensures tells { IfOk result (λ calendar. calendar.tells ≡ []) }
    {
        let days = empty_days(alloc, (horizon / DAY) as usize + 1)?;
        Ok(Calendar {
            horizon,
            clock: 0,
            days,
        })
    }

    /// The tick below which all ticks are.
    pub fn horizon(&self) -> u32
        ensures { result ≡ self.now.horizon }
    {
        self.horizon
    }

    /// Schedules an event at a tick from the clock on. One at the horizon or behind it is forgotten.
    pub fn note(&mut self, event: LevelEvent) -> Result<(), AllocError>
        requires later { self.old.clock ≤ event.tick }
        ensures notes { OnOk result (Notes self.old self.new event) }
        ensures ticks { SameTicks self.old self.new }
    {
        if event.tick < self.horizon {
            let next = (self.clock / DAY) as usize;
            push_event(&mut self.days, next, (event.tick / DAY) as usize, event)?;
        }
        Ok(())
    }

    /// Takes out the events below the tick `upto`, which is the clock then, in the order of the ticks. What `taken`
    /// held is forgotten. It looks at the days of these ticks alone.
    pub fn take(&mut self, upto: u32, taken: &mut Vec<LevelEvent>) -> Result<(), AllocError>
        requires later { self.old.clock ≤ upto }
        requires within { upto ≤ self.old.horizon }
        ensures takes { OnOk result (Takes upto self.old self.new taken.new.items) }
        ensures order { OnOk result (AreInOrder taken.new.items) }
        ensures failed { OnErr result (self.new ≡ self.old) }
    {
        let first = (self.clock / DAY) as usize;
        let end = (upto / DAY) as usize + 1;
        collect_early(&self.days, first, end, upto, taken)?;
        put_in_order(taken)?;
        remove_early(&mut self.days, first, end, upto);
        self.clock = upto;
        Ok(())
    }
}
