//! The state of an engine, and its way from window to window.

ghost use Rattle.std.specs.Prelude.{◌≡◌, ◌+◌, ◌<◌, ◌≤◌, OnOk};
ghost use Rattle.cmb_design_model.specs.Exact.{nets_of};
ghost use Rattle.cmb_design_model.specs.Value.{value};
ghost use Rattle.cmb_words.specs.Changes.{IsWindow};
ghost use Rattle.cmb_engine.specs.Inner.Collects.{IsWanted};
ghost use Rattle.cmb_engine.specs.Inner.Gifts.{AreGiven};
ghost use Rattle.cmb_engine.specs.Inner.Roles.{level_in};
ghost use Rattle.cmb_engine.specs.Inner.States.{IsCircuit, IsState};
ghost use Rattle.cmb_engine.specs.Shares.{EachChanges, TellsAll};

use crate::circuit::Circuit;
use crate::collect::collect;
use crate::lines::note_lines;
use crate::marks::Marks;
use crate::window::go_on;
use crate::words::Words;
use cmb_design_model::Design;
use cmb_wheel::{Calendar, LevelEvent};
use cmb_words::Changed;
use std::alloc::AllocError;

/// What changes while an engine goes on.
#[derive(Drop)]
pub(crate) struct State {
    /// The word of each slot, up to the clock.
    pub words: Words,
    /// The slots whose words aren't constant, and maybe others.
    pub live: Marks,
    /// The slots with news.
    pub marks: Marks,
    /// The events from the clock on.
    pub calendar: Calendar,
    /// A buffer for the events of a window.
    pub tells: Vec<LevelEvent>,
    /// The tick below which all slots are known.
    pub clock: u32,
}

impl State {
    /// Goes on by a window up to a tick, with the changes of given nets, and says which wanted nets changed in it.
    /// After an Err it isn't to be used again.
    pub(crate) fn advance(
        &mut self,
        design: &Design,
        circuit: &Circuit,
        upto: u32,
        given: &[Changed],
        changed: &mut Vec<Changed>,
    ) -> Result<(), AllocError>
        requires circuit { IsCircuit design.now circuit.now }
        requires state { IsState design.now circuit.now self.old }
        requires later { self.old.clock < upto }
        requires short { upto ≤ self.old.clock + circuit.now.width }
        requires within { upto ≤ design.now.horizon }
        requires given { AreGiven (value design.now) circuit.now.wiring.roles.items self.old.clock upto given.now }
        ensures state { OnOk result (IsState design.now circuit.now self.new) }
        ensures clock { OnOk result (self.new.clock ≡ upto) }
        ensures window { OnOk result (IsWindow (nets_of design.now) design.now.horizon
            self.old.clock self.new.clock changed.new.items) }
        ensures tells { OnOk result (TellsAll (IsWanted circuit.now.wanted (nets_of design.now))
            (level_in design.now circuit.now.wiring.roles.items) self.old.clock self.new.clock changed.new.items) }
        ensures changes { OnOk result (EachChanges self.old.clock self.new.clock changed.new.items) }
    {
        // The proof learns here how late the horizon is at most.
        let _horizon = design.horizon();
        let ticks = upto - self.clock;
        self.calendar.take(upto, &mut self.tells)?;
        go_on(
            &circuit.wiring,
            &self.tells,
            given,
            &mut self.words,
            &mut self.live,
            &mut self.marks,
            ticks,
            upto,
        );
        collect(
            &self.words,
            &self.live,
            &circuit.wanted,
            design.netlist().len(),
            64 - ticks,
            changed,
        )?;
        self.clock = upto;
        note_lines(
            changed,
            &circuit.followers,
            &circuit.lines,
            &mut self.calendar,
            upto,
            64 - ticks,
        )
    }
}
