//! Windows of a simulation.

ghost use Rattle.std.specs.Prelude.{◌≡◌, ℕ, ◌+◌, ◌-◌, ◌*◌, ◌<◌, ◌≤◌, false, length, Contains};
ghost use Rattle.cmb_wave.specs.declared.level.Level.{Level};
ghost use Rattle.cmb_wheel.specs.declared.event.LevelEvent.{LevelEvent};
ghost use Rattle.cmb_engine.specs.Inner.Bits.{has};
ghost use Rattle.cmb_engine.specs.Inner.Cells.{cell_at, is_made};
ghost use Rattle.cmb_engine.specs.Inner.Circuits.{AreQuiet, IsWiring, MeetsCells, Shows};
ghost use Rattle.cmb_engine.specs.Inner.Gifts.{AreGiven};
ghost use Rattle.cmb_engine.specs.Inner.Roles.{AreToldNets, gives};
ghost use Rattle.cmb_engine.specs.Inner.Tells.{AreOfWindow};
ghost use Rattle.cmb_engine.specs.Inner.Words.{levels_of};

use crate::flops::mark_arrivals;
use crate::given::write_given;
use crate::marks::Marks;
use crate::moves::move_on;
use crate::role::Role;
use crate::settle::settle;
use crate::told::write_told;
use crate::wiring::Wiring;
use crate::words::Words;
use cmb_wheel::LevelEvent;
use cmb_words::Changed;

/// Goes on by a window of so many ticks, up to the clock `to`, where the events are those of its ticks, and what others
/// drive is given: words that show what the slots do up to the clock before show it up to this one then.
pub(crate) fn go_on(
    wiring: &Wiring,
    tells: &[LevelEvent],
    given: &[Changed],
    words: &mut Words,
    live: &mut Marks,
    marks: &mut Marks,
    ticks: u32,
    to: u32,
)
    requires wiring { IsWiring wiring.now.cells wiring.now.fanout.order wiring.now.fanout.nodes wiring.now.fanout.gates
        wiring.now.fanout.flops wiring.now.flops.items wiring.now.most }
    requires gives { AreToldNets wiring.now.cells wiring.now.roles.items }
    requires nets { length wiring.now.cells ≡ length words.old }
    requires room { length wiring.now.fanout.order.slots ≤ 64 * length marks.old }
    requires live { length words.old ≤ 64 * length live.old }
    requires some { 1 ≤ ticks }
    requires fits { ticks + wiring.now.most ≤ 63 }
    requires later { ticks < to }
    requires to { to ≤ 1000000 }
    requires quiet { AreQuiet (levels_of words.old) (has live.old) (length words.old) }
    requires told { (event : LevelEvent) → Contains tells.now event
        → (event.slot < length words.old) × (is_made (cell_at wiring.now.cells event.slot) ≡ false)
        × (to ≤ event.tick + ticks) × (event.tick < to) }
    ensures len { length words.new ≡ length words.old }
    ensures room { length marks.new ≡ length marks.old }
    ensures live { length live.new ≡ length live.old }
    ensures quiet { AreQuiet (levels_of words.new) (has live.new) (length words.old) }
    ensures shows { (trace : ℕ → ℕ → Level) → MeetsCells trace (cell_at wiring.now.cells)
        → Shows (levels_of words.old) trace (length words.old) (to - ticks)
        → AreOfWindow trace (cell_at wiring.now.cells) (gives wiring.now.roles.items) (length words.old) (to - ticks) to
        tells.now
        → AreGiven trace wiring.now.roles.items (to - ticks) to given.now
        → Shows (levels_of words.new) trace (length words.old) to }
{
    let first = 64 - ticks;
    let fanout = &wiring.fanout;
    move_on(words, live, fanout, marks, ticks, first - wiring.most);
    write_told(tells, fanout, words, live, marks, to);
    write_given(given, &wiring.roles, fanout, words, live, marks, first);
    let opened = mark_arrivals(
        wiring.flops.as_slice(),
        &wiring.fanout.order,
        words,
        marks,
        to,
        first,
    );
    settle(wiring, opened, words, marks, live, to, first);
}
