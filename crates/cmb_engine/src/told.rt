//! The events of slots in a window.

ghost use Rattle.std.specs.Prelude.{◌≡◌, ℕ, ◌+◌, ◌-◌, ◌*◌, ◌<◌, ◌≤◌, ◌∷◌, All, Contains, length};
ghost use Rattle.cmb_wheel.specs.declared.event.LevelEvent.{LevelEvent};
ghost use Rattle.cmb_engine.specs.Inner.Bits.{has};
ghost use Rattle.cmb_engine.specs.Inner.Cells.{AreBelow, AreMarked, HaveReaders, readers_at};
ghost use Rattle.cmb_engine.specs.Inner.Tells.{told_level};
ghost use Rattle.cmb_engine.specs.Inner.Words.{levels_of, Writes};

use crate::fanout::Fanout;
use crate::marks::Marks;
use crate::settle::put_word;
use crate::words::Words;
use cmb_wheel::LevelEvent;

/// Writes events into the words that end before a tick, and marks who reads the slots of these events.
#[inline(never)]
pub(crate) fn write_told(
    tells: &[LevelEvent],
    fanout: &Fanout,
    words: &mut Words,
    live: &mut Marks,
    marks: &mut Marks,
    to: u32,
)
    requires slots { (event : LevelEvent) → Contains tells.now event
        → (event.slot < length words.old) × (1 ≤ event.tick) × (to ≤ event.tick + 64) × (event.tick < to) }
    requires lists { HaveReaders fanout.now.order fanout.now.gates (length words.old) }
    requires within { AreBelow (64 * length marks.old) fanout.now.gates }
    requires live { length words.old ≤ 64 * length live.old }
    requires to { to ≤ 1000000 }
    ensures writes { Writes words.old words.new live.old live.new marks.old marks.new }
    ensures words { (slot place : ℕ) → slot < length words.old → place < 64 → levels_of words.new slot place
        ≡ told_level tells.now slot (levels_of words.old slot place) (to + place - 64) }
    ensures news { (event : LevelEvent) → Contains tells.now event
        → AreMarked (has marks.new) (readers_at fanout.now.order fanout.now.gates event.slot) }
{
    for event in tells {
        let slot = event.slot as usize;
        let word = words.get(slot).with_from(event.tick + 64 - to, event.level);
        put_word(slot, word, fanout.gates_of(slot), words, live, marks);
    }
}
