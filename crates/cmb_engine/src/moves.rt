//! What stands in words where a window begins, and which slots have news then.

ghost use Rattle.std.specs.Prelude.{◌≡◌, ◌≢◌, ℕ, ◌+◌, ◌*◌, ◌<◌, ◌≤◌, ◌⊎◌, true, length, min};
ghost use Rattle.cmb_engine.specs.Inner.Batches.{Moves};
ghost use Rattle.cmb_engine.specs.Inner.Bits.{has};
ghost use Rattle.cmb_engine.specs.Inner.Cells.{AreBelow, AreMarked, HaveReaders, IsSteadyFrom, readers_at};
ghost use Rattle.cmb_engine.specs.Inner.Circuits.{AreQuiet};
ghost use Rattle.cmb_engine.specs.Inner.Orders.{rank_in};
ghost use Rattle.cmb_engine.specs.Inner.Words.{levels_of};

use crate::fanout::Fanout;
use crate::marks::{Marked, Marks};
use crate::settle::mark_all;
use crate::words::Words;
use cmb_words::Places;

// Moves the word of a slot on, and marks what reads it where it changes at a place or after it. Whether it has one
// level in all places then.
#[inline]
fn move_slot(
    words: &mut Words,
    slot: usize,
    fanout: &Fanout,
    marks: &mut Marks,
    ticks: u32,
    first: u32,
) -> bool
    requires slot { slot < length words.old }
    requires list { rank_in fanout.now.order slot < length fanout.now.gates }
    requires within { AreBelow (64 * length marks.old) fanout.now.gates }
    requires ticks { ticks < 64 }
    requires begun { 1 ≤ first }
    requires first { first < 64 }
    ensures len { length words.new ≡ length words.old }
    ensures room { length marks.new ≡ length marks.old }
    ensures kept { (m : ℕ) → has marks.old m ≡ true → has marks.new m ≡ true }
    ensures others { (m place : ℕ) → m ≢ slot → levels_of words.new m place ≡ levels_of words.old m place }
    ensures moved { (place : ℕ) → place < 64
        → levels_of words.new slot place ≡ levels_of words.old slot (min (place + ticks) 63) }
    ensures steady { result ≡ true → IsSteadyFrom (levels_of words.new slot) 1 }
    ensures news { IsSteadyFrom (levels_of words.new slot) first
        ⊎ AreMarked (has marks.new) (readers_at fanout.now.order fanout.now.gates slot) }
{
    let word = words.get(slot).advanced(ticks);
    words.set(slot, word);
    let is_still = word.is_steady_from(1);
    if !is_still && !word.is_steady_from(first) {
        mark_all(marks, fanout.gates_of(slot));
    }
    is_still
}

// Moves the words of some slots on, and marks what reads those that change at a place or after it. The places of those
// that have one level in all places then.
fn move_any(
    words: &mut Words,
    batch: Marked,
    fanout: &Fanout,
    marks: &mut Marks,
    ticks: u32,
    first: u32,
) -> u64
    requires lists { HaveReaders fanout.now.order fanout.now.gates (length words.old) }
    requires within { AreBelow (64 * length marks.old) fanout.now.gates }
    requires ticks { ticks < 64 }
    requires begun { 1 ≤ first }
    requires first { first < 64 }
    ensures len { length words.new ≡ length words.old }
    ensures moves { Moves (readers_at fanout.now.order fanout.now.gates) batch.base batch.places result
        (length words.old) ticks first marks.old marks.new (levels_of words.old) (levels_of words.new) }
{
    let mut steady = 0;
    for place in Places::of(batch.places) {
        let slot = batch.base + place as usize;
        if slot < words.len() && move_slot(words, slot, fanout, marks, ticks, first) {
            steady |= 1 << place;
        }
    }
    steady
}

// The same, by the quicker way where no level is x.
fn move_word(
    words: &mut Words,
    batch: Marked,
    fanout: &Fanout,
    marks: &mut Marks,
    ticks: u32,
    first: u32,
) -> u64
    requires lists { HaveReaders fanout.now.order fanout.now.gates (length words.old) }
    requires within { AreBelow (64 * length marks.old) fanout.now.gates }
    requires ticks { ticks < 64 }
    requires begun { 1 ≤ first }
    requires first { first < 64 }
    ensures len { length words.new ≡ length words.old }
    ensures moves { Moves (readers_at fanout.now.order fanout.now.gates) batch.base batch.places result
        (length words.old) ticks first marks.old marks.new (levels_of words.old) (levels_of words.new) }
{
    match words.move_known(batch, fanout, marks, ticks, first) {
        Some(steady) => steady,
        None => move_any(words, batch, fanout, marks, ticks, first),
    }
}

/// Moves the words on by so many ticks: the levels of the live slots go to earlier places, and behind them the last one
/// is repeated. A slot that has one level in all places then isn't live any more. What reads a live one is marked, if
/// its word changes at a place or after it.
#[inline(never)]
pub(crate) fn move_on(
    words: &mut Words,
    live: &mut Marks,
    fanout: &Fanout,
    marks: &mut Marks,
    ticks: u32,
    first: u32,
)
    requires some { 1 ≤ ticks }
    requires ticks { ticks < 64 }
    requires begun { 1 ≤ first }
    requires first { first < 64 }
    requires live { length words.old ≤ 64 * length live.old }
    requires lists { HaveReaders fanout.now.order fanout.now.gates (length words.old) }
    requires within { AreBelow (64 * length marks.old) fanout.now.gates }
    requires quiet { AreQuiet (levels_of words.old) (has live.old) (length words.old) }
    ensures len { length words.new ≡ length words.old }
    ensures live { length live.new ≡ length live.old }
    ensures room { length marks.new ≡ length marks.old }
    ensures kept { (m : ℕ) → has marks.old m ≡ true → has marks.new m ≡ true }
    ensures moved { (slot place : ℕ) → place < 64
        → levels_of words.new slot place ≡ levels_of words.old slot (min (place + ticks) 63) }
    ensures quiet { AreQuiet (levels_of words.new) (has live.new) (length words.old) }
    ensures news { (slot : ℕ) → slot < length words.old → has live.new slot ≡ true
        → IsSteadyFrom (levels_of words.new slot) first
        ⊎ AreMarked (has marks.new) (readers_at fanout.now.order fanout.now.gates slot) }
{
    let mut from = 0;
    'words: while let Some(batch) = live.next_word(&mut from, words.len()) {
        let steady = move_word(words, batch, fanout, marks, ticks, first);
        live.take_places(batch.base / 64, steady);
    }
}
