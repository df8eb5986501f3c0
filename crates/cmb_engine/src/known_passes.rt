//! The passes over live slots where no level is x: of a word, the places that are 1 say all.

ghost use Rattle.std.specs.Prelude.{◌≡◌, ◌≢◌, ℕ, ◌+◌, ◌*◌, ◌%◌, ◌<◌, ◌≤◌, ◌⊎◌, false, true, length, min, OnOk};
ghost use Rattle.cmb_words.specs.Bits.{is_set_at, level_in};
ghost use Rattle.cmb_engine.specs.Inner.Batches.{Moves};
ghost use Rattle.cmb_engine.specs.Inner.Bits.{has};
ghost use Rattle.cmb_engine.specs.Inner.Cells.{AreBelow, AreMarked, HaveReaders, IsSteadyFrom, readers_at};
ghost use Rattle.cmb_engine.specs.Inner.Collects.{IsCollected};
ghost use Rattle.cmb_engine.specs.Inner.Known.{known_levels};
ghost use Rattle.cmb_engine.specs.Inner.Orders.{rank_in};

use crate::bits::Bits;
use crate::fanout::Fanout;
use crate::known::{known, places_from};
use crate::marks::{Marked, Marks};
use crate::settle::{mark_all, with_place};
use crate::wanted::wanted_among;
use cmb_netlist::MAX_NETS;
use cmb_words::{Changed, Places};
use std::alloc::AllocError;

// The ones of the word that begins so many ticks later.
#[inline]
fn advanced_ones(ones: u64, ticks: u32) -> u64
    requires { ticks < 64 }
    ensures { (i : ℕ) → i < 64 → level_in result 0 i ≡ level_in ones 0 (min (i + ticks) 63) }
{
    (ones.cast_signed() >> ticks).cast_unsigned()
}

// Whether at none of some places the level is another one than at the place before.
#[inline]
fn are_steady_at(ones: u64, places: u64) -> bool
    ensures steady { result ≡ true → (first : ℕ) → 1 ≤ first
        → ((i : ℕ) → first ≤ i → i < 64 → is_set_at places i ≡ true) → IsSteadyFrom (level_in ones 0) first }
    ensures moves { result ≡ false → (first : ℕ) → 1 ≤ first → first < 64
        → ((i : ℕ) → i < first → is_set_at places i ≡ false) → IsSteadyFrom (level_in ones 0) first → ⊥ }
{
    (ones ^ (ones << 1)) & places == 0
}

// Of some numbers the places of those below a bound.
fn places_below(batch: Marked, bound: usize) -> u64
    ensures below { (place : ℕ) → place < 64 → is_set_at result place ≡ true
        → (is_set_at batch.places place ≡ true) × (batch.base + place < bound) }
    ensures all { (place : ℕ) → place < 64 → is_set_at result place ≡ false → batch.base + place < bound
        → is_set_at batch.places place ≡ false }
{
    let room = bound.saturating_sub(batch.base);
    if room < 64 {
        batch.places & !(u64::MAX << room)
    } else {
        batch.places
    }
}

// Marks what reads a slot, out of line, so that what goes over slots keeps its values in registers.
#[inline(never)]
fn mark_readers(marks: &mut Marks, fanout: &Fanout, slot: usize)
    requires list { rank_in fanout.now.order slot < length fanout.now.gates }
    requires within { AreBelow (64 * length marks.old) fanout.now.gates }
    ensures len { length marks.new ≡ length marks.old }
    ensures kept { (m : ℕ) → has marks.old m ≡ true → has marks.new m ≡ true }
    ensures marked { AreMarked (has marks.new) (readers_at fanout.now.order fanout.now.gates slot) }
{
    mark_all(marks, fanout.gates_of(slot));
}

// Moves the word of a slot on, and marks what reads it where it changes at one of some late places. Whether it has one
// level in all places then.
#[inline]
fn move_known_slot(
    ones: &mut [u64],
    slot: usize,
    fanout: &Fanout,
    marks: &mut Marks,
    ticks: u32,
    late: u64,
) -> bool
    requires slot { slot < length ones.old }
    requires list { rank_in fanout.now.order slot < length fanout.now.gates }
    requires within { AreBelow (64 * length marks.old) fanout.now.gates }
    requires ticks { ticks < 64 }
    ensures len { length ones.new ≡ length ones.old }
    ensures room { length marks.new ≡ length marks.old }
    ensures kept { (m : ℕ) → has marks.old m ≡ true → has marks.new m ≡ true }
    ensures others { (m place : ℕ) → m ≢ slot → known_levels ones.new m place ≡ known_levels ones.old m place }
    ensures moved { (place : ℕ) → place < 64
        → known_levels ones.new slot place ≡ known_levels ones.old slot (min (place + ticks) 63) }
    ensures steady { result ≡ true → IsSteadyFrom (known_levels ones.new slot) 1 }
    ensures news { (first : ℕ) → 1 ≤ first → ((i : ℕ) → first ≤ i → i < 64 → is_set_at late i ≡ true)
        → IsSteadyFrom (known_levels ones.new slot) first
        ⊎ AreMarked (has marks.new) (readers_at fanout.now.order fanout.now.gates slot) }
{
    let moved = advanced_ones(ones[slot], ticks);
    ones[slot] = moved;
    if !are_steady_at(moved, late) {
        mark_readers(marks, fanout, slot);
    }
    are_steady_at(moved, u64::MAX << 1)
}

/// Moves the words of some slots on, and marks what reads those that change at a place or after it. The places of those
/// that have one level in all places then.
pub(crate) fn move_known(
    ones: &mut [u64],
    batch: Marked,
    fanout: &Fanout,
    marks: &mut Marks,
    ticks: u32,
    first: u32,
) -> u64
    requires lists { HaveReaders fanout.now.order fanout.now.gates (length ones.old) }
    requires within { AreBelow (64 * length marks.old) fanout.now.gates }
    requires ticks { ticks < 64 }
    requires begun { 1 ≤ first }
    requires first { first < 64 }
    ensures len { length ones.new ≡ length ones.old }
    ensures moves { Moves (readers_at fanout.now.order fanout.now.gates) batch.base batch.places result
        (length ones.old) ticks first marks.old marks.new (known_levels ones.old) (known_levels ones.new) }
{
    let late = places_from(first);
    let places = places_below(batch, ones.len());
    let mut steady = 0;
    for place in Places::of(places) {
        let slot = batch.base + place as usize;
        let is_still = move_known_slot(ones, slot, fanout, marks, ticks, late);
        steady = with_place(steady, place, is_still);
    }
    steady
}

/// Tells those wanted nets of a word, below a count of nets, that changed at a place or after it, behind the ones
/// before them.
pub(crate) fn collect_known(
    ones: &[u64],
    batch: Marked,
    wanted: &Bits,
    nets: usize,
    first: u32,
    changed: &mut Vec<Changed>,
) -> Result<(), AllocError>
    requires nets { nets ≤ length ones.now }
    requires few { nets ≤ MAX_NETS }
    requires begun { 1 ≤ first }
    requires first { first < 64 }
    requires base { batch.base < nets }
    requires aligned { batch.base % 64 ≡ 0 }
    requires quiet { (place : ℕ) → place < 64 → is_set_at batch.places place ≡ false → batch.base + place < nets
        → has wanted.now (batch.base + place) ≡ true → IsSteadyFrom (known_levels ones.now (batch.base + place)) first }
    requires collected { IsCollected (known_levels ones.now) (has wanted.now) first batch.base changed.old.items }
    ensures { OnOk result (IsCollected (known_levels ones.now) (has wanted.now) first (min (batch.base + 64) nets)
        changed.new.items) }
{
    // All nets of the word find room then.
    changed.reserve(64)?;
    let late = places_from(first);
    let batch = wanted_among(batch, wanted);
    let places = places_below(batch, nets);
    for place in Places::of(places) {
        let net = batch.base + place as usize;
        let word = ones[net];
        if !are_steady_at(word, late) {
            changed.push_reserved(Changed {
                net: net as u16,
                word: known(word),
            });
        }
    }
    Ok(())
}
