//! Which nets changed in a window.

ghost use Rattle.std.specs.Prelude.{◌≡◌, ℕ, ◌+◌, ◌*◌, ◌%◌, ◌<◌, ◌≤◌, false, true, length, min, All, OnOk};
ghost use Rattle.cmb_words.specs.Bits.{is_set_at};
ghost use Rattle.cmb_words.specs.Changes.{RisesWithin, is_among};
ghost use Rattle.cmb_words.specs.Word.{level_at_place};
ghost use Rattle.cmb_engine.specs.Inner.Bits.{has};
ghost use Rattle.cmb_engine.specs.Inner.Cells.{IsSteadyFrom};
ghost use Rattle.cmb_engine.specs.Inner.Circuits.{AreQuiet};
ghost use Rattle.cmb_engine.specs.Inner.Collects.{IsCollected};
ghost use Rattle.cmb_engine.specs.Inner.Words.{levels_of};

use crate::bits::Bits;
use crate::known_passes::collect_known;
use crate::marks::{Marked, Marks};
use crate::wanted::wanted_among;
use crate::words::Words;
use cmb_netlist::MAX_NETS;
use cmb_words::{Changed, Places};
use std::alloc::AllocError;

// Tells those wanted nets of a word, below a count of nets, that changed at a place or after it, behind the ones before
// them.
fn collect_any(
    words: &Words,
    batch: Marked,
    wanted: &Bits,
    nets: usize,
    first: u32,
    changed: &mut Vec<Changed>,
) -> Result<(), AllocError>
    requires nets { nets ≤ length words.now }
    requires few { nets ≤ MAX_NETS }
    requires begun { 1 ≤ first }
    requires first { first < 64 }
    requires base { batch.base < nets }
    requires aligned { batch.base % 64 ≡ 0 }
    requires quiet { (place : ℕ) → place < 64 → is_set_at batch.places place ≡ false → batch.base + place < nets
        → has wanted.now (batch.base + place) ≡ true → IsSteadyFrom (levels_of words.now (batch.base + place)) first }
    requires collected { IsCollected (levels_of words.now) (has wanted.now) first batch.base changed.old.items }
    ensures { OnOk result (IsCollected (levels_of words.now) (has wanted.now) first (min (batch.base + 64) nets)
        changed.new.items) }
{
    let batch = wanted_among(batch, wanted);
    for place in Places::of(batch.places) {
        let net = batch.base + place as usize;
        if net < nets {
            let word = words.get(net);
            if !word.is_steady_from(first) {
                changed.push(Changed {
                    net: net as u16,
                    word,
                })?;
            }
        }
    }
    Ok(())
}

// The same, by the quicker way where no level is x.
fn collect_word(
    words: &Words,
    batch: Marked,
    wanted: &Bits,
    nets: usize,
    first: u32,
    changed: &mut Vec<Changed>,
) -> Result<(), AllocError>
    requires nets { nets ≤ length words.now }
    requires few { nets ≤ MAX_NETS }
    requires begun { 1 ≤ first }
    requires first { first < 64 }
    requires base { batch.base < nets }
    requires aligned { batch.base % 64 ≡ 0 }
    requires quiet { (place : ℕ) → place < 64 → is_set_at batch.places place ≡ false → batch.base + place < nets
        → has wanted.now (batch.base + place) ≡ true → IsSteadyFrom (levels_of words.now (batch.base + place)) first }
    requires collected { IsCollected (levels_of words.now) (has wanted.now) first batch.base changed.old.items }
    ensures { OnOk result (IsCollected (levels_of words.now) (has wanted.now) first (min (batch.base + 64) nets)
        changed.new.items) }
{
    match words.ones_if_known() {
        Some(ones) => collect_known(ones, batch, wanted, nets, first, changed),
        None => collect_any(words, batch, wanted, nets, first, changed),
    }
}

/// Tells which of so many nets changed at a place or after it, where they are wanted, each with its word, by rising
/// number. What `changed` had is forgotten.
#[inline(never)]
pub(crate) fn collect(
    words: &Words,
    live: &Marks,
    wanted: &Bits,
    nets: usize,
    first: u32,
    changed: &mut Vec<Changed>,
) -> Result<(), AllocError>
    requires nets { nets ≤ length words.now }
    requires few { nets ≤ MAX_NETS }
    requires begun { 1 ≤ first }
    requires first { first < 64 }
    requires room { length words.now ≤ 64 * length live.now }
    requires quiet { AreQuiet (levels_of words.now) (has live.now) (length words.now) }
    ensures rises { OnOk result (RisesWithin 0 nets changed.new.items) }
    ensures words { OnOk result (All (λ c. (place : ℕ) → place < 64
        → level_at_place c.word place ≡ levels_of words.now c.net place) changed.new.items) }
    ensures moved { OnOk result (All (λ c. IsSteadyFrom (level_at_place c.word) first → ⊥) changed.new.items) }
    ensures others { OnOk result ((net : ℕ) → net < nets → has wanted.now net ≡ true
        → is_among net changed.new.items ≡ false → IsSteadyFrom (levels_of words.now net) first) }
{
    changed.clear();
    let mut from = 0;
    'words: while let Some(batch) = live.next_word(&mut from, nets) {
        collect_word(words, batch, wanted, nets, first, changed)?;
    }
    Ok(())
}
