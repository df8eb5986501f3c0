//! What the cell of a net makes of the words of others where no level is x: of a word, the places that are 1 say all.

ghost use Rattle.std.specs.Prelude.{◌≡◌, ℕ, ◌+◌, ◌-◌, ◌<◌, ◌≤◌, List, [], ◌∷◌, All, length, map, slice_index};
ghost use Rattle.std.specs.Prelude.{false, true, if◌then◌else◌};
ghost use Rattle.cmb_design_model.specs.Gate.{gate};
ghost use Rattle.cmb_words.specs.Bits.{is_set_at, level_in};
ghost use Rattle.cmb_words.specs.Word.{level_at_place};
ghost use Rattle.cmb_engine.specs.Inner.Arrivals.{IsArrival};
ghost use Rattle.cmb_engine.specs.Inner.Batches.{Makes};
ghost use Rattle.cmb_engine.specs.Inner.Cells.{Cell, cell_at, seen, IsLawful, IsPace};
ghost use Rattle.cmb_engine.specs.Inner.Known.{known_levels};
ghost use Rattle.cmb_engine.specs.Inner.Orders.{Order};
ghost use Rattle.cmb_engine.specs.Inner.Windows.{HasWindow};
ghost use Rattle.cmb_engine.specs.Rows.{arrives_by};

use crate::arrivals::{Arrival, arrival_of};
use crate::cell::Pin;
use crate::marks::Marked;
use crate::nodes::Nodes;
use crate::settle::with_place;
use cmb_design_model::Clock;
use cmb_netlist::Kind;
use cmb_words::{Places, Word, completed_known, gate2_known, held_known, join_known, spliced};

/// The word with these ones, and x nowhere.
#[inline]
pub(crate) fn known(ones: u64) -> Word
    ensures { (i : ℕ) → level_at_place result i ≡ level_in ones 0 i }
{
    Word { ones, unknown: 0 }
}

/// The levels of one word below a place, and at the place and after it those of another.
#[inline]
pub(crate) fn spliced_ones(below: u64, above: u64, place: u32) -> u64
    requires { place < 64 }
    ensures below { (i : ℕ) → i < place → level_in result 0 i ≡ level_in below 0 i }
    ensures from { (i : ℕ) → place ≤ i → i < 64 → level_in result 0 i ≡ level_in above 0 i }
{
    spliced(known(below), known(above), place).ones
}

/// The places from one on. This stands out of line, so that loops test by the mask: where a compiler sees how it is
/// made, it makes a shift of each such test.
#[inline(never)]
pub(crate) fn places_from(place: u32) -> u64
    requires { place < 64 }
    ensures below { (i : ℕ) → i < place → is_set_at result i ≡ false }
    ensures from { (i : ℕ) → place ≤ i → i < 64 → is_set_at result i ≡ true }
{
    u64::MAX << place
}

// What a pin sees.
#[inline]
fn seen_ones(ones: &[u64], pin: Pin) -> u64
    requires net { pin.net < length ones.now }
    requires delay { pin.delay < 64 }
    ensures { (place : ℕ) → pin.delay ≤ place → place < 64
        → level_in result 0 place ≡ seen (known_levels ones.now) place pin }
{
    known(ones[pin.net as usize]).delayed(pin.delay).ones
}

/// What a gate with one pin makes from the pin's delay on.
#[inline]
pub(crate) fn known_single(kind: Kind, pin: Pin, ones: &[u64]) -> u64
    requires net { pin.net < length ones.now }
    requires delay { pin.delay < 64 }
    ensures { (place : ℕ) → pin.delay ≤ place → place < 64
        → level_in result 0 place ≡ gate kind (map (seen (known_levels ones.now) place) (pin ∷ [])) }
{
    completed_known(kind, seen_ones(ones, pin))
}

/// What a gate with two pins makes from the longer of their delays on.
#[inline]
pub(crate) fn known_double(kind: Kind, pin: Pin, other: Pin, ones: &[u64]) -> u64
    requires net { pin.net < length ones.now }
    requires delay { pin.delay < 64 }
    requires other_net { other.net < length ones.now }
    requires other_delay { other.delay < 64 }
    ensures { (place : ℕ) → pin.delay ≤ place → other.delay ≤ place → place < 64
        → level_in result 0 place ≡ gate kind (map (seen (known_levels ones.now) place) (pin ∷ other ∷ [])) }
{
    gate2_known(kind, seen_ones(ones, pin), seen_ones(ones, other))
}

/// What a gate makes from a place on.
pub(crate) fn known_gate(kind: Kind, pins: &[Pin], ones: &[u64], first: u32) -> u64
    requires some { 1 ≤ length pins.now }
    requires nets { All (λ pin. pin.net < length ones.now) pins.now }
    requires within { All (λ pin. pin.delay ≤ first) pins.now }
    requires first { first < 64 }
    ensures { (place : ℕ) → first ≤ place → place < 64
        → level_in result 0 place ≡ gate kind (map (seen (known_levels ones.now) place) pins.now) }
{
    let mut joined = seen_ones(ones, pins[0]);
    for k in 1..pins.len() {
        joined = join_known(kind, joined, seen_ones(ones, pins[k]));
    }
    completed_known(kind, joined)
}

/// What a flip-flop with this clock and data pin makes from a place on, in the words that end before a tick.
pub(crate) fn known_flop(
    clock: Clock,
    pin: Pin,
    own: u64,
    ones: &[u64],
    last: &mut Arrival,
    to: u32,
    first: u32,
) -> u64
    requires last { IsArrival last.old to first }
    requires clock { IsPace clock }
    requires net { pin.net < length ones.now }
    requires delay { pin.delay ≤ first }
    requires window { HasWindow to first }
    ensures last { IsArrival last.new to first }
    ensures below { (place : ℕ) → place < first → level_in result 0 place ≡ level_in own 0 place }
    ensures from { (place : ℕ) → first ≤ place → place < 64
        → level_in result 0 place
        ≡ (if arrives_by clock pin.delay (to + place - 64)
        then seen (known_levels ones.now) place pin
        else level_in result 0 (place - 1)) }
{
    let arrival = arrival_of(*last, clock, pin.delay, to, first);
    *last = arrival;
    held_known(
        own,
        ones[pin.net as usize],
        pin.delay,
        arrival.place,
        clock.period,
        first,
    )
}

/// Makes the words of a batch of slots from a place on, and says at which places there is another word than before.
///
/// Most slots of a batch are of one level, so none waits for what another one stores. This stands out of line, so that
/// the loop keeps its values in registers.
#[inline(never)]
pub(crate) fn make_known(
    nodes: &Nodes,
    ones: &mut [u64],
    last: &mut Arrival,
    batch: Marked,
    to: u32,
    first: u32,
) -> u64
    requires last { IsArrival last.old to first }
    requires within { (rank : ℕ) → rank < length nodes.now.slots
        → slice_index nodes.now.slots rank < length ones.old }
    requires lawful { (rank : ℕ) → rank < length nodes.now.slots
        → IsLawful (length ones.old) first (cell_at nodes.now.cells rank) }
    requires window { HasWindow to first }
    ensures len { length ones.new ≡ length ones.old }
    ensures last { IsArrival last.new to first }
    ensures makes { (cells : List Cell) (order : Order) → nodes.now.slots ≡ order.slots
        → nodes.now.cells ≡ map (cell_at cells) order.slots
        → Makes (cell_at cells) order to first batch.base batch.places result
        (known_levels ones.old) (known_levels ones.new) }
{
    let mut news = 0;
    for place in Places::of(batch.places) {
        let rank = batch.base + place as usize;
        if let Some(slot) = nodes.slot(rank) {
            let own = ones[slot];
            let made = nodes.known_word(rank, own, ones, last, to, first);
            news = with_place(news, place, made != own);
            ones[slot] = made;
        }
    }
    news
}
