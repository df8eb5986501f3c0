//! What the cell of a net makes of the words of others.

ghost use Rattle.std.specs.Prelude.{◌≡◌, ℕ, ◌+◌, ◌-◌, ◌<◌, ◌≤◌, List, [], ◌∷◌, All, length, map, if◌then◌else◌};
ghost use Rattle.cmb_design_model.specs.Gate.{gate};
ghost use Rattle.cmb_words.specs.Word.{level_at_place};
ghost use Rattle.cmb_engine.specs.Inner.Arrivals.{IsArrival};
ghost use Rattle.cmb_engine.specs.Inner.Cells.{seen, IsPace};
ghost use Rattle.cmb_engine.specs.Rows.{arrives_by};
ghost use Rattle.cmb_engine.specs.Inner.Windows.{HasWindow};
ghost use Rattle.cmb_engine.specs.Inner.Words.{levels_of};

use crate::arrivals::{Arrival, arrival_of};
use crate::cell::Pin;
use crate::words::Words;
use cmb_design_model::Clock;
use cmb_netlist::Kind;
use cmb_words::{Word, completed, gate1, gate2, held, join};

// What a pin sees.
#[inline]
fn seen_word(words: &Words, pin: Pin) -> Word
    requires net { pin.net < length words.now }
    requires delay { pin.delay < 64 }
    ensures { (place : ℕ) → pin.delay ≤ place → place < 64
        → level_at_place result place ≡ seen (levels_of words.now) place pin }
{
    words.get(pin.net as usize).delayed(pin.delay)
}

/// What a gate with one pin makes from the pin's delay on.
#[inline]
pub(crate) fn single_word(kind: Kind, pin: Pin, words: &Words) -> Word
    requires net { pin.net < length words.now }
    requires delay { pin.delay < 64 }
    ensures { (place : ℕ) → pin.delay ≤ place → place < 64
        → level_at_place result place ≡ gate kind (map (seen (levels_of words.now) place) (pin ∷ [])) }
{
    gate1(kind, seen_word(words, pin))
}

/// What a gate with two pins makes from the longer of their delays on.
#[inline]
pub(crate) fn double_word(kind: Kind, pin: Pin, other: Pin, words: &Words) -> Word
    requires net { pin.net < length words.now }
    requires delay { pin.delay < 64 }
    requires other_net { other.net < length words.now }
    requires other_delay { other.delay < 64 }
    ensures { (place : ℕ) → pin.delay ≤ place → other.delay ≤ place → place < 64
        → level_at_place result place ≡ gate kind (map (seen (levels_of words.now) place) (pin ∷ other ∷ [])) }
{
    gate2(kind, seen_word(words, pin), seen_word(words, other))
}

/// What a gate makes from a place on.
pub(crate) fn gate_word(kind: Kind, pins: &[Pin], words: &Words, first: u32) -> Word
    requires some { 1 ≤ length pins.now }
    requires nets { All (λ pin. pin.net < length words.now) pins.now }
    requires within { All (λ pin. pin.delay ≤ first) pins.now }
    requires first { first < 64 }
    ensures { (place : ℕ) → first ≤ place → place < 64
        → level_at_place result place ≡ gate kind (map (seen (levels_of words.now) place) pins.now) }
{
    let mut joined = seen_word(words, pins[0]);
    for k in 1..pins.len() {
        joined = join(kind, joined, seen_word(words, pins[k]));
    }
    completed(kind, joined)
}

/// What a flip-flop with this clock and data pin makes from a place on, in the words that end before a tick.
pub(crate) fn flop_word(
    clock: Clock,
    pin: Pin,
    own: Word,
    words: &Words,
    last: &mut Arrival,
    to: u32,
    first: u32,
) -> Word
    requires last { IsArrival last.old to first }
    requires clock { IsPace clock }
    requires net { pin.net < length words.now }
    requires delay { pin.delay ≤ first }
    requires window { HasWindow to first }
    ensures last { IsArrival last.new to first }
    ensures below { (place : ℕ) → place < first → level_at_place result place ≡ level_at_place own place }
    ensures from { (place : ℕ) → first ≤ place → place < 64
        → level_at_place result place
        ≡ (if arrives_by clock pin.delay (to + place - 64)
        then seen (levels_of words.now) place pin
        else level_at_place result (place - 1)) }
{
    let arrival = arrival_of(*last, clock, pin.delay, to, first);
    *last = arrival;
    held(
        own,
        words.get(pin.net as usize),
        pin.delay,
        arrival.place,
        clock.period,
        first,
    )
}
