//! What is sent ahead: what flip-flops do in a window that isn't made yet. Their samples that arrive there were taken
//! before it.

ghost use Rattle.std.specs.Prelude.{◌≡◌, ℕ, ◌-◌, ◌<◌, ◌≤◌, true, List, [], All, IfSome, OnOk, length};
ghost use Rattle.cmb_words.specs.Word.{level_at_place};
ghost use Rattle.cmb_engine.specs.Inner.Cells.{Cell, Flop, IsLawful};
ghost use Rattle.cmb_engine.specs.Inner.Circuits.{IsGroup, IsGroupWithin};
ghost use Rattle.cmb_engine.specs.Inner.Exports.{slots_of, AddsAhead, AddsFlop, AreTakenBefore, HoldsAhead, RestsAhead};
ghost use Rattle.cmb_engine.specs.Inner.Known.{known_planes};
ghost use Rattle.cmb_engine.specs.Inner.Windows.{HasWindow};
ghost use Rattle.cmb_engine.specs.Inner.Words.{levels_of};

use crate::arrivals::first_arrival;
use crate::cell::Pin;
use crate::group::Group;
use crate::known::known;
use crate::words::Words;
use cmb_design_model::Clock;
use cmb_netlist::MAX_NETS;
use cmb_words::{Changed, Word, held};
use std::alloc::AllocError;

// The word of a slot. Where no level is x the ones say it.
#[inline]
fn word_of(words: &Words, ones: Option<&[u64]>, slot: usize) -> Word
    requires slot { slot < length words.now }
    requires same { IfSome ones (λ ones. words.now ≡ known_planes ones.now) }
    ensures { (place : ℕ) → level_at_place result place ≡ levels_of words.now slot place }
{
    match ones {
        Some(ones) => known(ones[slot]),
        None => words.get(slot),
    }
}

// Whether a flip-flop keeps its level in the window after its word: its data have that level too, as far back as the
// samples that arrive there were taken.
#[inline]
fn rests(words: &Words, ones: Option<&[u64]>, slot: usize, pin: Pin) -> bool
    requires slot { slot < length words.now }
    requires net { pin.net < length words.now }
    requires delay { pin.delay ≤ 64 }
    requires same { IfSome ones (λ ones. words.now ≡ known_planes ones.now) }
    ensures { result ≡ true → RestsAhead (levels_of words.now) slot pin }
{
    let own = word_of(words, ones, slot).everywhere(63);
    let input = word_of(words, ones, pin.net as usize);
    !input.differs_from(own, (64 - pin.delay).min(63))
}

// The word that a flip-flop has so many ticks later, where samples arrive from a place on.
fn word_ahead(words: &Words, slot: usize, clock: Clock, pin: Pin, arrival: u32, ticks: u32) -> Word
    requires slot { slot < length words.now }
    requires lawful { IsLawful (length words.now) (64 - ticks) (Flop clock pin) }
    requires some { 1 ≤ ticks }
    requires fits { ticks < 64 }
    requires arrival { 64 - ticks ≤ arrival }
    ensures { HoldsAhead (levels_of words.now) (level_at_place result) ticks arrival slot clock pin }
{
    held(
        words.get(slot).advanced(ticks),
        words.get(pin.net as usize).advanced(ticks),
        pin.delay,
        arrival,
        clock.period,
        64 - ticks,
    )
}

// Adds a flip-flop where it changes in a window. Few do: this stands out of line, so that what goes over flip-flops
// keeps its values in registers.
#[cold]
#[inline(never)]
fn tell_flop(
    words: &Words,
    told: &mut Vec<Changed>,
    slot: u32,
    clock: Clock,
    pin: Pin,
    arrival: u32,
    ticks: u32,
) -> Result<(), AllocError>
    requires slot { slot < length words.now }
    requires few { slot < MAX_NETS }
    requires lawful { IsLawful (length words.now) (64 - ticks) (Flop clock pin) }
    requires some { 1 ≤ ticks }
    requires fits { ticks < 64 }
    requires arrival { 64 - ticks ≤ arrival }
    ensures { OnOk result
        (AddsFlop (levels_of words.now) ticks arrival slot clock pin told.old.items told.new.items) }
{
    let word = word_ahead(words, slot as usize, clock, pin, arrival, ticks);
    if !word.is_steady_from(64 - ticks) {
        told.push(Changed {
            net: slot as u16,
            word,
        })?;
    }
    Ok(())
}

// Adds the flip-flops of a group that change in a window.
fn tell_group(
    group: &Group,
    words: &Words,
    told: &mut Vec<Changed>,
    ticks: u32,
    to: u32,
) -> Result<(), AllocError>
    requires group { IsGroupWithin (length words.now) (64 - ticks) group.now }
    requires few { All (λ slot. slot < MAX_NETS) group.now.flops.items }
    requires later { ticks < to }
    requires window { HasWindow to (64 - ticks) }
    requires taken { AreTakenBefore group.now.clock group.now.delay to (64 - ticks) }
    ensures { OnOk result ((cells : List Cell) → IsGroup cells group.now
        → AddsAhead cells words.now group.now.flops.items (to - ticks) to told.old.items told.new.items) }
{
    let arrival = first_arrival(group.clock, group.delay, to, 64 - ticks);
    if arrival >= 64 {
        return Ok(());
    }
    let ones = words.ones_if_known();
    let delay = group.delay;
    for k in 0..group.flops.len() {
        let slot = group.flops[k];
        let pin = Pin {
            net: group.sources[k],
            delay,
        };
        if !rests(words, ones, slot as usize, pin) {
            tell_flop(words, told, slot, group.clock, pin, arrival, ticks)?;
        }
    }
    Ok(())
}

/// Tells which flip-flops of some groups change in the window of so many ticks up to a tick, each with its word, in
/// place of what `told` had. The words end where the window begins.
#[inline(never)]
pub(crate) fn tell_groups(
    groups: &[Group],
    words: &Words,
    told: &mut Vec<Changed>,
    ticks: u32,
    to: u32,
) -> Result<(), AllocError>
    requires groups { All (IsGroupWithin (length words.now) (64 - ticks)) groups.now }
    requires few { All (λ group. All (λ slot. slot < MAX_NETS) group.flops.items) groups.now }
    requires later { ticks < to }
    requires window { HasWindow to (64 - ticks) }
    requires taken { All (λ group. AreTakenBefore group.clock group.delay to (64 - ticks)) groups.now }
    ensures { OnOk result ((cells : List Cell) → All (IsGroup cells) groups.now
        → AddsAhead cells words.now (slots_of groups.now) (to - ticks) to [] told.new.items) }
{
    told.clear();
    for group in groups {
        tell_group(group, words, told, ticks, to)?;
    }
    Ok(())
}
