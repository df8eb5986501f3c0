//! The flip-flops among cells, in groups, and which of them get a sample in a window.

ghost use Rattle.std.specs.Prelude.{◌≡◌, ℕ, ◌+◌, ◌-◌, ◌*◌, ◌^◌, ◌<◌, ◌≤◌, ◌||◌, ◌==◌, List, false, true, All, Contains};
ghost use Rattle.std.specs.Prelude.{IfOk, OnOk, length, slice_index_or};
ghost use Rattle.cmb_design_model.specs.declared.rows.Clock.{Clock};
ghost use Rattle.cmb_words.specs.Bits.{is_set_at};
ghost use Rattle.cmb_engine.specs.Inner.Bits.{has};
ghost use Rattle.cmb_engine.specs.Inner.Cells.{Cell, Flop, IsPace, IsSteady, cell_at};
ghost use Rattle.cmb_engine.specs.Inner.Circuits.{AreFlops, AreMembers, IsGroup, IsGroupWithin, IsInGroup};
ghost use Rattle.cmb_engine.specs.Inner.Circuits.{IsMarkedOrRests};
ghost use Rattle.cmb_engine.specs.Inner.Known.{known_levels};
ghost use Rattle.cmb_engine.specs.Rows.{arrives_by};
ghost use Rattle.cmb_engine.specs.Inner.Orders.{is_marked, rank_in, IsOrder};
ghost use Rattle.cmb_engine.specs.Inner.Windows.{HasWindow};
ghost use Rattle.cmb_engine.specs.Inner.Words.{levels_of};

use crate::arrivals::first_arrival;
use crate::cell::Pin;
use crate::cells::Cells;
use crate::group::{Group, Member};
use crate::known::{known, places_from};
use crate::marks::Marks;
use crate::order::Order;
use crate::words::Words;
use cmb_design_model::Clock;
use std::alloc::{AllocError, Global};

// The flip-flops among cells, those that get their samples at the same ticks side by side.
fn members_of(alloc: Global, cells: &Cells) -> Result<Vec<Member>, AllocError>
    requires few { length cells.now < 2 ^ 32 }
    ensures { IfOk result (λ members. AreMembers cells.now members.items) }
{
    let mut members = Vec::new(alloc);
    for slot in 0..cells.len() {
        if let Some((clock, pin)) = cells.flop(slot) {
            members.push(Member {
                clock,
                pin,
                slot: slot as u32,
            })?;
        }
    }
    members.sort_by_key(|member| (member.clock.first, member.clock.period, member.pin.delay))?;
    Ok(members)
}

// Whether a flip-flop is of the last group.
fn is_of_last(groups: &[Group], member: Member) -> bool
    ensures some { result ≡ true → 1 ≤ length groups.now }
    ensures same { result ≡ true → (d : Group)
        → ((slice_index_or groups.now (length groups.now - 1) d).clock ≡ member.clock)
        × ((slice_index_or groups.now (length groups.now - 1) d).delay ≡ member.pin.delay) }
{
    match groups.last() {
        Some(group) => group.clock == member.clock && group.delay == member.pin.delay,
        None => false,
    }
}

// Adds a flip-flop to the last group where it is of that one, else to a new one.
fn push_member(alloc: Global, groups: &mut Vec<Group>, member: Member) -> Result<(), AllocError>
    ensures kept { OnOk result ((clock : Clock) (delay slot : ℕ)
        → IsInGroup clock delay slot groups.old.items → IsInGroup clock delay slot groups.new.items) }
    ensures listed { OnOk result (IsInGroup member.clock member.pin.delay member.slot groups.new.items) }
    ensures each { OnOk result ((cells : List Cell) → cell_at cells member.slot ≡ Flop member.clock member.pin
        → All (IsGroup cells) groups.old.items → All (IsGroup cells) groups.new.items) }
{
    if is_of_last(groups.as_slice(), member) {
        let last = groups.len() - 1;
        groups[last].push(member.slot, member.pin.net)?;
    } else {
        let mut group = Group::new(alloc, member.clock, member.pin.delay);
        group.push(member.slot, member.pin.net)?;
        groups.push(group)?;
    }
    Ok(())
}

/// The slots whose cells are flip-flops, in groups that get their samples at the same ticks.
pub(crate) fn flops_of(alloc: Global, cells: &Cells) -> Result<Vec<Group>, AllocError>
    requires few { length cells.now < 2 ^ 32 }
    ensures { IfOk result (λ groups. AreFlops cells.now groups.items) }
{
    let members = members_of(alloc, cells)?;
    let mut groups = Vec::new(alloc);
    for member in members.as_slice() {
        push_member(alloc, &mut groups, *member)?;
    }
    Ok(groups)
}

// Whether a flip-flop may get another level by its samples in a window, from a place on: it gets none where its data
// have the level that it has, as far back as the samples were taken.
#[inline]
fn may_change(words: &Words, slot: usize, pin: Pin, first: u32) -> bool
    requires slot { slot < length words.now }
    requires net { pin.net < length words.now }
    requires delay { pin.delay ≤ first }
    requires begun { 1 ≤ first }
    requires first { first < 64 }
    ensures { result ≡ false → (clock : Clock) (to : ℕ)
        → IsSteady (levels_of words.now) to first slot (Flop clock pin) }
{
    let own = words.get(slot).everywhere(first - 1);
    words
        .get(pin.net as usize)
        .differs_from(own, first - pin.delay)
}

// Marks those flip-flops of a group that may get another level.
fn mark_any(group: &Group, order: &Order, words: &Words, marks: &mut Marks, first: u32)
    requires group { IsGroupWithin (length words.now) first group.now }
    requires ranked { length order.now.ranks ≡ length words.now }
    requires ordered { IsOrder order.now }
    requires room { length order.now.slots ≤ 64 * length marks.old }
    requires begun { 1 ≤ first }
    requires first { first < 64 }
    ensures room { length marks.new ≡ length marks.old }
    ensures kept { (m : ℕ) → has marks.old m ≡ true → has marks.new m ≡ true }
    ensures marked { (cells : List Cell) → IsGroup cells group.now
        → All (IsMarkedOrRests (is_marked order.now marks.new) (levels_of words.now) first cells)
        group.now.flops.items }
{
    for k in 0..group.flops.len() {
        let slot = group.flops[k] as usize;
        let pin = Pin {
            net: group.sources[k],
            delay: group.delay,
        };
        if may_change(words, slot, pin, first) {
            marks.insert(order.rank(slot) as usize);
        }
    }
}

// Whether a flip-flop may get another level, where no level is x. The places at which its data count are given.
#[inline]
fn may_change_known(ones: &[u64], slot: usize, pin: Pin, first: u32, late: u64) -> bool
    requires slot { slot < length ones.now }
    requires net { pin.net < length ones.now }
    requires delay { pin.delay ≤ first }
    requires begun { 1 ≤ first }
    requires first { first < 64 }
    requires late { (i : ℕ) → first ≤ i + pin.delay → i < 64 → is_set_at late i ≡ true }
    ensures { result ≡ false → (clock : Clock) (to : ℕ)
        → IsSteady (known_levels ones.now) to first slot (Flop clock pin) }
{
    let own = known(ones[slot]).delayed(64 - first).everywhere(63).ones;
    (ones[pin.net as usize] ^ own) & late != 0
}

// Marks a flip-flop. Few are marked: this stands out of line, so that what goes over flip-flops keeps its values in
// registers.
#[cold]
#[inline(never)]
fn mark_flop(marks: &mut Marks, order: &Order, slot: usize)
    requires { rank_in order.now slot < 64 * length marks.old }
    ensures len { length marks.new ≡ length marks.old }
    ensures has { (m : ℕ) → has marks.new m ≡ (m == rank_in order.now slot || has marks.old m) }
{
    marks.insert(order.rank(slot) as usize);
}

// Marks those flip-flops of a group that may get another level, where no level is x.
#[inline(never)]
fn mark_known(group: &Group, order: &Order, ones: &[u64], marks: &mut Marks, first: u32)
    requires group { IsGroupWithin (length ones.now) first group.now }
    requires ranked { length order.now.ranks ≡ length ones.now }
    requires ordered { IsOrder order.now }
    requires room { length order.now.slots ≤ 64 * length marks.old }
    requires begun { 1 ≤ first }
    requires first { first < 64 }
    ensures room { length marks.new ≡ length marks.old }
    ensures kept { (m : ℕ) → has marks.old m ≡ true → has marks.new m ≡ true }
    ensures marked { (cells : List Cell) → IsGroup cells group.now
        → All (IsMarkedOrRests (is_marked order.now marks.new) (known_levels ones.now) first cells)
        group.now.flops.items }
{
    let delay = group.delay;
    let late = places_from(first - delay);
    let flops = group.flops.as_slice();
    let sources = group.sources.as_slice();
    for k in 0..flops.len() {
        let slot = flops[k] as usize;
        let net = sources[k];
        if may_change_known(ones, slot, Pin { net, delay }, first, late) {
            mark_flop(marks, order, slot);
        }
    }
}

// The same, by the quicker way where no level is x.
fn mark_flops(group: &Group, order: &Order, words: &Words, marks: &mut Marks, first: u32)
    requires group { IsGroupWithin (length words.now) first group.now }
    requires ranked { length order.now.ranks ≡ length words.now }
    requires ordered { IsOrder order.now }
    requires room { length order.now.slots ≤ 64 * length marks.old }
    requires begun { 1 ≤ first }
    requires first { first < 64 }
    ensures room { length marks.new ≡ length marks.old }
    ensures kept { (m : ℕ) → has marks.old m ≡ true → has marks.new m ≡ true }
    ensures marked { (cells : List Cell) → IsGroup cells group.now
        → All (IsMarkedOrRests (is_marked order.now marks.new) (levels_of words.now) first cells)
        group.now.flops.items }
{
    match words.ones_if_known() {
        Some(ones) => mark_known(group, order, ones, marks, first),
        None => mark_any(group, order, words, marks, first),
    }
}

// Whether a sample arrives in the window that is taken in it, from a place on.
fn is_open(clock: Clock, delay: u32, to: u32, first: u32) -> bool
    requires pace { IsPace clock }
    requires delay { delay ≤ 1000000 }
    requires window { HasWindow to first }
    ensures { result ≡ false → (place : ℕ) → first ≤ place → place < 64
        → arrives_by clock delay (to + place - 64) ≡ true → place < first + delay }
{
    let taken = first + delay;
    if taken >= 64 {
        return false;
    }
    first_arrival(clock, delay, to, taken) < 64
}

// Marks the flip-flops of a group where they get a sample in the window. Says whether a sample may arrive that is taken
// in it.
fn mark_group(
    group: &Group,
    order: &Order,
    words: &Words,
    marks: &mut Marks,
    to: u32,
    first: u32,
) -> bool
    requires group { IsGroupWithin (length words.now) first group.now }
    requires ranked { length order.now.ranks ≡ length words.now }
    requires ordered { IsOrder order.now }
    requires room { length order.now.slots ≤ 64 * length marks.old }
    requires window { HasWindow to first }
    ensures room { length marks.new ≡ length marks.old }
    ensures kept { (m : ℕ) → has marks.old m ≡ true → has marks.new m ≡ true }
    ensures arrivals { (cells : List Cell) → IsGroup cells group.now
        → (slot place : ℕ) → Contains group.now.flops.items slot
        → first ≤ place → place < 64
        → arrives_by group.now.clock group.now.delay (to + place - 64) ≡ true
        → IsMarkedOrRests (is_marked order.now marks.new) (levels_of words.now) first cells slot }
    ensures closed { result ≡ false → (place : ℕ)
        → first ≤ place → place < 64
        → arrives_by group.now.clock group.now.delay (to + place - 64) ≡ true
        → place < first + group.now.delay }
{
    let arrival = first_arrival(group.clock, group.delay, to, first);
    if arrival >= 64 {
        return false;
    }
    mark_flops(group, order, words, marks, first);
    is_open(group.clock, group.delay, to, first)
}

/// Marks the flip-flops that get a sample in the window, from a place on, but those whose samples can only bring the
/// level that they have. Says whether the window is open: whether a sample may arrive that is taken in it.
#[inline(never)]
pub(crate) fn mark_arrivals(
    groups: &[Group],
    order: &Order,
    words: &Words,
    marks: &mut Marks,
    to: u32,
    first: u32,
) -> bool
    requires groups { All (IsGroupWithin (length words.now) first) groups.now }
    requires ranked { length order.now.ranks ≡ length words.now }
    requires ordered { IsOrder order.now }
    requires room { length order.now.slots ≤ 64 * length marks.old }
    requires window { HasWindow to first }
    ensures room { length marks.new ≡ length marks.old }
    ensures kept { (m : ℕ) → has marks.old m ≡ true → has marks.new m ≡ true }
    ensures arrivals { (cells : List Cell) → All (IsGroup cells) groups.now
        → (clock : Clock) (delay slot place : ℕ)
        → IsInGroup clock delay slot groups.now
        → first ≤ place → place < 64
        → arrives_by clock delay (to + place - 64) ≡ true
        → IsMarkedOrRests (is_marked order.now marks.new) (levels_of words.now) first cells slot }
    ensures closed { result ≡ false → (clock : Clock) (delay slot place : ℕ)
        → IsInGroup clock delay slot groups.now
        → first ≤ place → place < 64
        → arrives_by clock delay (to + place - 64) ≡ true
        → place < first + delay }
{
    let mut opened = false;
    for group in groups {
        let opens = mark_group(group, order, words, marks, to, first);
        opened = opens || opened;
    }
    opened
}
