//! The changes of all nets in a span of ticks, net by net, and in one list by ticks and nets.

ghost use Rattle.std.specs.Prelude.{◌≡◌, ◌++◌, ◌≤◌, ℕ, drop, filter, length, IfOk, OnOk};
ghost use Rattle.std.specs.List.Sorted.{IsNonDecreasingBy, IsPermutation};
ghost use Rattle.cmb_wave.specs.Waveform.{IsTrace, Rises, below};
ghost use Rattle.cmb_run_text.specs.Inner.ValueChanges.{AreTraces, all_value_changes, value_change_text};
ghost use Rattle.cmb_run_text.specs.Inner.ValueChanges.{value_changes_of, value_changes_text, is_at};
ghost use Rattle.cmb_run_text.specs.Inner.ValueChanges.{value_changes_in, tick_of, within};

use crate::lines::push_tick;
use crate::ready_codes::Codes;
use cmb_netlist::MAX_NETS;
use cmb_wave::search::left_from;
use cmb_wave::{Change, Level, Wave};
use std::alloc::{AllocError, Global};

/// The changes of a net in a span of ticks.
#[derive(Clone, Copy)]
pub struct NetChanges<'a> {
    pub net: u16,
    pub changes: &'a [Change],
}

/// From its tick on a net has this level.
#[derive(Clone, Copy)]
pub struct ValueChange {
    pub tick: u32,
    pub net: u16,
    pub level: Level,
}

// What is left of changes from a tick on. Where that is nothing or all, the list isn't searched: a net
// without news costs a look at its last change.
fn rest_from(changes: &[Change], tick: u32) -> &[Change]
    requires { Rises 0 changes.now }
    ensures { result.now ≡ drop (below tick changes.now) changes.now }
{
    match changes {
        [.., last] if last.tick < tick => &changes[changes.len()..],
        [first, ..] if first.tick >= tick => changes,
        _ => left_from(Level::X, changes, tick).changes,
    }
}

// The changes of a wave at ticks of [from, to).
#[tactic(auto, using(crate::proofs::TraceFacts::rises_take))]
fn changes_within(wave: &Wave, from: u32, to: u32) -> &[Change]
    ensures changes { result.now ≡ within from to wave.now.changes }
    ensures trace { IsTrace wave.now.kept wave.now.base wave.now.changes wave.now.clock }
{
    let changes = wave.changes();
    let later = rest_from(changes, to);
    let earlier = &changes[..changes.len() - later.len()];
    rest_from(earlier, from)
}

fn add_net_changes<'a>(
    parts: &mut Vec<NetChanges<'a>>,
    net: u16,
    changes: &'a [Change],
) -> Result<(), AllocError>
    ensures { OnOk result (value_changes_in parts.new.items
        ≡ value_changes_in parts.old.items ++ value_changes_of net changes.now) }
{
    if changes.is_empty() {
        return Ok(());
    }
    parts.push(NetChanges { net, changes })?;
    Ok(())
}

/// The changes of the nets at ticks of [from, to), net by net, of those nets that have any.
pub(crate) fn net_changes_within<'a>(
    alloc: Global,
    waves: &'a [Wave],
    from: u32,
    to: u32,
) -> Result<Vec<NetChanges<'a>>, AllocError>
    requires few { length waves.now ≤ MAX_NETS }
    ensures events { IfOk result (λ parts. value_changes_in parts.items ≡ all_value_changes from to 0 waves.now) }
    ensures traces { OnOk result (AreTraces waves.now) }
{
    let mut parts = Vec::new(alloc);
    for net in 0..waves.len() {
        let wave = &waves[net];
        add_net_changes(&mut parts, net as u16, changes_within(wave, from, to))?;
    }
    Ok(parts)
}

fn add_value_changes(events: &mut Vec<ValueChange>, part: NetChanges) -> Result<(), AllocError>
    ensures { OnOk result (events.new.items
        ≡ events.old.items ++ value_changes_of part.entry.net part.entry.changes.now) }
{
    for change in part.changes {
        events.push(ValueChange {
            tick: change.tick,
            net: part.net,
            level: change.level,
        })?;
    }
    Ok(())
}

/// The changes of parts, part by part.
pub(crate) fn gather(alloc: Global, parts: &[NetChanges]) -> Result<Vec<ValueChange>, AllocError>
    ensures events { IfOk result (λ events. events.items ≡ value_changes_in parts.now) }
{
    let mut events = Vec::new(alloc);
    for part in parts {
        add_value_changes(&mut events, *part)?;
    }
    Ok(events)
}

/// Puts changes in the order of their ticks; those of one tick stay in the order of their nets.
pub(crate) fn sort_value_changes(events: &mut Vec<ValueChange>) -> Result<(), AllocError>
    ensures moved { IsPermutation events.old.items events.new.items }
    ensures sorted { OnOk result (IsNonDecreasingBy tick_of events.new.items) }
    ensures stable { OnOk result ((tick : ℕ)
        → filter (is_at tick) events.new.items ≡ filter (is_at tick) events.old.items) }
{
    events.sort_by_key(|event| event.tick)?;
    Ok(())
}

fn push_value_change(
    out: &mut Vec<u8>,
    codes: &Codes,
    last: u32,
    event: ValueChange,
) -> Result<(), AllocError>
    ensures { OnOk result (out.new.items ≡ out.old.items ++ value_change_text last event) }
{
    if event.tick != last {
        push_tick(out, event.tick)?;
    }
    codes.push(out, event.level, event.net)
}

/// The text of changes by rising tick, where the line of the tick `first` is written already.
pub(crate) fn push_value_changes(
    out: &mut Vec<u8>,
    codes: &Codes,
    first: u32,
    events: &[ValueChange],
) -> Result<(), AllocError>
    ensures { OnOk result (out.new.items ≡ out.old.items ++ value_changes_text first events.now) }
{
    let mut last = first;
    for event in events {
        push_value_change(out, codes, last, *event)?;
        last = event.tick;
    }
    Ok(())
}
