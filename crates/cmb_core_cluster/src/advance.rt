//! How a process goes on from the waves that it reads.

ghost use Rattle.std.specs.Prelude.{◌≡◌, ℕ, ◌+◌, ◌-◌, ◌≤◌, ◌<◌, ◌&&◌, ◌++◌, nat_lt, not, OnOk, length};
ghost use Rattle.cmb_wave.specs.Waveform.{level_at, same_level, Rises};
ghost use Rattle.cmb_wave.specs.declared.level.Level.{Level};
ghost use Rattle.cmb_wave.specs.declared.level.Level.TheVariants.{X};
ghost use Rattle.cmb_core_cluster.specs.Inner.Spans.{changes_over};
ghost use Rattle.cmb_netlist.specs.Netlist.{MayTake};
ghost use Rattle.cmb_design_model.specs.Timing.{sample_upto};
ghost use Rattle.cmb_core_cluster.specs.Rows.{AreReady, IsThere};
ghost use Rattle.cmb_core_cluster.specs.Inner.Processes.{gate_reach, gate_row, flop_reach, flop_row};
ghost use Rattle.cmb_core_cluster.specs.Step.{wave_at};

use crate::merge::{Lag, differ, follow, merge};
use crate::pins::{gate_pins, operand_left, operand_wave};
use crate::process::ProcessPin;
use crate::span::Span;
use cmb_netlist::netlist::Kind;
use cmb_wave::search::{Rest, left_from};
use cmb_wave::{Change, Level, Wave};
use std::alloc::AllocError;

/// The tick up to which a gate's operands are known at its output.
pub(crate) fn reach_of_gate(horizon: u32, operands: &[ProcessPin], waves: &[Wave]) -> u32
    requires { (clock : ℕ) × AreReady waves.now clock operands.now }
    ensures { result ≡ gate_reach horizon waves.now operands.now }
{
    let mut reach = horizon;
    for operand in operands {
        let known = operand_wave(waves, *operand).clock();
        reach = reach.min(known.saturating_add(operand.delay));
    }
    reach
}

/// The tick up to which a flip-flop's data is known at its output.
pub(crate) fn reach_of_flop(horizon: u32, first: u32, period: u32, delay: u32, known: u32) -> u32
    requires { 0 < period }
    ensures { result ≡ flop_reach horizon first period delay known }
{
    let arrival = Lag::Sampled {
        first,
        period,
        delay,
    }
    .arrival(known);
    if arrival < u64::from(horizon) {
        arrival as u32
    } else {
        horizon
    }
}

// Whether an output that stays at a level changes to it at the head of a span.
fn begins_anew(level: Level, span: Span) -> bool
    ensures { result ≡ (nat_lt span.from span.until && not (same_level level span.before)) }
{
    span.from < span.until && differ(level, span.before)
}

// Adds the changes of an output that stays at a level: one at most.
#[tactic(auto, using(crate::proofs::Changes::changes_from_held))]
fn held_changes(room: &mut Vec<Change>, level: Level, span: Span) -> Result<(), AllocError>
    ensures { (row : ℕ → Level) → ((t : ℕ) → span.from ≤ t → row t ≡ level)
        → OnOk result (room.new.items ≡ room.old.items ++ changes_over row span) }
{
    if begins_anew(level, span) {
        room.push(Change {
            tick: span.from,
            level,
        })?;
    }
    Ok(())
}

/// Adds the changes of a gate's output in a span to a list.
pub(crate) fn gate_changes(
    room: &mut Vec<Change>,
    kind: Kind,
    operands: &[ProcessPin],
    waves: &[Wave],
    span: Span,
) -> Result<(), AllocError>
    requires ready { AreReady waves.now span.from operands.now }
    requires takes { MayTake kind (length operands.now) }
    ensures { OnOk result (room.new.items
        ≡ room.old.items ++ changes_over (gate_row kind waves.now operands.now) span) }
{
    let mut pins = gate_pins(*room.allocator(), operands, waves, span.from)?;
    merge(kind, &mut pins, room, span)
}

// The sample tick that a flip-flop's output shows at its clock, or a tick below that one: no sample that it
// shows from there on is taken before.
fn seen_upto(first: u32, period: u32, delay: u32, clock: u32) -> u32
    requires { 0 < period }
    ensures { (t : ℕ) → clock ≤ t → first + delay ≤ t → result ≤ sample_upto first period (t - delay) }
{
    let ticks = clock.saturating_sub(delay).saturating_sub(first);
    if ticks == 0 {
        0
    } else {
        first + ticks / period * period
    }
}

// Adds the changes of a flip-flop's output in a span that its first sample has reached.
fn sampled_changes(
    room: &mut Vec<Change>,
    waves: &[Wave],
    operand: ProcessPin,
    first: u32,
    period: u32,
    span: Span,
) -> Result<(), AllocError>
    requires positive { 0 < period }
    requires there { IsThere waves.now operand }
    ensures { (init : Level) → (span.from < span.until → first + operand.delay ≤ span.from)
        → OnOk result (room.new.items
        ≡ room.old.items ++ changes_over (flop_row waves.now operand first period init) span) }
{
    let lag = Lag::Sampled {
        first,
        period,
        delay: operand.delay,
    };
    let seen = seen_upto(first, period, operand.delay, span.from);
    let Rest { level, changes } = operand_left(waves, operand, seen);
    follow(lag, level, changes, room, span)
}

/// Adds the changes of a flip-flop's output in a span to a list.
pub(crate) fn flop_changes(
    room: &mut Vec<Change>,
    waves: &[Wave],
    operand: ProcessPin,
    first: u32,
    period: u32,
    init: Level,
    span: Span,
) -> Result<(), AllocError>
    requires positive { 0 < period }
    requires there { IsThere waves.now operand }
    ensures { OnOk result (room.new.items
        ≡ room.old.items ++ changes_over (flop_row waves.now operand first period init) span) }
{
    let begun = first.saturating_add(operand.delay);
    if begun <= span.from {
        return sampled_changes(room, waves, operand, first, period, span);
    }
    let middle = begun.min(span.until);
    let head = Span {
        before: span.before,
        from: span.from,
        until: middle,
    };
    held_changes(room, init, head)?;
    let before = if begins_anew(init, head) {
        init
    } else {
        span.before
    };
    let tail = Span {
        before,
        from: middle,
        until: span.until,
    };
    sampled_changes(room, waves, operand, first, period, tail)
}

/// Adds the changes of an input in a span to a list.
pub(crate) fn input_changes(
    room: &mut Vec<Change>,
    stimulus: &[Change],
    span: Span,
) -> Result<(), AllocError>
    requires { Rises 0 stimulus.now }
    ensures { OnOk result (room.new.items ≡ room.old.items ++ changes_over (level_at X stimulus.now) span) }
{
    let Rest { level, changes } = left_from(Level::X, stimulus, span.from);
    follow(Lag::Delay(0), level, changes, room, span)
}
