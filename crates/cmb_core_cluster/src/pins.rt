//! The pins of a process as its step begins.

ghost use Rattle.std.specs.Prelude.{◌≡◌, ℕ, ◌≤◌, IfOk, length};
ghost use Rattle.cmb_wave.specs.Waveform.{level_at};
ghost use Rattle.cmb_core_cluster.specs.Inner.Arrivals.{pin_at, pins_at};
ghost use Rattle.cmb_core_cluster.specs.Rows.{IsReady, AreReady, IsThere};
ghost use Rattle.cmb_core_cluster.specs.Inner.Processes.{delayed_wave, delayed_levels};
ghost use Rattle.cmb_core_cluster.specs.Step.{wave_at};

use crate::merge::{Lag, PinCursor};
use crate::process::ProcessPin;
use cmb_wave::Wave;
use cmb_wave::search::{Rest, left_from};
use std::alloc::{AllocError, Global};

/// The wave that an operand reads.
#[tactic(auto, using(crate::proofs::Slots::slot_there, crate::proofs::Slots::slot_wave))]
pub(crate) fn operand_wave(waves: &[Wave], operand: ProcessPin) -> &Wave
    requires { IsThere waves.now operand }
    ensures { result.now ≡ wave_at waves.now operand.net }
{
    &waves[operand.slot as usize]
}

/// What is left from a tick on of the wave that an operand reads.
pub(crate) fn operand_left(waves: &[Wave], operand: ProcessPin, tick: u32) -> Rest<'_>
    requires { IsThere waves.now operand }
    ensures { (t : ℕ) → tick ≤ t → level_at result.level result.changes.now t
        ≡ level_at (wave_at waves.now operand.net).kept (wave_at waves.now operand.net).changes t }
{
    let wave = operand_wave(waves, operand);
    left_from(wave.kept(), wave.changes(), tick)
}

/// The pin of an operand that reaches the output with a delay, from the output's clock on.
pub(crate) fn pin_of(waves: &[Wave], operand: ProcessPin, clock: u32) -> PinCursor<'_>
    requires { IsReady waves.now clock operand }
    ensures { (t : ℕ) → clock ≤ t → pin_at result t ≡ delayed_wave (wave_at waves.now operand.net) operand.delay t }
{
    let wave = operand_wave(waves, operand);
    let reached = clock.saturating_sub(operand.delay);
    let left = left_from(wave.kept(), wave.changes(), reached);
    PinCursor {
        rest: left.changes,
        lag: Lag::Delay(operand.delay),
        level: left.level,
    }
}

/// The pins of a gate, from the output's clock on.
pub(crate) fn gate_pins<'a>(
    alloc: Global,
    operands: &[ProcessPin],
    waves: &'a [Wave],
    clock: u32,
) -> Result<Vec<PinCursor<'a>>, AllocError>
    requires { AreReady waves.now clock operands.now }
    ensures levels { IfOk result (λ pins. (t : ℕ) → clock ≤ t
        → pins_at pins.items t ≡ delayed_levels waves.now operands.now t) }
    ensures count { IfOk result (λ pins. length pins.items ≡ length operands.now) }
{
    let mut pins = Vec::with_capacity(alloc, operands.len())?;
    for operand in operands {
        pins.push(pin_of(waves, *operand, clock))?;
    }
    Ok(pins)
}
