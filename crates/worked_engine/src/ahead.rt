//! What flip-flops do in a window, told before it is made.
//!
//! Two flip-flops sample one another, `a` by an inverter `m`, at ticks 0, 20, 40 and so on (a Johnson counter of two
//! bits). `b` shows a sample a tick after it was taken, and `a` shows it five ticks after. The window from tick 1 on
//! ends where `b` shows the sample of tick 20. In this window `a` shows what it sampled at tick 0, and `b` doesn't
//! change.

ghost use Rattle.std.specs.Prelude.{◌≡◌, ℕ, ◌∷◌, [], true, false, Contains, IfOk};
ghost use Rattle.cmb_design_model.specs.Exact.{nets_of};
ghost use Rattle.cmb_engine.specs.Crossings.{IsCrossing};

use crate::checks::holds;
use cmb_design_model::{Design, Settings};
use cmb_engine::{ShareEngine, Windows};
use cmb_wave::Level::{X, Zero};
use cmb_words::Changed;
use std::alloc::{AllocError, Global};
use std::process::Abort;
use std::test::Fail;
use worked_designs::{Inputs, of_design, or_fail};

// The nets that cross: the flip-flops `a` and `b`. `m` is a gate.
const CROSSING: [bool; 3] = [true, false, true];

// The place of tick 0, where a window ends at tick 21.
const START: u32 = 43;

/// The counter's texts: its nets are `a`, `m` and `b`, by their numbers.
fn counter() -> Inputs<'static> {
    Inputs {
        netlist: b"OUTPUT(b)\na = DFF(m)\nm = NOT(b)\nb = DFF(a)\n",
        delays: b"by,name,delay\nnet,a,5\n",
        stimuli: b"",
        clocks: b"",
        initial: b"",
    }
}

/// Ends the test unless a design has as many nets and ticks.
fn is_counter(rt: &impl Abort, design: &Design)
    ensures nets { nets_of design.now ≡ 3 }
    ensures horizon { design.now.horizon ≡ 100 }
{
    holds(rt, design.netlist().len() == 3);
    holds(rt, design.horizon() == 100);
}

/// The engine of all nets, which gives the changes of the flip-flops ahead.
fn engine_of(alloc: Global, design: &Design) -> Result<ShareEngine<'_>, AllocError>
    requires nets { nets_of design.now ≡ 3 }
    ensures design { IfOk result (λ engine. engine.design ≡ design.entry.now) }
    ensures clock { IfOk result (λ engine. engine.clock ≡ 1) }
    ensures exports { IfOk result (λ engine. (net : ℕ) → Contains engine.exports net
        → IsCrossing engine.design (true ∷ false ∷ true ∷ []) net) }
{
    let engine = ShareEngine::open(alloc, design, &[true, true, true], &[true, true, true])?;
    engine.exporting(alloc, &CROSSING)
}

/// Where the first window ends, where shares have common ones, and which crossing flip-flops an engine tells ahead of
/// it, in place of what `told` had.
fn tell_first(
    alloc: Global,
    design: &Design,
    engine: &ShareEngine<'_>,
    told: &mut Vec<Changed>,
) -> Result<Option<u32>, AllocError>
    requires design { engine.now.design ≡ design.now }
    requires clock { engine.now.clock ≡ 1 }
    requires exports { (net : ℕ) → Contains engine.now.exports net
        → IsCrossing engine.now.design (true ∷ false ∷ true ∷ []) net }
    requires horizon { design.now.horizon ≡ 100 }
{
    let width = engine.width();
    let Some(windows) = Windows::between(alloc, design, &CROSSING, width)? else {
        return Ok(None);
    };
    let upto = windows.end(1);
    drop(windows);
    engine.tell_ahead(upto, told)?;
    Ok(Some(upto))
}

/// Whether the counter's first window is as it should be.
fn is_told_first(rt: &impl Abort, alloc: Global, design: &Design) -> Result<bool, Fail> {
    is_counter(rt, design);
    let engine = engine_of(alloc, design)?;
    let is_told = is_first_of(alloc, design, &engine);
    drop(engine);
    or_fail(is_told)
}

fn is_first_of(alloc: Global, design: &Design, engine: &ShareEngine<'_>) -> Result<bool, AllocError>
    requires design { engine.now.design ≡ design.now }
    requires clock { engine.now.clock ≡ 1 }
    requires exports { (net : ℕ) → Contains engine.now.exports net
        → IsCrossing engine.now.design (true ∷ false ∷ true ∷ []) net }
    requires horizon { design.now.horizon ≡ 100 }
{
    let mut told = Vec::new(alloc);
    let upto = tell_first(alloc, design, engine, &mut told)?;
    Ok(upto == Some(21) && is_first(&told))
}

/// Whether it is `a` alone, which is 0 up to tick 4 and x from tick 5 on: so `m` was at tick 0.
fn is_first(told: &[Changed]) -> bool {
    match told {
        [one] => {
            one.net == 0
                && one.word.level(START) == Zero
                && one.word.level(START + 4) == Zero
                && one.word.level(START + 5) == X
                && one.word.level(63) == X
        }
        _ => false,
    }
}

#[test]
fn first_window(rt: HostRuntime) -> Result<(), Fail> {
    let alloc = rt.alloc();
    let settings = Settings {
        horizon: 100,
        clock: Some((0, 20)),
        init: Zero,
    };
    let is_told = of_design(
        alloc,
        counter(),
        settings,
        |design| is_told_first(&rt, alloc, design),
    )?;
    holds(&rt, is_told);
    Ok(())
}
