//! The levels that a run has where something is expected.

ghost use Rattle.std.specs.Prelude.{◌≡◌, ◌+◌, ◌^◌, ◌<◌, ◌≤◌, ℕ, length, map, All, IfOk, OnOk};
ghost use Rattle.cmb_wave.specs.declared.level.Level.{Level};
ghost use Rattle.cmb_design_model.specs.Exact.{nets_of};
ghost use Rattle.cmb_design_model.specs.Value.{value};
ghost use Rattle.cmb_words.specs.Changes.{Tells};
ghost use Rattle.cmb_design_model.specs.Expected.{IsWithin};
ghost use Rattle.cmb_expect.specs.Expectations.{level_found};
ghost use Rattle.cmb_expect.specs.Inner.Probes.{AreFound, AreLater, AreLawful};
ghost use Rattle.cmb_expect.specs.Inner.Traces.{AreTraces};

use crate::probe::{Probe, probes_of};
use crate::trace::Trace;
use cmb_design_model::{Design, Expected};
use cmb_engine::{Engine, start_level};
use cmb_wave::Level;
use cmb_words::{Changed, Word};
use std::alloc::{AllocError, Global};

// The levels of all nets at tick 0.
fn first_traces(alloc: Global, design: &Design) -> Result<Vec<Trace>, AllocError>
    ensures { IfOk result (λ traces. AreTraces (value design.now) (nets_of design.now) 0 1 traces.items) }
{
    let nets = design.netlist().len();
    let mut traces = Vec::with_capacity(alloc, nets)?;
    for net in 0..nets {
        let word = Word::constant(start_level(design, net));
        traces.push(Trace { word, upto: 1 })?;
    }
    Ok(traces)
}

// Takes up what changed in a window: work goes by the nets that did.
fn follow(traces: &mut [Trace], changed: &[Changed], upto: u32)
    requires { All (λ one. one.net < length traces.old) changed.now }
    ensures { (level : ℕ → ℕ → Level) (from : ℕ) → 1 ≤ from → from < upto → upto ≤ from + 63
        → AreTraces level (length traces.old) from from traces.old
        → Tells level (length traces.old) from upto changed.now
        → AreTraces level (length traces.old) from upto traces.new }
{
    for one in changed {
        traces[one.net as usize] = Trace {
            word: one.word,
            upto,
        };
    }
}

// Finds the levels for the probes from one on whose ticks are below the clock; these ticks are all in the last window.
// Gives for how many they are found then.
fn find(traces: &[Trace], probes: &[Probe], next: usize, clock: u32, found: &mut [Level]) -> usize
    requires probes { AreLawful (length traces.now) (length found.old) 1000000 probes.now }
    requires next { next ≤ length probes.now }
    requires upto { All (λ trace. trace.upto ≤ clock) traces.now }
    requires late { (from : ℕ) × (clock ≤ from + 63) × AreLater from probes.now next }
    ensures some { result ≤ length probes.now }
    ensures later { AreLater clock probes.now result }
    ensures found { (level : ℕ → ℕ → Level) (from : ℕ) → AreLater from probes.now next
        → AreTraces level (length traces.now) from clock traces.now
        → AreFound level probes.now next found.old → AreFound level probes.now result found.new }
{
    let mut done = next;
    while done < probes.len() && probes[done].tick < clock {
        let probe = probes[done];
        found[probe.place as usize] = traces[probe.net as usize].level(probe.tick);
        done += 1;
    }
    done
}

// Finds the levels for all probes in a run.
fn find_all(
    alloc: Global,
    design: &Design,
    engine: Engine<'_>,
    traces: &mut [Trace],
    probes: &[Probe],
    found: &mut [Level],
) -> Result<(), AllocError>
    requires design { engine.design ≡ design.now }
    requires clock { engine.clock ≡ 1 }
    requires traces { AreTraces (value design.now) (nets_of design.now) 0 1 traces.old }
    requires probes { AreLawful (nets_of design.now) (length found.old) design.now.horizon probes.now }
    ensures { OnOk result (AreFound (value design.now) probes.now (length probes.now) found.new) }
{
    let mut engine = engine;
    let mut changed = Vec::new(alloc);
    // The proof learns here how late the horizon is at most.
    let _horizon = design.horizon();
    let mut done = find(traces, probes, 0, 1, found);
    while done < probes.len() {
        let upto = engine.next_end();
        engine = engine.advance(upto, &mut changed)?;
        follow(traces, &changed, upto);
        done = find(traces, probes, done, upto, found);
    }
    drop(engine);
    Ok(())
}

/// The levels that the nets of some rows have at the rows' ticks, in their order. All nets of the design are simulated,
/// up to the last of these ticks; what that needs of memory goes by nets and rows, and not by ticks. Errors: memory
/// was refused.
pub fn levels_found(
    alloc: Global,
    design: &Design,
    rows: &[Expected],
) -> Result<Vec<Level>, AllocError>
    requires rows { All (IsWithin design.now) rows.now }
    requires few { length rows.now < 2 ^ 32 }
    ensures { IfOk result (λ levels. levels.items ≡ map (level_found design.now) rows.now) }
{
    let probes = probes_of(alloc, rows)?;
    let mut traces = first_traces(alloc, design)?;
    let mut found = vec![in alloc; Level::X; rows.len()]?;
    let engine = Engine::open(alloc, design)?;
    find_all(alloc, design, engine, &mut traces, &probes, &mut found)?;
    Ok(found)
}
