//! A whole simulation.

ghost use Rattle.std.specs.Prelude.{◌≡◌, ◌-◌, ◌^◌, ◌<◌, ◌≤◌, [], length, None};
ghost use Rattle.cmb_io.specs.Sources.{input_limit};
ghost use Rattle.cmb_inputs.specs.Inputs.{CanBeInputs, HaveRoom, in_order, listed, read_from, texts_in};
ghost use Rattle.cmb_inputs.specs.Outputs.{written_to};
ghost use Rattle.cmb_sim.specs.Inner.Designs.{IsRunOf};
ghost use Rattle.cmb_sim.specs.Simulation.{IsOutcome, IsRun, of_all};

use crate::form::write_form;
use crate::plan::plan_of;
use cmb_cli_line::{Choice, Mode, Pick, Request};
use cmb_design_model::{Design, Settings};
use cmb_faults::{Fault, Report};
use cmb_inputs::{InputTexts, read_texts, spelled_design};
use cmb_io::{FromBytes, Sink, Source};
use std::alloc::Global;
use std::sync::Wait;
use std::thread::Threads;

/// Reads a netlist, the tables of delays, stimuli, clocks and first levels, and writes the waveforms of all nets below
/// the horizon.
///
/// The five inputs, numbered 1 to 4 and 6, are read whole, in order, before anything else: 60 where one has more than
/// 16,777,216 bytes, 61 where a read of it failed. Then come the faults of the netlist (1 to 8), of the
/// tables and the design (20 to 37) and of the mode (33). The text is written once the run is complete, in mode
/// free while it runs: 62 where a write failed. `Memory` (70) comes where memory or a worker's thread was refused, in
/// mode free also in the middle of the text. 53 would come where several workers run freely and were stopped.
pub fn simulate<
    R: AllocGlobal + Threads + Wait + Sync,
    B: Source,
    D: Source,
    S: Source,
    C: Source,
    I: Source,
    O: Sink,
>(
    rt: &R,
    bench: &mut B,
    delays: &mut D,
    stimuli: &mut S,
    clocks: &mut C,
    initial: &mut I,
    settings: Settings,
    mode: Mode,
    out: &mut O,
) -> Result<Report, Fault>
    requires sources { HaveRoom (B.failures bench.old) (D.failures delays.old)
        (S.failures stimuli.old) (C.failures clocks.old) (I.failures initial.old) }
    requires out { O.failures out.old < 2 ^ 64 - 1 }
    ensures { IsOutcome (of_all settings mode) (in_order (read_from B.Source 1 bench.old bench.new)
        (read_from D.Source 2 delays.old delays.new) (read_from S.Source 3 stimuli.old stimuli.new)
        (read_from C.Source 4 clocks.old clocks.new) (read_from I.Source 6 initial.old initial.new) [])
        (written_to O.Sink out.old out.new) result }
{
    let list = &mut FromBytes::new(&[]);
    let request = Request {
        settings,
        mode,
        threads: None,
        choice: Choice::All,
        scopes: false,
    };
    simulate_chosen(
        rt, bench, delays, stimuli, clocks, initial, list, request, out,
    )
}

// Simulates a design, and writes the waveforms that are asked for, by the text of the list that names nets.
fn simulate_design<R: AllocGlobal + Threads + Wait + Sync, O: Sink>(
    rt: &R,
    alloc: Global,
    request: Request,
    design: &Design,
    names: &[u8],
    out: &mut O,
) -> Result<Report, Fault>
    requires names { length names.now ≤ input_limit }
    requires out { O.failures out.old < 2 ^ 64 - 1 }
    ensures { IsRunOf request design.now names.now (written_to O.Sink out.old out.new) result }
{
    let plan = plan_of(rt, alloc, request, design, names)?;
    let written = write_form(rt, &plan, design, request.scopes, out)?;
    Ok(Report {
        nets: design.netlist().len() as u32,
        horizon: design.horizon(),
        written,
    })
}

// Does the same with the design that texts spell, as `simulate_chosen` does once its inputs are read.
fn simulate_texts<R: AllocGlobal + Threads + Wait + Sync, O: Sink>(
    rt: &R,
    alloc: Global,
    texts: &InputTexts,
    request: Request,
    out: &mut O,
) -> Result<Report, Fault>
    requires texts { CanBeInputs (texts_in texts.now) }
    requires out { O.failures out.old < 2 ^ 64 - 1 }
    ensures { IsRun request (texts_in texts.now) (written_to O.Sink out.old out.new) result }
{
    let design = spelled_design(alloc, texts, request.settings)?;
    let told = simulate_design(rt, alloc, request, &design, texts.names.as_slice(), out);
    drop(design);
    told
}

/// Simulates as `simulate` does, by threads that share the work where a number of them is given, and writes the
/// waveforms of the chosen nets: of some the declarations and the levels of these alone, by rising number, each with
/// the code of its place among them. Only nets on which a chosen one depends are simulated; but mode plain fills its
/// table for all nets.
///
/// Where a list names the nets, it is input 5, and read whole after the five others; else no byte of it is read. A list
/// has the names of nets, one a line; blanks count as between the words of a netlist, and `#` begins a comment. A net
/// that is named twice counts once. 38 comes where what stands on a line of the list is no net's name, after the faults
/// of the netlist, the tables and the design and before those of the mode.
///
/// With scopes names are parted at `.` into modules, and `led[3]` is declared as bit 3 of bus `led`. The text is that
/// without scopes but for its header. Where not all nets are chosen, and with scopes, the text is made whole before any
/// of it is written, in each mode. So 70 then comes before the text, and 53 never.
pub fn simulate_chosen<
    R: AllocGlobal + Threads + Wait + Sync,
    B: Source,
    D: Source,
    S: Source,
    C: Source,
    I: Source,
    L: Source,
    O: Sink,
>(
    rt: &R,
    bench: &mut B,
    delays: &mut D,
    stimuli: &mut S,
    clocks: &mut C,
    initial: &mut I,
    list: &mut L,
    request: Request,
    out: &mut O,
) -> Result<Report, Fault>
    requires sources { HaveRoom (B.failures bench.old) (D.failures delays.old)
        (S.failures stimuli.old) (C.failures clocks.old) (I.failures initial.old) }
    requires list { L.failures list.old < 2 ^ 64 - 1 }
    requires out { O.failures out.old < 2 ^ 64 - 1 }
    ensures outcome { IsOutcome request (in_order (read_from B.Source 1 bench.old bench.new)
        (read_from D.Source 2 delays.old delays.new) (read_from S.Source 3 stimuli.old stimuli.new)
        (read_from C.Source 4 clocks.old clocks.new) (read_from I.Source 6 initial.old initial.new)
        (listed request.choice (read_from L.Source 5 list.old list.new)))
        (written_to O.Sink out.old out.new) result }
    ensures unread { (request.choice ≡ Choice.Only Pick.Listed → ⊥) → list.new ≡ list.old }
{
    let alloc = rt.alloc();
    let choice = request.choice;
    let texts = read_texts(
        alloc, choice, 5, bench, delays, stimuli, clocks, initial, list,
    )?;
    simulate_texts(rt, alloc, &texts, request, out)
}
