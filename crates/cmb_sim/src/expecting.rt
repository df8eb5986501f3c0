//! What was expected of a simulation, compared with it.

ghost use Rattle.std.specs.Prelude.{◌≡◌, ◌∷◌, [], ◌-◌, ◌^◌, ◌<◌, ◌≤◌, length, count_by, IfErr, IfOk, OnOk};
ghost use Rattle.cmb_expect.specs.Expectations.{differs};
ghost use Rattle.cmb_expect.specs.Texts.{difference_table};
ghost use Rattle.cmb_io.specs.Sources.{input_limit};
ghost use Rattle.cmb_inputs.specs.Expected.{AreExpected};
ghost use Rattle.cmb_inputs.specs.Inputs.{CanBeInputs, HaveRoom, in_order, read_from, texts_in};
ghost use Rattle.cmb_inputs.specs.Outputs.{written_to};
ghost use Rattle.cmb_sim.specs.Expecting.{AreCompared, IsComparison, IsUncompared};
ghost use Rattle.cmb_sim.specs.Inner.Compared.{IsCompared};
ghost use Rattle.cmb_sim.specs.Inner.Designs.{IsComparisonOf};
ghost use Rattle.cmb_sim.specs.Simulation.{CanRun};

use crate::modes::check_mode;
use cmb_chosen::expected_differences;
use cmb_cli_line::{Choice, Pick, Request};
use cmb_design_model::Design;
use cmb_expect::Differences;
use cmb_faults::{Comparison, Fault, Report};
use cmb_inputs::{InputTexts, expected_in, read_texts, spelled_design, write_text};
use cmb_io::{Sink, Source};
use std::alloc::Global;

// The rows of a table that differ from a design's run, and how many rows it has. The faults are those of the table,
// then 33, and 70.
fn compared(
    alloc: Global,
    request: Request,
    design: &Design,
    table: &[u8],
) -> Result<(u32, Differences), Fault>
    requires { length table.now ≤ input_limit }
    ensures compared { IfOk result (λ told. IsCompared design.now table.now told.0 told.1.count told.1.text.items) }
    ensures runs { OnOk result (CanRun request.mode design.now) }
    ensures fault { IfErr result (IsUncompared request table.now design.now) }
{
    let rows = expected_in(alloc, design, table)?;
    check_mode(request.mode, design)?;
    let told = expected_differences(alloc, design, &rows)?;
    Ok((rows.len() as u32, told))
}

// Writes the rows of a table that differ from a design's run.
fn compare_design<O: Sink>(
    alloc: Global,
    request: Request,
    design: &Design,
    table: &[u8],
    out: &mut O,
) -> Result<Comparison, Fault>
    requires table { length table.now ≤ input_limit }
    requires out { O.failures out.old < 2 ^ 64 - 1 }
    ensures { IsComparisonOf request design.now table.now (written_to O.Sink out.old out.new) result }
{
    let (rows, told) = compared(alloc, request, design, table)?;
    write_text(out, told.text.as_slice())?;
    Ok(Comparison {
        report: Report {
            nets: design.netlist().len() as u32,
            horizon: design.horizon(),
            written: told.text.len() as u64,
        },
        rows,
        differ: told.count,
    })
}

// Does the same with the design that texts spell, as `compare` does once its inputs are read.
fn compare_texts<O: Sink>(
    alloc: Global,
    texts: &InputTexts,
    request: Request,
    out: &mut O,
) -> Result<Comparison, Fault>
    requires texts { CanBeInputs (texts_in texts.now) }
    requires out { O.failures out.old < 2 ^ 64 - 1 }
    ensures { AreCompared request (texts_in texts.now) (written_to O.Sink out.old out.new) result }
{
    let design = spelled_design(alloc, texts, request.settings)?;
    let told = compare_design(alloc, request, &design, texts.names.as_slice(), out);
    drop(design);
    told
}

/// Reads what `simulate` reads and then a table of what is expected of its run, as input 7, and writes in the place of
/// the waveforms the rows of the table that differ: for each, in their order, its tick and net, the level that is
/// expected and the one that the net has, under the header `tick,net,expected,value`. The table has the form of a table
/// of stimuli, of any nets: a row says that its net has this level at this tick. Only nets on which a named one depends
/// are simulated, by one thread in each mode.
///
/// The faults of the table come behind those of the design and before those of the mode: those of its records (23, 24,
/// 25, 31), then of its rows, in order, each by 26, 29 and 39. What is written is made whole before, in each mode. So
/// 70 then comes before it, and 53 never; 62 where a write failed.
pub fn compare<B: Source, D: Source, S: Source, C: Source, I: Source, E: Source, O: Sink>(
    alloc: Global,
    bench: &mut B,
    delays: &mut D,
    stimuli: &mut S,
    clocks: &mut C,
    initial: &mut I,
    expected: &mut E,
    request: Request,
    out: &mut O,
) -> Result<Comparison, Fault>
    requires sources { HaveRoom (B.failures bench.old) (D.failures delays.old)
        (S.failures stimuli.old) (C.failures clocks.old) (I.failures initial.old) }
    requires expected { E.failures expected.old < 2 ^ 64 - 1 }
    requires out { O.failures out.old < 2 ^ 64 - 1 }
    ensures { IsComparison request (in_order (read_from B.Source 1 bench.old bench.new)
        (read_from D.Source 2 delays.old delays.new) (read_from S.Source 3 stimuli.old stimuli.new)
        (read_from C.Source 4 clocks.old clocks.new) (read_from I.Source 6 initial.old initial.new)
        (read_from E.Source 7 expected.old expected.new ∷ []))
        (written_to O.Sink out.old out.new) result }
{
    let choice = Choice::Only(Pick::Listed);
    let texts = read_texts(
        alloc, choice, 7, bench, delays, stimuli, clocks, initial, expected,
    )?;
    compare_texts(alloc, &texts, request, out)
}
