//! How active the nets of a simulation are.

ghost use Rattle.std.specs.Prelude.{◌≡◌, ◌-◌, ◌^◌, ◌<◌, ◌≤◌, length, All, IfErr, IfOk, OnOk};
ghost use Rattle.std.specs.List.{range_with_len};
ghost use Rattle.cmb_activity.specs.Texts.{activity_table};
ghost use Rattle.cmb_design_model.specs.Exact.{nets_of};
ghost use Rattle.cmb_io.specs.Sources.{input_limit};
ghost use Rattle.cmb_inputs.specs.Inputs.{CanBeInputs, HaveRoom, in_order, listed, read_from, texts_in};
ghost use Rattle.cmb_inputs.specs.Outputs.{written_to};
ghost use Rattle.cmb_sim.specs.Activities.{IsMeasured, IsTableOf, IsTabled};
ghost use Rattle.cmb_sim.specs.Inner.Designs.{IsTabledOf};
ghost use Rattle.cmb_sim.specs.Simulation.{CanRun, IsRefused};

use crate::modes::check_mode;
use cmb_activity::activity_text;
use cmb_chosen::chosen_activity_text;
use cmb_cli_line::{Choice, Pick, Request};
use cmb_design_model::Design;
use cmb_faults::{Fault, Report};
use cmb_inputs::{InputTexts, chosen_nets, read_texts, spelled_design, write_text};
use cmb_io::{Sink, Source};
use std::alloc::{AllocError, Global};

/// All nets, where there are so many.
pub(crate) fn all_nets(alloc: Global, count: u32) -> Result<Vec<u32>, AllocError>
    ensures nets { IfOk result (λ nets. nets.items ≡ range_with_len 0 count) }
    ensures below { IfOk result (λ nets. All (λ net. net < count) nets.items) }
{
    let mut nets = Vec::new(alloc);
    for net in 0..count {
        nets.push(net)?;
    }
    Ok(nets)
}

// The table of all nets of a design.
fn whole_table(alloc: Global, design: &Design) -> Result<Vec<u8>, AllocError>
    ensures { IfOk result (λ table. table.items ≡ activity_table design.now (range_with_len 0 (nets_of design.now))) }
{
    let nets = all_nets(alloc, design.netlist().len() as u32)?;
    activity_text(alloc, design, &nets)
}

// The table that is asked for of a design, by the text of the list that names nets. The faults are 38 and 33, in this
// order, and 70.
fn asked_table(
    alloc: Global,
    request: Request,
    design: &Design,
    names: &[u8],
) -> Result<Vec<u8>, Fault>
    requires { length names.now ≤ input_limit }
    ensures table { IfOk result (λ table. IsTableOf request.choice design.now names.now table.items) }
    ensures runs { OnOk result (CanRun request.mode design.now) }
    ensures fault { IfErr result (IsRefused request names.now design.now) }
{
    match request.choice {
        Choice::All => {
            check_mode(request.mode, design)?;
            Ok(whole_table(alloc, design)?)
        }
        Choice::Only(pick) => {
            let nets = chosen_nets(alloc, pick, design, names)?;
            check_mode(request.mode, design)?;
            Ok(chosen_activity_text(alloc, design, &nets)?)
        }
    }
}

// Writes the table that is asked for of a design, by the text of the list that names nets.
fn measure_design<O: Sink>(
    alloc: Global,
    request: Request,
    design: &Design,
    names: &[u8],
    out: &mut O,
) -> Result<Report, Fault>
    requires names { length names.now ≤ input_limit }
    requires out { O.failures out.old < 2 ^ 64 - 1 }
    ensures { IsTabledOf request design.now names.now (written_to O.Sink out.old out.new) result }
{
    let table = asked_table(alloc, request, design, names)?;
    write_text(out, table.as_slice())?;
    Ok(Report {
        nets: design.netlist().len() as u32,
        horizon: design.horizon(),
        written: table.len() as u64,
    })
}

// Does the same of the design that texts spell, as `measure` does once its inputs are read.
fn measure_texts<O: Sink>(
    alloc: Global,
    texts: &InputTexts,
    request: Request,
    out: &mut O,
) -> Result<Report, Fault>
    requires texts { CanBeInputs (texts_in texts.now) }
    requires out { O.failures out.old < 2 ^ 64 - 1 }
    ensures { IsTabled request (texts_in texts.now) (written_to O.Sink out.old out.new) result }
{
    let design = spelled_design(alloc, texts, request.settings)?;
    let told = measure_design(alloc, request, &design, texts.names.as_slice(), out);
    drop(design);
    told
}

/// Reads what `simulate_chosen` reads, with the same faults before the text, and writes in the place of the waveforms
/// of the chosen nets how active these are: for each, by rising number, how often it changes after tick 0, and at how
/// many ticks it is 0, 1 and x, under the header `net,changes,low,high,unknown`. Only nets on which a chosen one
/// depends are simulated, by one thread in each mode.
///
/// The table is made whole before any of it is written, in each mode. So 70 then comes before it, and 53 never; 62
/// where a write failed.
pub fn measure<B: Source, D: Source, S: Source, C: Source, I: Source, L: Source, O: Sink>(
    alloc: Global,
    bench: &mut B,
    delays: &mut D,
    stimuli: &mut S,
    clocks: &mut C,
    initial: &mut I,
    list: &mut L,
    request: Request,
    out: &mut O,
) -> Result<Report, Fault>
    requires sources { HaveRoom (B.failures bench.old) (D.failures delays.old)
        (S.failures stimuli.old) (C.failures clocks.old) (I.failures initial.old) }
    requires list { L.failures list.old < 2 ^ 64 - 1 }
    requires out { O.failures out.old < 2 ^ 64 - 1 }
    ensures measured { IsMeasured request (in_order (read_from B.Source 1 bench.old bench.new)
        (read_from D.Source 2 delays.old delays.new) (read_from S.Source 3 stimuli.old stimuli.new)
        (read_from C.Source 4 clocks.old clocks.new) (read_from I.Source 6 initial.old initial.new)
        (listed request.choice (read_from L.Source 5 list.old list.new)))
        (written_to O.Sink out.old out.new) result }
    ensures unread { (request.choice ≡ Choice.Only Pick.Listed → ⊥) → list.new ≡ list.old }
{
    let choice = request.choice;
    let texts = read_texts(
        alloc, choice, 5, bench, delays, stimuli, clocks, initial, list,
    )?;
    measure_texts(alloc, &texts, request, out)
}
