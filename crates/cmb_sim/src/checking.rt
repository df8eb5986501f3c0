//! The counts of a design.

ghost use Rattle.std.specs.Prelude.{◌-◌, ◌^◌, ◌<◌, []};
ghost use Rattle.cmb_inputs.specs.Inputs.{HaveRoom, in_order, read_from};
ghost use Rattle.cmb_inputs.specs.Outputs.{written_to};
ghost use Rattle.cmb_sim.specs.Tasks.{IsCheck};

use cmb_count::Counts;
use cmb_design_model::Settings;
use cmb_faults::Fault;
use cmb_inputs::{check_design, write_text};
use cmb_io::{Sink, Source};
use std::alloc::Global;

/// Reads a netlist and the tables of delays, stimuli, clocks and first levels, with the faults of `check_design`, and
/// writes the counts of what there is, with the first so many names of what they count. The text is made whole before
/// any of it is written, so 70 comes before it; 62 where a write failed.
pub fn check<B: Source, D: Source, S: Source, C: Source, I: Source, O: Sink>(
    alloc: Global,
    bench: &mut B,
    delays: &mut D,
    stimuli: &mut S,
    clocks: &mut C,
    initial: &mut I,
    settings: Settings,
    named: usize,
    out: &mut O,
) -> Result<Counts, Fault>
    requires sources { HaveRoom (B.failures bench.old) (D.failures delays.old)
        (S.failures stimuli.old) (C.failures clocks.old) (I.failures initial.old) }
    requires out { O.failures out.old < 2 ^ 64 - 1 }
    ensures { IsCheck settings named (in_order (read_from B.Source 1 bench.old bench.new)
        (read_from D.Source 2 delays.old delays.new) (read_from S.Source 3 stimuli.old stimuli.new)
        (read_from C.Source 4 clocks.old clocks.new) (read_from I.Source 6 initial.old initial.new) [])
        (written_to O.Sink out.old out.new) result }
{
    let told = check_design(
        alloc, bench, delays, stimuli, clocks, initial, settings, named,
    )?;
    write_text(out, told.text.as_slice())?;
    Ok(told.counts)
}
