//! What a simulation is given, counted and not simulated.

ghost use Rattle.std.specs.Prelude.{◌≡◌, ◌-◌, ◌^◌, ◌<◌, [], IfOk, IfErr, ⊤};
ghost use Rattle.cmb_inputs.specs.Checking.{AreCounted, IsChecked};
ghost use Rattle.cmb_inputs.specs.Inputs.{CanBeInputs, HaveRoom, IsReading, in_order, read_from, texts_in};
ghost use Rattle.cmb_cli_line.specs.declared.choice.Choice.TheVariants.{All};

use crate::texts::{InputTexts, read_texts, spelled_design};
use cmb_cli_line::Choice;
use cmb_count::{Counts, count_design, counts_text};
use cmb_design_model::{Design, Settings};
use cmb_faults::Fault;
use cmb_io::{FromBytes, Source};
use std::alloc::Global;

/// What there is in a design, and the text that tells it.
#[derive(Drop)]
pub struct Checked {
    pub counts: Counts,
    pub text: Vec<u8>,
}

// What there is in a design.
fn counts_of(alloc: Global, design: &Design, named: usize) -> Result<Checked, Fault>
    ensures ok { IfOk result (IsChecked design.now named) }
    ensures fault { IfErr result (λ fault. fault ≡ Fault.Memory) }
{
    let counts = count_design(alloc, design)?;
    let text = counts_text(alloc, design, &counts, named)?;
    Ok(Checked { counts, text })
}

// What there is in the design that texts spell.
fn check_texts(
    alloc: Global,
    texts: &InputTexts,
    settings: Settings,
    named: usize,
) -> Result<Checked, Fault>
    requires { CanBeInputs (texts_in texts.now) }
    ensures { AreCounted settings named (texts_in texts.now) result }
{
    let design = spelled_design(alloc, texts, settings)?;
    let checked = counts_of(alloc, &design, named);
    drop(design);
    checked
}

/// Reads a netlist and the tables of delays, stimuli, clocks and first levels as `simulate` does, with the same faults,
/// and counts what there is in the place of simulating it. The text of the counts names the first so many of what they
/// count.
pub fn check_design<B: Source, D: Source, S: Source, C: Source, I: Source>(
    alloc: Global,
    bench: &mut B,
    delays: &mut D,
    stimuli: &mut S,
    clocks: &mut C,
    initial: &mut I,
    settings: Settings,
    named: usize,
) -> Result<Checked, Fault>
    requires sources { HaveRoom (B.failures bench.old) (D.failures delays.old)
        (S.failures stimuli.old) (C.failures clocks.old) (I.failures initial.old) }
    ensures { IsReading All (AreCounted settings named) ⊤ (in_order (read_from B.Source 1 bench.old bench.new)
        (read_from D.Source 2 delays.old delays.new) (read_from S.Source 3 stimuli.old stimuli.new)
        (read_from C.Source 4 clocks.old clocks.new) (read_from I.Source 6 initial.old initial.new) []) result }
{
    let none = &mut FromBytes::new(&[]);
    let texts = read_texts(
        alloc,
        Choice::All,
        5,
        bench,
        delays,
        stimuli,
        clocks,
        initial,
        none,
    )?;
    check_texts(alloc, &texts, settings, named)
}
