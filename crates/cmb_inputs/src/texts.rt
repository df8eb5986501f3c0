//! The texts of a line's inputs, read whole, and the design that they spell.

ghost use Rattle.std.specs.Prelude.{◌≡◌, ◌-◌, ◌^◌, ◌<◌, ◌≤◌, Err, length, IfOk, IfErr};
ghost use Rattle.cmb_io.specs.Sources.{IsWhole, input_limit};
ghost use Rattle.cmb_inputs.specs.Inputs.{AreRead, AreWhole, CanBeInputs, HaveRoom, IsUnread, LackTexts, NoneFailedBut};
ghost use Rattle.cmb_inputs.specs.Inputs.{TellsFailed, in_order, listed, read_from, texts_in};
ghost use Rattle.cmb_inputs.specs.Spelling.{HaveTextFault, SpellAny};

use cmb_bench::read_bench;
use cmb_cli_line::{Choice, Pick};
use cmb_design_model::{Design, Settings};
use cmb_design_tables::{read_clocks, read_delays, read_initial, read_stimuli};
use cmb_faults::Fault;
use cmb_io::{ReadFault, Source, read_whole};
use std::alloc::Global;

/// What the inputs have.
#[derive(Drop)]
pub struct InputTexts {
    pub bench: Vec<u8>,
    pub delays: Vec<u8>,
    pub stimuli: Vec<u8>,
    pub clocks: Vec<u8>,
    pub initial: Vec<u8>,
    /// What names nets: the list, or the table of what is expected of them; empty where none is read.
    pub names: Vec<u8>,
}

/// Reads the input with this number whole, and gives its text in bytes: 60 at this number where the input has more than
/// 16,777,216 bytes, 61 at this number where a read of it failed, 70 where memory was refused.
pub fn read_input<S: Source>(alloc: Global, source: &mut S, number: u32) -> Result<Vec<u8>, Fault>
    requires { S.failures source.old < 2 ^ 64 - 1 }
    ensures whole { IfOk result (λ text. IsWhole (S.remaining source.old) text.items) }
    ensures fault { IfErr result (IsUnread number (read_from S.Source number source.old source.new)) }
    ensures failures { (result ≡ Err (Fault.Read number) → ⊥)
        → S.failures source.new ≡ S.failures source.old }
{
    match read_whole(alloc, source) {
        Ok(text) => Ok(text),
        Err(ReadFault::TooLong) => Err(Fault::TooLong { input: number }),
        Err(ReadFault::Failed) => Err(Fault::Read { input: number }),
        Err(ReadFault::Memory) => Err(Fault::Memory),
    }
}

/// The size of a large block, in bytes.
const LARGE: usize = 8_388_608;

// Takes a large block and gives it back at once. An allocator that maps large blocks apart, as glibc's, then keeps
// blocks of up to this size among the others, where they are used again: those of the texts too, if this comes first.
// Where it is refused nothing is lost: it is a matter of speed alone.
fn take_and_give_back(alloc: Global) {
    let _ = Vec::<u8>::with_capacity(alloc, LARGE);
}

/// Reads the list that names the nets that are chosen whole, as the input with this number, and gives its text in
/// bytes; where the choice has no list the text is empty, and nothing is read. The faults are those of `read_input`.
pub fn read_names<L: Source>(
    alloc: Global,
    choice: Choice,
    number: u32,
    list: &mut L,
) -> Result<Vec<u8>, Fault>
    requires { L.failures list.old < 2 ^ 64 - 1 }
    ensures whole { IfOk result (λ names.
        AreWhole (listed choice (read_from L.Source number list.old list.new)) (listed choice names.items)) }
    ensures short { IfOk result (λ names. length names.items ≤ input_limit) }
    ensures fault { IfErr result (LackTexts (listed choice (read_from L.Source number list.old list.new))) }
    ensures failures { NoneFailedBut (TellsFailed result)
        (listed choice (read_from L.Source number list.old list.new)) }
    ensures unread { (choice ≡ Choice.Only Pick.Listed → ⊥) → list.new ≡ list.old }
{
    match choice {
        Choice::Only(Pick::Listed) => read_input(alloc, list, number),
        Choice::Only(Pick::Outputs) | Choice::All => Ok(Vec::new(alloc)),
    }
}

/// Reads the inputs whole, in order, first levels as input 6, and the list of nets as the last, with this number, where
/// one names the nets that are chosen: 60 where one has more than 16,777,216 bytes, 61 where a read of it failed, 70
/// where memory was refused.
pub fn read_texts<B: Source, D: Source, S: Source, C: Source, I: Source, L: Source>(
    alloc: Global,
    choice: Choice,
    number: u32,
    bench: &mut B,
    delays: &mut D,
    stimuli: &mut S,
    clocks: &mut C,
    initial: &mut I,
    list: &mut L,
) -> Result<InputTexts, Fault>
    requires sources { HaveRoom (B.failures bench.old) (D.failures delays.old)
        (S.failures stimuli.old) (C.failures clocks.old) (I.failures initial.old) }
    requires list { L.failures list.old < 2 ^ 64 - 1 }
    ensures read { AreRead choice (in_order (read_from B.Source 1 bench.old bench.new)
        (read_from D.Source 2 delays.old delays.new) (read_from S.Source 3 stimuli.old stimuli.new)
        (read_from C.Source 4 clocks.old clocks.new) (read_from I.Source 6 initial.old initial.new)
        (listed choice (read_from L.Source number list.old list.new))) result }
    ensures unread { (choice ≡ Choice.Only Pick.Listed → ⊥) → list.new ≡ list.old }
{
    take_and_give_back(alloc);
    Ok(InputTexts {
        bench: read_input(alloc, bench, 1)?,
        delays: read_input(alloc, delays, 2)?,
        stimuli: read_input(alloc, stimuli, 3)?,
        clocks: read_input(alloc, clocks, 4)?,
        initial: read_input(alloc, initial, 6)?,
        names: read_names(alloc, choice, number, list)?,
    })
}

/// The design that texts spell, under these settings: the first fault of the netlist (1 to 8), else the first of
/// the tables, in their order, and of the design (20 to 37) that stands; 70 where memory was refused, which may come in
/// the place of each of these. No text is longer than an input may be.
pub fn spelled_design(
    alloc: Global,
    texts: &InputTexts,
    settings: Settings,
) -> Result<Design, Fault>
    requires { CanBeInputs (texts_in texts.now) }
    ensures ok { IfOk result (SpellAny (texts_in texts.now) settings) }
    ensures fault { IfErr result (HaveTextFault (texts_in texts.now) settings) }
{
    let netlist = read_bench(alloc, texts.bench.as_slice())?;
    let delays = read_delays(alloc, texts.delays.as_slice())?;
    let stimuli = read_stimuli(alloc, texts.stimuli.as_slice())?;
    let clocks = read_clocks(alloc, texts.clocks.as_slice())?;
    let initial = read_initial(alloc, texts.initial.as_slice())?;
    let design = Design::new(alloc, netlist, delays, stimuli, clocks, initial, settings)?;
    Ok(design)
}
