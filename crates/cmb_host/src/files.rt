//! The files that a line names, opened.

ghost use Rattle.std.specs.Prelude.{◌≡◌, ◌-◌, ◌^◌, ◌<◌, ◌↔◌, ℕ, IfErr, IfOk, IfSome, IsSome, true};
ghost use Rattle.cmb_host.specs.Inputs.{IsNamed};
ghost use Rattle.cmb_host.specs.Statuses.{IsWrite};
ghost use Rattle.cmb_faults.specs.declared.fault.Fault.TheVariants.{Read};

use cmb_cli_line::Line;
use cmb_faults::{Done, Fault};
use cmb_io::{FromReader, Source};
use cmb_report::{Given, Recorded, fault_words, input_name, run_notes};
use std::fs::File;
use std::io;
use std::io::Read;

/// A fault, with what else there is to say of it where that was asked for and memory allows it.
#[derive(Drop)]
pub struct Refusal {
    pub fault: Fault,
    pub words: Option<String>,
    /// It isn't told.
    pub quiet: bool,
}

// The system's own words of a file that can't be opened.
fn unopened(rt: &HostRuntime, name: &str, error: &io::Error) -> Option<String> {
    format!(in rt.alloc(); "cmbsim: {name}: {error}\n").ok()
}

// The file of the input with this number, opened, if one is named.
fn open(
    rt: &HostRuntime,
    name: &Option<String>,
    input: u32,
) -> Result<Option<FromReader<File>>, Refusal>
    ensures opened { IfOk result (λ source. ⟦<Option<FromReader<File>> as Source>⟧.failures source ≡ 0) }
    ensures named { IfOk result (λ source. IsSome source ↔ IsSome name.now) }
    ensures fault { IfErr result (λ told. IsSome name.now × (told.fault ≡ Read input)) }
{
    let Some(name) = name else {
        return Ok(None);
    };
    match File::open(rt, name.as_str()) {
        Ok(file) => Ok(Some(FromReader::new(file))),
        Err(error) => Err(Refusal {
            fault: Fault::Read { input },
            words: unopened(rt, name.as_str(), &error),
            quiet: false,
        }),
    }
}

// Whether standard input can be read at all. Where it is closed, the first file that is opened takes its place, and
// would be read as the netlist.
fn has_input(rt: &HostRuntime) -> bool {
    rt.stdin().read(&mut []).is_ok()
}

/// The tables, the list of nets and what is expected, opened. One that isn't named has no bytes.
#[derive(Drop)]
pub struct OpenFiles {
    pub delays: Option<FromReader<File>>,
    pub stimuli: Option<FromReader<File>>,
    pub clocks: Option<FromReader<File>>,
    pub list: Option<FromReader<File>>,
    pub initial: Option<FromReader<File>>,
    pub expected: Option<FromReader<File>>,
}

/// Opens the files that a line names, in the order of their inputs, and no others. Fault 61, with the input's number,
/// where one can't be opened, or where standard input, which has the netlist, is closed.
pub fn open_files(rt: &HostRuntime, line: &Line) -> Result<OpenFiles, Refusal>
    ensures delays { IfOk result (λ tables. (IsSome tables.delays ↔ IsSome line.now.delays)
        × (⟦<Option<FromReader<File>> as Source>⟧.failures tables.delays ≡ 0)) }
    ensures stimuli { IfOk result (λ tables. (IsSome tables.stimuli ↔ IsSome line.now.stimuli)
        × (⟦<Option<FromReader<File>> as Source>⟧.failures tables.stimuli ≡ 0)) }
    ensures clocks { IfOk result (λ tables. (IsSome tables.clocks ↔ IsSome line.now.clocks)
        × (⟦<Option<FromReader<File>> as Source>⟧.failures tables.clocks ≡ 0)) }
    ensures list { IfOk result (λ tables. (IsSome tables.list ↔ IsSome line.now.only)
        × (⟦<Option<FromReader<File>> as Source>⟧.failures tables.list ≡ 0)) }
    ensures initial { IfOk result (λ tables. (IsSome tables.initial ↔ IsSome line.now.initial)
        × (⟦<Option<FromReader<File>> as Source>⟧.failures tables.initial ≡ 0)) }
    ensures expected { IfOk result (λ tables. (IsSome tables.expected ↔ IsSome line.now.expected)
        × (⟦<Option<FromReader<File>> as Source>⟧.failures tables.expected ≡ 0)) }
    ensures fault { IfErr result (λ told. (input : ℕ) × IsNamed line.now input × (told.fault ≡ Read input)) }
{
    let has_input = has_input(rt);
    let delays = open(rt, &line.delays, 2)?;
    let stimuli = open(rt, &line.stimuli, 3)?;
    let clocks = open(rt, &line.clocks, 4)?;
    let list = open(rt, &line.only, 5)?;
    let initial = open(rt, &line.initial, 6)?;
    let expected = open(rt, &line.expected, 7)?;
    if !has_input {
        return Err(Refusal {
            fault: Fault::Read { input: 1 },
            words: None,
            quiet: false,
        });
    }
    Ok(OpenFiles {
        delays,
        stimuli,
        clocks,
        list,
        initial,
        expected,
    })
}

/// A source whose bytes are kept where the line wants a fault in words.
pub fn kept<S: Source>(rt: &HostRuntime, line: &Line, source: S) -> Recorded<S>
    requires { S.failures source < 2 ^ 64 - 1 }
    ensures keeps { result.keeps ≡ line.now.explain }
    ensures failures { ⟦<Recorded<S> as Source>⟧.failures result < 2 ^ 64 - 1 }
{
    Recorded::new(rt.alloc(), source, line.explain)
}

// The system's own words of an input that can't be read, as of a folder: it is read once more.
fn unread(rt: &HostRuntime, line: &Line, input: u32) -> Option<String> {
    let name = input_name(line, u64::from(input));
    let error = if input == 1 {
        rt.stdin().read(&mut [0]).err()?
    } else {
        let mut file = File::open(rt, name).ok()?;
        file.read(&mut [0]).err()?
    };
    unopened(rt, name, &error)
}

// A fault in words: those of the system where an input can't be read.
fn words_of(rt: &HostRuntime, given: &Given<'_>, fault: &Fault) -> Option<String> {
    if let Fault::Read { input } = fault {
        if let Some(words) = unread(rt, given.line, *input) {
            return Some(words);
        }
    }
    fault_words(rt.alloc(), given, fault).ok()
}

/// A fault, in words too where the line asks for them. It isn't told where its output was a pipe whose reader closed
/// it, and the line wants that quiet.
pub fn told_of(rt: &HostRuntime, given: &Given<'_>, fault: Fault, is_closed: bool) -> Refusal
    ensures fault { result.fault ≡ fault }
    ensures quiet { (result.quiet ≡ true) ↔ (is_closed ≡ true) × (given.now.line.now.quiet ≡ true) × IsWrite fault }
{
    let words = if given.line.explain {
        words_of(rt, given, &fault)
    } else {
        None
    };
    let quiet = is_closed && given.line.quiet && matches!(fault, Fault::Write { .. });
    Refusal {
        fault,
        words,
        quiet,
    }
}

/// Notes on what was done, where the line asks for words and memory allows it.
pub fn notes_of(rt: &HostRuntime, given: &Given<'_>, done: &Done) -> Option<String>
    ensures { IfSome result (λ _. given.now.line.now.explain ≡ true) }
{
    match done {
        Done::Ran(_) | Done::Measured(_) | Done::Compared(_) if given.line.explain => {
            run_notes(rt.alloc(), given).ok()
        }
        _ => None,
    }
}
