//! A fault in words.

ghost use Rattle.std.specs.Prelude.{◌≡◌, ◌==◌, ◌&&◌, [], if◌then◌else◌, option_map, string_bytes, unwrap_or};
ghost use Rattle.cmb_report.specs.Words.{name_of, nets_of, no_nets};

use crate::clocks::unclocked;
use crate::kinds::push_kinds;
use crate::netlist::{line_at, undriven, unknown_kind};
use crate::record::{push_wrong, record_at};
use crate::recorded::Recorded;
use crate::right::push_right;
use crate::shown::push_shown;
use crate::table::{Table, table_of, text_of};
use crate::timed::Timed;
use cmb_bench::read_bench;
use cmb_cli_line::Line;
use cmb_design_model::{DesignFault, Settings};
use cmb_explain::{Explanation, Place, explanation_of};
use cmb_faults::{Done, Fault};
use cmb_netlist::{MAX_TEXT, Netlist};
use std::alloc::{AllocError, Global};

/// What a run or a check was given. A text that wasn't kept is empty.
#[derive(Clone, Copy)]
pub struct Given<'a> {
    pub line: &'a Line,
    pub settings: Settings,
    pub bench: &'a [u8],
    pub delays: &'a [u8],
    pub stimuli: &'a [u8],
    pub clocks: &'a [u8],
    pub initial: &'a [u8],
    /// The list of nets, or the table of what is expected.
    pub list: &'a [u8],
    /// All texts were kept.
    pub is_whole: bool,
}

impl<'a> Given<'a> {
    /// What the sources of a line's inputs kept. The last is that of the list, or of what is expected.
    pub fn new<B, S, K>(
        line: &'a Line,
        bench: &'a Recorded<B>,
        delays: &'a Recorded<S>,
        stimuli: &'a Recorded<S>,
        clocks: &'a Recorded<S>,
        initial: &'a Timed<Recorded<S>, K>,
        list: &'a Recorded<S>,
    ) -> Given<'a>
        ensures settings { result.settings ≡ line.now.settings }
        ensures bench { result.bench.now ≡ (if bench.now.keeps then bench.now.bytes.items else []) }
        ensures delays { result.delays.now ≡ (if delays.now.keeps then delays.now.bytes.items else []) }
        ensures stimuli { result.stimuli.now ≡ (if stimuli.now.keeps then stimuli.now.bytes.items else []) }
        ensures clocks { result.clocks.now ≡ (if clocks.now.keeps then clocks.now.bytes.items else []) }
        ensures initial { result.initial.now
            ≡ (if initial.now.source.keeps then initial.now.source.bytes.items else []) }
        ensures list { result.list.now ≡ (if list.now.keeps then list.now.bytes.items else []) }
        ensures whole { result.is_whole ≡ (bench.now.keeps && (delays.now.keeps && (stimuli.now.keeps
            && (clocks.now.keeps && initial.now.source.keeps)))) }
    {
        Given {
            line,
            settings: line.settings,
            bench: bench.given(),
            delays: delays.given(),
            stimuli: stimuli.given(),
            clocks: clocks.given(),
            initial: initial.source.given(),
            list: list.given(),
            is_whole: bench.keeps
                && delays.keeps
                && stimuli.keeps
                && clocks.keeps
                && initial.source.keeps,
        }
    }
}

// The path that a line names, or else other words.
fn path_or<'a>(path: &'a Option<String>, other: &'a str) -> &'a str
    ensures { result.now ≡ unwrap_or (option_map string_bytes path.now) other.now }
{
    match path {
        Some(path) => path.as_str(),
        None => other,
    }
}

/// How an input is called: a table or a list by its path.
pub fn input_name(line: &Line, input: u64) -> &str
    ensures { result.now ≡ name_of line.now input }
{
    match input {
        2 => path_or(&line.delays, "a table"),
        3 => path_or(&line.stimuli, "a table"),
        4 => path_or(&line.clocks, "a table"),
        5 => path_or(&line.only, "the list"),
        6 => path_or(&line.initial, "a table"),
        7 => path_or(&line.expected, "a table"),
        _ => "the netlist",
    }
}

fn number_of(table: Table) -> u64 {
    match table {
        Table::Delays => 2,
        Table::Stimuli => 3,
        Table::Clocks => 4,
        Table::Initial => 6,
        Table::Expected => 7,
    }
}

// Which net on a line isn't driven, where that is what is wrong.
fn push_undriven(
    text: &mut String,
    bench: &[u8],
    line: &[u8],
    is_undriven: bool,
) -> Result<(), AllocError> {
    if is_undriven {
        if let Some(name) = undriven(bench, line) {
            text.push_str(": ")?;
            push_shown(text, name)?;
            return text.push_str(", in");
        }
    }
    text.push_str(":")
}

// A line of the netlist: what is wrong there, and what stands there.
fn push_line(
    alloc: Global,
    text: &mut String,
    given: &Given<'_>,
    place: u64,
    entry: Explanation,
) -> Result<(), AllocError> {
    let meaning = entry.meaning;
    let line = line_at(given.bench, place);
    write!(text, "the netlist, line {place}: {meaning}")?;
    if line.is_empty() {
        return Ok(());
    }
    push_undriven(text, given.bench, line, entry.number == 6)?;
    text.push_str(" ")?;
    push_shown(text, line)?;
    if entry.number == 3 {
        return push_kinds(alloc, text, unknown_kind(line));
    }
    Ok(())
}

// A record of a table: the file and its line, and what is wrong there.
fn push_record(
    alloc: Global,
    text: &mut String,
    given: &Given<'_>,
    fault: DesignFault,
    meaning: &str,
) -> Result<(), AllocError> {
    let place = fault.record();
    let Some(table) = table_of(alloc, given, fault) else {
        return write!(text, "a table, record {place}: {meaning}");
    };
    let name = input_name(given.line, number_of(table));
    match record_at(alloc, text_of(given, table), u64::from(place)) {
        Some(found) => {
            write!(text, "{name}, line {}: {meaning}: ", found.line)?;
            push_wrong(text, table, fault, &found.fields)?;
            push_right(alloc, text, table, fault, &found.fields)
        }
        None => write!(text, "{name}, record {place}: {meaning}"),
    }
}

// A line of the list of nets: the file and the line, what is wrong there, and what stands there.
fn push_listed(
    text: &mut String,
    given: &Given<'_>,
    place: u64,
    meaning: &str,
) -> Result<(), AllocError> {
    let name = input_name(given.line, 5);
    let line = line_at(given.list, place);
    write!(text, "{name}, line {place}: {meaning}")?;
    if line.is_empty() {
        return Ok(());
    }
    text.push_str(": ")?;
    push_shown(text, line)
}

// Which flip-flop of the netlist has no clock.
fn push_unclocked(
    alloc: Global,
    text: &mut String,
    netlist: &Netlist,
    clocks: &[u8],
) -> Result<(), AllocError> {
    match unclocked(alloc, netlist, clocks) {
        Some(name) => {
            text.push_str(": ")?;
            push_shown(text, name)
        }
        None => Ok(()),
    }
}

// A fault that stands at no one place. Of a flip-flop without a clock its net is named.
fn push_nowhere(
    alloc: Global,
    text: &mut String,
    given: &Given<'_>,
    entry: Explanation,
) -> Result<(), AllocError> {
    text.push_str(entry.meaning)?;
    if entry.number != 22 || given.bench.len() > MAX_TEXT {
        return Ok(());
    }
    let Ok(netlist) = read_bench(alloc, given.bench) else {
        return Ok(());
    };
    push_unclocked(alloc, text, &netlist, given.clocks)
}

// What is wrong, and where.
fn push_words(
    alloc: Global,
    text: &mut String,
    given: &Given<'_>,
    fault: &Fault,
    entry: Explanation,
) -> Result<(), AllocError> {
    let place = fault.place();
    let meaning = entry.meaning;
    match entry.place {
        Place::Line => push_line(alloc, text, given, place, entry),
        Place::Record => match fault {
            Fault::Design(fault) => push_record(alloc, text, given, *fault, meaning),
            _ => write!(text, "a table, record {place}: {meaning}"),
        },
        Place::Listed => push_listed(text, given, place, meaning),
        Place::Input => write!(text, "{}: {meaning}", input_name(given.line, place)),
        Place::Bytes => write!(text, "after {place} bytes: {meaning}"),
        Place::Net | Place::Nowhere => push_nowhere(alloc, text, given, entry),
    }
}

/// A fault in words, on a line of its own: the input by its path, the line of the file, what is wrong, and what stands
/// there.
pub fn fault_words(alloc: Global, given: &Given<'_>, fault: &Fault) -> Result<String, AllocError> {
    let mut text = String::from_str(alloc, "cmbsim: ")?;
    if let Some(entry) = explanation_of(fault.number()) {
        push_words(alloc, &mut text, given, fault, entry)?;
        text.push_str("\n")?;
    }
    Ok(text)
}

// What is said of a netlist without nets.
const NO_NETS: &str = "\
cmbsim: the netlist has no nets, so its waveforms have none, and some viewers refuse to open them
";

// What is said of one that was read from a terminal.
const NONE_TYPED: &str = "\
cmbsim: the netlist, read from the terminal, has no nets: `< netlist.bench` has it read from a file
";

// How many nets what was done has.
fn net_count(done: &Done) -> usize
    ensures { result ≡ nets_of done.now }
{
    match done {
        Done::Ran(report) | Done::Measured(report) => report.nets as usize,
        Done::Compared(told) => told.report.nets as usize,
        Done::Checked(counts) => counts.nets,
    }
}

/// A warning if the netlist has no nets, by whether it was typed at a terminal; else nothing.
pub fn done_words(done: &Done, is_typed: bool) -> &'static str
    ensures { result.now ≡ (if nets_of done.now == 0 then no_nets is_typed else []) }
{
    if net_count(done) > 0 {
        ""
    } else if is_typed {
        NONE_TYPED
    } else {
        NO_NETS
    }
}
