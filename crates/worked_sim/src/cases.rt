//! What a simulation is given, and what is to come of it.

ghost use Rattle.std.specs.Prelude.{◌≤◌};

use crate::checks::{holds, same};
use cmb_sim::{
    Choice, Fault, FromBytes, Level, Limited, Mode, PartCount, Report, Request, Settings,
    simulate_chosen,
};
use std::alloc::{AllocError, Global};
use std::process::Abort;
use std::sync::Wait;
use std::test::Fail;
use std::thread::Threads;
use worked_designs::text_of;

/// What a simulation is given. Rows are parted by spaces, and their header is left out.
#[derive(Clone, Copy)]
pub struct Case<'a> {
    pub bench: &'a [u8],
    pub delays: &'a str,
    pub stimuli: &'a str,
    pub clocks: &'a str,
    pub initial: &'a str,
    pub settings: Settings,
}

/// A netlist with a horizon, and nothing else: no tables, no common clock, and x before the first sample.
pub fn bench_case(bench: &[u8], horizon: u32) -> Case<'_> {
    Case {
        bench,
        delays: "",
        stimuli: "",
        clocks: "",
        initial: "",
        settings: Settings {
            horizon,
            clock: None,
            init: Level::X,
        },
    }
}

/// With a common clock, and 0 before the first sample.
pub fn clocked(case: Case<'_>, first: u32, period: u32) -> Case<'_> {
    Case {
        settings: Settings {
            clock: Some((first, period)),
            init: Level::Zero,
            ..case.settings
        },
        ..case
    }
}

/// The text of a table: its header and rows, or nothing where there are no rows.
pub fn table(alloc: Global, header: &str, rows: &str) -> Result<String, AllocError> {
    let mut text = String::new(alloc);
    if rows.is_empty() {
        return Ok(text);
    }
    text.push_str(header)?;
    for row in rows.split_whitespace() {
        text.push_str("\n")?;
        text.push_str(row)?;
    }
    text.push_str("\n")?;
    Ok(text)
}

/// How a case is run: by a mode, and by so many threads where that is said.
pub type How = (Mode, Option<PartCount>);

// So many workers, clusters or threads.
fn parts(n: u32) -> PartCount
    requires some { 1 ≤ n }
    requires few { n ≤ 64 }
{
    PartCount::new(n).unwrap()
}

// By so many workers, and over so many clusters.
fn rounds(workers: PartCount, clusters: PartCount) -> How {
    (Mode::Rounds { workers, clusters }, None)
}

fn free(workers: PartCount, clusters: PartCount) -> How {
    (Mode::Free { workers, clusters }, None)
}

/// The table.
pub const PLAIN: How = (Mode::Plain, None);

/// By threads that share the work, the text being written once it is whole.
fn shared(threads: PartCount) -> How {
    let (mode, _) = rounds(PartCount::ONE, PartCount::ONE);
    (mode, Some(threads))
}

/// By threads that share the work, the text being written while it is made.
fn shared_freely(threads: PartCount) -> How {
    let (mode, _) = free(PartCount::ONE, PartCount::ONE);
    (mode, Some(threads))
}

/// All modes, with one worker and with more, with each net in a cluster of its own and empty clusters besides, and by
/// threads that share the work.
pub fn modes() -> [How; 14] {
    let (one, two, three) = (PartCount::ONE, parts(2), parts(3));
    let (seven, most) = (parts(7), parts(64));
    [
        PLAIN,
        rounds(one, one),
        rounds(one, most),
        rounds(two, seven),
        rounds(three, two),
        rounds(most, most),
        free(one, most),
        free(two, seven),
        free(three, most),
        free(most, most),
        shared(one),
        shared(three),
        shared_freely(two),
        shared_freely(most),
    ]
}

/// All nets, run so.
pub fn asked(settings: Settings, how: How) -> Request {
    Request {
        settings,
        mode: how.0,
        threads: how.1,
        choice: Choice::All,
        scopes: false,
    }
}

/// An answer as examples say it: the report, or the fault's number and place.
pub type Told = Result<Report, (u32, u64)>;

/// What is told of an answer.
pub fn told(answer: &Result<Report, Fault>) -> Told {
    match answer {
        Ok(report) => Ok(*report),
        Err(fault) => Err((fault.number(), fault.place())),
    }
}

/// Simulates over memory with a sink that takes so many bytes, and gives the answer and what was written.
pub fn run_within<R: AllocGlobal + Threads + Wait + Sync>(
    rt: &R,
    case: Case<'_>,
    how: How,
    room: usize,
) -> Result<(Told, Vec<u8>), AllocError> {
    let alloc = rt.alloc();
    let delays = table(alloc, "by,name,delay", case.delays)?;
    let stimuli = table(alloc, "tick,net,value", case.stimuli)?;
    let clocks = table(alloc, "net,first,period", case.clocks)?;
    let initial = table(alloc, "net,value", case.initial)?;
    let mut out = Limited::new(alloc, room);
    let answer = simulate_chosen(
        rt,
        &mut FromBytes::new(case.bench),
        &mut FromBytes::new(delays.as_bytes()),
        &mut FromBytes::new(stimuli.as_bytes()),
        &mut FromBytes::new(clocks.as_bytes()),
        &mut FromBytes::new(initial.as_bytes()),
        &mut FromBytes::new(&[]),
        asked(case.settings, how),
        &mut out,
    );
    Ok((told(&answer), out.bytes))
}

/// The same with a sink that takes any text of an example.
pub fn run<R: AllocGlobal + Threads + Wait + Sync>(
    rt: &R,
    case: Case<'_>,
    how: How,
) -> Result<(Told, Vec<u8>), AllocError> {
    run_within(rt, case, how, 100_000)
}

/// A sink took so many bytes of this text, and then failed if that isn't all.
pub fn takes(rt: &impl Abort, outcome: (Told, Vec<u8>), text: &str, room: usize) {
    let (told, taken) = outcome;
    let answer = told.map(|report| report.written);
    if room < text.len() {
        same(rt, answer, Err((62, room as u64)));
    } else {
        same(rt, answer, Ok(room as u64));
    }
    same(rt, taken.len(), room);
    holds(rt, text.as_bytes().starts_with(taken.as_slice()));
}

/// In every mode the text of this case is that of these references and this body, and the report tells its length.
pub fn writes<R: AllocGlobal + Abort + Threads + Wait + Sync>(
    rt: &R,
    case: Case<'_>,
    references: &str,
    body: &str,
) -> Result<(), Fail> {
    let want = text_of(rt.alloc(), references, body)?;
    let report = Report {
        nets: u32::try_from(references.split_whitespace().count()).unwrap_or(0),
        horizon: case.settings.horizon,
        written: want.len() as u64,
    };
    for how in modes() {
        let (told, text) = run(rt, case, how)?;
        same(rt, (body, text.as_slice() == want.as_bytes()), (body, true));
        same(rt, (body, told), (body, Ok(report)));
    }
    Ok(())
}

/// The answer to this case, by the table, is this fault at this place, and nothing is written.
pub fn refuses<R: AllocGlobal + Abort + Threads + Wait + Sync>(
    rt: &R,
    case: Case<'_>,
    number: u32,
    place: u64,
) -> Result<(), Fail> {
    let (told, text) = run(rt, case, PLAIN)?;
    same(rt, told, Err((number, place)));
    holds(rt, text.is_empty());
    Ok(())
}
