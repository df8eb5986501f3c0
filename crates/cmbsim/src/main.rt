//! Reads a netlist from standard input, simulates it, and writes the waveforms of its nets, or of chosen ones, to
//! standard output.
#![tactic(auto)]

ghost use Rattle.std.specs.Prelude.{◌≡◌};

use cmb_cli::{LineFault, read_line};
use cmb_host::{
    Refusal, Times, help, kept, no_words, notes_of, on_terminal, open_files, print_fault, refuse,
    refuse_clock, stats_of, status_of, told_of,
};
use cmb_report::{Given, Piped, Timed, Watch, Watched};
use cmb_sim::{Done, Fault, FromReader, Line, Task, ToWriter, carry_out};
use std::env;
use std::io::Write;
use std::process::ExitCode;
use std::sync::Wait;
use std::thread::Threads;
use std::time::Instant;

// What a run took is told where it was done, else the fault in words, each where the line asks for it.
fn told_at_end(
    rt: &HostRuntime,
    given: &Given<'_>,
    done: Result<Done, Fault>,
    times: &Times,
    is_closed: bool,
) -> Result<Done, Refusal> {
    match done {
        Ok(done) => {
            let stats = stats_of(rt, given.line, &done, times);
            for text in [stats, notes_of(rt, given, &done)] {
                if let Some(text) = text {
                    let _ = rt.stderr().write_all(text.as_bytes());
                }
            }
            Ok(done)
        }
        Err(fault) => Err(told_of(rt, given, fault, is_closed)),
    }
}

// What was timed of a run, of which the output was watched.
fn times_of<K, E>(began: Option<Instant>, read: Option<Instant>, watch: &Watch<K, E>) -> Times
    ensures began { result.began ≡ began }
    ensures read { result.read ≡ read }
    ensures so_far { result.so_far ≡ watch.now.so_far }
    ensures writing { result.writing ≡ watch.now.writing }
{
    Times {
        began,
        read,
        so_far: watch.so_far,
        writing: watch.writing,
    }
}

// Opens the tables, and hands all over to what the line asks for. Only `main` may lend the runtime as one that starts
// threads, so it comes once more as that.
fn do_line<R: AllocGlobal + Threads + Wait + Sync>(
    rt: &HostRuntime,
    threads: &R,
    line: &Line,
) -> Result<Done, Refusal> {
    let tables = open_files(rt, line)?;
    let mut bench = kept(rt, line, FromReader::new(rt.stdin()));
    let mut delays = kept(rt, line, tables.delays);
    let mut stimuli = kept(rt, line, tables.stimuli);
    let mut clocks = kept(rt, line, tables.clocks);
    let mut initial = Timed {
        source: kept(rt, line, tables.initial),
        clock: rt,
        read: None,
    };
    let last = match line.task {
        Task::Expect => tables.expected,
        _ => tables.list,
    };
    let mut list = kept(rt, line, last);
    let mut out = Watched {
        sink: ToWriter::new(Piped::new(rt.stdout())),
        watch: Watch::new(rt.alloc(), rt, rt.stderr(), line),
    };
    let began = Instant::now(rt).ok();
    let done = carry_out(
        threads,
        line,
        &mut bench,
        &mut delays,
        &mut stimuli,
        &mut clocks,
        &mut initial,
        &mut list,
        &mut out,
    );
    out.watch.wipe();
    let given = Given::new(line, &bench, &delays, &stimuli, &clocks, &initial, &list);
    let times = times_of(began, initial.read, &out.watch);
    told_at_end(rt, &given, done, &times, out.sink.writer.is_closed)
}

fn main(rt: HostRuntime) -> ExitCode {
    let mut args = match env::args(&rt) {
        Ok(args) => args,
        Err(error) => return no_words(&rt, &error),
    };
    let _program = args.next();
    let Ok(words) = args.collect::<Vec<String>>(rt.alloc()) else {
        return print_fault(&rt, &Fault::Memory);
    };
    match read_line(rt.alloc(), words.as_slice(), on_terminal(&rt)) {
        Ok(line) => status_of(&rt, &line, do_line(&rt, &rt, &line)),
        Err(LineFault::Help) => help(&rt, words.as_slice()),
        Err(LineFault::Wrong) => refuse(&rt, words.as_slice()),
        Err(LineFault::Clock) => refuse_clock(&rt, words.as_slice()),
        Err(LineFault::Memory) => print_fault(&rt, &Fault::Memory),
    }
}
