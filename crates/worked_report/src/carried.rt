//! A line of the program, carried out over memory.

use cmb_cli::read_line;
use cmb_report::{
    Given, Recorded, TextProgress, Timed, Watch, Watched, done_words, fault_words, run_notes,
};
use cmb_sim::{Done, Fault, FromBytes, Line, Room, carry_out};
use std::alloc::{AllocError, Global};
use std::sync::Wait;
use std::test::Fail;
use std::thread::Threads;

/// What the inputs have.
#[derive(Clone, Copy)]
pub struct Inputs<'a> {
    pub bench: &'a [u8],
    pub delays: &'a [u8],
    pub stimuli: &'a [u8],
    pub clocks: &'a [u8],
    pub initial: &'a [u8],
    /// The table of what is expected.
    pub expected: &'a [u8],
}

/// What came of a line.
#[derive(Drop)]
pub struct Outcome {
    pub answer: Result<Done, Fault>,
    /// What else is said of it in words.
    pub words: String,
    /// What was written.
    pub text: Vec<u8>,
    /// What was shown meanwhile.
    pub screen: Vec<u8>,
    pub so_far: TextProgress,
    /// The time of the last read was noted.
    pub was_timed: bool,
}

fn line_of(alloc: Global, line: &str) -> Result<Line, Fail> {
    let mut words: Vec<String> = Vec::new(alloc);
    for word in line.split_whitespace() {
        words.push(String::from_str(alloc, word)?)?;
    }
    match read_line(alloc, words.as_slice(), false) {
        Ok(line) => Ok(line),
        Err(_) => Err(Fail::new("not a line of the program")),
    }
}

// The answer in words, as the program says it to a line with `--explain`.
fn words_of(
    alloc: Global,
    given: &Given<'_>,
    answer: &Result<Done, Fault>,
) -> Result<String, AllocError> {
    match answer {
        Ok(done) => {
            let mut text = run_notes(alloc, given)?;
            text.push_str(done_words(done, false))?;
            Ok(text)
        }
        Err(fault) => fault_words(alloc, given, fault),
    }
}

/// Carries a line out as the program does, with sources that are kept and timed and a sink that is watched.
pub fn carried<R: AllocGlobal + Threads + Wait + Sync>(
    rt: &R,
    clock: &HostRuntime,
    line: &str,
    inputs: Inputs<'_>,
) -> Result<Outcome, Fail> {
    let alloc = rt.alloc();
    let line = line_of(alloc, line)?;
    let mut bench = Recorded::new(alloc, FromBytes::new(inputs.bench), line.explain);
    let mut delays = Recorded::new(alloc, FromBytes::new(inputs.delays), line.explain);
    let mut stimuli = Recorded::new(alloc, FromBytes::new(inputs.stimuli), line.explain);
    let mut clocks = Recorded::new(alloc, FromBytes::new(inputs.clocks), line.explain);
    let mut initial = Timed {
        source: Recorded::new(alloc, FromBytes::new(inputs.initial), line.explain),
        clock,
        read: None,
    };
    let mut expected = Recorded::new(alloc, FromBytes::new(inputs.expected), line.explain);
    let mut out = Watched {
        sink: Room::new(alloc, 1000)?,
        watch: Watch::new(alloc, clock, Vec::new(alloc), &line),
    };
    let answer = carry_out(
        rt,
        &line,
        &mut bench,
        &mut delays,
        &mut stimuli,
        &mut clocks,
        &mut initial,
        &mut expected,
        &mut out,
    );
    out.watch.wipe();
    let given = Given::new(
        &line, &bench, &delays, &stimuli, &clocks, &initial, &expected,
    );
    let words = words_of(alloc, &given, &answer)?;
    Ok(Outcome {
        answer,
        words,
        text: out.sink.bytes,
        screen: out.watch.screen,
        so_far: out.watch.so_far,
        was_timed: initial.read.is_some(),
    })
}
