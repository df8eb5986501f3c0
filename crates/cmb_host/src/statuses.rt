//! What is printed at the end of a run, and its status: 0 where the line was done or help was asked for, 1 with a
//! fault, 2 where the words are no line, 3 where something came otherwise than was expected.

ghost use Rattle.std.specs.Prelude.{◌≡◌, ◌≤◌, IfErr, IfOk};
ghost use Rattle.std.specs.Process.{exit_status};
ghost use Rattle.cmb_host.specs.Statuses.{done_status};

use crate::files::Refusal;
use cmb_cli::line_message;
use cmb_cli_line::Line;
use cmb_design_model::DesignFault;
use cmb_faults::{Comparison, Done, Fault, fault_line};
use cmb_io::{ToWriter, write_whole};
use cmb_report::{Piped, done_words};
use std::io;
use std::io::{IsTerminal, Write};
use std::process::ExitCode;

// Prints a text to standard output. What isn't taken is a fault, which isn't told where the reader of a pipe closed it
// and standard error is a terminal.
fn print(rt: &HostRuntime, text: &str) -> Result<(), Refusal> {
    let mut out = ToWriter::new(Piped::new(rt.stdout()));
    match write_whole(&mut out, text.as_bytes()) {
        Ok(()) => Ok(()),
        Err(written) => Err(Refusal {
            fault: Fault::Write {
                written: written as u64,
            },
            words: None,
            quiet: out.writer.is_closed && on_terminal(rt),
        }),
    }
}

/// Whether standard error is a terminal.
pub fn on_terminal(rt: &HostRuntime) -> bool {
    rt.stderr().is_terminal()
}

/// Prints the fault on standard error, if memory allows. The status is 1.
pub fn print_fault(rt: &HostRuntime, fault: &Fault) -> ExitCode
    ensures { exit_status result ≡ 1 }
{
    if let Ok(text) = fault_line(rt.alloc(), fault) {
        let _ = rt.stderr().write_all(text.as_slice());
    }
    ExitCode::from(1)
}

// Prints the fault on standard error, and what there is to say of it where words are wanted, unless it isn't told.
fn print_words(rt: &HostRuntime, told: &Refusal, explain: bool) -> ExitCode
    ensures { exit_status result ≡ 1 }
{
    if told.quiet {
        return ExitCode::from(1);
    }
    let status = print_fault(rt, &told.fault);
    if let Some(words) = &told.words {
        if explain {
            let _ = rt.stderr().write_all(words.as_bytes());
        }
    }
    status
}

// Prints on standard error how many rows differ, if memory allows.
fn print_differing(rt: &HostRuntime, told: &Comparison) {
    let (differ, rows) = (told.differ, told.rows);
    if let Ok(text) = format!(in rt.alloc(); "{differ} of {rows} rows differ\n") {
        let _ = rt.stderr().write_all(text.as_bytes());
    }
}

// The status of a line that was done.
fn status_done(rt: &HostRuntime, done: &Done) -> ExitCode
    ensures { exit_status result ≡ done_status done.now }
{
    match done {
        Done::Compared(told) if told.differ > 0 => {
            print_differing(rt, told);
            ExitCode::from(3)
        }
        _ => ExitCode::from(0),
    }
}

/// What is told of a line that was done, or why it wasn't. The status is 0 where it was, or 3 where something came
/// otherwise than was expected, and 1 where it wasn't.
pub fn status_of(rt: &HostRuntime, line: &Line, done: Result<Done, Refusal>) -> ExitCode
    ensures done { IfOk done (λ done. exit_status result ≡ done_status done) }
    ensures fault { IfErr done (λ _. exit_status result ≡ 1) }
{
    match done {
        Ok(done) => {
            if line.explain {
                let words = done_words(&done, rt.stdin().is_terminal());
                let _ = rt.stderr().write_all(words.as_bytes());
            }
            status_done(rt, &done)
        }
        Err(told) => print_words(rt, &told, line.explain),
    }
}

/// Prints the text of help on standard output. The status is 0; where that doesn't take the text this is a fault, as of
/// any text, and so is want of memory: 1.
pub fn help(rt: &HostRuntime, words: &[String]) -> ExitCode
    ensures { exit_status result ≤ 1 }
{
    let Ok(text) = line_message(rt.alloc(), words, false) else {
        return print_fault(rt, &Fault::Memory);
    };
    match print(rt, text.as_str()) {
        Ok(()) => ExitCode::from(0),
        Err(told) => print_words(rt, &told, false),
    }
}

// Prints on standard error what there is to say of words, if memory allows.
fn print_message(rt: &HostRuntime, words: &[String]) {
    if let Ok(text) = line_message(rt.alloc(), words, on_terminal(rt)) {
        let _ = rt.stderr().write_all(text.as_bytes());
    }
}

/// Prints on standard error what is wrong with words that are no line, if memory allows. The status is 2.
pub fn refuse(rt: &HostRuntime, words: &[String]) -> ExitCode
    ensures { exit_status result ≡ 2 }
{
    print_message(rt, words);
    ExitCode::from(2)
}

/// Prints on standard error the fault of a clock that has another form, and in words where these are wanted. The status
/// is 1.
pub fn refuse_clock(rt: &HostRuntime, words: &[String]) -> ExitCode
    ensures { exit_status result ≡ 1 }
{
    let status = print_fault(rt, &Fault::Design(DesignFault::Clock));
    print_message(rt, words);
    status
}

/// The words can't be read. The status is 1 where memory ran out, and 2 where one of them isn't UTF-8.
pub fn no_words(rt: &HostRuntime, error: &io::Error) -> ExitCode
    ensures some { 1 ≤ exit_status result }
    ensures two { exit_status result ≤ 2 }
{
    match error.kind() {
        io::ErrorKind::OutOfMemory => print_fault(rt, &Fault::Memory),
        _ => {
            let _ = rt.stderr().write_all(b"error: an argument isn't UTF-8\n");
            ExitCode::from(2)
        }
    }
}
