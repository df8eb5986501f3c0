//! What a run took, in numbers.

ghost use Rattle.std.specs.Prelude.{◌≡◌, ◌++◌, IfOk, OnOk, string_bytes};
ghost use Rattle.std.specs.Duration.{as_nanos};
ghost use Rattle.cmb_report.specs.Stats.{number_rows, peak_row, processor_row, row, seconds_row};
ghost use Rattle.cmb_report.specs.Stats.{stats_rows, time_rows};

use crate::text_progress::TextProgress;
use std::alloc::{AllocError, Global};
use std::time::Duration;

/// What a run took.
#[derive(Clone, Copy)]
pub struct Stats {
    pub nets: u32,
    /// How many ticks were simulated.
    pub ticks: u32,
    /// What was written.
    pub so_far: TextProgress,
    /// Until the inputs were read.
    pub reading: Duration,
    /// Within the writes of the text.
    pub writing: Duration,
    /// All in all.
    pub whole: Duration,
    /// The processor time of all threads together, where the system tells.
    pub processor: Option<Duration>,
    /// The most memory that the system saw in use, in units of 1,024 bytes, where it tells.
    pub peak: Option<u64>,
}

// A row of seconds, to three digits.
fn push_seconds(text: &mut String, time: Duration, what: &str) -> Result<(), AllocError>
    ensures { OnOk result (string_bytes text.new
        ≡ string_bytes text.old ++ seconds_row (as_nanos time) what.now) }
{
    let seconds = time.as_secs();
    let thousandths = time.subsec_millis();
    write!(text, "{seconds:>12}.{thousandths:03}  {what}\n")
}

fn push_row(text: &mut String, number: u64, what: &str) -> Result<(), AllocError>
    ensures { OnOk result (string_bytes text.new ≡ string_bytes text.old ++ row number what.now) }
{
    write!(text, "{number:>16}  {what}\n")
}

// What there was, and what was written of it.
fn push_numbers(text: &mut String, stats: &Stats) -> Result<(), AllocError>
    ensures { OnOk result (string_bytes text.new ≡ string_bytes text.old ++ number_rows stats.now) }
{
    push_row(text, stats.nets as u64, "nets")?;
    push_row(text, stats.ticks as u64, "ticks")?;
    push_row(
        text,
        stats.so_far.changes,
        "changes, with the levels at tick 0",
    )?;
    push_row(text, stats.so_far.bytes, "bytes written")
}

// How long it took.
fn push_times(text: &mut String, stats: &Stats) -> Result<(), AllocError>
    ensures { OnOk result (string_bytes text.new ≡ string_bytes text.old ++ time_rows stats.now) }
{
    let others = stats.reading.saturating_add(stats.writing);
    let simulating = stats.whole.saturating_sub(others);
    push_seconds(text, stats.reading, "seconds until the inputs were read")?;
    push_seconds(
        text,
        simulating,
        "seconds of making the design and simulating",
    )?;
    push_seconds(text, stats.writing, "seconds of writing")
}

// What all threads had to do, where the system tells.
fn push_processor(text: &mut String, processor: Option<Duration>) -> Result<(), AllocError>
    ensures { OnOk result (string_bytes text.new ≡ string_bytes text.old ++ processor_row processor) }
{
    match processor {
        Some(time) => push_seconds(
            text,
            time,
            "seconds of processor time, all threads together",
        ),
        None => Ok(()),
    }
}

// How much memory it took, where the system tells.
fn push_peak(text: &mut String, peak: Option<u64>) -> Result<(), AllocError>
    ensures { OnOk result (string_bytes text.new ≡ string_bytes text.old ++ peak_row peak) }
{
    match peak {
        Some(peak) => push_row(text, peak, "KB of memory at most"),
        None => Ok(()),
    }
}

/// What a run took, each number on a line of its own.
pub fn stats_text(alloc: Global, stats: &Stats) -> Result<String, AllocError>
    ensures { IfOk result (λ text. string_bytes text ≡ stats_rows stats.now) }
{
    let mut text = String::new(alloc);
    push_numbers(&mut text, stats)?;
    push_times(&mut text, stats)?;
    push_processor(&mut text, stats.processor)?;
    push_peak(&mut text, stats.peak)?;
    Ok(text)
}

/// The most memory that was in use, by the system's text about a process: the number in its row `VmHWM`.
pub fn peak_of(status: &[u8]) -> Option<u64> {
    for line in status.split(|byte| *byte == b'\n') {
        if let Some(rest) = line.strip_prefix(b"VmHWM:") {
            return number_in(rest);
        }
    }
    None
}

// The number that the digits of a text make.
fn number_in(text: &[u8]) -> Option<u64> {
    let mut number: Option<u64> = None;
    for byte in text {
        if byte.is_ascii_digit() {
            let digit = u64::from(*byte - b'0');
            number = Some(number.unwrap_or(0).saturating_mul(10).saturating_add(digit));
        }
    }
    number
}
