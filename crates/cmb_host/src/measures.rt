//! What a run took, by the system's clocks and counts.

ghost use Rattle.std.specs.Prelude.{◌≡◌, IfSome, true};

use cmb_cli_line::Line;
use cmb_faults::Done;
use cmb_report::{Stats, TextProgress, peak_of, processor_of, stats_text};
use std::fs::File;
use std::io::Read;
use std::time::{Duration, Instant};

// The most memory that the system saw this process use, in units of 1,024 bytes, where it tells.
fn peak(rt: &HostRuntime) -> Option<u64> {
    let mut file = File::open(rt, "/proc/self/status").ok()?;
    let mut buffer = [0u8; 4096];
    let count = file.read(&mut buffer).ok()?;
    peak_of(&buffer[..count])
}

// The processor time of this process so far, all threads together, where the system tells.
fn processor(rt: &HostRuntime) -> Option<Duration> {
    let mut file = File::open(rt, "/proc/self/stat").ok()?;
    let mut buffer = [0u8; 4096];
    let count = file.read(&mut buffer).ok()?;
    processor_of(&buffer[..count])
}

/// What was timed of a run.
#[derive(Clone, Copy)]
pub struct Times {
    /// When it began, where the clock told.
    pub began: Option<Instant>,
    /// When its inputs were read.
    pub read: Option<Instant>,
    /// What was written of its text.
    pub so_far: TextProgress,
    /// How long the writes took.
    pub writing: Duration,
}

/// What a run took, as text, where the line asks for it, its times are known and memory allows.
pub fn stats_of(rt: &HostRuntime, line: &Line, done: &Done, times: &Times) -> Option<String>
    ensures { IfSome result (λ _. line.now.stats ≡ true) }
{
    if !line.stats {
        return None;
    }
    let (Done::Ran(report), Some(began), Some(read)) = (done, times.began, times.read) else {
        return None;
    };
    let now = Instant::now(rt).ok()?;
    let stats = Stats {
        nets: report.nets,
        ticks: report.horizon,
        so_far: times.so_far,
        reading: read.duration_since(began),
        writing: times.writing,
        whole: now.duration_since(began),
        processor: processor(rt),
        peak: peak(rt),
    };
    stats_text(rt.alloc(), &stats).ok()
}
