//! A sink that watches what goes through it.

ghost use Rattle.std.specs.Prelude.{◌≡◌, ◌+◌, ◌-◌, ◌^◌, ◌<◌, ◌≤◌, ◌||◌, length, take, IfOk, None, OnErr};
ghost use Rattle.std.specs.Io.KnownBytes.{WriteAppends};
ghost use Rattle.cmb_io.specs.Ends.{write_failures};
ghost use Rattle.cmb_report.specs.Progress.{lengthened, no_text, advanced, went_by};

use crate::text_progress::TextProgress;
use cmb_cli_line::Line;
use cmb_io::{Failed, Sink};
use std::alloc::{AllocError, Global};
use std::io::Write;
use std::time::{Clock, Duration, Instant};

// Milliseconds between updates of the line of progress.
const PAUSE: u64 = 250;

// What takes the line of progress away: back to the line's begin, and clear it.
const WIPE: &[u8] = b"\r\x1b[K";

/// What is watched of a text of waveforms on its way, and where that is shown.
#[derive(Drop)]
pub struct Watch<K, E> {
    pub clock: K,
    /// Where the line of progress goes.
    pub screen: E,
    pub alloc: Global,
    /// What goes by is counted and timed.
    pub counts: bool,
    /// A line of progress is shown.
    pub shows: bool,
    pub horizon: u32,
    /// What went by.
    pub so_far: TextProgress,
    /// How long the writes took.
    pub writing: Duration,
    /// When the line of progress was written last.
    pub shown: Option<Instant>,
}

impl<K: Clock, E: Write> Watch<K, E> {
    /// Nothing went by yet.
    pub fn new(alloc: Global, clock: K, screen: E, line: &Line) -> Watch<K, E>
        ensures counts { result.counts ≡ line.now.stats }
        ensures shows { result.shows ≡ line.now.progress }
        ensures horizon { result.horizon ≡ line.now.settings.horizon }
        ensures so_far { result.so_far ≡ no_text }
        ensures screen { result.screen ≡ screen }
        ensures shown { result.shown ≡ None }
    {
        Watch {
            clock,
            screen,
            alloc,
            counts: line.stats,
            shows: line.progress,
            horizon: line.settings.horizon,
            so_far: TextProgress::new(),
            writing: Duration::ZERO,
            shown: None,
        }
    }

    fn is_on(&self) -> bool
        ensures { result ≡ (self.now.counts || self.now.shows) }
    {
        self.counts || self.shows
    }

    fn now(&self) -> Option<Instant> {
        Instant::now(&self.clock).ok()
    }

    fn is_due(&self, now: Instant) -> bool {
        match self.shown {
            Some(last) => now.duration_since(last) >= Duration::from_millis(PAUSE),
            None => true,
        }
    }

    fn progress(&self) -> Result<String, AllocError> {
        let tick = self.so_far.tick;
        let horizon = self.horizon;
        let changes = self.so_far.changes;
        format!(in self.alloc; "\r\x1b[Kcmbsim: tick {tick} of {horizon}, {changes} changes")
    }

    fn show(&mut self, now: Instant)
        ensures { self.new.so_far ≡ self.old.so_far }
    {
        if let Ok(line) = self.progress() {
            let _ = self.screen.write(line.as_bytes());
            self.shown = Some(now);
        }
    }

    // A write took these bytes, and began then.
    fn note(&mut self, text: &[u8], began: Option<Instant>)
        ensures { self.new.so_far ≡ lengthened (advanced self.old.so_far text.now) (length text.now) }
    {
        self.so_far.add(text);
        let Some(now) = self.now() else {
            return;
        };
        if let Some(began) = began {
            self.writing = self.writing.saturating_add(now.duration_since(began));
        }
        if self.shows && self.is_due(now) {
            self.show(now);
        }
    }

    /// Takes the line of progress away, if there is one.
    pub fn wipe(&mut self)
        ensures shown { self.new.shown ≡ None }
        ensures so_far { self.new.so_far ≡ self.old.so_far }
    {
        if self.shown.is_some() {
            let _ = self.screen.write(WIPE);
            self.shown = None;
        }
    }
}

/// A sink, and what is watched of the text that goes there.
#[derive(Drop)]
pub struct Watched<O, K, E> {
    pub sink: O,
    pub watch: Watch<K, E>,
}

impl<O: Sink, K: Clock, E: Write> Sink for Watched<O, K, E> {
    ghost taken = { λ s. O.taken s.sink };

    ghost failures = { λ s. O.failures s.sink };

    // What the sink took went by, where anything is watched.
    fn write(&mut self, text: &[u8]) -> Result<usize, Failed>
        requires { O.failures self.old.sink < 2 ^ 64 - 1 }
        ensures bound { IfOk result (λ n. n ≤ length text.now) }
        ensures bytes { WriteAppends (O.taken self.old.sink) (O.taken self.new.sink) result text.now }
        ensures failures { O.failures self.new.sink ≡ O.failures self.old.sink + write_failures result text.now }
        ensures so_far { IfOk result (λ count. self.new.watch.so_far
            ≡ went_by (self.old.watch.counts || self.old.watch.shows) self.old.watch.so_far (take count text.now)) }
        ensures kept { OnErr result (self.new.watch.so_far ≡ self.old.watch.so_far) }
    {
        if !self.watch.is_on() {
            return self.sink.write(text);
        }
        let began = self.watch.now();
        let count = self.sink.write(text)?;
        self.watch.note(&text[..count], began);
        Ok(count)
    }
}
