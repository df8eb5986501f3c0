//! A source that notes when it was read last.

use cmb_io::{Failed, Source};
use std::time::{Clock, Instant};

/// A source that notes when it was read last.
#[derive(Drop)]
pub struct Timed<S, K> {
    /// Where the bytes come from.
    pub source: S,
    pub clock: K,
    /// When it was read last, where it was and there is a clock.
    pub read: Option<Instant>,
}

impl<S: Source, K: Clock> Source for Timed<S, K> {
    ghost remaining = { λ s. S.remaining s.source };

    ghost failures = { λ s. S.failures s.source };

    fn read(&mut self, buffer: &mut [u8]) -> Result<usize, Failed> {
        let answer = self.source.read(buffer);
        self.read = Instant::now(&self.clock).ok();
        answer
    }
}
