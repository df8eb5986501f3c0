//! A source that keeps what it gave.

ghost use Rattle.std.specs.Prelude.{◌≡◌, ◌+◌, ◌-◌, ◌^◌, ◌<◌, ◌≤◌, [], if◌then◌else◌, length, IfOk, MatchResult};
ghost use Rattle.std.specs.Io.KnownBytes.{ReadConsumes};

use cmb_io::{Failed, Source};
use std::alloc::Global;

/// A source that keeps a copy of what it gave, where that is asked for and as long as memory allows.
#[derive(Drop)]
pub struct Recorded<S> {
    /// Where the bytes come from.
    pub source: S,
    /// A copy is kept.
    pub keeps: bool,
    /// The copy of what was given. It is whole where `keeps` still stands.
    pub bytes: Vec<u8>,
}

impl<S> Recorded<S> {
    /// A source that gives what another gives, and keeps a copy where `keeps` stands.
    pub fn new(alloc: Global, source: S, keeps: bool) -> Recorded<S>
        ensures source { result.source ≡ source }
        ensures keeps { result.keeps ≡ keeps }
        ensures bytes { result.bytes.items ≡ [] }
    {
        Recorded {
            source,
            keeps,
            bytes: Vec::new(alloc),
        }
    }

    /// What was given, where all of it was kept.
    pub fn given(&self) -> &[u8]
        ensures { result.now ≡ (if self.now.keeps then self.now.bytes.items else []) }
    {
        if self.keeps {
            self.bytes.as_slice()
        } else {
            &[]
        }
    }
}

impl<S: Source> Source for Recorded<S> {
    ghost remaining = { λ s. S.remaining s.source };

    ghost failures = { λ s. S.failures s.source };

    fn read(&mut self, buffer: &mut [u8]) -> Result<usize, Failed> {
        let count = self.source.read(buffer)?;
        if self.keeps && self.bytes.extend_from_slice(&buffer[..count]).is_err() {
            self.keeps = false;
        }
        Ok(count)
    }
}
