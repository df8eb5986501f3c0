//! Where the texts come from.

ghost use Rattle.std.specs.Prelude.{◌≡◌, ℕ, ◌+◌, ◌-◌, ◌^◌, ◌<◌, ◌≤◌, List, [], Option, Some, None, length, IfOk};
ghost use Rattle.std.specs.Prelude.{MatchResult};
ghost use Rattle.std.specs.Io.KnownBytes.{ReadConsumes};

use crate::sink::Failed;
use std::io::Read;

/// Where bytes come from.
pub trait Source {
    /// The bytes that reads will give from here on, where they are known.
    ghost remaining: { Self → Option (List ℕ) };

    /// How many reads have failed.
    ghost failures: { Self → ℕ };

    /// Reads some bytes into the front of the buffer, and says how many. 0 bytes into a buffer that
    /// isn't empty mean the end. `Failed`: the read failed. An interrupted call counts as a failure.
    fn read(&mut self, buffer: &mut [u8]) -> Result<usize, Failed>
        requires room { failures self.old < 2 ^ 64 - 1 }
        ensures bound { IfOk result (λ n. n ≤ length buffer.new) }
        ensures bytes { ReadConsumes (remaining self.old) (remaining self.new) result buffer.new }
        ensures failures { MatchResult result (λ _. failures self.new ≡ failures self.old)
            (λ _. failures self.new ≡ failures self.old + 1) };
}

/// The bytes of a slice. No read fails.
#[derive(Drop)]
pub struct FromBytes<'a> {
    rest: &'a [u8],
}

impl<'a> FromBytes<'a> {
    /// A source that gives these bytes.
    pub fn new(bytes: &'a [u8]) -> FromBytes<'a>
        ensures { ⟦<FromBytes<'a> as Source>⟧.remaining result ≡ Some bytes.entry.now }
    {
        FromBytes { rest: bytes }
    }
}

impl<'a> Source for FromBytes<'a> {
    ghost remaining = { λ s. Some s.rest.now };

    ghost failures = { λ _. 0 };

    fn read(&mut self, buffer: &mut [u8]) -> Result<usize, Failed> {
        let count = buffer.len().min(self.rest.len());
        let (front, rest) = self.rest.split_at(count);
        buffer[..count].copy_from_slice(front);
        self.rest = rest;
        Ok(count)
    }
}

/// What a reader of std gives, with a count of its errors.
#[derive(Drop)]
pub struct FromReader<R> {
    pub reader: R,
    pub failures: u64,
}

impl<R> FromReader<R> {
    /// A source that gives what the reader gives. No read of it has failed.
    pub fn new(reader: R) -> FromReader<R>
        ensures reader { result.reader ≡ reader }
        ensures no_failure { result.failures ≡ 0 }
    {
        FromReader {
            reader,
            failures: 0,
        }
    }
}

impl<R: Read> Source for FromReader<R> {
    ghost remaining = { λ s. R.remaining s.reader };

    ghost failures = { λ s. s.failures };

    fn read(&mut self, buffer: &mut [u8]) -> Result<usize, Failed> {
        match self.reader.read(buffer) {
            Ok(count) => Ok(count),
            Err(_) => {
                self.failures += 1;
                Err(Failed)
            }
        }
    }
}

/// `None` is a source without bytes.
impl<S: Source> Source for Option<S> {
    ghost remaining = { elim [ None ↦ Some [] | Some s ↦ S.remaining s ] };

    ghost failures = { elim [ None ↦ 0 | Some s ↦ S.failures s ] };

    fn read(&mut self, buffer: &mut [u8]) -> Result<usize, Failed> {
        match self {
            None => Ok(0),
            Some(source) => source.read(buffer),
        }
    }
}
