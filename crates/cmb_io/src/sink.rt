//! Where the text goes.

ghost use Rattle.std.specs.Prelude.{◌≡◌, ℕ, ◌+◌, ◌-◌, ◌^◌, ◌<◌, ◌≤◌, List, [], Option, Some, ◌⊎◌, length, min, take};
ghost use Rattle.std.specs.Prelude.{vec_capacity, vec_len, IfOk, IfErr, OnOk, OnErr};
ghost use Rattle.std.specs.Io.KnownBytes.{Appends, WriteAppends};
ghost use Rattle.cmb_io.specs.Ends.{write_failures};

use std::alloc::{AllocError, Global};
use std::io::Write;

/// A read or a write failed. Nothing more is known.
#[derive(Clone, Copy, Debug, PartialEq, Eq)]
pub struct Failed;

/// Where bytes go.
pub trait Sink {
    /// The bytes that were taken, where they are known.
    ghost taken: { Self → Option (List ℕ) };

    /// How many writes have failed. A write that takes none of a text that isn't empty is one, and so is one that was
    /// interrupted.
    ghost failures: { Self → ℕ };

    /// Takes some bytes from the front of the text, and says how many.
    fn write(&mut self, text: &[u8]) -> Result<usize, Failed>
        requires room { failures self.old < 2 ^ 64 - 1 }
        ensures bound { IfOk result (λ n. n ≤ length text.now) }
        ensures bytes { WriteAppends (taken self.old) (taken self.new) result text.now }
        ensures failures { failures self.new ≡ failures self.old + write_failures result text.now };
}

/// Writes the whole text. At `Err` the sink failed after it took that many bytes.
pub fn write_whole<S: Sink>(sink: &mut S, text: &[u8]) -> Result<(), usize>
    requires { S.failures sink.old < 2 ^ 64 - 1 }
    ensures ok { OnOk result (Appends (S.taken sink.old) (S.taken sink.new) text.now) }
    ensures no_failure { OnOk result (S.failures sink.new ≡ S.failures sink.old) }
    ensures err { IfErr result (λ n. (n < length text.now)
        × Appends (S.taken sink.old) (S.taken sink.new) (take n text.now)) }
    ensures failed { OnErr result (S.failures sink.new ≡ S.failures sink.old + 1) }
{
    let mut done = 0;
    while done < text.len() {
        match sink.write(&text[done..]) {
            Ok(0) => return Err(done),
            Ok(count) => done += count,
            Err(Failed) => return Err(done),
        }
    }
    Ok(())
}

/// A list in memory with room that was made beforehand. A text that memory has no more room for is refused whole.
#[derive(Drop)]
pub struct Room {
    /// What was taken.
    pub bytes: Vec<u8>,
    /// How many writes have failed.
    pub failures: u64,
}

impl Room {
    /// No bytes yet, and room for `capacity` bytes.
    pub fn new(alloc: Global, capacity: usize) -> Result<Room, AllocError>
        ensures empty { IfOk result (λ room. room.bytes.items ≡ []) }
        ensures room { IfOk result (λ room. vec_capacity room.bytes ≡ capacity) }
        ensures no_failure { IfOk result (λ room. room.failures ≡ 0) }
    {
        Ok(Room {
            bytes: Vec::with_capacity(alloc, capacity)?,
            failures: 0,
        })
    }
}

impl Sink for Room {
    ghost taken = { λ s. Some s.bytes.items };

    ghost failures = { λ s. s.failures };

    // Takes the whole text, or none of it where there is no room.
    fn write(&mut self, text: &[u8]) -> Result<usize, Failed>
        requires { self.old.failures < 2 ^ 64 - 1 }
        ensures bytes { WriteAppends (Some self.old.bytes.items) (Some self.new.bytes.items) result text.now }
        ensures failures { self.new.failures ≡ self.old.failures + write_failures result text.now }
        ensures whole { IfOk result (λ n. n ≡ length text.now) }
        ensures room { OnErr result (vec_capacity self.old.bytes < vec_len self.old.bytes + length text.now) }
        ensures capacity { vec_capacity self.old.bytes ≤ vec_capacity self.new.bytes }
    {
        match self.bytes.extend_from_slice(text) {
            Ok(()) => Ok(text.len()),
            Err(_) => {
                self.failures += 1;
                Err(Failed)
            }
        }
    }
}

/// A list in memory that takes a number of bytes and then fails.
#[derive(Drop)]
pub struct Limited {
    /// What was taken.
    pub bytes: Vec<u8>,
    /// How many bytes it still takes.
    pub left: usize,
    /// How many writes have failed.
    pub failures: u64,
}

impl Limited {
    /// No bytes yet; it takes `left` bytes.
    pub fn new(alloc: Global, left: usize) -> Limited
        ensures empty { result.bytes.items ≡ [] }
        ensures left { result.left ≡ left }
        ensures no_failure { result.failures ≡ 0 }
    {
        Limited {
            bytes: Vec::new(alloc),
            left,
            failures: 0,
        }
    }
}

impl Sink for Limited {
    ghost taken = { λ s. Some s.bytes.items };

    ghost failures = { λ s. s.failures };

    // Takes what may still come of the text. Refuses it where none may come, or where memory has no room for that.
    fn write(&mut self, text: &[u8]) -> Result<usize, Failed>
        requires { self.old.failures < 2 ^ 64 - 1 }
        ensures bytes { WriteAppends (Some self.old.bytes.items) (Some self.new.bytes.items) result text.now }
        ensures failures { self.new.failures ≡ self.old.failures + write_failures result text.now }
        ensures count { IfOk result (λ n. n ≡ min (length text.now) self.old.left) }
        ensures left { IfOk result (λ n. self.new.left + n ≡ self.old.left) }
        ensures kept { OnErr result (self.new.left ≡ self.old.left) }
        ensures full { OnErr result ((self.old.left ≡ 0)
            ⊎ (vec_capacity self.old.bytes < vec_len self.old.bytes + min (length text.now) self.old.left)) }
    {
        let count = text.len().min(self.left);
        if (count == 0 && !text.is_empty())
            || self.bytes.extend_from_slice(&text[..count]).is_err()
        {
            self.failures += 1;
            return Err(Failed);
        }
        self.left -= count;
        Ok(count)
    }
}

/// A writer of std, with a count of its writes that failed: those that gave an error, of which an interrupted call is
/// one, and those that took none of a text that isn't empty.
#[derive(Drop)]
pub struct ToWriter<W> {
    /// Where the bytes go.
    pub writer: W,
    /// How many writes have failed.
    pub failures: u64,
}

impl<W> ToWriter<W> {
    /// Takes a writer over, with no failure counted yet.
    pub fn new(writer: W) -> ToWriter<W>
        ensures writer { result.writer ≡ writer }
        ensures no_failure { result.failures ≡ 0 }
    {
        ToWriter {
            writer,
            failures: 0,
        }
    }
}

impl<W: Write> Sink for ToWriter<W> {
    ghost taken = { λ s. W.contents s.writer };

    ghost failures = { λ s. s.failures };

    fn write(&mut self, text: &[u8]) -> Result<usize, Failed> {
        match self.writer.write(text) {
            Ok(count) => {
                if count == 0 && !text.is_empty() {
                    self.failures += 1;
                }
                Ok(count)
            }
            Err(_) => {
                self.failures += 1;
                Err(Failed)
            }
        }
    }
}
