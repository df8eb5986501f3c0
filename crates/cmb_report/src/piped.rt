//! A writer that notes that its reader closed the pipe.

ghost use Rattle.std.specs.Prelude.{◌≡◌, ◌↔◌, true, false, IfErr, OnOk};
ghost use Rattle.std.specs.Io.{WritesAtMost};
ghost use Rattle.std.specs.Io.KnownBytes.{WriteAppends};
ghost use Rattle.std.specs.IoError.{error_kind};

use std::io;
use std::io::{ErrorKind, Write};

/// A writer that notes that its reader closed the pipe.
#[derive(Drop)]
pub struct Piped<W> {
    /// Where the bytes go.
    pub writer: W,
    /// The last write failed, since nobody reads the pipe any more.
    pub is_closed: bool,
}

impl<W> Piped<W> {
    /// A writer whose reader is there, as far as is known.
    pub fn new(writer: W) -> Piped<W>
        ensures writer { result.writer ≡ writer }
        ensures open { result.is_closed ≡ false }
    {
        Piped {
            writer,
            is_closed: false,
        }
    }
}

impl<W: Write> Write for Piped<W> {
    ghost contents = { λ s. W.contents s.writer };

    fn write(&mut self, buf: &[u8]) -> io::Result<usize>
        ensures bound { WritesAtMost result buf.now }
        ensures bytes { WriteAppends (W.contents self.old.writer) (W.contents self.new.writer) result buf.now }
        ensures open { OnOk result (self.new.is_closed ≡ false) }
        ensures closed { IfErr result (λ e. (self.new.is_closed ≡ true) ↔ (error_kind e ≡ ErrorKind.BrokenPipe)) }
    {
        match self.writer.write(buf) {
            Ok(count) => {
                self.is_closed = false;
                Ok(count)
            }
            Err(error) => {
                self.is_closed = error.kind() == ErrorKind::BrokenPipe;
                Err(error)
            }
        }
    }

    fn flush(&mut self) -> io::Result<()> {
        self.writer.flush()
    }
}
