//! A text with another header.

ghost use Rattle.std.specs.Prelude.{◌≡◌, ◌+◌, ◌-◌, ◌^◌, ◌<◌, ◌≤◌, length, take, IfErr, IfOk};
ghost use Rattle.std.specs.Io.KnownBytes.{Appends};
ghost use Rattle.cmb_run_scopes.specs.Scopes.{replaced};

use crate::header::Headers;
use cmb_io::{Sink, write_whole};

/// Writes a text with the lines with scopes in the place of its own header, and gives how many bytes that are. At `Err`
/// the sink failed after it took that many bytes.
pub fn write_scoped<S: Sink>(sink: &mut S, headers: &Headers, text: &[u8]) -> Result<u64, u64>
    requires room { S.failures sink.old < 2 ^ 64 - 1 }
    requires header { headers.now.plain ≤ length text.now }
    ensures told { IfOk result (λ n. n ≡ length (replaced headers.now.scoped.items headers.now.plain text.now)) }
    ensures whole { IfOk result (λ _. Appends (S.taken sink.old) (S.taken sink.new)
        (replaced headers.now.scoped.items headers.now.plain text.now)) }
    ensures no_failure { IfOk result (λ _. S.failures sink.new ≡ S.failures sink.old) }
    ensures short { IfErr result (λ n. n < length (replaced headers.now.scoped.items headers.now.plain text.now)) }
    ensures begun { IfErr result (λ n. Appends (S.taken sink.old) (S.taken sink.new)
        (take n (replaced headers.now.scoped.items headers.now.plain text.now))) }
    ensures failed { IfErr result (λ _. S.failures sink.new ≡ S.failures sink.old + 1) }
{
    let lines = headers.scoped.as_slice();
    let rest = &text[headers.plain..];
    if let Err(done) = write_whole(sink, lines) {
        return Err(done as u64);
    }
    match write_whole(sink, rest) {
        Ok(()) => Ok((lines.len() + rest.len()) as u64),
        Err(done) => Err((lines.len() + done) as u64),
    }
}
