//! Reading a source to its end.

ghost use Rattle.std.specs.Prelude.{◌≡◌, ◌+◌, ◌-◌, ◌^◌, ◌<◌, IfOk, OnOk, vec_len};
ghost use Rattle.std.specs.Io.KnownBytes.{IsAtEnd};
ghost use Rattle.cmb_io.specs.Sources.{IsWhole, IsTooLong};

use crate::source::Source;
use cmb_netlist::MAX_TEXT;
use std::alloc::{AllocError, Global};

/// Why a source wasn't read whole.
#[derive(Clone, Copy, Debug, PartialEq, Eq)]
pub enum ReadFault {
    /// 60: it has more bytes than an input may have.
    TooLong,
    /// 61: a read failed.
    Failed,
    /// 70: memory was refused.
    Memory,
}

const BLOCK: usize = 65_536;

// Room for one read. It stands apart, so that no proof computes a list of that length.
fn zeros(alloc: Global, len: usize) -> Result<Vec<u8>, AllocError>
    ensures { IfOk result (λ v. vec_len v ≡ len) }
{
    Vec::from_elem(alloc, 0u8, len)
}

/// All that a source has left, at most 16,777,216 bytes. It is read in blocks of 65,536 bytes.
///
/// After an error some of the bytes are lost.
pub fn read_whole<S: Source>(alloc: Global, source: &mut S) -> Result<Vec<u8>, ReadFault>
    requires { S.failures source.old < 2 ^ 64 - 1 }
    ensures whole { IfOk result (λ text. IsWhole (S.remaining source.old) text.items) }
    ensures end { OnOk result (IsAtEnd (S.remaining source.new)) }
    ensures no_failure { OnOk result (S.failures source.new ≡ S.failures source.old) }

    ensures too_long { result ≡ Err ReadFault.TooLong
        → IsTooLong (S.remaining source.old) × (S.failures source.new ≡ S.failures source.old) }
    ensures failed { result ≡ Err ReadFault.Failed → S.failures source.new ≡ S.failures source.old + 1 }
    ensures memory { result ≡ Err ReadFault.Memory → S.failures source.new ≡ S.failures source.old }
{
    let Ok(mut block) = zeros(alloc, BLOCK) else {
        return Err(ReadFault::Memory);
    };
    let buffer = block.as_mut_slice();
    let mut text = Vec::new(alloc);
    loop {
        let Ok(count) = source.read(buffer) else {
            return Err(ReadFault::Failed);
        };
        if count == 0 {
            return Ok(text);
        }
        if count > MAX_TEXT - text.len() {
            return Err(ReadFault::TooLong);
        }
        if text.extend_from_slice(&buffer[..count]).is_err() {
            return Err(ReadFault::Memory);
        }
    }
}
