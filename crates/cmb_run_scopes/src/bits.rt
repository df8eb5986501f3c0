//! Nets that are bits of buses.

ghost use Rattle.std.specs.Prelude.{◌≡◌, ◌++◌, false, true, MatchOption, OnOk};
ghost use Rattle.cmb_run_scopes.specs.Scopes.{bus, declared_name, digits_at, index, is_bit, is_index};

use crate::references::push_reference;
use itoa::Buffer;
use std::alloc::AllocError;

// A bit's number is below this one.
const MOST_BITS: u64 = 2_147_483_648;

// Whether these bytes are how such a number is written.
fn is_index(bytes: &[u8]) -> bool
    ensures { result ≡ is_index bytes.now }
{
    let mut number = 0u64;
    for byte in bytes {
        number = number * 10 + u64::from(byte.saturating_sub(b'0'));
        if number >= MOST_BITS {
            return false;
        }
    }
    bytes == Buffer::new().format(number).as_bytes()
}

// Where the digits begin that end these bytes.
fn digits_at(bytes: &[u8]) -> usize
    ensures { result ≡ digits_at bytes.now }
{
    let mut at = bytes.len();
    while at > 0 && bytes[at - 1].is_ascii_digit() {
        at -= 1;
    }
    at
}

// The bus of a bit, and the bit's number in it.
fn split_bit(part: &[u8]) -> Option<(&[u8], &[u8])>
    ensures { MatchOption result (is_bit part.now ≡ false)
        (λ r. (is_bit part.now ≡ true) × (r.0.now ≡ bus part.now) × (r.1.now ≡ index part.now)) }
{
    let (last, front) = part.split_last()?;
    let at = digits_at(front);
    if *last != b']' || at < 2 || front[at - 1] != b'[' || !is_index(&front[at..]) {
        return None;
    }
    Some((&front[..at - 1], &front[at..]))
}

/// A net as its scope declares it: a bit by its bus, and its number in brackets behind that.
pub fn push_declared_name(out: &mut Vec<u8>, part: &[u8]) -> Result<(), AllocError>
    ensures { OnOk result (out.new.items ≡ out.old.items ++ declared_name part.now) }
{
    match split_bit(part) {
        Some((bus, index)) => {
            push_reference(out, bus)?;
            out.extend_from_slice(b" [")?;
            out.extend_from_slice(index)?;
            out.extend_from_slice(b"]")?;
            Ok(())
        }
        None => push_reference(out, part),
    }
}
