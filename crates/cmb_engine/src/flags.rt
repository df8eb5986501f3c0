//! Flags by bytes, of which the next one is found quickly.

ghost use Rattle.std.specs.Prelude.{◌≡◌, ℕ, ◌+◌, ◌*◌, ◌/◌, ◌%◌, ◌^◌, ◌<◌, ◌≤◌, false, length, slice_index};
ghost use Rattle.std.specs.Prelude.{IfOk, MatchOption};
ghost use Rattle.std.specs.Int.{bit_at, from_le_bytes, w64};
ghost use Rattle.cmb_engine.specs.Inner.Flags.{is_flagged, Clears, IsNextFlag, NoFlags, Sets};

use cmb_words::lowest;
use std::alloc::{AllocError, Global};
use std::marker::Model;

/// A flag for each of some numbers, in a byte of its own: to set one reads nothing. So flags that are set one after
/// another don't wait for each other's stores, as bits of one word do.
#[derive(Drop)]
pub(crate) struct Flags {
    bytes: Vec<u8>,
    // How many groups of eight bytes there are.
    groups: usize,
}

impl Model for Flags {
    ghost use Rattle.std.specs.Prelude.{List, ℕ};
    ghost use Rattle.cmb_engine.specs.Inner.Flags.{AreFlags};

    ghost Value = { List ℕ };

    ghost view = { λ flags. flags.bytes.items };

    ghost invariant = { λ flags. AreFlags flags.groups flags.bytes.items };
}

// Eight bytes as one number, the first one lowest.
#[inline]
fn number_of(bytes: &[u8]) -> u64
    requires { length bytes.now ≡ 8 }
    ensures { result ≡ from_le_bytes w64 bytes.now }
{
    u64::from_le_bytes([
        bytes[0], bytes[1], bytes[2], bytes[3], bytes[4], bytes[5], bytes[6], bytes[7],
    ])
}

impl Flags {
    /// Flags for the numbers below `count`, none of which is set.
    pub(crate) fn new(alloc: Global, count: usize) -> Result<Flags, AllocError>
        requires { count < 2 ^ 60 }
        ensures room { IfOk result (λ flags. count ≤ length flags) }
        ensures none { IfOk result (λ flags. (k : ℕ) → is_flagged flags k ≡ false) }
    {
        let groups = count / 8 + 1;
        Ok(Flags {
            bytes: vec![in alloc; 0; 8 * groups]?,
            groups,
        })
    }

    /// Sets a flag.
    #[inline]
    #[tactic(auto, using(crate::proofs::FlagFacts::are_flags_set))]
    pub(crate) fn set(&mut self, k: usize)
        requires { k < length self.old }
        ensures { Sets self.old self.new k }
    {
        self.bytes[k] = 1;
    }

    /// Takes a flag back.
    #[inline]
    #[tactic(auto, using(crate::proofs::FlagFacts::are_flags_set))]
    pub(crate) fn clear(&mut self, k: usize)
        requires { k < length self.old }
        ensures { Clears self.old self.new k }
    {
        self.bytes[k] = 0;
    }

    // The flags of a group, a byte each, the first one lowest.
    #[inline]
    fn group(&self, number: usize) -> u64
        requires { 8 * number + 8 ≤ length self.now }
        ensures { (i : ℕ) → i < 64 → bit_at result i ≡ bit_at (slice_index self.now (8 * number + i / 8)) (i % 8) }
    {
        let _bytes = self.bytes.len();
        let begin = 8 * number;
        number_of(&self.bytes[begin..begin + 8])
    }

    // The first flag of a group from one of its places on.
    #[inline]
    fn next_in(&self, number: usize, place: usize) -> Option<usize>
        requires group { 8 * number + 8 ≤ length self.now }
        requires place { place < 8 }
        ensures { MatchOption result (NoFlags self.now (8 * number + place) (8 * number + 8))
            (IsNextFlag self.now (8 * number + place)) }
    {
        let _bytes = self.bytes.len();
        let bit = lowest(self.group(number) >> (8 * place))?;
        Some(8 * number + place + (bit / 8) as usize)
    }

    /// The first flag from a number on.
    #[inline]
    pub(crate) fn next(&self, from: usize) -> Option<usize>
        ensures { MatchOption result (NoFlags self.now from (length self.now)) (IsNextFlag self.now from) }
    {
        let first = from / 8;
        if first >= self.groups {
            return None;
        }
        if let Some(found) = self.next_in(first, from % 8) {
            return Some(found);
        }
        for number in first + 1..self.groups {
            if let Some(found) = self.next_in(number, 0) {
                return Some(found);
            }
        }
        None
    }
}
