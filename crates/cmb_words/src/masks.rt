//! Masks: sets of places, as the bits of a machine word.

ghost use Rattle.std.specs.Prelude.{◌≡◌, ◌≢◌, ℕ, ◌-◌, ◌%◌, ◌<◌, ◌≤◌, ◌==◌, ◌&&◌, nat_le, false};
ghost use Rattle.std.specs.Prelude.{drop, slice_get, MatchOption};
ghost use Rattle.cmb_words.specs.Bits.{IsLowestSet, is_set_at, places_set};

/// The lowest place of a mask, none where no place is set.
#[inline]
pub fn lowest(mask: u64) -> Option<u32>
    ensures first { result ≡ slice_get (places_set mask) 0 }
    ensures lowest { MatchOption result
        ((i : ℕ) → i < 64 → is_set_at mask i ≡ false)
        (λ place. IsLowestSet mask place) }
{
    if mask == 0 {
        None
    } else {
        Some(mask.trailing_zeros())
    }
}

/// The mask without its lowest place; the empty mask stays as it is.
#[inline]
pub fn without_lowest(mask: u64) -> u64
    ensures rest { places_set result ≡ drop 1 (places_set mask) }
    ensures gone { (place : ℕ) → IsLowestSet mask place → is_set_at result place ≡ false }
    ensures others { (place i : ℕ) → IsLowestSet mask place → i ≢ place → is_set_at result i ≡ is_set_at mask i }
    ensures less { mask ≢ 0 → result < mask }
{
    if mask == 0 { 0 } else { mask & (mask - 1) }
}

// For each period below 64 the places below 64 that are whole periods.
#[rattlefmt::skip]
static MULTIPLES: [u64; 64] = [
    0x0000000000000001, 0xffffffffffffffff, 0x5555555555555555, 0x9249249249249249,
    0x1111111111111111, 0x1084210842108421, 0x1041041041041041, 0x8102040810204081,
    0x0101010101010101, 0x8040201008040201, 0x1004010040100401, 0x0080100200400801,
    0x1001001001001001, 0x0010008004002001, 0x0100040010004001, 0x1000200040008001,
    0x0001000100010001, 0x0008000400020001, 0x0040001000040001, 0x0200004000080001,
    0x1000010000100001, 0x8000040000200001, 0x0000100000400001, 0x0000400000800001,
    0x0001000001000001, 0x0004000002000001, 0x0010000004000001, 0x0040000008000001,
    0x0100000010000001, 0x0400000020000001, 0x1000000040000001, 0x4000000080000001,
    0x0000000100000001, 0x0000000200000001, 0x0000000400000001, 0x0000000800000001,
    0x0000001000000001, 0x0000002000000001, 0x0000004000000001, 0x0000008000000001,
    0x0000010000000001, 0x0000020000000001, 0x0000040000000001, 0x0000080000000001,
    0x0000100000000001, 0x0000200000000001, 0x0000400000000001, 0x0000800000000001,
    0x0001000000000001, 0x0002000000000001, 0x0004000000000001, 0x0008000000000001,
    0x0010000000000001, 0x0020000000000001, 0x0040000000000001, 0x0080000000000001,
    0x0100000000000001, 0x0200000000000001, 0x0400000000000001, 0x0800000000000001,
    0x1000000000000001, 0x2000000000000001, 0x4000000000000001, 0x8000000000000001,
];

// Of the places below 64, those that are whole periods.
#[inline]
fn multiples(period: u32) -> u64
    requires { 1 ≤ period }
    ensures { (i : ℕ) → i < 64 → is_set_at result i ≡ (i % period == 0) }
{
    if period < 64 {
        MULTIPLES[period as usize]
    } else {
        1
    }
}

/// The mask of a first place and of each that follows it by a number of whole periods.
#[inline]
pub fn every(first: u32, period: u32) -> u64
    requires { 1 ≤ period }
    ensures { (i : ℕ) → i < 64 → is_set_at result i ≡ (nat_le first i && ((i - first) % period == 0)) }
{
    if first < 64 {
        multiples(period) << first
    } else {
        0
    }
}
