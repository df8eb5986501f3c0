//! Machine words of 64 bits, bit by bit.

ghost use Rattle.std.specs.Prelude.{◌≡◌, ℕ, ◌+◌, ◌-◌, ◌<◌, ◌≤◌, min};
ghost use Rattle.std.specs.Int.{bit_at};

// The bits of `below` under a place, and from it on those of `above`.
#[inline]
pub(crate) fn cut_over(below: u64, above: u64, place: u32) -> u64
    requires { place < 64 }
    ensures low { (i : ℕ) → i < place → bit_at result i ≡ bit_at below i }
    ensures high { (i : ℕ) → place ≤ i → i < 64 → bit_at result i ≡ bit_at above i }
{
    below ^ ((below ^ above) & (u64::MAX << place))
}

// All bits as the one at a place.
#[inline]
pub(crate) fn filled(bits: u64, place: u32) -> u64
    requires { place < 64 }
    ensures { (i : ℕ) → i < 64 → bit_at result i ≡ bit_at bits place }
{
    if (bits >> place) & 1 == 1 {
        u64::MAX
    } else {
        0
    }
}

// The bits so many places further down, and above them the highest one.
#[inline]
pub(crate) fn moved_down(bits: u64, places: u32) -> u64
    requires { places < 64 }
    ensures { (i : ℕ) → i < 64 → bit_at result i ≡ bit_at bits (min (i + places) 63) }
{
    (bits >> places) | (filled(bits, 63) & (u64::MAX ^ (u64::MAX >> places)))
}
