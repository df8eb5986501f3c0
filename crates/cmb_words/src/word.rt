//! A word: the levels of a net at 64 neighbouring ticks.

ghost use Rattle.cmb_words.specs.Bits.{Apart};

use crate::bits::{filled, moved_down};
use crate::splice::spliced;
use cmb_wave::Level;

/// The levels of a net at 64 neighbouring ticks, which stand at its places 0 to 63 by rising tick.
#[derive(Clone, Copy)]
pub struct Word {
    /// The places whose level is 1: bit `i` is place `i`.
    pub ones: u64,
    /// The places whose level is x. None of them is among the `ones`.
    pub unknown: u64,
    ghost apart: { Apart ones unknown },
}

impl Word {
    ghost use Rattle.std.specs.Prelude.{◌≡◌, ℕ, ◌+◌, ◌-◌, ◌<◌, ◌≤◌, min, not, Bool, true, false};
    ghost use Rattle.cmb_wave.specs.Waveform.{same_level};
    ghost use Rattle.cmb_words.specs.Bits.{is_set_at};
    ghost use Rattle.cmb_words.specs.Word.{level_at_place, SameFrom};

    /// The word with one level at all its places.
    #[inline]
    pub fn constant(level: Level) -> Word
        ensures { (i : ℕ) → i < 64 → level_at_place result i ≡ level }
    {
        match level {
            Level::Zero => Word {
                ones: 0,
                unknown: 0,
            },
            Level::One => Word {
                ones: u64::MAX,
                unknown: 0,
            },
            Level::X => Word {
                ones: 0,
                unknown: u64::MAX,
            },
        }
    }

    /// The level at a place.
    #[inline]
    pub fn level(self, place: u32) -> Level
        requires { place < 64 }
        ensures { result ≡ level_at_place self place }
    {
        if (self.unknown >> place) & 1 == 1 {
            Level::X
        } else if (self.ones >> place) & 1 == 1 {
            Level::One
        } else {
            Level::Zero
        }
    }

    /// Each level so many ticks later, as a pin with this delay sees it.
    ///
    /// Of the places below the delay nothing is said: what stands there was before this word.
    #[inline]
    pub fn delayed(self, delay: u32) -> Word
        requires { delay < 64 }
        ensures { (i : ℕ) → delay ≤ i → i < 64 → level_at_place result i ≡ level_at_place self (i - delay) }
    {
        Word {
            ones: self.ones << delay,
            unknown: self.unknown << delay,
        }
    }

    /// The word that begins so many ticks later. Its last level is repeated at the places that this word doesn't reach.
    #[inline]
    pub fn advanced(self, ticks: u32) -> Word
        requires { ticks < 64 }
        ensures { (i : ℕ) → i < 64 → level_at_place result i ≡ level_at_place self (min (i + ticks) 63) }
    {
        Word {
            ones: moved_down(self.ones, ticks),
            unknown: moved_down(self.unknown, ticks),
        }
    }

    /// The level at a place, at all places.
    #[inline]
    pub fn everywhere(self, place: u32) -> Word
        requires { place < 64 }
        ensures { (i : ℕ) → i < 64 → level_at_place result i ≡ level_at_place self place }
    {
        Word {
            ones: filled(self.ones, place),
            unknown: filled(self.unknown, place),
        }
    }

    /// The word with another level at a place and after it.
    #[inline]
    pub fn with_from(self, place: u32, level: Level) -> Word
        requires { place < 64 }
        ensures below { (i : ℕ) → i < place → level_at_place result i ≡ level_at_place self i }
        ensures from { (i : ℕ) → place ≤ i → i < 64 → level_at_place result i ≡ level }
    {
        spliced(self, Word::constant(level), place)
    }

    /// The word that from a place on repeats the level before it.
    #[inline]
    pub fn repeated_from(self, place: u32) -> Word
        requires least { 1 ≤ place }
        requires most { place < 64 }
        ensures below { (i : ℕ) → i < place → level_at_place result i ≡ level_at_place self i }
        ensures from { (i : ℕ) → place ≤ i → i < 64 → level_at_place result i ≡ level_at_place self (place - 1) }
    {
        spliced(self, self.everywhere(place - 1), place)
    }

    /// The places, the first left out, whose level differs from that at the place before.
    #[inline]
    pub fn changes(self) -> u64
        ensures first { is_set_at result 0 ≡ false }
        ensures others { (i : ℕ) → 1 ≤ i → i < 64
            → is_set_at result i ≡ not (same_level (level_at_place self (i - 1)) (level_at_place self i)) }
    {
        self.changes_from(1)
    }

    /// The places from one on whose level differs from that at the place before.
    #[inline]
    pub fn changes_from(self, place: u32) -> u64
        requires least { 1 ≤ place }
        requires most { place < 64 }
        ensures below { (i : ℕ) → i < place → is_set_at result i ≡ false }
        ensures from { (i : ℕ) → place ≤ i → i < 64
            → is_set_at result i ≡ not (same_level (level_at_place self (i - 1)) (level_at_place self i)) }
    {
        let ones = self.ones ^ (self.ones << 1);
        let unknown = self.unknown ^ (self.unknown << 1);
        (ones | unknown) & (u64::MAX << place)
    }

    /// Whether some place from one on has another level than in the other word.
    #[inline]
    pub fn differs_from(self, other: Word, place: u32) -> bool
        requires { place < 64 }
        ensures same { result ≡ false → SameFrom self other place }
        ensures differs { SameFrom self other place → result ≡ false }
    {
        let ones = self.ones ^ other.ones;
        let unknown = self.unknown ^ other.unknown;
        (ones | unknown) >> place != 0
    }

    /// Whether all places from one on have the level of the place before it.
    #[inline]
    pub fn is_steady_from(self, place: u32) -> bool
        requires least { 1 ≤ place }
        requires most { place < 64 }
        ensures steady { result ≡ true
            → (i : ℕ) → place ≤ i → i < 64 → level_at_place self i ≡ level_at_place self (place - 1) }
        ensures changes { ((i : ℕ) → place ≤ i → i < 64 → level_at_place self i ≡ level_at_place self (place - 1))
            → result ≡ true }
    {
        !self.differs_from(self.everywhere(place - 1), place)
    }
}
