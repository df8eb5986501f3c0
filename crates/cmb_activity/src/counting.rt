//! Counting a net's changes and the ticks of each level.

ghost use Rattle.std.specs.Prelude.{◌≡◌, ℕ, ◌<◌, ◌≤◌, if◌then◌else◌};
ghost use Rattle.std.specs.Prelude.{◌+◌, ◌-◌, ◌*◌, ◌/◌, ◌%◌, ◌^◌};
ghost use Rattle.cmb_wave.specs.declared.level.Level.{Level};
ghost use Rattle.cmb_words.specs.Bits.{is_set_at};
ghost use Rattle.cmb_words.specs.Word.{level_at_place};
ghost use Rattle.cmb_activity.specs.Activities.{IsActivity};
ghost use Rattle.cmb_activity.specs.Inner.SetBits.{set_bits};
ghost use Rattle.cmb_activity.specs.Inner.Tallies.{CanGrow, IsTally, ticks_before};

use crate::activity::Activity;
use crate::tally::{HIGH, Tally, UNKNOWN};
use cmb_wave::Level;
use cmb_words::Word;

// Whether the bit at a place is set.
#[inline]
fn is_set(bits: u64, place: u32) -> bool
    requires { place < 64 }
    ensures { result ≡ is_set_at bits place }
{
    (bits >> place) & 1 == 1
}

// How many of the bits from a place on are set.
#[inline]
fn set_from(bits: u64, place: u32) -> u32
    requires { place < 64 }
    ensures value { result ≡ set_bits bits place (64 - place) }
    ensures few { result ≤ 64 - place }
{
    (bits & (u64::MAX << place)).count_ones()
}

// The ticks from a window's beginning on up to the horizon, where the bit of the tick before it is set. The last bits
// are those of the window's ticks, and so many more are left behind it.
#[inline]
fn lost(bits: u64, ticks: u32, left: u32) -> u64
    requires most { ticks ≤ 63 }
    requires few { left ≤ 1000000 }
    ensures { result ≡ ticks_before bits ticks left }
{
    if is_set(bits, 63 - ticks) {
        u64::from(ticks + left)
    } else {
        0
    }
}

// The ticks of a window whose bits are set, and those that are left behind it where its last bit is.
#[inline]
fn gained(bits: u64, ticks: u32, left: u32) -> u64
    requires some { 1 ≤ ticks }
    requires most { ticks ≤ 63 }
    requires few { left ≤ 1000000 }
    ensures value { result ≡ set_bits bits (64 - ticks) ticks + (if is_set_at bits 63 then left else 0) }
    ensures few { result ≤ 1000063 }
{
    let after = if is_set(bits, 63) { left } else { 0 };
    u64::from(set_from(bits, 64 - ticks) + after)
}

impl Tally {
    /// That of a net whose level at tick 0 is known.
    pub(crate) fn start(first: Level, horizon: u32) -> Tally
        requires some { 1 ≤ horizon }
        requires most { horizon ≤ 1000000 }
        ensures { (level : ℕ → Level) → level 0 ≡ first → IsTally level 1 horizon result }
    {
        let counts = match first {
            Level::Zero => 0,
            Level::One => u64::from(horizon) * HIGH,
            Level::X => u64::from(horizon) * UNKNOWN,
        };
        Tally { counts }
    }

    /// That of a net whose levels at the ticks up to a later one stand in a word, which ends there.
    #[inline]
    pub(crate) fn grown(self, word: Word, from: u32, upto: u32, horizon: u32) -> Tally
        requires order { from < upto }
        requires short { upto ≤ from + 63 }
        requires within { upto ≤ horizon }
        requires small { horizon ≤ 1000000 }
        requires fits { CanGrow from upto horizon word.ones word.unknown self }
        ensures { (level : ℕ → Level) → IsTally level from horizon self
            → ((tick : ℕ) → from ≤ tick + 1 → tick < upto
            → level_at_place word (tick + 64 - upto) ≡ level tick)
            → IsTally level upto horizon result }
    {
        let ticks = upto - from;
        let left = horizon - upto;
        let counts = self.counts + gained(word.ones, ticks, left) * HIGH
            - lost(word.ones, ticks, left) * HIGH;
        // Most words have no x, and the changes of those are found by their ones alone.
        if word.unknown & (u64::MAX << (63 - ticks)) == 0 {
            let known = Word {
                ones: word.ones,
                unknown: 0,
            };
            let changes = set_from(known.changes_from(64 - ticks), 64 - ticks);
            Tally {
                counts: counts + u64::from(changes),
            }
        } else {
            let changes = set_from(word.changes_from(64 - ticks), 64 - ticks);
            let counts = counts + gained(word.unknown, ticks, left) * UNKNOWN
                - lost(word.unknown, ticks, left) * UNKNOWN;
            Tally {
                counts: counts + u64::from(changes),
            }
        }
    }

    /// What was counted at the horizon.
    pub(crate) fn activity(self, horizon: u32) -> Activity
        requires small { horizon ≤ 1000000 }
        requires most { self.counts / 1048576 % 1048576 + self.counts / 1099511627776 ≤ horizon }
        ensures { (level : ℕ → Level) → IsTally level horizon horizon self → IsActivity level horizon result }
    {
        let high = (self.counts / HIGH % HIGH) as u32;
        let unknown = (self.counts / UNKNOWN) as u32;
        Activity {
            changes: (self.counts % HIGH) as u32,
            low: horizon - high - unknown,
            high,
            unknown,
        }
    }
}
