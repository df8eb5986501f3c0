//! Flip-flops over words.

ghost use Rattle.std.specs.Prelude.{◌≡◌, ℕ, ◌-◌, ◌%◌, ◌<◌, ◌≤◌, ◌==◌, if◌then◌else◌};
ghost use Rattle.cmb_words.specs.Bits.{level_in};
ghost use Rattle.cmb_words.specs.Holds.{AreSamples, Holds};
ghost use Rattle.cmb_words.specs.Word.{level_at_place};

use crate::masks::every;
use crate::splice::spliced;
use crate::word::Word;

// From a first arrival on what is seen at the last arrival, where one follows another after a whole period.
#[inline]
fn carried(seen: Word, arrival: u32, period: u32) -> Word
    requires arrival { arrival < 64 }
    requires period { 1 ≤ period }
    ensures { (i : ℕ) → arrival ≤ i → i < 64
        → level_at_place result i
        ≡ (if (i - arrival) % period == 0 then level_at_place seen i else level_at_place result (i - 1)) }
{
    if period >= 64 - arrival {
        return seen.everywhere(arrival);
    }
    let arrivals = every(arrival, period);
    let mut ones = seen.ones & arrivals;
    let mut unknown = seen.unknown & arrivals;
    let mut span: u32 = 1;
    'spans: while span < period {
        let step = span.min(period - span);
        ones |= ones << step;
        unknown |= unknown << step;
        span += step;
    }
    Word { ones, unknown }
}

// What `held` gives, whatever the levels are.
#[inline]
fn held_any(own: Word, input: Word, delay: u32, arrival: u32, period: u32, from: u32) -> Word
    requires { AreSamples delay arrival period from }
    ensures { Holds (level_at_place own) (level_at_place input) (level_at_place result) delay arrival period from }
{
    let before = own.repeated_from(from);
    if arrival < 64 {
        spliced(
            before,
            carried(input.delayed(delay), arrival, period),
            arrival,
        )
    } else {
        before
    }
}

/// As `held`, where no level is x: of both words and of the result, the places that are 1.
#[inline]
pub fn held_known(own: u64, input: u64, delay: u32, arrival: u32, period: u32, from: u32) -> u64
    requires { AreSamples delay arrival period from }
    ensures { Holds (level_in own 0) (level_in input 0) (level_in result 0) delay arrival period from }
{
    let before = Word {
        ones: own,
        unknown: 0,
    };
    let data = Word {
        ones: input,
        unknown: 0,
    };
    held_any(before, data, delay, arrival, period, from).ones
}

/// The word of a flip-flop of which `own` is known below `from`, where samples arrive at `arrival` and after each whole
/// period that follows. It has there the level that its data, `input`, had the delay before, and elsewhere from `from`
/// on the level of the place before.
///
/// Mostly no level is x, and then half of the work is spared.
#[inline]
pub fn held(own: Word, input: Word, delay: u32, arrival: u32, period: u32, from: u32) -> Word
    requires { AreSamples delay arrival period from }
    ensures { Holds (level_at_place own) (level_at_place input) (level_at_place result) delay arrival period from }
{
    if own.unknown == 0 && input.unknown == 0 {
        Word {
            ones: held_known(own.ones, input.ones, delay, arrival, period, from),
            unknown: 0,
        }
    } else {
        held_any(own, input, delay, arrival, period, from)
    }
}
