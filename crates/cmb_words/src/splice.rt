//! Words put together from two.

ghost use Rattle.std.specs.Prelude.{◌≡◌, ℕ, ◌<◌, ◌≤◌};
ghost use Rattle.cmb_words.specs.Word.{level_at_place};

use crate::bits::cut_over;
use crate::word::Word;

/// The levels of one word below a place, and at the place and after it those of another.
#[inline]
pub fn spliced(below: Word, above: Word, place: u32) -> Word
    requires { place < 64 }
    ensures below { (i : ℕ) → i < place → level_at_place result i ≡ level_at_place below i }
    ensures from { (i : ℕ) → place ≤ i → i < 64 → level_at_place result i ≡ level_at_place above i }
{
    Word {
        ones: cut_over(below.ones, above.ones, place),
        unknown: cut_over(below.unknown, above.unknown, place),
    }
}
