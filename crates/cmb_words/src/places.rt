//! Going over the places of a mask.

ghost use Rattle.std.specs.Prelude.{◌≡◌};
ghost use Rattle.std.specs.Iterator.{YieldsFirst, item_count};
ghost use Rattle.cmb_words.specs.Bits.{places_set};

use crate::masks::{lowest, without_lowest};
use std::marker::Model;

/// The set places of a mask, by rising place, seen as the list of those that are left.
#[derive(Drop)]
pub struct Places {
    left: u64,
}

impl Model for Places {
    ghost use Rattle.std.specs.Prelude.{List, ℕ};
    ghost use Rattle.cmb_words.specs.Bits.{places_set};

    ghost Value = { List ℕ };

    ghost view = { λ places. places_set places.left };
}

impl Places {
    /// Those of a mask, all of them.
    #[inline]
    pub fn of(mask: u64) -> Places
        ensures { result ≡ places_set mask }
    {
        Places { left: mask }
    }
}

impl Iterator for Places {
    type Item = u32;

    ghost next_gives = { YieldsFirst (λ rest. rest) };

    ghost remaining = { item_count (λ rest. rest) };

    #[inline]
    fn next(&mut self) -> Option<u32> {
        let place = lowest(self.left)?;
        self.left = without_lowest(self.left);
        Some(place)
    }
}
