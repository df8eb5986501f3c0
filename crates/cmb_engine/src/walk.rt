//! How far one is that goes over a set of numbers by rising number.

ghost use Rattle.cmb_engine.specs.Inner.Bits.{IsWalk};

/// Where a walk over numbers is: the word that it is at, the first place of it that it hasn't passed, and the places
/// from there on as bits. So the next number is found by one look at the word.
#[derive(Clone, Copy)]
pub(crate) struct Walk {
    pub word: usize,
    pub place: u32,
    pub ahead: u64,
    ghost walk: { IsWalk word place ahead },
}

impl Walk {
    ghost use Rattle.std.specs.Prelude.{◌≡◌, ◌+◌, ◌*◌, ◌^◌, ◌<◌, ◌≤◌};
    ghost use Rattle.cmb_engine.specs.Inner.Walks.{walked};

    /// The walk that begins with a word.
    pub(crate) fn at(word: usize) -> Walk
        requires { word ≤ 2 ^ 58 }
        ensures word { result.word ≡ word }
        ensures walked { walked result ≡ 64 * word }
    {
        Walk {
            word,
            place: 0,
            ahead: u64::MAX,
        }
    }

    /// The walk that has just passed a place of a word.
    #[inline]
    pub(crate) fn behind(word: usize, place: u32) -> Walk
        requires word { word ≤ 2 ^ 58 }
        requires place { place < 64 }
        ensures word { result.word ≡ word }
        ensures walked { walked result ≡ 64 * word + place + 1 }
    {
        Walk {
            word,
            place: place + 1,
            ahead: (u64::MAX << place) << 1,
        }
    }
}
