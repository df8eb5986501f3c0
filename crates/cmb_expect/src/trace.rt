//! The levels of a net by the engine's last word of it.

ghost use Rattle.std.specs.Prelude.{◌≡◌, ◌+◌, ◌<◌, ◌≤◌};
ghost use Rattle.cmb_expect.specs.Inner.Traces.{level_told};

use cmb_wave::Level;
use cmb_words::Word;

/// The levels of a net at the 64 ticks below a tick. Since then it didn't change.
#[derive(Clone, Copy)]
pub(crate) struct Trace {
    pub word: Word,
    pub upto: u32,
}

impl Trace {
    /// The level at a tick.
    pub(crate) fn level(self, tick: u32) -> Level
        requires near { self.upto ≤ tick + 64 }
        requires within { tick < 1000000 }
        ensures { result ≡ level_told self tick }
    {
        let place = (tick + 64 - self.upto).min(63);
        self.word.level(place)
    }
}
