//! Levels, changes and promises: plain data.

/// A logic level: one of IEEE 1364-2005's four values without z (clause 4.1).
#[derive(Clone, Copy, Debug, PartialEq, Eq)]
pub enum Level {
    /// Logic 0, a false condition.
    Zero,
    /// Logic 1, a true condition.
    One,
    /// Unknown.
    X,
}

/// From its tick on, and until its next change, a net has this level.
#[derive(Clone, Copy, Debug, PartialEq, Eq)]
pub struct Change {
    pub tick: u32,
    pub level: Level,
}

/// The net has `count` changes at ticks below `upto`, and no others there.
///
/// This is the null message of Chandy and Misra (1979) and Bryant (1977), with a count: a reader
/// that holds as many changes as `count` knows that none is still under way to it. As with
/// Fujimoto's (1990) link clocks, nothing is said of the tick `upto` itself.
#[derive(Clone, Copy, Debug, PartialEq, Eq)]
pub struct Promise {
    /// The number of the net.
    pub net: u32,
    /// How many changes the net has at ticks below `upto`.
    pub count: u32,
    /// The tick up to which the promise goes, itself left out.
    pub upto: u32,
}

/// What a wave made of a promise.
#[derive(Clone, Copy, Debug, PartialEq, Eq)]
pub enum Heard {
    /// The wave was known as far as that, and didn't change.
    Old,
    /// The wave holds all changes below the promise's tick, and its clock is now that tick.
    Extended,
    /// Changes below the promise's tick are still to come, and the wave didn't change.
    Ahead,
}

impl Promise {
    ghost use Rattle.std.specs.Prelude.{◌≡◌, ◌/◌, ◌%◌, ◌^◌, ◌<◌};
    ghost use Rattle.cmb_wave.specs.Calls.{word_of};
    ghost use Rattle.cmb_wave.specs.declared.level.Promise.{Promise};

    /// The promise in one word, without its net: `count * 2^32 + upto`.
    pub fn word(self) -> u64
        ensures word { result ≡ word_of self }
    {
        u64::from(self.count) << 32 | u64::from(self.upto)
    }

    /// The promise of a net that a word holds. Of a promise's own word it is that promise.
    pub fn of_word(net: u32, word: u64) -> Promise
        ensures parts { result ≡ record { net = net; count = word / 2 ^ 32; upto = word % 2 ^ 32 } }
        ensures back { (promise : Promise) → promise.net ≡ net → promise.upto < 2 ^ 32 → word_of promise ≡ word
            → result ≡ promise }
    {
        Promise {
            net,
            count: (word >> 32) as u32,
            upto: (word % 0x1_0000_0000) as u32,
        }
    }
}
