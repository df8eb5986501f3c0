//! Sets of numbers by bits.

ghost use Rattle.std.specs.Prelude.{◌≡◌, ℕ, ◌+◌, ◌*◌, ◌/◌, ◌%◌, ◌^◌, ◌<◌, ◌≤◌, ◌||◌, ◌&&◌, ◌==◌, false, not, length};
ghost use Rattle.std.specs.Prelude.{true};
ghost use Rattle.std.specs.Prelude.{slice_index, IfOk, IfNone, MatchOption};
ghost use Rattle.cmb_words.specs.Bits.{is_set_at};
ghost use Rattle.cmb_engine.specs.Inner.Batches.{IsSetAt};
ghost use Rattle.cmb_engine.specs.Inner.Bits.{has, HasNone, IsNext, Inserts, Lessens};
ghost use Rattle.cmb_engine.specs.Inner.Walks.{walked};

use crate::walk::Walk;
use cmb_words::lowest;
use std::alloc::{AllocError, Global};
use std::marker::Model;

/// A set of numbers below 64 times the count of its words.
#[derive(Drop)]
pub(crate) struct Bits {
    words: Vec<u64>,
}

impl Model for Bits {
    ghost use Rattle.std.specs.Prelude.{List, ℕ, length, ◌≤◌, ◌^◌};

    ghost Value = { List ℕ };

    ghost view = { λ set. set.words.items };

    ghost invariant = { λ set. length set.words.items ≤ 2 ^ 58 };
}

impl Bits {
    /// The empty set, with room for the numbers below `count`.
    pub(crate) fn new(alloc: Global, count: usize) -> Result<Bits, AllocError>
        ensures room { IfOk result (λ set. length set ≡ count / 64 + 1) }
        ensures none { IfOk result (λ set. (m : ℕ) → has set m ≡ false) }
        ensures empty { IfOk result (λ set. (k : ℕ) → slice_index set k ≡ 0) }
    {
        Ok(Bits {
            words: vec![in alloc; 0; count / 64 + 1]?,
        })
    }

    /// How many words there are.
    pub(crate) fn len(&self) -> usize
        ensures value { result ≡ length self.now }
        ensures small { result ≤ 2 ^ 58 }
    {
        self.words.len()
    }

    /// Puts a number in.
    #[inline]
    pub(crate) fn insert(&mut self, n: usize)
        requires { n < 64 * length self.old }
        ensures { Inserts self.old self.new n }
    {
        self.words[n / 64] |= 1 << (n % 64);
    }

    /// A word of the set.
    #[inline]
    pub(crate) fn word(&self, k: usize) -> u64
        ensures { result ≡ slice_index self.now k }
    {
        match self.words.get(k) {
            Some(word) => *word,
            None => 0,
        }
    }

    /// Takes the numbers of a word out whose places a mask has, and says which places these are.
    #[inline]
    pub(crate) fn take(&mut self, k: usize, mask: u64) -> u64
        requires { k < length self.old }
        ensures less { Lessens self.old self.new k }
        ensures members { (m : ℕ) → has self.new m ≡ (not (m / 64 == k && is_set_at mask (m % 64)) && has self.old m) }
        ensures left { (m : ℕ) → has self.old m ≡ true → has self.new m ≡ false → IsSetAt (64 * k) result m }
        ensures taken { (place : ℕ) → place < 64 → is_set_at mask place ≡ true → has self.old (64 * k + place) ≡ true
            → is_set_at result place ≡ true }
    {
        let word = self.words[k];
        self.words[k] = word & !mask;
        word & mask
    }

    /// The least one in the word of a walk that the walk hasn't passed, which it passes then.
    #[inline]
    pub(crate) fn next_at(&self, walk: &mut Walk) -> Option<usize>
        ensures next { MatchOption result
            (HasNone self.now (walked walk.old) (64 * walk.old.word + 64) × (walk.new ≡ walk.old))
            (λ found. IsNext self.now (walked walk.old) found × (walked walk.new ≡ found + 1)) }
        ensures empty { walked walk.old ≡ 64 * walk.old.word
            → IfNone result (slice_index self.now walk.old.word ≡ 0) }
        ensures small { length self.now ≤ 2 ^ 58 }
    {
        let word = walk.word;
        if word >= self.words.len() {
            return None;
        }
        let place = lowest(self.words[word] & walk.ahead)?;
        *walk = Walk::behind(word, place);
        Some(64 * word + place as usize)
    }
}
