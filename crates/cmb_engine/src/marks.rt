//! The nets with news: a set of numbers, of which the next one is found quickly.

ghost use Rattle.std.specs.Prelude.{◌≡◌, ℕ, ◌+◌, ◌*◌, ◌/◌, ◌%◌, ◌^◌, ◌<◌, ◌≤◌, ◌||◌, ◌&&◌, ◌==◌, false, true};
ghost use Rattle.std.specs.Prelude.{not, length};
ghost use Rattle.std.specs.Prelude.{IfOk, MatchOption};
ghost use Rattle.cmb_words.specs.Bits.{is_set_at};
ghost use Rattle.cmb_engine.specs.Inner.Batches.{IsNextWord, IsSetAt, IsTaken};
ghost use Rattle.cmb_engine.specs.Inner.Bits.{has, HasNone, IsNext};
ghost use Rattle.cmb_engine.specs.Inner.Walks.{walked};

use crate::bits::Bits;
use crate::flags::Flags;
use crate::walk::Walk;
use cmb_words::lowest;
use std::alloc::{AllocError, Global};
use std::marker::Model;

/// A set of numbers, with a flag for each of its words that isn't empty.
#[derive(Drop)]
pub(crate) struct Marks {
    low: Bits,
    high: Flags,
}

impl Model for Marks {
    ghost use Rattle.std.specs.Prelude.{List, ℕ};
    ghost use Rattle.cmb_engine.specs.Inner.Flags.{IsSummary};

    ghost Value = { List ℕ };

    ghost view = { λ marks. marks.low };

    ghost invariant = { λ marks. IsSummary marks.low marks.high };
}

/// Some numbers: the set places of a word, counted from its first number on.
#[derive(Clone, Copy)]
pub(crate) struct Marked {
    pub base: usize,
    pub places: u64,
    ghost fits: { base + 64 ≤ 2 ^ 64 },
}

// The place in a word behind a place at which the next level begins; its end, where none does.
#[inline]
fn level_end(begins: u64, place: u32) -> u32
    requires { place < 64 }
    ensures behind { place < result }
    ensures within { result ≤ 64 }
{
    match lowest((begins >> place) >> 1) {
        Some(more) => (place + 1 + more).min(64),
        None => 64,
    }
}

// The places from one on up to another one.
#[inline]
fn between(from: u32, to: u32) -> u64
    requires some { from < to }
    requires fits { to ≤ 64 }
    ensures { (place : ℕ) → from ≤ place → place < to → is_set_at result place ≡ true }
{
    (u64::MAX << from) & (u64::MAX >> (64 - to))
}

impl Marks {
    /// No marks, with room for the numbers below `count`.
    pub(crate) fn new(alloc: Global, count: usize) -> Result<Marks, AllocError>
        ensures room { IfOk result (λ marks. count < 64 * length marks) }
        ensures none { IfOk result (λ marks. (m : ℕ) → has marks m ≡ false) }
    {
        let low = Bits::new(alloc, count)?;
        let high = Flags::new(alloc, low.len())?;
        Ok(Marks { low, high })
    }

    /// Marks a number.
    #[inline]
    pub(crate) fn insert(&mut self, n: usize)
        requires { n < 64 * length self.old }
        ensures len { length self.new ≡ length self.old }
        ensures has { (m : ℕ) → has self.new m ≡ (m == n || has self.old m) }
    {
        self.low.insert(n);
        self.high.set(n / 64);
    }

    /// Takes the marks of a word out whose places a mask has, and says which places these are.
    #[inline]
    pub(crate) fn take_places(&mut self, word: usize, mask: u64) -> u64
        requires { word < length self.old }
        ensures len { length self.new ≡ length self.old }
        ensures has { (m : ℕ) → has self.new m ≡ (not (m / 64 == word && is_set_at mask (m % 64)) && has self.old m) }
        ensures left { (m : ℕ) → has self.old m ≡ true → has self.new m ≡ false → IsSetAt (64 * word) result m }
        ensures taken { (place : ℕ) → place < 64 → is_set_at mask place ≡ true
            → has self.old (64 * word + place) ≡ true → is_set_at result place ≡ true }
    {
        let taken = self.low.take(word, mask);
        if self.low.word(word) == 0 {
            self.high.clear(word);
        }
        taken
    }

    /// Takes out those marks of one word of one level that a walk hasn't passed, of the first such word and level with
    /// marks. The walk then has passed the level's numbers in the word. `levels` has the numbers with which a level
    /// begins.
    #[inline]
    pub(crate) fn take(&mut self, walk: &mut Walk, levels: &Bits) -> Option<Marked>
        ensures { MatchOption result
            (HasNone self.old (walked walk.old) (64 * length self.old) × (self.new ≡ self.old))
            (λ batch. IsTaken self.old self.new (walked walk.old) (walked walk.new) batch.base batch.places) }
    {
        let mut ahead = *walk;
        let first = self.next(&mut ahead)?;
        let word = first / 64;
        let place = (first % 64) as u32;
        let end = level_end(levels.word(word), place);
        let places = self.take_places(word, between(place, end));
        *walk = Walk::behind(word, end - 1);
        Some(Marked {
            base: 64 * word,
            places,
        })
    }

    /// The least marked number that a walk hasn't passed, which it passes then.
    #[inline]
    pub(crate) fn next(&self, walk: &mut Walk) -> Option<usize>
        ensures { MatchOption result (HasNone self.now (walked walk.old) (64 * length self.now))
            (λ found. IsNext self.now (walked walk.old) found × (walked walk.new ≡ found + 1)) }
    {
        if let Some(found) = self.low.next_at(walk) {
            return Some(found);
        }
        let k = self.high.next(walk.word + 1)?;
        *walk = Walk::at(k);
        self.low.next_at(walk)
    }

    /// The next word with marks from one on, where it begins below a bound. The next look is for those behind it.
    #[inline]
    pub(crate) fn next_word(&self, from: &mut usize, bound: usize) -> Option<Marked>
        ensures { MatchOption result (HasNone self.now (64 * from.old) bound)
            (λ batch. IsNextWord self.now from.old from.new batch.base batch.places
            × (batch.base < bound)) }
    {
        let _words = self.low.len();
        let word = self.high.next(*from)?;
        let base = 64 * word;
        if base >= bound {
            return None;
        }
        *from = word + 1;
        let places = self.low.word(word);
        Some(Marked { base, places })
    }
}
