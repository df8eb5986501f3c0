//! The words of slots.

ghost use Rattle.std.specs.Prelude.{◌≡◌, ◌*◌, ◌<◌, ◌≤◌, ℕ, true, List, IfNone, IfOk, IfSome, length, map, replicate};
ghost use Rattle.std.specs.Prelude.{slice_index, slice_index_or, slice_set};
ghost use Rattle.cmb_engine.specs.Inner.Arrivals.{IsArrival};
ghost use Rattle.cmb_engine.specs.Inner.Batches.{Makes, Moves};
ghost use Rattle.cmb_engine.specs.Inner.Cells.{AreBelow, Cell, HaveReaders, cell_at, IsLawful, readers_at};
ghost use Rattle.cmb_engine.specs.Inner.Known.{known_planes};
ghost use Rattle.cmb_engine.specs.Inner.Orders.{Order};
ghost use Rattle.cmb_engine.specs.Inner.Planes.{Planes, planes_of};
ghost use Rattle.cmb_engine.specs.Inner.Windows.{HasWindow};
ghost use Rattle.cmb_engine.specs.Inner.Words.{levels_of};

use crate::arrivals::Arrival;
use crate::fanout::Fanout;
use crate::known::make_known;
use crate::known_passes::move_known;
use crate::marks::{Marked, Marks};
use crate::nodes::Nodes;
use cmb_words::Word;
use std::alloc::{AllocError, Global};
use std::marker::Model;

/// The most batches from one look at the plane of x to the next.
const LONGEST_PAUSE: u32 = 65_536;

/// The words of slots by their numbers, in two planes: the places of each that are 1, and those that are x.
///
/// Mostly no level is x. Then the second plane isn't read, so half as much has to be near the processor.
#[derive(Drop)]
pub(crate) struct Words {
    ones: Vec<u64>,
    unknown: Vec<u64>,
    // Whether it is sure that no level is x.
    known: bool,
    // While it isn't: how many batches pass from one look at the second plane to the next, and how many of them are
    // left. Each time twice as many pass, so looking takes no more time than what goes on meanwhile.
    pause: u32,
    wait: u32,
}

// Whether no number is another one than 0.
fn is_clear(numbers: &[u64]) -> bool
    ensures { result ≡ true → (k : ℕ) → slice_index numbers.now k ≡ 0 }
{
    numbers.iter().all(|number| *number == 0)
}

impl Model for Words {
    ghost use Rattle.std.specs.Prelude.{List};
    ghost use Rattle.cmb_engine.specs.Inner.Planes.{AreWords, Planes, planes_in};

    ghost Value = { List Planes };

    ghost view = { λ words. planes_in words.ones.items words.unknown.items };

    ghost invariant = { λ words. AreWords words.ones.items words.unknown.items words.known };
}

impl Words {
    /// So many words, all alike.
    pub(crate) fn new(alloc: Global, word: Word, count: usize) -> Result<Words, AllocError>
        ensures { IfOk result (λ words. words ≡ replicate count (planes_of word)) }
    {
        Ok(Words {
            ones: vec![in alloc; word.ones; count]?,
            unknown: vec![in alloc; word.unknown; count]?,
            known: false,
            pause: 0,
            wait: 0,
        })
    }

    /// How many words there are.
    #[inline]
    pub(crate) fn len(&self) -> usize
        ensures { result ≡ length self.now }
    {
        self.ones.len()
    }

    /// The word of a slot.
    #[inline]
    pub(crate) fn get(&self, slot: usize) -> Word
        requires { slot < length self.now }
        ensures { (d : Planes) → planes_of result ≡ slice_index_or self.now slot d }
    {
        let unknown = if self.known { 0 } else { self.unknown[slot] };
        Word {
            ones: self.ones[slot],
            unknown,
        }
    }

    /// Gives a slot another word.
    #[inline]
    pub(crate) fn set(&mut self, slot: usize, word: Word)
        requires { slot < length self.old }
        ensures { self.new ≡ slice_set self.old slot (planes_of word) }
    {
        self.ones[slot] = word.ones;
        if word.unknown != 0 || !self.known {
            self.unknown[slot] = word.unknown;
            self.known = false;
        }
    }

    /// The places of each word that are 1, where no level is x.
    #[inline]
    pub(crate) fn ones_if_known(&self) -> Option<&[u64]>
        ensures { IfSome result (λ ones. self.now ≡ known_planes ones.now) }
    {
        if self.known { Some(&self.ones) } else { None }
    }

    // Looks whether no level is x any more, once the pause is over.
    fn look(&mut self)
        ensures { self.new ≡ self.old }
    {
        if self.known {
            self.pause = 0;
        } else if self.wait > 0 {
            self.wait -= 1;
        } else {
            self.known = is_clear(&self.unknown);
            self.pause = self
                .pause
                .saturating_mul(2)
                .saturating_add(1)
                .min(LONGEST_PAUSE);
            self.wait = self.pause;
        }
    }

    /// Makes the words of a batch of slots if no level is x, and says at which places there is another word than
    /// before. Where a level may be x it does nothing, and there is no answer.
    pub(crate) fn make_known(
        &mut self,
        nodes: &Nodes,
        last: &mut Arrival,
        batch: Marked,
        to: u32,
        first: u32,
    ) -> Option<u64>
        requires last { IsArrival last.old to first }
        requires within { (rank : ℕ) → rank < length nodes.now.slots
            → slice_index nodes.now.slots rank < length self.old }
        requires lawful { (rank : ℕ) → rank < length nodes.now.slots
            → IsLawful (length self.old) first (cell_at nodes.now.cells rank) }
        requires window { HasWindow to first }
        ensures len { length self.new ≡ length self.old }
        ensures last { IsArrival last.new to first }
        ensures none { IfNone result (self.new ≡ self.old) }
        ensures makes { IfSome result (λ news. (cells : List Cell) (order : Order) → nodes.now.slots ≡ order.slots
            → nodes.now.cells ≡ map (cell_at cells) order.slots
            → Makes (cell_at cells) order to first batch.base batch.places news
            (levels_of self.old) (levels_of self.new)) }
    {
        self.look();
        if !self.known {
            return None;
        }
        Some(make_known(nodes, &mut self.ones, last, batch, to, first))
    }

    /// Moves the words of some slots on where no level is x, and marks what reads those that change at a place or after
    /// it. The places of those that have one level in all places then. Where a level may be x nothing is done, and
    /// nothing said.
    pub(crate) fn move_known(
        &mut self,
        batch: Marked,
        fanout: &Fanout,
        marks: &mut Marks,
        ticks: u32,
        first: u32,
    ) -> Option<u64>
        requires lists { HaveReaders fanout.now.order fanout.now.gates (length self.old) }
        requires within { AreBelow (64 * length marks.old) fanout.now.gates }
        requires ticks { ticks < 64 }
        requires begun { 1 ≤ first }
        requires first { first < 64 }
        ensures len { length self.new ≡ length self.old }
        ensures none { IfNone result ((self.new ≡ self.old) × (marks.new ≡ marks.old)) }
        ensures moves { IfSome result (λ steady. Moves (readers_at fanout.now.order fanout.now.gates)
            batch.base batch.places steady (length self.old) ticks first marks.old marks.new
            (levels_of self.old) (levels_of self.new)) }
    {
        if !self.known {
            return None;
        }
        Some(move_known(&mut self.ones, batch, fanout, marks, ticks, first))
    }
}
