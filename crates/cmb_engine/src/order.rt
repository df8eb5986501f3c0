//! In which order slots are visited: by levels, so that mostly each comes behind all that it reads.
//!
//! Nothing is owed to the order. It is for speed: where no gates form a loop one sweep over the marked slots settles a
//! window.

ghost use Rattle.std.specs.Prelude.{◌≡◌, ℕ, ◌+◌, ◌*◌, ◌^◌, ◌<◌, ◌≤◌, IfOk, OnOk, MatchOption, length, slice_index, map};
ghost use Rattle.cmb_engine.specs.Inner.Cells.{AreBelow};
ghost use Rattle.cmb_engine.specs.Inner.Orders.{rank_in, IsOrder, IsPlaced, ArePlaced};

use crate::bits::Bits;
use crate::cells::Cells;
use crate::readers::Numbers;
use crate::windows::SHORTEST_CYCLE;
use std::alloc::{AllocError, Global};
use std::marker::Model;

/// The rank of a slot that has none yet.
const UNPLACED: u32 = u32::MAX;

/// What a slot waits for before it gets a rank: all that it reads, or those of lower numbers.
#[derive(Clone, Copy)]
enum Reads {
    All,
    Lower,
}

impl Reads {
    // The least slot that waits for one that it reads.
    fn least(self, slot: usize) -> usize {
        match self {
            Reads::All => 0,
            Reads::Lower => slot.saturating_add(1),
        }
    }
}

/// Slots by rank.
#[derive(Drop)]
pub(crate) struct Order {
    /// The slot of each rank.
    slots: Vec<u32>,
    /// The rank of each slot.
    ranks: Vec<u32>,
    /// The ranks with which a level begins: no slot reads another one of its level, but in loops.
    levels: Bits,
}

impl Model for Order {
    ghost use Rattle.cmb_engine.specs.Inner.Orders.{Order};

    ghost Value = { Order };

    ghost view = { λ order. record {
      slots = order.slots.items;
      ranks = order.ranks.items;
    } };
}

impl Order {
    // The order of so many slots of which none has a rank.
    fn unplaced(alloc: Global, count: usize) -> Result<Order, AllocError>
        ensures ranked { IfOk result (λ order. length order.ranks ≡ count) }
        ensures placed { IfOk result ArePlaced }
    {
        Ok(Order {
            slots: Vec::with_capacity(alloc, count)?,
            ranks: vec![in alloc; UNPLACED; count]?,
            levels: Bits::new(alloc, count)?,
        })
    }

    /// How many ranks there are.
    pub(crate) fn len(&self) -> usize
        ensures { result ≡ length self.now.slots }
    {
        self.slots.len()
    }

    /// The slots by rank.
    pub(crate) fn slots(&self) -> &[u32]
        ensures { result.now ≡ self.now.slots }
    {
        self.slots.as_slice()
    }

    /// The slot of a rank, where there is one.
    #[inline]
    pub(crate) fn slot(&self, rank: usize) -> Option<usize>
        ensures { MatchOption result (length self.now.slots ≤ rank)
            (λ slot. (rank < length self.now.slots) × (slot ≡ slice_index self.now.slots rank)) }
    {
        match self.slots.get(rank) {
            Some(slot) => Some(*slot as usize),
            None => None,
        }
    }

    /// The rank of a slot.
    #[inline]
    pub(crate) fn rank(&self, slot: usize) -> u32
        ensures { result ≡ rank_in self.now slot }
    {
        match self.ranks.get(slot) {
            Some(rank) => *rank,
            None => 0,
        }
    }

    /// The ranks with which a level begins.
    #[inline]
    pub(crate) fn levels(&self) -> &Bits {
        &self.levels
    }

    // Begins a level with the next rank.
    fn begin_level(&mut self)
        ensures { self.new ≡ self.old }
    {
        let rank = self.slots.len();
        if rank / 64 < self.levels.len() {
            self.levels.insert(rank);
        }
    }

    // Gives a slot the next rank, where it has none.
    fn place(&mut self, slot: usize) -> Result<(), AllocError>
        requires slot { slot < length self.old.ranks }
        requires few { length self.old.ranks < 2 ^ 32 }
        requires placed { ArePlaced self.old }
        ensures ranked { length self.new.ranks ≡ length self.old.ranks }
        ensures placed { OnOk result (ArePlaced self.new) }
        ensures here { OnOk result (IsPlaced self.new slot) }
        ensures kept { OnOk result ((other : ℕ) → IsPlaced self.old other → IsPlaced self.new other) }
    {
        if self.ranks[slot] != UNPLACED {
            return Ok(());
        }
        let rank = self.slots.len();
        if rank >= UNPLACED as usize {
            return Err(AllocError);
        }
        self.slots.push(slot as u32)?;
        self.ranks[slot] = rank as u32;
        Ok(())
    }

    // Gives ranks to slots that wait for nothing: told ones, and the flip-flops that begin a window.
    fn place_sources(&mut self, cells: &Cells) -> Result<(), AllocError>
        requires count { length cells.now ≡ length self.old.ranks }
        requires few { length self.old.ranks < 2 ^ 32 }
        requires placed { ArePlaced self.old }
        ensures ranked { length self.new.ranks ≡ length self.old.ranks }
        ensures placed { OnOk result (ArePlaced self.new) }
    {
        for slot in 0..cells.len() {
            if cells.is_source(slot, SHORTEST_CYCLE) {
                self.place(slot)?;
            }
        }
        Ok(())
    }

    // Counts for each slot how many it waits for: those that have no rank, in whose lists it stands.
    fn count_waits(&self, reads: Reads, lists: &[Numbers], waits: &mut [u32])
        requires lists { length lists.now ≡ length self.now.ranks }
        ensures { length waits.new ≡ length waits.old }
    {
        for slot in 0..lists.len() {
            if self.ranks[slot] == UNPLACED {
                count_numbers(lists[slot].as_slice(), reads.least(slot), waits);
            }
        }
    }

    // Gives ranks to those of some slots, from one on, that wait for nothing any more, now that one slot that they read
    // has a rank.
    fn release(
        &mut self,
        waits: &mut [u32],
        readers: &[u32],
        least: usize,
    ) -> Result<(), AllocError>
        requires count { length waits.old ≡ length self.old.ranks }
        requires few { length self.old.ranks < 2 ^ 32 }
        requires placed { ArePlaced self.old }
        ensures count { length waits.new ≡ length waits.old }
        ensures ranked { length self.new.ranks ≡ length self.old.ranks }
        ensures placed { OnOk result (ArePlaced self.new) }
    {
        for reader in readers {
            let reader = *reader as usize;
            if least <= reader && reader < waits.len() {
                let left = waits[reader].saturating_sub(1);
                waits[reader] = left;
                if left == 0 {
                    self.place(reader)?;
                }
            }
        }
        Ok(())
    }

    // Gives ranks by levels, in the order of the slots that have ranks, from a rank on: to each slot once all that it
    // waits for have theirs.
    fn place_readers(
        &mut self,
        begin: usize,
        reads: Reads,
        waits: &mut [u32],
        gates: &[Numbers],
        flops: &[Numbers],
    ) -> Result<(), AllocError>
        requires count { length waits.old ≡ length self.old.ranks }
        requires gates { length gates.now ≡ length self.old.ranks }
        requires flops { length flops.now ≡ length self.old.ranks }
        requires few { length self.old.ranks < 2 ^ 32 }
        requires placed { ArePlaced self.old }
        ensures ranked { length self.new.ranks ≡ length self.old.ranks }
        ensures placed { OnOk result (ArePlaced self.new) }
    {
        let mut end = begin;
        for rank in begin..gates.len() {
            let Some(slot) = self.slot(rank) else {
                return Ok(());
            };
            if rank == end {
                end = self.len();
                self.begin_level();
            }
            let least = reads.least(slot);
            self.release(waits, gates[slot].as_slice(), least)?;
            self.release(waits, flops[slot].as_slice(), least)?;
        }
        Ok(())
    }

    // Gives ranks to the slots without one that wait for nothing.
    fn place_ready(&mut self, waits: &[u32]) -> Result<(), AllocError>
        requires count { length waits.now ≡ length self.old.ranks }
        requires few { length self.old.ranks < 2 ^ 32 }
        requires placed { ArePlaced self.old }
        ensures ranked { length self.new.ranks ≡ length self.old.ranks }
        ensures placed { OnOk result (ArePlaced self.new) }
    {
        for slot in 0..waits.len() {
            if waits[slot] == 0 {
                self.place(slot)?;
            }
        }
        Ok(())
    }

    // Gives ranks to slots in loops and behind them, by levels too. Where a slot reads a higher one, the order passes
    // that over: so a loop is cut where its numbers fall.
    fn place_loops(
        &mut self,
        waits: &mut [u32],
        gates: &[Numbers],
        flops: &[Numbers],
    ) -> Result<(), AllocError>
        requires count { length waits.old ≡ length self.old.ranks }
        requires gates { length gates.now ≡ length self.old.ranks }
        requires flops { length flops.now ≡ length self.old.ranks }
        requires few { length self.old.ranks < 2 ^ 32 }
        requires placed { ArePlaced self.old }
        ensures ranked { length self.new.ranks ≡ length self.old.ranks }
        ensures placed { OnOk result (ArePlaced self.new) }
    {
        waits.fill(0);
        self.count_waits(Reads::Lower, gates, waits);
        self.count_waits(Reads::Lower, flops, waits);
        let begin = self.len();
        self.begin_level();
        self.place_ready(waits)?;
        self.place_readers(begin, Reads::Lower, waits, gates, flops)
    }

    // Gives ranks to all that have none.
    fn place_rest(&mut self) -> Result<(), AllocError>
        requires few { length self.old.ranks < 2 ^ 32 }
        requires placed { ArePlaced self.old }
        ensures ranked { length self.new.ranks ≡ length self.old.ranks }
        ensures ordered { OnOk result (IsOrder self.new) }
    {
        for slot in 0..self.ranks.len() {
            self.place(slot)?;
        }
        Ok(())
    }

    // Gives ranks to all slots of cells: by levels, then to those in loops and behind them.
    fn place_all(
        &mut self,
        cells: &Cells,
        waits: &mut [u32],
        gates: &[Numbers],
        flops: &[Numbers],
    ) -> Result<(), AllocError>
        requires cells { length cells.now ≡ length self.old.ranks }
        requires count { length waits.old ≡ length self.old.ranks }
        requires gates { length gates.now ≡ length self.old.ranks }
        requires flops { length flops.now ≡ length self.old.ranks }
        requires few { length self.old.ranks < 2 ^ 32 }
        requires placed { ArePlaced self.old }
        ensures ranked { length self.new.ranks ≡ length self.old.ranks }
        ensures ordered { OnOk result (IsOrder self.new) }
    {
        self.count_waits(Reads::All, gates, waits);
        self.count_waits(Reads::All, flops, waits);
        self.place_sources(cells)?;
        self.place_readers(0, Reads::All, waits, gates, flops)?;
        self.place_loops(waits, gates, flops)?;
        self.place_rest()
    }
}

// Adds one to the count of each of some slots, from one on.
fn count_numbers(numbers: &[u32], least: usize, counts: &mut [u32])
    ensures { length counts.new ≡ length counts.old }
{
    for number in numbers {
        let number = *number as usize;
        if least <= number && number < counts.len() {
            counts[number] = counts[number].saturating_add(1);
        }
    }
}

/// The order of the slots of cells, of which the gates and the flip-flops that read each slot are listed.
pub(crate) fn order_of(
    alloc: Global,
    cells: &Cells,
    gates: &[Numbers],
    flops: &[Numbers],
) -> Result<Order, AllocError>
    requires few { length cells.now < 2 ^ 32 }
    requires gates { length gates.now ≡ length cells.now }
    requires flops { length flops.now ≡ length cells.now }
    ensures ordered { IfOk result IsOrder }
    ensures ranked { IfOk result (λ order. length order.ranks ≡ length cells.now) }
{
    let mut order = Order::unplaced(alloc, cells.len())?;
    let Ok(mut waits) = vec![in alloc; 0; cells.len()] else {
        drop(order);
        return Err(AllocError);
    };
    let placed = order.place_all(cells, &mut waits, gates, flops);
    drop(waits);
    match placed {
        Ok(()) => Ok(order),
        Err(error) => {
            drop(order);
            Err(error)
        }
    }
}
