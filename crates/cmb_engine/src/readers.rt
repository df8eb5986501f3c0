//! Which slots read each slot.

ghost use Rattle.std.specs.Prelude.{◌≡◌, ℕ, ◌^◌, ◌<◌, ◌++◌, ◌∷◌, ◌==◌, [], true, All, IfOk, OnOk, length, map};
ghost use Rattle.std.specs.Prelude.{replicate, slice_index_or, slice_set};
ghost use Rattle.std.specs.List.{list_any};
ghost use Rattle.cmb_engine.specs.Inner.Cells.{Told, is_flop, is_gate, AreBelow, AreLists, IsListed, pins_of};
ghost use Rattle.cmb_engine.specs.Inner.Orders.{rank_in};

use crate::cell::Pin;
use crate::cells::Cells;
use crate::order::Order;
use smallvec::SmallVec;
use std::alloc::{AllocError, Global};
use std::marker::Model;

/// Numbers of slots, or of lines. Up to four of them need no memory of their own.
pub(crate) type Numbers = SmallVec<u32, 4>;

/// Which ranks read the slot of each rank, or which lines follow each net, seen as a list for each.
///
/// The lists stand one behind the other, so that many fit into a processor's cache.
#[derive(Drop)]
pub(crate) struct Readers {
    // Where each list begins, and where the last one ends.
    starts: Vec<u32>,
    nets: Vec<u32>,
}

impl Model for Readers {
    ghost use Rattle.std.specs.Prelude.{List, ℕ, length};
    ghost use Rattle.cmb_engine.specs.Inner.Lists.{lists_between, AreStarts};

    ghost Value = { List (List ℕ) };

    ghost view = { λ readers. lists_between readers.nets.items readers.starts.items };

    ghost invariant = { λ readers. AreStarts (length readers.nets.items) readers.starts.items };
}

impl Readers {
    /// So many empty lists.
    pub(crate) fn empty(alloc: Global, count: usize) -> Result<Readers, AllocError>
        ensures { IfOk result (λ readers. readers ≡ replicate count []) }
    {
        let Some(starts) = count.checked_add(1) else {
            return Err(AllocError);
        };
        Ok(Readers {
            starts: vec![in alloc; 0; starts]?,
            nets: Vec::new(alloc),
        })
    }

    /// How many lists there are.
    pub(crate) fn len(&self) -> usize
        ensures { result ≡ length self.now }
    {
        self.starts.len() - 1
    }

    /// The same lists, one behind the other.
    pub(crate) fn joined(alloc: Global, lists: &[Numbers]) -> Result<Readers, AllocError>
        ensures { IfOk result (λ readers. readers ≡ map (λ list. list.items) lists.now) }
    {
        let mut starts = vec![in alloc; 0; 1]?;
        let mut nets = Vec::new(alloc);
        for list in lists {
            nets.extend_from_slice(list.as_slice())?;
            let Ok(end) = u32::try_from(nets.len()) else {
                return Err(AllocError);
            };
            starts.push(end)?;
        }
        Ok(Readers { starts, nets })
    }

    /// The lists of the slots of an order, by rank, with ranks in the place of slots.
    pub(crate) fn ranked(
        alloc: Global,
        lists: &[Numbers],
        order: &Order,
    ) -> Result<Readers, AllocError>
        requires { All (λ slot. slot < length lists.now) order.now.slots }
        ensures { IfOk result (λ readers. readers ≡ map (λ slot. map (rank_in order.now)
            (slice_index_or (map (λ list. list.items) lists.now) slot [])) order.now.slots) }
    {
        let mut starts = vec![in alloc; 0; 1]?;
        let mut nets = Vec::new(alloc);
        for slot in order.slots() {
            push_ranks(&mut nets, lists[*slot as usize].as_slice(), order)?;
            let Ok(end) = u32::try_from(nets.len()) else {
                return Err(AllocError);
            };
            starts.push(end)?;
        }
        Ok(Readers { starts, nets })
    }

    /// The list of a number.
    #[inline]
    pub(crate) fn of(&self, number: usize) -> &[u32]
        requires { number < length self.now }
        ensures { result.now ≡ slice_index_or self.now number [] }
    {
        let begin = self.starts[number] as usize;
        let end = self.starts[number + 1] as usize;
        &self.nets[begin..end]
    }
}

// Adds the ranks of some slots.
fn push_ranks(ranks: &mut Vec<u32>, slots: &[u32], order: &Order) -> Result<(), AllocError>
    ensures { OnOk result (ranks.new.items ≡ ranks.old.items ++ map (rank_in order.now) slots.now) }
{
    for slot in slots {
        ranks.push(order.rank(*slot as usize))?;
    }
    Ok(())
}

/// Adds a net to the list of a place.
pub(crate) fn push_reader(readers: &mut [Numbers], place: usize, net: u32) -> Result<(), AllocError>
    requires { place < length readers.old }
    ensures len { length readers.new ≡ length readers.old }
    ensures lists { OnOk result (map (λ list. list.items) readers.new
        ≡ slice_set (map (λ list. list.items) readers.old) place
        (slice_index_or (map (λ list. list.items) readers.old) place [] ++ net ∷ [])) }
{
    readers[place].push(net)?;
    Ok(())
}

/// Adds a net to the lists of the nets on its pins.
pub(crate) fn push_pins(readers: &mut [Numbers], pins: &[Pin], net: u32) -> Result<(), AllocError>
    requires { All (λ pin. pin.net < length readers.old) pins.now }
    ensures len { length readers.new ≡ length readers.old }
    ensures within { OnOk result ((bound : ℕ) → net < bound
        → AreBelow bound (map (λ list. list.items) readers.old)
        → AreBelow bound (map (λ list. list.items) readers.new)) }
    ensures kept { OnOk result ((place number : ℕ)
        → IsListed (map (λ list. list.items) readers.old) place number
        → IsListed (map (λ list. list.items) readers.new) place number) }
    ensures listed { OnOk result ((place : ℕ)
        → list_any (λ pin. pin.net == place) pins.now ≡ true
        → IsListed (map (λ list. list.items) readers.new) place net) }
{
    for pin in pins {
        push_reader(readers, pin.net as usize, net)?;
    }
    Ok(())
}

/// So many empty lists.
pub(crate) fn empty_lists(alloc: Global, count: usize) -> Result<Vec<Numbers>, AllocError>
    ensures { IfOk result (λ lists. map (λ list. list.items) lists.items ≡ replicate count []) }
{
    let mut lists = Vec::with_capacity(alloc, count)?;
    for _ in 0..count {
        lists.push(Numbers::new(alloc))?;
    }
    Ok(lists)
}

/// For each slot the gates that read it.
pub(crate) fn gate_readers(alloc: Global, cells: &Cells) -> Result<Vec<Numbers>, AllocError>
    requires few { length cells.now < 2 ^ 32 }
    requires pins { (net : ℕ) → net < length cells.now
        → All (λ pin. pin.net < length cells.now) (pins_of (slice_index_or cells.now net Told)) }
    ensures { IfOk result (λ lists. AreLists is_gate cells.now (map (λ list. list.items) lists.items)) }
{
    let mut lists = empty_lists(alloc, cells.len())?;
    for net in 0..cells.len() {
        cells.list_gate(net, &mut lists)?;
    }
    Ok(lists)
}

/// For each slot the flip-flops that read it.
pub(crate) fn flop_readers(alloc: Global, cells: &Cells) -> Result<Vec<Numbers>, AllocError>
    requires few { length cells.now < 2 ^ 32 }
    requires pins { (net : ℕ) → net < length cells.now
        → All (λ pin. pin.net < length cells.now) (pins_of (slice_index_or cells.now net Told)) }
    ensures { IfOk result (λ lists. AreLists is_flop cells.now (map (λ list. list.items) lists.items)) }
{
    let mut lists = empty_lists(alloc, cells.len())?;
    for net in 0..cells.len() {
        cells.list_flop(net, &mut lists)?;
    }
    Ok(lists)
}
