//! Who reads each given wave.

ghost use Rattle.std.specs.Prelude.{◌≡◌, ◌<◌, ◌≤◌, ◌++◌, ◌∷◌, ℕ, [], IfOk, OnOk, length, map, slice_index_or};
ghost use Rattle.std.specs.Prelude.{slice_set, replicate, All, if◌then◌else◌};
ghost use Rattle.std.specs.List.{range_with_len};
ghost use Rattle.cmb_core_cluster.specs.Directory.{pins_on, listed_readers, given_at};

use crate::directory::Reader;
use crate::node::Node;
use crate::process::ProcessPin;
use cmb_netlist::MAX_NETS;
use std::alloc::{AllocError, Global};

// Adds a pin to the list of a place.
fn push_reader(readers: &mut [Vec<Reader>], place: usize, reader: Reader) -> Result<(), AllocError>
    requires { place < length readers.old }
    ensures { OnOk result (map (λ list. list.items) readers.new
        ≡ slice_set (map (λ list. list.items) readers.old) place
        (slice_index_or (map (λ list. list.items) readers.old) place [] ++ reader ∷ [])) }
{
    readers[place].push(reader)?;
    Ok(())
}

// Adds a process's pins to the lists of the given waves that they read.
fn push_readers(
    nodes: &[Node],
    slot: u32,
    operands: &[ProcessPin],
    readers: &mut [Vec<Reader>],
) -> Result<(), AllocError>
    requires within { All (λ operand. operand.slot < length nodes.now) operands.now }
    requires paired { length readers.old ≡ length nodes.now }
    ensures { OnOk result ((place : ℕ) → place < length nodes.now →
        slice_index_or (map (λ list. list.items) readers.new) place []
        ≡ slice_index_or (map (λ list. list.items) readers.old) place []
        ++ (if given_at nodes.now place then pins_on place slot operands.now else [])) }
{
    for operand in operands {
        let place = operand.slot as usize;
        if nodes[place].is_given() {
            let reader = Reader {
                slot,
                delay: operand.delay,
            };
            push_reader(readers, place, reader)?;
        }
    }
    Ok(())
}

// So many empty lists.
fn empty_lists(alloc: Global, count: usize) -> Result<Vec<Vec<Reader>>, AllocError>
    ensures { IfOk result (λ lists. map (λ list. list.items) lists.items ≡ replicate count []) }
{
    let mut lists = Vec::with_capacity(alloc, count)?;
    for _ in 0..count {
        lists.push(Vec::new(alloc))?;
    }
    Ok(lists)
}

/// For each place the pins that read its wave, none where that wave is driven here.
pub(crate) fn readers_among(alloc: Global, nodes: &[Node]) -> Result<Vec<Vec<Reader>>, AllocError>
    requires within { All (λ node. All (λ operand. operand.slot < length nodes.now) node.operands) nodes.now }
    requires few { length nodes.now ≤ MAX_NETS }
    ensures { IfOk result (λ readers. map (λ list. list.items) readers.items
        ≡ map (listed_readers nodes.now nodes.now) (range_with_len 0 (length nodes.now))) }
{
    let mut readers = empty_lists(alloc, nodes.len())?;
    for slot in 0..nodes.len() {
        push_readers(nodes, slot as u32, nodes[slot].operands(), &mut readers)?;
    }
    Ok(readers)
}
