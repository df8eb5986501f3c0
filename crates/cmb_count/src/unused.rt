//! Nets that drive nothing.

ghost use Rattle.std.specs.Prelude.{◌≡◌, ◌||◌, ℕ, ◌<◌, ◌≤◌, false, not, length, slice_index_or, All, IfOk};
ghost use Rattle.cmb_netlist.specs.Netlist.{IsNetlist};
ghost use Rattle.cmb_count.specs.Below.{count_below};
ghost use Rattle.cmb_count.specs.Inner.Marks.{AreUsed};
ghost use Rattle.cmb_count.specs.Unused.{is_among, is_used_below, unused_count};

use cmb_netlist::Netlist;
use std::alloc::{AllocError, Global};

// Marks each of these nets.
fn mark_all(marks: &mut [bool], nets: &[u32])
    requires { All (λ net. net < length marks.old) nets.now }
    ensures long { length marks.new ≡ length marks.old }
    ensures marked { (net : ℕ) → net < length marks.old
        → slice_index_or marks.new net false ≡ (slice_index_or marks.old net false || is_among nets.now net) }
{
    for net in nets {
        marks[*net as usize] = true;
    }
}

// Marks the nets that a pin reads and those that are outputs.
fn mark_used(marks: &mut [bool], netlist: &Netlist)
    requires sound { IsNetlist netlist.now }
    requires long { length marks.old ≡ length netlist.now.names }
    requires none { (net : ℕ) → slice_index_or marks.old net false ≡ false }
    ensures long { length marks.new ≡ length netlist.now.names }
    ensures marked { (net : ℕ) → net < length netlist.now.names
        → slice_index_or marks.new net false ≡ is_used_below netlist.now (length netlist.now.names) net }
{
    mark_all(marks, netlist.outputs());
    for net in 0..netlist.len() {
        mark_all(marks, netlist.driver(net).pins());
    }
}

// How many marks aren't set.
#[tactic(auto, using(crate::proofs::BelowFacts::count_below_next, crate::proofs::BelowFacts::count_below_none))]
fn count_unset(marks: &[bool]) -> usize
    ensures { result ≡ count_below (λ net. not (slice_index_or marks.now net false)) (length marks.now) }
{
    let mut count = 0;
    for net in 0..marks.len() {
        count += usize::from(!marks[net]);
    }
    count
}

/// For each net whether it drives something: a pin reads it, or it is an output.
pub(crate) fn used_marks(alloc: Global, netlist: &Netlist) -> Result<Vec<bool>, AllocError>
    ensures { IfOk result (λ marks. AreUsed netlist.now marks.items) }
{
    let mut all = vec![in alloc; false; netlist.len()]?;
    let marks = all.as_mut_slice();
    mark_used(marks, netlist);
    Ok(all)
}

/// How many nets drive nothing: no pin reads them, and they are no outputs.
pub fn count_unused(alloc: Global, netlist: &Netlist) -> Result<usize, AllocError>
    ensures { IfOk result (λ count. count ≡ unused_count netlist.now) }
{
    let mut all = vec![in alloc; false; netlist.len()]?;
    let marks = all.as_mut_slice();
    mark_used(marks, netlist);
    Ok(count_unset(marks))
}
