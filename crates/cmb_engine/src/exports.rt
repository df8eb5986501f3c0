//! The flip-flops whose changes a share sends ahead.

ghost use Rattle.std.specs.Prelude.{◌≡◌, ℕ, ◌↔◌, false, true, List, All, Contains, IfOk, length, slice_index_or};
ghost use Rattle.std.specs.List.{AllZip};
ghost use Rattle.cmb_engine.specs.Inner.Cells.{Cell};
ghost use Rattle.cmb_engine.specs.Inner.Circuits.{IsFlopAt, IsGroup};
ghost use Rattle.cmb_engine.specs.Inner.Exports.{slots_of};

use crate::group::Group;
use std::alloc::{AllocError, Global};

/// Whether a number is marked.
#[inline]
pub(crate) fn is_marked(marks: &[bool], number: usize) -> bool
    ensures { result ≡ slice_index_or marks.now number false }
{
    match marks.get(number) {
        Some(marked) => *marked,
        None => false,
    }
}

// Those flip-flops of a group that are marked.
fn marked_of(alloc: Global, group: &Group, marks: &[bool]) -> Result<Group, AllocError>
    requires pairs { length group.now.sources.items ≡ length group.now.flops.items }
    ensures exact { IfOk result (λ marked. (slot : ℕ) → Contains marked.flops.items slot
        ↔ (Contains group.now.flops.items slot × (slice_index_or marks.now slot false ≡ true))) }
    ensures cells { IfOk result (λ marked. (cells : List Cell) → IsGroup cells group.now
        → AllZip (IsFlopAt cells marked.clock marked.delay) marked.flops.items marked.sources.items) }
{
    let mut marked = Group::new(alloc, group.clock, group.delay);
    for k in 0..group.flops.len() {
        let slot = group.flops[k];
        if is_marked(marks, slot as usize) {
            marked.push(slot, group.sources[k])?;
        }
    }
    Ok(marked)
}

/// Those of the flip-flops in groups that are marked, in groups.
pub(crate) fn exports_of(
    alloc: Global,
    flops: &[Group],
    crossing: &[bool],
) -> Result<Vec<Group>, AllocError>
    requires pairs { All (λ group. length group.sources.items ≡ length group.flops.items) flops.now }
    ensures exact { IfOk result (λ exports. (slot : ℕ) → Contains (slots_of exports.items) slot
        ↔ (Contains (slots_of flops.now) slot × (slice_index_or crossing.now slot false ≡ true))) }
    ensures groups { IfOk result (λ exports. (cells : List Cell)
        → All (IsGroup cells) flops.now → All (IsGroup cells) exports.items) }
{
    let mut exports = Vec::new(alloc);
    for group in flops {
        let marked = marked_of(alloc, group, crossing)?;
        if !marked.flops.is_empty() {
            exports.push(marked)?;
        }
    }
    Ok(exports)
}
