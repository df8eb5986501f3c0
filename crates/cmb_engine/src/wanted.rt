//! The nets that an engine tells where they change.

ghost use Rattle.std.specs.Prelude.{◌≡◌, ℕ, ◌+◌, ◌*◌, ◌%◌, ◌<◌, ◌≤◌, false, true, length, slice_index_or, All, IfOk};
ghost use Rattle.cmb_words.specs.Bits.{is_set_at};
ghost use Rattle.cmb_engine.specs.Inner.Bits.{has};

use crate::bits::Bits;
use crate::cell::Pin;
use crate::marks::Marked;
use std::alloc::{AllocError, Global};

// The set of the marked nets.
fn marked_of(alloc: Global, marked: &[bool]) -> Result<Bits, AllocError>
    ensures room { IfOk result (λ set. length marked.now ≤ 64 * length set) }
    ensures all { IfOk result (λ set. (net : ℕ) → slice_index_or marked.now net false ≡ true → has set net ≡ true) }
{
    let mut set = Bits::new(alloc, marked.len())?;
    for (net, is_marked) in marked.iter().enumerate() {
        if *is_marked {
            set.insert(net);
        }
    }
    Ok(set)
}

// Puts the nets that lines follow into a set.
fn add_followed(set: &mut Bits, lines: &[Pin])
    requires { All (λ line. line.net < 64 * length set.old) lines.now }
    ensures kept { (net : ℕ) → has set.old net ≡ true → has set.new net ≡ true }
    ensures followed { All (λ line. has set.new line.net ≡ true) lines.now }
{
    for line in lines {
        set.insert(line.net as usize);
    }
}

/// The set of the marked nets and of those that lines follow.
pub(crate) fn wanted_of(alloc: Global, marked: &[bool], lines: &[Pin]) -> Result<Bits, AllocError>
    requires { All (λ line. line.net < length marked.now) lines.now }
    ensures all { IfOk result (λ set. (net : ℕ) → slice_index_or marked.now net false ≡ true → has set net ≡ true) }
    ensures followed { IfOk result (λ set. All (λ line. has set line.net ≡ true) lines.now) }
{
    let mut set = marked_of(alloc, marked)?;
    add_followed(&mut set, lines);
    Ok(set)
}

/// Of some nets those that are wanted.
#[inline]
pub(crate) fn wanted_among(batch: Marked, wanted: &Bits) -> Marked
    requires { batch.base % 64 ≡ 0 }
    ensures base { result.base ≡ batch.base }
    ensures others { (place : ℕ) → place < 64 → is_set_at result.places place ≡ false
        → has wanted.now (batch.base + place) ≡ true → is_set_at batch.places place ≡ false }
{
    Marked {
        base: batch.base,
        places: batch.places & wanted.word(batch.base / 64),
    }
}
