//! Visits of nets with news.

ghost use Rattle.std.specs.Prelude.{◌≡◌, ◌≢◌, ℕ, ◌+◌, ◌*◌, ◌<◌, ◌≤◌, ◌||◌, true, List, [], All, length, map};
ghost use Rattle.std.specs.Prelude.{slice_index};
ghost use Rattle.std.specs.Prelude.{slice_index_or, slice_set};
ghost use Rattle.cmb_wave.specs.declared.level.Level.{Level};
ghost use Rattle.cmb_engine.specs.Inner.Arrivals.{IsArrival};
ghost use Rattle.cmb_engine.specs.Inner.Bits.{has};
ghost use Rattle.cmb_words.specs.Bits.{is_set_at};
ghost use Rattle.cmb_engine.specs.Inner.Batches.{Makes, Passes};
ghost use Rattle.cmb_engine.specs.Inner.Cells.{Cell, cell_at, AreBelow, AreMarked, AreSettled, IsLawful, IsReady};
ghost use Rattle.cmb_engine.specs.Inner.Cells.{IsTrueBelow};
ghost use Rattle.cmb_engine.specs.Inner.Orders.{is_marked, Order};
ghost use Rattle.cmb_engine.specs.Inner.Planes.{planes_of};
ghost use Rattle.cmb_engine.specs.Inner.Sweeps.{CanSweep, Sweeps};
ghost use Rattle.cmb_engine.specs.Inner.Windows.{HasWindow};
ghost use Rattle.cmb_engine.specs.Inner.Words.{levels_of, Writes};

use crate::arrivals::{Arrival, any_arrival};
use crate::fanout::Fanout;
use crate::marks::{Marked, Marks};
use crate::nodes::Nodes;
use crate::readers::Readers;
use crate::walk::Walk;
use crate::wiring::Wiring;
use crate::words::Words;
use cmb_words::{Places, Word};

/// Marks some nets.
#[inline]
pub(crate) fn mark_all(marks: &mut Marks, nets: &[u32])
    requires { All (λ net. net < 64 * length marks.old) nets.now }
    ensures len { length marks.new ≡ length marks.old }
    ensures kept { (m : ℕ) → has marks.old m ≡ true → has marks.new m ≡ true }
    ensures marked { (k : ℕ) → k < length nets.now → has marks.new (slice_index nets.now k) ≡ true }
{
    for net in nets {
        marks.insert(*net as usize);
    }
}

/// Writes the word of a slot, puts the slot among the live ones, and marks those that read it.
#[inline]
pub(crate) fn put_word(
    slot: usize,
    word: Word,
    readers: &[u32],
    words: &mut Words,
    live: &mut Marks,
    marks: &mut Marks,
)
    requires slot { slot < length words.old }
    requires within { All (λ reader. reader < 64 * length marks.old) readers.now }
    requires live { length words.old ≤ 64 * length live.old }
    ensures writes { Writes words.old words.new live.old live.new marks.old marks.new }
    ensures words { words.new ≡ slice_set words.old slot (planes_of word) }
    ensures news { AreMarked (has marks.new) readers.now }
{
    words.set(slot, word);
    live.insert(slot);
    mark_all(marks, readers);
}

/// The places of a mask, and one more where it is wanted.
#[inline]
pub(crate) fn with_place(mask: u64, place: u32, is_wanted: bool) -> u64
    requires { place < 64 }
    ensures here { is_set_at result place ≡ (is_wanted || is_set_at mask place) }
    ensures others { (i : ℕ) → i ≢ place → is_set_at result i ≡ is_set_at mask i }
{
    mask | (u64::from(is_wanted) << place)
}

// Makes the words of a batch of slots from a place on, and says at which places there is another word than before.
//
// Most slots of a batch are of one level, so none waits for what another one stores.
fn make_any(
    nodes: &Nodes,
    words: &mut Words,
    last: &mut Arrival,
    batch: Marked,
    to: u32,
    first: u32,
) -> u64
    requires last { IsArrival last.old to first }
    requires within { (rank : ℕ) → rank < length nodes.now.slots
        → slice_index nodes.now.slots rank < length words.old }
    requires lawful { (rank : ℕ) → rank < length nodes.now.slots
        → IsLawful (length words.old) first (cell_at nodes.now.cells rank) }
    requires window { HasWindow to first }
    ensures len { length words.new ≡ length words.old }
    ensures last { IsArrival last.new to first }
    ensures makes { (cells : List Cell) (order : Order) → nodes.now.slots ≡ order.slots
        → nodes.now.cells ≡ map (cell_at cells) order.slots
        → Makes (cell_at cells) order to first batch.base batch.places result
        (levels_of words.old) (levels_of words.new) }
{
    let mut news = 0;
    for place in Places::of(batch.places) {
        let rank = batch.base + place as usize;
        if let Some(slot) = nodes.slot(rank) {
            let made = nodes.word(rank, slot, words, last, to, first);
            news = with_place(news, place, made.differs_from(words.get(slot), first));
            words.set(slot, made);
        }
    }
    news
}

// The same, by the quicker way where no level is x.
fn make_words(
    nodes: &Nodes,
    words: &mut Words,
    last: &mut Arrival,
    batch: Marked,
    to: u32,
    first: u32,
) -> u64
    requires last { IsArrival last.old to first }
    requires within { (rank : ℕ) → rank < length nodes.now.slots
        → slice_index nodes.now.slots rank < length words.old }
    requires lawful { (rank : ℕ) → rank < length nodes.now.slots
        → IsLawful (length words.old) first (cell_at nodes.now.cells rank) }
    requires window { HasWindow to first }
    ensures len { length words.new ≡ length words.old }
    ensures last { IsArrival last.new to first }
    ensures makes { (cells : List Cell) (order : Order) → nodes.now.slots ≡ order.slots
        → nodes.now.cells ≡ map (cell_at cells) order.slots
        → Makes (cell_at cells) order to first batch.base batch.places result
        (levels_of words.old) (levels_of words.new) }
{
    match words.make_known(nodes, last, batch, to, first) {
        Some(news) => news,
        None => make_any(nodes, words, last, batch, to, first),
    }
}

// Marks the flip-flops that read the slot of a rank, where a window is open.
#[inline]
fn mark_flops(marks: &mut Marks, flops: &Readers, rank: usize, opened: bool)
    requires rank { rank < length flops.now }
    requires within { AreBelow (64 * length marks.old) flops.now }
    ensures len { length marks.new ≡ length marks.old }
    ensures kept { (m : ℕ) → has marks.old m ≡ true → has marks.new m ≡ true }
    ensures marked { opened ≡ true → AreMarked (has marks.new) (slice_index_or flops.now rank []) }
{
    if opened {
        mark_all(marks, flops.of(rank));
    }
}

// Puts the slots of a batch among the live ones, and marks those that read them.
fn pass_on(fanout: &Fanout, news: Marked, opened: bool, live: &mut Marks, marks: &mut Marks)
    requires within { (rank : ℕ) → rank < length fanout.now.order.slots
        → slice_index fanout.now.order.slots rank < 64 * length live.old }
    requires slots { fanout.now.nodes.slots ≡ fanout.now.order.slots }
    requires gates { AreBelow (64 * length marks.old) fanout.now.gates }
    requires flops { AreBelow (64 * length marks.old) fanout.now.flops }
    requires gate_lists { length fanout.now.gates ≡ length fanout.now.order.slots }
    requires flop_lists { length fanout.now.flops ≡ length fanout.now.order.slots }
    ensures { Passes fanout.now.order news.base news.places fanout.now.gates fanout.now.flops opened
        marks.old marks.new live.old live.new }
{
    for place in Places::of(news.places) {
        let rank = news.base + place as usize;
        if let Some(changed) = fanout.nodes.slot(rank) {
            live.insert(changed);
            mark_all(marks, fanout.gates.of(rank));
            mark_flops(marks, &fanout.flops, rank, opened);
        }
    }
}

/// Visits the marked slots by rising rank, each once: those of one level in a word of marks are made, and then what
/// reads them is marked.
pub(crate) fn sweep(
    wiring: &Wiring,
    opened: bool,
    words: &mut Words,
    marks: &mut Marks,
    live: &mut Marks,
    to: u32,
    first: u32,
)
    requires { CanSweep wiring.now.cells wiring.now.fanout.order wiring.now.fanout.nodes wiring.now.fanout.gates
        wiring.now.fanout.flops opened (length words.old) marks.old live.old to first }
    ensures len { length words.new ≡ length words.old }
    ensures sweeps { Sweeps (cell_at wiring.now.cells) wiring.now.fanout.order to first (levels_of words.old)
        (levels_of words.new)
        marks.old marks.new live.old live.new }

    // What the sweep passes becomes true one place further.
    ensures truer { (truth : ℕ → ℕ → Level) (upto : ℕ) → first ≤ upto → upto < 64
        → IsReady (levels_of words.old) truth (cell_at wiring.now.cells) to first
        → AreSettled (levels_of words.old) (is_marked wiring.now.fanout.order marks.old)
        (cell_at wiring.now.cells) to first
        → IsTrueBelow (levels_of words.old) truth (cell_at wiring.now.cells) upto
        → IsTrueBelow (levels_of words.new) truth (cell_at wiring.now.cells) (upto + 1) }
{
    let fanout = &wiring.fanout;
    let mut last = any_arrival(to, first);
    let mut walk = Walk::at(0);
    'batches: while let Some(batch) = marks.take(&mut walk, fanout.order.levels()) {
        let places = make_words(&fanout.nodes, words, &mut last, batch, to, first);
        let base = batch.base;
        let news = Marked { base, places };
        pass_on(fanout, news, opened, live, marks);
    }
}

/// Sweeps over the marked nets until none is left, or each place from one on was passed. What was true of the made
/// words below the place is true in all of them.
#[inline(never)]
pub(crate) fn settle(
    wiring: &Wiring,
    opened: bool,
    words: &mut Words,
    marks: &mut Marks,
    live: &mut Marks,
    to: u32,
    first: u32,
)
    requires { CanSweep wiring.now.cells wiring.now.fanout.order wiring.now.fanout.nodes wiring.now.fanout.gates
        wiring.now.fanout.flops opened (length words.old) marks.old live.old to first }
    ensures len { length words.new ≡ length words.old }
    ensures sweeps { Sweeps (cell_at wiring.now.cells) wiring.now.fanout.order to first (levels_of words.old)
        (levels_of words.new)
        marks.old marks.new live.old live.new }
    ensures exact { (truth : ℕ → ℕ → Level)
        → IsReady (levels_of words.old) truth (cell_at wiring.now.cells) to first
        → AreSettled (levels_of words.old) (is_marked wiring.now.fanout.order marks.old)
        (cell_at wiring.now.cells) to first
        → IsTrueBelow (levels_of words.old) truth (cell_at wiring.now.cells) first
        → IsTrueBelow (levels_of words.new) truth (cell_at wiring.now.cells) 64 }
{
    for _ in first..64 {
        match marks.next(&mut Walk::at(0)) {
            None => return,
            Some(_) => sweep(wiring, opened, words, marks, live, to, first),
        }
    }
}
