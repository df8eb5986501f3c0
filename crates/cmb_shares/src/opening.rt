//! How a run begins.

ghost use Rattle.std.specs.Prelude.{◌≡◌, ℕ, [], ◌+◌, ◌<◌, ◌≤◌, true, false, length, map, slice_index, slice_index_or};
ghost use Rattle.std.specs.Prelude.{All, Contains, IfOk, IfSome, Ok};
ghost use Rattle.cmb_design_model.specs.Exact.{nets_of};
ghost use Rattle.cmb_dump.specs.Shown.{CanShow, IsShown, shown_by, subject_of};
ghost use Rattle.cmb_engine.specs.Shares.{ShareEngine};
ghost use Rattle.cmb_graph_partition.specs.Partitions.{IsPartition};
ghost use Rattle.cmb_shares.specs.Inner.Opened.{IsEngineOf};

use cmb_design_model::Design;
use cmb_dump::Shown;
use cmb_engine::engine::LONGEST_WINDOW;
use cmb_engine::{ShareEngine, Windows};
use cmb_graph_partition::Partition;
use std::alloc::{AllocError, Global};
use std::marker::Model;
use std::thread;
use std::thread::Threads;

/// The shares of a design, each with its engine, where all their windows end, and the nets that the text shows.
#[derive(Drop)]
pub struct Shares<'a> {
    pub(crate) design: &'a Design,
    pub(crate) shown: Shown<'a>,
    pub(crate) partition: &'a Partition,
    pub(crate) engines: Vec<ShareEngine<'a>>,
    pub(crate) windows: Windows,
}

impl<'a> Model for Shares<'a> {
    ghost use Rattle.cmb_design_model.specs.Exact.{nets_of};
    ghost use Rattle.cmb_dump.specs.Shown.{CanShow, Subject, shown_by, subject_of};
    ghost use Rattle.cmb_shares.specs.Inner.Opened.{AreOpened, run_of};

    ghost Value = { Subject };

    ghost view = { λ s. subject_of s.design.now s.shown };

    ghost invariant = { λ s. AreOpened (run_of (subject_of s.design.now s.shown) s.partition.now s.windows)
        s.engines.items × CanShow (nets_of s.design.now) (shown_by s.shown) };
}

// All of them, unless memory was refused for one.
fn all_of<T: Drop>(alloc: Global, made: Vec<Result<T, AllocError>>) -> Result<Vec<T>, AllocError>
    ensures { IfOk result (λ all. made.items ≡ map Ok all.items) }
{
    let mut all = Vec::new(alloc);
    for one in made {
        all.push(one?)?;
    }
    Ok(all)
}

// Which of so many nets are shown, of a list.
fn marks_of(alloc: Global, count: usize, nets: &[u32]) -> Result<Vec<bool>, AllocError>
    requires { All (λ net. net < count) nets.now }
    ensures count { IfOk result (λ marks. length marks.items ≡ count) }
    ensures marked { IfOk result (λ marks. (net : ℕ) → Contains nets.now net
        → slice_index_or marks.items net false ≡ true) }
{
    let mut marks = vec![in alloc; false; count]?;
    for net in nets {
        marks[*net as usize] = true;
    }
    Ok(marks)
}

// Which of so many nets are shown.
fn shown_marks(alloc: Global, count: usize, shown: Shown<'_>) -> Result<Vec<bool>, AllocError>
    requires { CanShow count (shown_by shown) }
    ensures count { IfOk result (λ marks. length marks.items ≡ count) }
    ensures marked { IfOk result (λ marks. (net : ℕ) → net < count → IsShown (shown_by shown.entry) net
        → slice_index_or marks.items net false ≡ true) }
{
    match shown {
        None => vec![in alloc; true; count],
        Some(nets) => marks_of(alloc, count, nets),
    }
}

// Which nets the share of a number tells: of those that it owns the ones that are marked.
fn told_by(
    alloc: Global,
    owners: &[u32],
    number: usize,
    marks: &[bool],
) -> Result<Vec<bool>, AllocError>
    requires { length marks.now ≡ length owners.now }
    ensures count { IfOk result (λ told. length told.items ≡ length owners.now) }
    ensures told { IfOk result (λ told. (net : ℕ) → net < length owners.now → slice_index owners.now net ≡ number
        → slice_index_or marks.now net false ≡ true → slice_index_or told.items net false ≡ true) }
{
    let mut told = Vec::with_capacity(alloc, owners.len())?;
    for net in 0..owners.len() {
        told.push(owners[net] as usize == number && marks[net])?;
    }
    Ok(told)
}

// The engine of the share of a number, which tells what is shown of the nets that the share owns.
fn open_engine<'a>(
    alloc: Global,
    design: &'a Design,
    shown: Shown<'_>,
    partition: &Partition,
    number: usize,
) -> Result<ShareEngine<'a>, AllocError>
    requires partition { IsPartition design.now.netlist partition.now }
    requires shown { CanShow (nets_of design.now) (shown_by shown) }
    requires number { number < length partition.now.shares.items }
    ensures { IfOk result (IsEngineOf (subject_of design.entry.now shown.entry) partition.now.crossing.items
        partition.now.owners.items number
        (slice_index_or (map (λ s. s.driven.items) partition.now.shares.items) number [])) }
{
    let driven = &partition.shares[number].driven;
    let marks = shown_marks(alloc, partition.owners.len(), shown)?;
    let told = told_by(alloc, &partition.owners, number, &marks)?;
    let engine = ShareEngine::open(alloc, design, driven, &told)?;
    let engine = engine.exporting(alloc, &partition.crossing)?;
    // Its contract tells how wide windows are.
    let _width = engine.width();
    Ok(engine)
}

// The engine of each share, each opened in a thread of its own.
fn engines_of<'a, R: Threads + Sync>(
    rt: &R,
    alloc: Global,
    design: &'a Design,
    shown: Shown<'a>,
    partition: &'a Partition,
) -> Result<Vec<ShareEngine<'a>>, AllocError>
    requires partition { IsPartition design.now.netlist partition.now }
    requires shown { CanShow (nets_of design.now) (shown_by shown) }
    ensures count { IfOk result (λ engines. length engines.items ≡ length partition.now.shares.items) }
    ensures each { IfOk result (λ engines. (k : ℕ) (d : ShareEngine) → k < length engines.items
        → IsEngineOf (subject_of design.entry.now shown.entry) partition.now.crossing.items partition.now.owners.items k
        (slice_index_or (map (λ s. s.driven.items) partition.now.shares.items) k [])
        (slice_index_or engines.items k d)) }
{
    let made = thread::map_indices(
        rt,
        alloc,
        partition.shares.len(),
        &|place: usize| -> Result<ShareEngine<'_>, AllocError>
            requires place { place < length partition.now.shares.items }
            requires partition { IsPartition design.now.netlist partition.now }
            requires shown { CanShow (nets_of design.now) (shown_by shown) }
            ensures { IfOk result (IsEngineOf (subject_of design.entry.now shown.entry)
                partition.entry.now.crossing.items
                partition.entry.now.owners.items place
                (slice_index_or (map (λ s. s.driven.items) partition.entry.now.shares.items) place [])) }
        { open_engine(alloc, design, shown, partition, place) },
    )?;
    all_of(alloc, made)
}

// The least of the engines' widths.
fn least_width(engines: &[ShareEngine<'_>]) -> u32
    requires { All (λ one. (2 ≤ one.width) × (one.width < 63)) engines.now }
    ensures wide { 2 ≤ result }
    ensures narrow { result < 63 }
    ensures least { All (λ one. result ≤ one.width) engines.now }
{
    let mut width = LONGEST_WINDOW - 1;
    for one in engines {
        width = width.min(one.width());
    }
    width
}

impl<'a> Shares<'a> {
    /// The shares of a design by a partition of its nets, each engine opened in a thread of its own, for the text of
    /// the nets that are shown. There are none
    /// where the crossing flip-flops' clocks and delays leave no windows that all shares can have alike. Errors: memory
    /// was refused.
    pub fn open<R: Threads + Sync>(
        rt: &R,
        alloc: Global,
        design: &'a Design,
        shown: Shown<'a>,
        partition: &'a Partition,
    ) -> Result<Option<Shares<'a>>, AllocError>
        requires partition { IsPartition design.now.netlist partition.now }
        requires shown { CanShow (nets_of design.now) (shown_by shown) }
        ensures { IfOk result (λ made. IfSome made (λ shares. shares ≡ subject_of design.entry.now shown.entry)) }
    {
        let engines = engines_of(rt, alloc, design, shown, partition)?;
        let width = least_width(&engines);
        let Ok(made) = Windows::between(alloc, design, &partition.crossing, width) else {
            drop(engines);
            return Err(AllocError);
        };
        let Some(windows) = made else {
            drop(engines);
            return Ok(None);
        };
        Ok(Some(Shares {
            design,
            shown,
            partition,
            engines,
            windows,
        }))
    }
}
