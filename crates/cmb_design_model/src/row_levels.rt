//! The levels that the rows of one net tell, by their ticks, and the changes that they make.

ghost use Rattle.std.specs.Prelude.{◌≡◌, ◌<◌, ◌==◌, ℕ, length, slice_index_or, [], ◌∷◌, ◌++◌, true, Some, IfOk, IfErr};
ghost use Rattle.std.specs.Prelude.{OnOk, if◌then◌else◌};
ghost use Rattle.std.specs.Ordering.{nat_cmp};
ghost use Rattle.std.specs.BTreeMap.{get};
ghost use Rattle.cmb_wave.specs.Waveform.{changes_between, same_level};
ghost use Rattle.cmb_design_model.specs.declared.fault.DesignFault.TheVariants as fault;
ghost use Rattle.cmb_design_model.specs.Timing.{level_by};
ghost use Rattle.cmb_design_model.specs.Inner.RowLevels.{AreChanges, Below, IsTold};
ghost use Rattle.cmb_design_model.specs.Inner.RowLevels.{changes_in, level_after, row_in, rows_of, told_at};
ghost use Rattle.cmb_wave.specs.declared.level.Level.TheVariants.{X};

use crate::fault::DesignFault;
use cmb_wave::{Change, Level};
use std::alloc::{AllocError, Global};
use std::collections::BTreeMap;

/// The ticks that a `u32` counts.
pub(crate) const ALL_TICKS: u64 = 4_294_967_296;

/// What the rows of a net tell: a list while each row makes a change behind those of the rows before it, as in most
/// tables; and else a map from ticks to levels, until all rows are told.
#[derive(Drop)]
pub(crate) enum RowLevels {
    Changes(Vec<Change>),
    Rows(BTreeMap<u64, Level>),
}

impl RowLevels {
    /// The changes, once all rows are told.
    pub(crate) fn changes(&self) -> &[Change]
        ensures { result.now ≡ changes_in self.now }
    {
        match self {
            RowLevels::Changes(list) => list.as_slice(),
            RowLevels::Rows(_) => &[],
        }
    }
}

fn is_same(a: Level, b: Level) -> bool
    ensures { result ≡ same_level a b }
{
    a == b
}

/// Whether a tick lies behind those of all changes.
fn is_behind(changes: &[Change], tick: u64) -> bool
    requires { AreChanges (rows_of changes.now) }
    ensures { result ≡ true → Below tick (rows_of changes.now) }
{
    match changes.last() {
        Some(last) => u64::from(last.tick) < tick,
        None => true,
    }
}

/// The level behind all changes.
fn last_level(changes: &[Change]) -> Level
    ensures { result ≡ level_after X (rows_of changes.now) }
{
    match changes.last() {
        Some(last) => last.level,
        None => Level::X,
    }
}

/// Whether a row makes a change behind these.
fn goes_on(changes: &[Change], tick: u64, level: Level) -> bool
    requires { AreChanges (rows_of changes.now) }
    ensures small { result ≡ true → tick < ALL_TICKS }
    ensures behind { result ≡ true → Below tick (rows_of changes.now) }
    ensures changes { result ≡ true → AreChanges (rows_of changes.now ++ (tick, level) ∷ []) }
{
    if tick >= ALL_TICKS {
        return false;
    }
    if !is_behind(changes, tick) {
        return false;
    }
    if is_same(level, last_level(changes)) {
        return false;
    }
    true
}

/// Sets the level at a tick, and gives the one that was set there before, if any.
fn insert_level(
    map: &mut BTreeMap<u64, Level>,
    tick: u64,
    level: Level,
) -> Result<Option<Level>, DesignFault>
    ensures old { IfOk result (λ old. old ≡ get nat_cmp map.old tick) }
    ensures new { OnOk result ((t : ℕ) → get nat_cmp map.new t
        ≡ (if t == tick then Some level else get nat_cmp map.old t)) }
    ensures err { IfErr result (λ e. e ≡ fault.Memory) }
{
    match map.insert(tick, level) {
        Ok(old) => Ok(old),
        Err(_) => Err(DesignFault::Memory),
    }
}

fn change_at(changes: &[Change], i: usize) -> Change
    requires { i < length changes.now }
    ensures { result ≡ slice_index_or changes.now i result }
{
    changes[i]
}

/// The map of rows that say just these changes.
fn map_of(alloc: Global, changes: &[Change]) -> Result<BTreeMap<u64, Level>, DesignFault>
    requires { AreChanges (rows_of changes.now) }
    ensures map { IfOk result (λ map. (t : ℕ) → get nat_cmp map t ≡ row_in (rows_of changes.now) t) }
    ensures err { IfErr result (λ e. e ≡ fault.Memory) }
{
    let mut map = BTreeMap::new(alloc);
    for i in 0..changes.len() {
        let change = change_at(changes, i);
        insert_level(&mut map, u64::from(change.tick), change.level)?;
    }
    Ok(map)
}

/// Adds a change behind all others.
fn push_change(changes: &mut Vec<Change>, change: Change) -> Result<(), DesignFault>
    ensures changes { OnOk result (changes.new.items ≡ changes.old.items ++ change ∷ []) }
    ensures err { IfErr result (λ e. e ≡ fault.Memory) }
{
    if changes.push(change).is_err() {
        return Err(DesignFault::Memory);
    }
    Ok(())
}

/// Adds a row that makes a change behind all others.
fn push_row(changes: &mut Vec<Change>, tick: u64, level: Level) -> Result<(), DesignFault>
    requires { tick < ALL_TICKS }
    ensures rows { OnOk result (rows_of changes.new.items ≡ rows_of changes.old.items ++ (tick, level) ∷ []) }
    ensures err { IfErr result (λ e. e ≡ fault.Memory) }
{
    push_change(
        changes,
        Change {
            tick: tick as u32,
            level,
        },
    )
}

/// Sets the level at a tick, and gives the one that was set there before, if any.
pub(crate) fn add_level(
    alloc: Global,
    told: &mut RowLevels,
    tick: u64,
    level: Level,
) -> Result<Option<Level>, DesignFault>
    requires { IsTold told.old }
    ensures old { IfOk result (λ old. old ≡ told_at told.old tick) }
    ensures new { OnOk result ((t : ℕ) → told_at told.new t ≡ (if t == tick then Some level else told_at told.old t)) }
    ensures told { OnOk result (IsTold told.new) }
    ensures err { IfErr result (λ e. e ≡ fault.Memory) }
{
    match told {
        RowLevels::Changes(list) => {
            if goes_on(list, tick, level) {
                push_row(list, tick, level)?;
                return Ok(None);
            }
            let mut map = map_of(alloc, list)?;
            let old = insert_level(&mut map, tick, level)?;
            *told = RowLevels::Rows(map);
            Ok(old)
        }
        RowLevels::Rows(map) => insert_level(map, tick, level),
    }
}

/// The changes that the rows of a map make.
fn changes_of_map(alloc: Global, rows: &BTreeMap<u64, Level>) -> Result<Vec<Change>, AllocError>
    ensures { IfOk result (λ v. v.items ≡ changes_between (level_by (get nat_cmp rows.now)) 0 ALL_TICKS) }
{
    let mut list = Vec::new(alloc);
    let mut before = Level::X;
    for (tick, level) in rows {
        if *tick < ALL_TICKS && !is_same(*level, before) {
            list.push(Change {
                tick: *tick as u32,
                level: *level,
            })?;
            before = *level;
        }
    }
    Ok(list)
}

/// Makes a list of what a net's rows told, where it is a map.
pub(crate) fn settle(alloc: Global, told: &mut RowLevels) -> Result<(), AllocError>
    requires { IsTold told.old }
    ensures { OnOk result (changes_in told.new ≡ changes_between (level_by (told_at told.old)) 0 ALL_TICKS) }
{
    match told {
        RowLevels::Changes(_) => Ok(()),
        RowLevels::Rows(rows) => {
            let list = changes_of_map(alloc, rows)?;
            *told = RowLevels::Changes(list);
            Ok(())
        }
    }
}
