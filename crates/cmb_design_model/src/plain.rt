//! The plain program: every net's wave by the levels of all nets at all ticks.

ghost use Rattle.std.specs.Prelude.{◌≡◌, ◌++◌, ◌∷◌, [], if◌then◌else◌, ◌⊎◌, ◌↔◌, ◌*◌, ◌+◌, ◌<◌, ◌≤◌, All, IfOk, IfErr};
ghost use Rattle.std.specs.Prelude.{OnOk};
ghost use Rattle.cmb_wave.specs.Waveform.{same_level};
ghost use Rattle.cmb_netlist.specs.Netlist.{IsNetlist};
ghost use Rattle.cmb_design_model.specs.Exact.{nets_of, IsExactWaveIn};
ghost use Rattle.cmb_design_model.specs.Plain.{cells_of, whole_wave, whole_waves};
ghost use Rattle.cmb_design_model.specs.Inner.PlainTable.{HoldsCells, HoldsTicks};
ghost use Rattle.cmb_design_model.specs.Value.{changes as changes_between};
ghost use Rattle.cmb_design_model.specs.declared.fault.DesignFault.TheVariants as fault;

use crate::design::Design;
use crate::fault::DesignFault;
use crate::plain_cells::level_of_cell;
use crate::plain_table::Table;
use cmb_netlist::MAX_NETS;
use cmb_wave::{Change, Level, Wave};
use std::alloc::{AllocError, Global};

/// The most cells, one for each net and tick, that `plain_waves` makes.
pub const MOST_CELLS: usize = 16_777_216;

// Adds the levels of a tick to those of the ticks before it; `levels` is room for those on a gate's pins.
fn fill_tick(
    design: &Design,
    tick: u32,
    table: &mut Table,
    levels: &mut Vec<Level>,
) -> Result<(), AllocError>
    requires wired { IsNetlist design.now.netlist }
    requires tick { tick < design.now.horizon }
    requires filled { HoldsCells design.now table.old (tick * nets_of design.now) }
    ensures { OnOk result (HoldsCells design.now table.new ((tick + 1) * nets_of design.now)) }
{
    let nets = table.nets;
    for net in 0..nets {
        let level = level_of_cell(design, table, net, tick, levels)?;
        table.levels.push(level)?;
    }
    Ok(())
}

fn filled_table(alloc: Global, design: &Design) -> Result<Table, AllocError>
    requires wired { IsNetlist design.now.netlist }
    requires room { cells_of design.now ≤ MOST_CELLS }
    ensures { IfOk result (λ table. HoldsTicks design.now table design.now.horizon) }
{
    let nets = design.netlist().len();
    let horizon = design.horizon();
    let mut table = Table {
        nets,
        levels: Vec::with_capacity(alloc, nets * horizon as usize)?,
    };
    let mut levels = Vec::new(alloc);
    for tick in 0..horizon {
        fill_tick(design, tick, &mut table, &mut levels)?;
    }
    Ok(table)
}

// Adds the change to a level at a tick, where the level before it is another one.
fn push_change(
    changes: &mut Vec<Change>,
    before: Level,
    tick: u32,
    level: Level,
) -> Result<(), AllocError>
    ensures { OnOk result (changes.new.items
        ≡ changes.old.items ++ (if same_level before level then [] else record { tick = tick; level = level } ∷ [])) }
{
    if before != level {
        changes.push(Change { tick, level })?;
    }
    Ok(())
}

// The changes of a net below the horizon, in place of what `changes` had.
fn collect_changes(
    design: &Design,
    table: &Table,
    net: usize,
    changes: &mut Vec<Change>,
) -> Result<(), AllocError>
    requires filled { HoldsTicks design.now table.now design.now.horizon }
    requires net { net < nets_of design.now }
    ensures { OnOk result (changes.new.items ≡ changes_between design.now net 0 design.now.horizon) }
{
    changes.clear();
    let mut before = Level::X;
    for tick in 0..design.horizon() {
        let level = table.level(net, tick);
        push_change(changes, before, tick, level)?;
        before = level;
    }
    Ok(())
}

// A net's wave; `changes` is room for its changes.
fn wave_of(
    alloc: Global,
    design: &Design,
    table: &Table,
    net: usize,
    changes: &mut Vec<Change>,
) -> Result<Wave, AllocError>
    requires filled { HoldsTicks design.now table.now design.now.horizon }
    requires net { net < nets_of design.now }
    requires few { nets_of design.now ≤ MAX_NETS }
    ensures { IfOk result (λ wave. wave ≡ whole_wave design.now net) }
{
    collect_changes(design, table, net, changes)?;
    let mut wave = Wave::new(alloc, net as u32);
    wave.extend(design.horizon(), changes.as_slice())?;
    Ok(wave)
}

fn waves_of(alloc: Global, design: &Design) -> Result<Vec<Wave>, AllocError>
    requires wired { IsNetlist design.now.netlist }
    requires room { cells_of design.now ≤ MOST_CELLS }
    ensures waves { IfOk result (λ waves. waves.items ≡ whole_waves design.now) }
    ensures exact { IfOk result (λ waves. All (IsExactWaveIn design.now) waves.items) }
{
    let table = filled_table(alloc, design)?;
    let mut waves = Vec::with_capacity(alloc, table.nets)?;
    let mut changes = Vec::new(alloc);
    for net in 0..table.nets {
        waves.push(wave_of(alloc, design, &table, net, &mut changes)?)?;
    }
    Ok(waves)
}

/// Every net's wave up to the horizon, by a table of one cell for each net and tick: the definition of the waveforms as
/// a program. Fault 33, `TableTooLarge`, comes where the cells are more than `MOST_CELLS`, and 70 where memory was
/// refused.
pub fn plain_waves(alloc: Global, design: &Design) -> Result<Vec<Wave>, DesignFault>
    ensures waves { IfOk result (λ waves. waves.items ≡ whole_waves design.now) }
    ensures exact { IfOk result (λ waves. All (IsExactWaveIn design.now) waves.items) }
    ensures fault { IfErr result (λ e. (e ≡ fault.Memory) ⊎ (e ≡ fault.TableTooLarge)) }
    ensures too_large { (result ≡ Err fault.TableTooLarge) ↔ (MOST_CELLS < cells_of design.now) }
{
    if design.netlist().len() * design.horizon() as usize > MOST_CELLS {
        return Err(DesignFault::TableTooLarge);
    }
    waves_of(alloc, design).map_err(|_| DesignFault::Memory)
}
