//! The changes of input nets, from the rows of their stimuli.

ghost use Rattle.std.specs.Prelude.{◌≡◌, ◌+◌, ◌<◌, ◌≤◌, length, slice_index_or, take, map, None, Some, IfOk, IfErr};
ghost use Rattle.std.specs.Prelude.{MatchOption, OnOk};
ghost use Rattle.cmb_netlist.specs.Netlist.{number_of};
ghost use Rattle.cmb_wave.specs.Waveform.{changes_between};
ghost use Rattle.cmb_design_model.specs.Checks.{IsFaultOf, checks_at, first_fault, rows_checks};
ghost use Rattle.cmb_design_model.specs.Rows.{stimulus_row_checks, told_row_checks};
ghost use Rattle.cmb_design_model.specs.declared.rows.StimulusRow.{StimulusRow};
ghost use Rattle.cmb_design_model.specs.Timing.{level_by};
ghost use Rattle.cmb_design_model.specs.Inner.Stimuli.{AllEmpty, AllTold, AreStimuli, stimulus_changes};
ghost use Rattle.cmb_design_model.specs.Inner.RowLevels.{changes_in, told_at};

use crate::fault::DesignFault;
use crate::nets::is_input_driver;
use crate::row_levels::{ALL_TICKS, RowLevels, add_level, settle};
use crate::rows::StimulusRow;
use cmb_netlist::{MAX_NETS, MAX_TEXT, Netlist};
use std::alloc::{AllocError, Global};

// The number of the net with a name. The net that is likely to have it is asked first, which spares the search.
fn number_of(netlist: &Netlist, name: &[u8], likely: usize) -> Option<usize>
    ensures value { result ≡ number_of netlist.now name.now }
    ensures below { MatchOption result (Unit {0}) (λ net. (net < length netlist.now.names) × (net < MAX_NETS)) }
{
    if likely < netlist.len() && netlist.name(likely) == name {
        return Some(likely);
    }
    netlist.number(name)
}

/// Takes the level that the row with an index tells, and gives the number of its net. Tables go through the nets in
/// order, mostly: the net after that of a row is likely to be that of the next.
pub(crate) fn take_level(
    alloc: Global,
    netlist: &Netlist,
    rows: &[StimulusRow],
    i: usize,
    likely: &mut usize,
    table: &mut Vec<RowLevels>,
) -> Result<usize, DesignFault>
    requires within { i < length rows.now }
    requires few { length rows.now ≤ MAX_TEXT }
    requires so_far { AreStimuli netlist.now (take i rows.now) table.old.items }
    ensures checks { OnOk result (first_fault (checks_at (told_row_checks netlist.now) rows.now i) ≡ None) }
    ensures net { IfOk result (λ net. (d : StimulusRow)
        → number_of netlist.now (slice_index_or rows.now i d).net ≡ Some net) }
    ensures below { IfOk result (λ net. (net < length netlist.now.names) × (net < MAX_NETS)) }
    ensures table { OnOk result (AreStimuli netlist.now (take (i + 1) rows.now) table.new.items) }
    ensures err { IfErr result (IsFaultOf (checks_at (told_row_checks netlist.now) rows.now i)) }
{
    let row = &rows[i];
    let number = i as u32 + 2;
    let Some(net) = number_of(netlist, row.net.as_bytes(), *likely) else {
        return Err(DesignFault::UnknownNet(number));
    };
    *likely = net + 1;
    let old = add_level(alloc, &mut table[net], row.tick, row.level)?;
    if old.is_some() {
        return Err(DesignFault::RepeatedRow(number));
    }
    Ok(net)
}

fn take_stimulus(
    alloc: Global,
    netlist: &Netlist,
    rows: &[StimulusRow],
    i: usize,
    likely: &mut usize,
    table: &mut Vec<RowLevels>,
) -> Result<(), DesignFault>
    requires within { i < length rows.now }
    requires few { length rows.now ≤ MAX_TEXT }
    requires so_far { AreStimuli netlist.now (take i rows.now) table.old.items }
    ensures ok { OnOk result ((first_fault (checks_at (stimulus_row_checks netlist.now) rows.now i) ≡ None)
        × AreStimuli netlist.now (take (i + 1) rows.now) table.new.items) }
    ensures err { IfErr result (IsFaultOf (checks_at (stimulus_row_checks netlist.now) rows.now i)) }
{
    let net = take_level(alloc, netlist, rows, i, likely, table)?;
    if !is_input_driver(netlist.driver(net)) {
        return Err(DesignFault::NotInput(i as u32 + 2));
    }
    Ok(())
}

/// Tables of the levels of so many nets, of which nothing is told.
pub(crate) fn no_levels(alloc: Global, count: usize) -> Result<Vec<RowLevels>, AllocError>
    ensures { IfOk result (λ v. (length v.items ≡ count) × AllEmpty v.items) }
{
    let mut table = Vec::with_capacity(alloc, count)?;
    for _ in 0..count {
        table.push(RowLevels::Changes(Vec::new(alloc)))?;
    }
    Ok(table)
}

/// Makes lists of what the nets' rows told.
fn settle_all(alloc: Global, table: &mut Vec<RowLevels>) -> Result<(), AllocError>
    requires { AllTold table.old.items }
    ensures { OnOk result (map changes_in table.new.items
        ≡ map (λ levels. changes_between (level_by (told_at levels)) 0 ALL_TICKS) table.old.items) }
{
    for i in 0..table.len() {
        settle(alloc, &mut table[i])?;
    }
    Ok(())
}

/// For each net its changes, as an input with these rows.
pub(crate) fn stimuli_changes(
    alloc: Global,
    netlist: &Netlist,
    rows: &[StimulusRow],
) -> Result<Vec<RowLevels>, DesignFault>
    requires { length rows.now ≤ MAX_TEXT }
    ensures ok { IfOk result (λ v. (first_fault (rows_checks (stimulus_row_checks netlist.now) rows.now) ≡ None)
        × (map changes_in v.items ≡ stimulus_changes netlist.now rows.now ALL_TICKS)) }
    ensures err { IfErr result (IsFaultOf (rows_checks (stimulus_row_checks netlist.now) rows.now)) }
{
    let Ok(mut table) = no_levels(alloc, netlist.len()) else {
        return Err(DesignFault::Memory);
    };
    let mut likely = 0;
    for i in 0..rows.len() {
        take_stimulus(alloc, netlist, rows, i, &mut likely, &mut table)?;
    }
    let Ok(()) = settle_all(alloc, &mut table) else {
        return Err(DesignFault::Memory);
    };
    Ok(table)
}
