//! The levels that rows of first levels give to nets.

ghost use Rattle.std.specs.Prelude.{◌≡◌, ◌+◌, ◌<◌, ◌≤◌, length, take, IfOk, IfErr, OnOk};
ghost use Rattle.cmb_design_model.specs.Checks.{IsFaultOf, checks_at, first_fault, rows_checks};
ghost use Rattle.cmb_design_model.specs.Rows.{initial_row_checks};
ghost use Rattle.cmb_design_model.specs.Inner.Tables.{initial_places};

use crate::fault::DesignFault;
use crate::nets::is_flop_driver;
use crate::rows::InitialRow;
use cmb_netlist::{MAX_TEXT, Netlist};
use cmb_wave::Level;
use std::alloc::Global;

fn take_level(
    netlist: &Netlist,
    rows: &[InitialRow],
    i: usize,
    table: &mut Vec<Option<Level>>,
) -> Result<(), DesignFault>
    requires within { i < length rows.now }
    requires few { length rows.now ≤ MAX_TEXT }
    requires so_far { table.old.items ≡ initial_places netlist.now (take i rows.now) }
    ensures ok { OnOk result ((first_fault (checks_at (initial_row_checks netlist.now) rows.now i) ≡ None)
        × (table.new.items ≡ initial_places netlist.now (take (i + 1) rows.now))) }
    ensures err { IfErr result (IsFaultOf (checks_at (initial_row_checks netlist.now) rows.now i)) }
{
    let row = &rows[i];
    let number = i as u32 + 2;
    let Some(net) = netlist.number(row.net.as_bytes()) else {
        return Err(DesignFault::UnknownNet(number));
    };
    if table[net].is_some() {
        return Err(DesignFault::RepeatedRow(number));
    }
    if !is_flop_driver(netlist.driver(net)) {
        return Err(DesignFault::NotFlop(number));
    }
    table[net] = Some(row.level);
    Ok(())
}

/// For each net the level of its row, if it has one.
pub(crate) fn take_levels(
    alloc: Global,
    netlist: &Netlist,
    rows: &[InitialRow],
) -> Result<Vec<Option<Level>>, DesignFault>
    requires { length rows.now ≤ MAX_TEXT }
    ensures ok { IfOk result (λ v. (first_fault (rows_checks (initial_row_checks netlist.now) rows.now) ≡ None)
        × (v.items ≡ initial_places netlist.now rows.now)) }
    ensures err { IfErr result (IsFaultOf (rows_checks (initial_row_checks netlist.now) rows.now)) }
{
    let Ok(mut table) = vec![in alloc; None; netlist.len()] else {
        return Err(DesignFault::Memory);
    };
    for i in 0..rows.len() {
        take_level(netlist, rows, i, &mut table)?;
    }
    Ok(table)
}
