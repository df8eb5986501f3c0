//! The sampling clocks that clock rows give to nets.

ghost use Rattle.std.specs.Prelude.{◌≡◌, ◌+◌, ◌<◌, ◌≤◌, length, take, IfOk, IfErr, OnOk};
ghost use Rattle.cmb_design_model.specs.Checks.{IsFaultOf, checks_at, first_fault, rows_checks};
ghost use Rattle.cmb_design_model.specs.Rows.{clock_row_checks};
ghost use Rattle.cmb_design_model.specs.Inner.Tables.{clock_places};

use crate::fault::DesignFault;
use crate::nets::is_flop_driver;
use crate::rows::{Clock, ClockRow};
use cmb_netlist::{MAX_TEXT, Netlist};
use std::alloc::Global;

fn take_clock(
    netlist: &Netlist,
    rows: &[ClockRow],
    i: usize,
    table: &mut Vec<Option<Clock>>,
) -> Result<(), DesignFault>
    requires within { i < length rows.now }
    requires few { length rows.now ≤ MAX_TEXT }
    requires so_far { table.old.items ≡ clock_places netlist.now (take i rows.now) }
    ensures ok { OnOk result ((first_fault (checks_at (clock_row_checks netlist.now) rows.now i) ≡ None)
        × (table.new.items ≡ clock_places netlist.now (take (i + 1) rows.now))) }
    ensures err { IfErr result (IsFaultOf (checks_at (clock_row_checks netlist.now) rows.now i)) }
{
    let row = &rows[i];
    let number = i as u32 + 2;
    let Some(net) = netlist.number(row.net.as_bytes()) else {
        return Err(DesignFault::UnknownNet(number));
    };
    if table[net].is_some() {
        return Err(DesignFault::RepeatedRow(number));
    }
    if !is_flop_driver(netlist.driver(net)) {
        return Err(DesignFault::NotFlop(number));
    }
    table[net] = Some(Clock {
        first: row.first,
        period: row.period.max(1),
    });
    Ok(())
}

/// For each net the clock of its row, if it has one.
pub(crate) fn take_clocks(
    alloc: Global,
    netlist: &Netlist,
    rows: &[ClockRow],
) -> Result<Vec<Option<Clock>>, DesignFault>
    requires { length rows.now ≤ MAX_TEXT }
    ensures ok { IfOk result (λ v. (first_fault (rows_checks (clock_row_checks netlist.now) rows.now) ≡ None)
        × (v.items ≡ clock_places netlist.now rows.now)) }
    ensures err { IfErr result (IsFaultOf (rows_checks (clock_row_checks netlist.now) rows.now)) }
{
    let Ok(mut table) = vec![in alloc; None; netlist.len()] else {
        return Err(DesignFault::Memory);
    };
    for i in 0..rows.len() {
        take_clock(netlist, rows, i, &mut table)?;
    }
    Ok(table)
}
