//! The delays that delay rows give to kinds, nets and pins.

ghost use Rattle.std.specs.Prelude.{◌≡◌, ◌+◌, ◌++◌, ◌<◌, ◌≤◌, ◌^◌, length, take, true, false, IfOk, IfErr, OnOk};
ghost use Rattle.cmb_design_model.specs.Checks.{IsFaultOf, checks_at, first_fault, rows_checks};
ghost use Rattle.cmb_design_model.specs.declared.fault.DesignFault.TheVariants as fault;
ghost use Rattle.cmb_design_model.specs.Nets.{driver_cell, pins_at};
ghost use Rattle.cmb_design_model.specs.Timing.{delay_by, delay_in, flat_delays, is_of_kind, net_delays};
ghost use Rattle.cmb_netlist.specs.Netlist.{driver_of, IsNetlist};
ghost use Rattle.cmb_design_model.specs.Rows.{delay_row_checks, delayed_checks, is_about_input};
ghost use Rattle.cmb_design_model.specs.Inner.Tables.{all_placed, delay_place, delay_places, pin_place, place_at};
ghost use Rattle.cmb_design_model.specs.Inner.Tables.{row_place};
ghost use Rattle.cmb_design_model.specs.Inner.Tables.{starts_of, table_size};

use crate::fault::DesignFault;
use crate::nets::{is_input_driver, number_of_cell, number_of_driver, pin_count};
use crate::rows::{DelayRow, Delayed};
use cmb_netlist::{MAX_TEXT, Netlist};
use std::alloc::{AllocError, Global};

fn place_of_pin(netlist: &Netlist, starts: &[usize], net: usize, pin: u64) -> Option<usize>
    requires within { net < length netlist.now.names }
    requires starts { starts.now ≡ starts_of netlist.now }
    requires room { table_size netlist.now < 2 ^ 64 }
    ensures { result ≡ pin_place netlist.now net pin }
{
    if pin < 1 || pin > pin_count(netlist, net) as u64 {
        return None;
    }
    Some(9 + netlist.len() + starts[net] + (pin as usize - 1))
}

/// The place in the table of what a row is about.
fn place_of(netlist: &Netlist, starts: &[usize], what: &Delayed) -> Option<usize>
    requires starts { starts.now ≡ starts_of netlist.now }
    requires room { table_size netlist.now < 2 ^ 64 }
    ensures { result ≡ delay_place netlist.now what.now }
{
    match what {
        Delayed::Kind(cell) => Some(number_of_cell(*cell)),
        Delayed::Net(name) => match netlist.number(name.as_bytes()) {
            Some(net) => Some(9 + net),
            None => None,
        },
        Delayed::Pin(name, pin) => match netlist.number(name.as_bytes()) {
            Some(net) => place_of_pin(netlist, starts, net, *pin),
            None => None,
        },
    }
}

/// Whether a row names a net that is an input.
fn names_input(netlist: &Netlist, what: &Delayed) -> bool
    ensures { result ≡ is_about_input netlist.now what.now }
{
    match what {
        Delayed::Kind(_) => false,
        Delayed::Net(name) => match netlist.number(name.as_bytes()) {
            Some(net) => is_input_driver(netlist.driver(net)),
            None => false,
        },
        Delayed::Pin(name, _) => match netlist.number(name.as_bytes()) {
            Some(net) => is_input_driver(netlist.driver(net)),
            None => false,
        },
    }
}

/// Why a row has no place.
fn fault_of(netlist: &Netlist, what: &Delayed, number: u32) -> DesignFault
    requires { delay_place netlist.now what.now ≡ None }
    ensures { first_fault (delayed_checks netlist.now number false what.now) ≡ Some result }
{
    match what {
        Delayed::Kind(_) => unreachable!(),
        Delayed::Net(_) => DesignFault::UnknownNet(number),
        Delayed::Pin(name, _) => match netlist.number(name.as_bytes()) {
            None => DesignFault::UnknownNet(number),
            Some(net) => {
                if is_input_driver(netlist.driver(net)) {
                    DesignFault::DelayOfInput(number)
                } else {
                    DesignFault::NoPin(number)
                }
            }
        },
    }
}

fn take_delay(
    netlist: &Netlist,
    starts: &[usize],
    rows: &[DelayRow],
    i: usize,
    table: &mut Vec<Option<u32>>,
) -> Result<(), DesignFault>
    requires within { i < length rows.now }
    requires few { length rows.now ≤ MAX_TEXT }
    requires starts { starts.now ≡ starts_of netlist.now }
    requires room { table_size netlist.now < 2 ^ 64 }
    requires placed { all_placed netlist.now (take i rows.now) ≡ true }
    requires so_far { table.old.items ≡ delay_places netlist.now (take i rows.now) }
    ensures ok { OnOk result ((first_fault (checks_at (delay_row_checks netlist.now) rows.now i) ≡ None)
        × (table.new.items ≡ delay_places netlist.now (take (i + 1) rows.now))
        × (all_placed netlist.now (take (i + 1) rows.now) ≡ true)) }
    ensures err { IfErr result (IsFaultOf (checks_at (delay_row_checks netlist.now) rows.now i)) }
{
    let row = &rows[i];
    let number = i as u32 + 2;
    let what = &row.what;
    let Some(place) = place_of(netlist, starts, what) else {
        return Err(fault_of(netlist, what, number));
    };
    if table[place].is_some() {
        return Err(DesignFault::RepeatedRow(number));
    }
    if names_input(netlist, what) {
        return Err(DesignFault::DelayOfInput(number));
    }
    table[place] = Some(row.delay);
    Ok(())
}

/// For each kind, net and pin the delay of its row, if it has one.
fn take_delays(
    alloc: Global,
    netlist: &Netlist,
    starts: &[usize],
    size: usize,
    rows: &[DelayRow],
) -> Result<Vec<Option<u32>>, DesignFault>
    requires few { length rows.now ≤ MAX_TEXT }
    requires starts { starts.now ≡ starts_of netlist.now }
    requires size { size ≡ table_size netlist.now }
    ensures ok { IfOk result (λ v. (first_fault (rows_checks (delay_row_checks netlist.now) rows.now) ≡ None)
        × (v.items ≡ delay_places netlist.now rows.now)) }
    ensures err { IfErr result (IsFaultOf (rows_checks (delay_row_checks netlist.now) rows.now)) }
{
    let Ok(mut table) = vec![in alloc; None; size] else {
        return Err(DesignFault::Memory);
    };
    for i in 0..rows.len() {
        take_delay(netlist, starts, rows, i, &mut table)?;
    }
    Ok(table)
}

/// Where the pins of each net start among all pins, and the size of the table of kinds, nets and pins.
#[derive(Drop)]
pub(crate) struct Layout {
    pub(crate) starts: Vec<usize>,
    pub(crate) size: usize,
}

pub(crate) fn lay_out(alloc: Global, netlist: &Netlist) -> Result<Layout, DesignFault>
    ensures ok { IfOk result (λ layout.
        (layout.starts.items ≡ starts_of netlist.now) × (layout.size ≡ table_size netlist.now)
        × (table_size netlist.now < 2 ^ 64)) }
    ensures err { IfErr result (λ e. e ≡ fault.Memory) }
    ensures lawful { IsNetlist netlist.now }
{
    let mut starts = Vec::new(alloc);
    let mut next: usize = 0;
    for net in 0..netlist.len() {
        let Ok(()) = starts.push(next) else {
            return Err(DesignFault::Memory);
        };
        let Some(more) = next.checked_add(pin_count(netlist, net)) else {
            return Err(DesignFault::Memory);
        };
        next = more;
    }
    let Some(size) = next.checked_add(9 + netlist.len()) else {
        return Err(DesignFault::Memory);
    };
    Ok(Layout { starts, size })
}

fn read_place(
    netlist: &Netlist,
    rows: &[DelayRow],
    places: &Vec<Option<u32>>,
    place: usize,
) -> Option<u32>
    requires place { place < table_size netlist.now }
    requires places { places.now.items ≡ delay_places netlist.now rows.now }
    ensures { result ≡ place_at (row_place netlist.now) (λ row. row.delay) rows.now place }
{
    places[place]
}

fn of_kind(
    netlist: &Netlist,
    rows: &[DelayRow],
    places: &Vec<Option<u32>>,
    net: usize,
) -> Option<u32>
    requires net { net < length netlist.now.names }
    requires places { places.now.items ≡ delay_places netlist.now rows.now }
    ensures { result ≡ delay_in (is_of_kind (driver_cell (driver_of netlist.now net))) rows.now }
{
    match number_of_driver(netlist.driver(net)) {
        Some(kind) => read_place(netlist, rows, places, kind),
        None => None,
    }
}

/// The delay of a net's pin.
fn delay_at(
    netlist: &Netlist,
    starts: &[usize],
    places: &Vec<Option<u32>>,
    rows: &[DelayRow],
    net: usize,
    pin: usize,
) -> u32
    requires net { net < length netlist.now.names }
    requires low { 1 ≤ pin }
    requires high { pin ≤ pins_at netlist.now net }
    requires starts { starts.now ≡ starts_of netlist.now }
    requires places { places.now.items ≡ delay_places netlist.now rows.now }
    requires room { table_size netlist.now < 2 ^ 64 }
    ensures { result ≡ delay_by netlist.now rows.now net pin }
{
    let place = 9 + netlist.len() + starts[net] + (pin - 1);
    let of_pin = read_place(netlist, rows, places, place);
    let of_net = read_place(netlist, rows, places, 9 + net);
    let of_kind = of_kind(netlist, rows, places, net);
    of_pin.or(of_net.or(of_kind)).unwrap_or(1).max(1)
}

/// Adds the delays of a net's pins.
fn push_delays(
    netlist: &Netlist,
    starts: &[usize],
    places: &Vec<Option<u32>>,
    rows: &[DelayRow],
    net: usize,
    flat: &mut Vec<u32>,
) -> Result<(), AllocError>
    requires net { net < length netlist.now.names }
    requires starts { starts.now ≡ starts_of netlist.now }
    requires places { places.now.items ≡ delay_places netlist.now rows.now }
    requires room { table_size netlist.now < 2 ^ 64 }
    ensures { OnOk result (flat.new.items ≡ flat.old.items ++ net_delays netlist.now rows.now net) }
{
    for pin in 0..pin_count(netlist, net) {
        flat.push(delay_at(netlist, starts, places, rows, net, pin + 1))?;
    }
    Ok(())
}

/// The delays of all pins, net by net.
fn all_delays(
    alloc: Global,
    netlist: &Netlist,
    starts: &[usize],
    places: &Vec<Option<u32>>,
    rows: &[DelayRow],
) -> Result<Vec<u32>, AllocError>
    requires starts { starts.now ≡ starts_of netlist.now }
    requires places { places.now.items ≡ delay_places netlist.now rows.now }
    requires room { table_size netlist.now < 2 ^ 64 }
    ensures { IfOk result (λ v. v.items ≡ flat_delays netlist.now rows.now (length netlist.now.names)) }
{
    let mut flat = Vec::with_capacity(alloc, places.len())?;
    for net in 0..netlist.len() {
        push_delays(netlist, starts, places, rows, net, &mut flat)?;
    }
    Ok(flat)
}

/// The delays of all pins, net by net, by these rows.
pub(crate) fn pin_delays(
    alloc: Global,
    netlist: &Netlist,
    layout: &Layout,
    rows: &[DelayRow],
) -> Result<Vec<u32>, DesignFault>
    requires few { length rows.now ≤ MAX_TEXT }
    requires starts { layout.now.starts.items ≡ starts_of netlist.now }
    requires size { layout.now.size ≡ table_size netlist.now }
    requires room { table_size netlist.now < 2 ^ 64 }
    ensures ok { IfOk result (λ v. (first_fault (rows_checks (delay_row_checks netlist.now) rows.now) ≡ None)
        × (v.items ≡ flat_delays netlist.now rows.now (length netlist.now.names))) }
    ensures err { IfErr result (IsFaultOf (rows_checks (delay_row_checks netlist.now) rows.now)) }
{
    let places = take_delays(alloc, netlist, &layout.starts, layout.size, rows)?;
    let Ok(flat) = all_delays(alloc, netlist, &layout.starts, &places, rows) else {
        return Err(DesignFault::Memory);
    };
    Ok(flat)
}
