//! What the checks ask of a net's driver.

ghost use Rattle.std.specs.Prelude.{◌≡◌, ◌<◌, length};
ghost use Rattle.cmb_netlist.specs.declared.netlist.Cell.TheVariants.{Gate as GateCell};
ghost use Rattle.cmb_design_model.specs.Nets.{cell_number, is_flop, is_input, driver_cell, pins_at};

use cmb_netlist::{Cell, Driver, Kind, Netlist};

pub(crate) fn is_input_driver(driver: &Driver) -> bool
    ensures { result ≡ is_input driver.now }
{
    match driver {
        Driver::Input => true,
        Driver::Gate(_, _) => false,
        Driver::Flop(_) => false,
    }
}

pub(crate) fn is_flop_driver(driver: &Driver) -> bool
    ensures { result ≡ is_flop driver.now }
{
    match driver {
        Driver::Input => false,
        Driver::Gate(_, _) => false,
        Driver::Flop(_) => true,
    }
}

pub(crate) fn pin_count(netlist: &Netlist, net: usize) -> usize
    requires { net < length netlist.now.names }
    ensures { result ≡ pins_at netlist.now net }
{
    netlist.driver(net).pins().len()
}

fn number_of_kind(kind: Kind) -> usize
    ensures { result ≡ cell_number (GateCell kind) }
{
    kind as usize
}

pub(crate) fn number_of_cell(cell: Cell) -> usize
    ensures { result ≡ cell_number cell }
{
    match cell {
        Cell::Gate(kind) => number_of_kind(kind),
        Cell::Flop => 8,
    }
}

/// The number of a driver's kind; an input has none.
pub(crate) fn number_of_driver(driver: &Driver) -> Option<usize>
    ensures { result ≡ driver_cell driver.now }
{
    match driver {
        Driver::Input => None,
        Driver::Gate(kind, _) => Some(number_of_kind(*kind)),
        Driver::Flop(_) => Some(8),
    }
}
