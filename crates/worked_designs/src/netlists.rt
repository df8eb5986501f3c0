//! What the nets of a netlist are.

use cmb_netlist::{Driver, Kind, Netlist, Operands};

fn is_gate(driver: &Driver, kind: Kind, operands: &[u32]) -> bool {
    match driver {
        Driver::Gate(found, pins) => *found == kind && Operands::as_slice(pins) == operands,
        _ => false,
    }
}

/// Whether the net of this number has this name.
pub fn has_name(netlist: &Netlist, net: usize, name: &[u8]) -> bool {
    net < netlist.len() && netlist.name(net) == name
}

/// Whether the net of this number is driven by a gate of this kind over these nets.
pub fn has_gate(netlist: &Netlist, net: usize, kind: Kind, operands: &[u32]) -> bool {
    net < netlist.len() && is_gate(netlist.driver(net), kind, operands)
}

/// Whether the net of this number is an input.
pub fn has_input(netlist: &Netlist, net: usize) -> bool {
    net < netlist.len() && matches!(netlist.driver(net), Driver::Input)
}
