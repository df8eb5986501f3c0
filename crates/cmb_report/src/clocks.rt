//! Which flip-flop has no clock.

use crate::record::{reader_of, reads_next};
use cmb_netlist::{Driver, Netlist};
use csv::{ByteRecord, Reader};
use std::alloc::Global;

// One of the next rows, of which there are at most so many, is about the net.
fn names_net(reader: &mut Reader<&[u8]>, row: &mut ByteRecord, most: usize, name: &[u8]) -> bool {
    for _ in 0..most {
        if !reads_next(reader, row) {
            return false;
        }
        if row.get(0).map(|field| field.trim_ascii()) == Some(name) {
            return true;
        }
    }
    false
}

// A row of a table of clocks is about the net.
fn has_row(alloc: Global, clocks: &[u8], name: &[u8]) -> bool {
    let mut row = ByteRecord::new(alloc);
    let mut reader = reader_of(alloc, clocks, true);
    names_net(&mut reader, &mut row, clocks.len(), name)
}

/// The first flip-flop of a netlist of which a table of clocks has no row.
pub(crate) fn unclocked<'a>(
    alloc: Global,
    netlist: &'a Netlist,
    clocks: &[u8],
) -> Option<&'a [u8]> {
    for net in 0..netlist.len() {
        let is_flop = matches!(netlist.driver(net), Driver::Flop(_));
        if is_flop && !has_row(alloc, clocks, netlist.name(net)) {
            return Some(netlist.name(net));
        }
    }
    None
}
