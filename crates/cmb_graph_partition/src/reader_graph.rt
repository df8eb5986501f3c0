//! Who reads each net, and the components of gates.

use crate::lists::Lists;
use cmb_graph::{Steps, strong_components, targets_from};
use cmb_netlist::Netlist;
use std::alloc::{AllocError, Global};

/// What a netlist's nets have to do with one another.
#[derive(Drop)]
pub(crate) struct ReaderGraph {
    /// For each net those that read it.
    pub readers: Lists,
    /// For each number the nets of the strongly connected component that has it, where steps through flip-flops don't
    /// count. Gates read none of higher numbers.
    pub members: Lists,
}

fn readers_of(alloc: Global, netlist: &Netlist) -> Result<Lists, AllocError> {
    let mut operands = Lists::new(alloc);
    for net in 0..netlist.len() {
        operands.push(targets_from(netlist, Steps::All, net))?;
    }
    operands.turned(alloc, netlist.len())
}

// For each number the nets of its component.
fn members_of(alloc: Global, netlist: &Netlist) -> Result<Lists, AllocError> {
    let numbers = strong_components(alloc, netlist, Steps::Gates)?;
    Lists::by_number(alloc, &numbers)
}

/// Which nets each net feeds, with the components, of a netlist.
pub(crate) fn reader_graph_of(alloc: Global, netlist: &Netlist) -> Result<ReaderGraph, AllocError> {
    Ok(ReaderGraph {
        members: members_of(alloc, netlist)?,
        readers: readers_of(alloc, netlist)?,
    })
}
