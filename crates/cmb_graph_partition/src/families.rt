//! Classes of nets that are read by the same.

use crate::check::is_flop;
use crate::lists::{Lists, at, set};
use crate::reader_graph::{ReaderGraph, reader_graph_of};
use cmb_netlist::{Driver, Netlist};
use std::alloc::{AllocError, Global};

/// No net has this number.
pub(crate) const NO_NET: u32 = u32::MAX;

// The first class. It is that of nets whose class is still to be found, too.
const INPUTS: u32 = 0;

/// The nets of a netlist in classes. Each flip-flop is one, and each net that nothing reads: these are the sinks. A
/// gate is of its readers' class where all are of one; else it begins a class, whose parents are those of its readers.
/// What a component of gates has together is of one class. All inputs are of the first class, that has no parents.
#[derive(Drop)]
pub(crate) struct Families {
    /// For each net its class.
    pub of_nets: Vec<u32>,
    /// For each class the net that is its sink, if it has one; else `NO_NET`.
    pub sinks: Vec<u32>,
    /// For each class its parents. Their numbers are lower.
    pub parents: Lists,
    /// For each class the flip-flop whose import it is, if it is one; else `NO_NET`.
    pub imports: Vec<u32>,
}

// Begins a class, and answers its number.
fn begin(
    families: &mut Families,
    sink: u32,
    parents: &[u32],
    import: u32,
) -> Result<u32, AllocError> {
    let Ok(class) = u32::try_from(families.imports.len()) else {
        return Err(AllocError);
    };
    families.sinks.push(sink)?;
    families.parents.push(parents)?;
    families.imports.push(import)?;
    Ok(class)
}

// Each flip-flop is a class.
fn add_flops(families: &mut Families, netlist: &Netlist) -> Result<(), AllocError> {
    for net in 0..netlist.len() {
        if is_flop(netlist, net) {
            let class = begin(families, net as u32, &[], NO_NET)?;
            set(&mut families.of_nets, net as u32, class);
        }
    }
    Ok(())
}

// Whether a class was the last that was added.
fn is_last(found: &[u32], class: u32) -> bool {
    match found.last() {
        None => false,
        Some(last) => *last == class,
    }
}

// Adds the classes of those that read a net from outside its component: those inside have no class of their own yet.
fn note_readers(
    found: &mut Vec<u32>,
    classes: &[u32],
    reader_graph: &ReaderGraph,
    net: usize,
) -> Result<(), AllocError> {
    for reader in reader_graph.readers.of(net) {
        let class = at(classes, *reader);
        if class != INPUTS && !is_last(found, class) {
            found.push(class)?;
        }
    }
    Ok(())
}

// Puts classes in order, each once.
fn put_in_order(found: &mut Vec<u32>) {
    if found.len() > 1 {
        found.sort_unstable();
        found.dedup();
    }
}

// Finds the classes of those that read nets of a component from outside, each once.
fn find_parents(
    found: &mut Vec<u32>,
    classes: &[u32],
    reader_graph: &ReaderGraph,
    nets: &[u32],
) -> Result<(), AllocError> {
    found.clear();
    for net in nets {
        note_readers(found, classes, reader_graph, *net as usize)?;
    }
    put_in_order(found);
    Ok(())
}

// The class of a component of gates with these parents.
fn class_of(families: &mut Families, first: u32, parents: &[u32]) -> Result<u32, AllocError> {
    match parents {
        [] => begin(families, first, &[], NO_NET),
        [parent] => Ok(*parent),
        several => begin(families, NO_NET, several, NO_NET),
    }
}

// Gives nets a class.
fn put_all(classes: &mut [u32], nets: &[u32], class: u32) {
    for net in nets {
        set(classes, *net, class);
    }
}

// Whether a net is driven by a gate.
fn is_gate(netlist: &Netlist, net: u32) -> bool {
    let net = net as usize;
    net < netlist.len() && matches!(netlist.driver(net), Driver::Gate(_, _))
}

// Finds the class of a component, if it is of gates.
fn add_component(
    found: &mut Vec<u32>,
    families: &mut Families,
    netlist: &Netlist,
    reader_graph: &ReaderGraph,
    nets: &[u32],
) -> Result<(), AllocError> {
    if let Some(first) = nets.first()
        && is_gate(netlist, *first)
    {
        find_parents(found, &families.of_nets, reader_graph, nets)?;
        let class = class_of(families, *first, found)?;
        put_all(&mut families.of_nets, nets, class);
    }
    Ok(())
}

// Finds the classes of gates. Readers come before what they read, which has lower numbers.
fn add_gates(
    found: &mut Vec<u32>,
    families: &mut Families,
    netlist: &Netlist,
    reader_graph: &ReaderGraph,
) -> Result<(), AllocError> {
    for number in (0..netlist.len()).rev() {
        add_component(
            found,
            families,
            netlist,
            reader_graph,
            reader_graph.members.of(number),
        )?;
    }
    Ok(())
}

// A share that reads a flip-flop of another is given it, at about half of what it costs to make it. So each flip-flop
// has one more class, of which no net is: it is needed where the flip-flop is made and where it is read.
fn add_import(
    found: &mut Vec<u32>,
    families: &mut Families,
    reader_graph: &ReaderGraph,
    flop: u32,
) -> Result<(), AllocError> {
    found.clear();
    found.push(at(&families.of_nets, flop))?;
    note_readers(found, &families.of_nets, reader_graph, flop as usize)?;
    put_in_order(found);
    begin(families, NO_NET, found, flop)?;
    Ok(())
}

// Each flip-flop's import is a class.
fn add_imports(
    found: &mut Vec<u32>,
    families: &mut Families,
    netlist: &Netlist,
    reader_graph: &ReaderGraph,
) -> Result<(), AllocError> {
    for net in 0..netlist.len() {
        if is_flop(netlist, net) {
            add_import(found, families, reader_graph, net as u32)?;
        }
    }
    Ok(())
}

// Finds the classes of nets and, last, those of imports of flip-flops.
fn add_all(
    alloc: Global,
    families: &mut Families,
    netlist: &Netlist,
    reader_graph: &ReaderGraph,
) -> Result<(), AllocError> {
    begin(families, NO_NET, &[], NO_NET)?;
    add_flops(families, netlist)?;
    let mut found = Vec::new(alloc);
    add_gates(&mut found, families, netlist, reader_graph)?;
    add_imports(&mut found, families, netlist, reader_graph)
}

// The classes of a netlist whose reader graph this is.
fn families_with(
    alloc: Global,
    netlist: &Netlist,
    reader_graph: &ReaderGraph,
) -> Result<Families, AllocError> {
    let mut families = Families {
        of_nets: vec![in alloc; INPUTS; netlist.len()]?,
        sinks: Vec::new(alloc),
        parents: Lists::new(alloc),
        imports: Vec::new(alloc),
    };
    add_all(alloc, &mut families, netlist, reader_graph).and(Ok(families))
}

/// The classes of a netlist and, last, those of imports of flip-flops.
pub(crate) fn families_of(alloc: Global, netlist: &Netlist) -> Result<Families, AllocError> {
    let reader_graph = reader_graph_of(alloc, netlist)?;
    families_with(alloc, netlist, &reader_graph)
}
