//! The parts of opening a cluster: its nets, its processes and its tables.

ghost use Rattle.std.specs.Prelude.{◌≡◌, ◌<◌, ◌≤◌, ◌==◌, ◌||◌, ◌∷◌, [], ℕ, false, None, List, Option, IfOk, length};
ghost use Rattle.std.specs.Prelude.{filter, map, slice_index_or, All};
ghost use Rattle.std.specs.List.{list_any, range_with_len};
ghost use Rattle.cmb_wave.specs.Wave.{new_wave};
ghost use Rattle.cmb_netlist.specs.declared.netlist.Driver.TheVariants.{Input, Gate, Flop};
ghost use Rattle.cmb_netlist.specs.Netlist.{driver_of, pins_of, MayTake, IsWired, IsNetlist};
ghost use Rattle.cmb_design_model.specs.Exact.{nets_of};
ghost use Rattle.cmb_core_cluster.specs.Clustering.{cluster_of};
ghost use Rattle.cmb_core_cluster.specs.Clusters.{AreOperands, IsDrivenBy};
ghost use Rattle.cmb_core_cluster.specs.Opened.{AreProcessesOf, IsProcessOf, held_nets};
ghost use Rattle.cmb_core_cluster.specs.Inner.Opening.{AreRead, ArePlaced, AreAt, StartsOn, AllStartOn};
ghost use Rattle.cmb_core_cluster.specs.Directory.{place_in, driven_among, given_among};

use crate::clustering::Clustering;
use crate::node::Node;
use crate::process::{ProcessPin, ProcessRule};
use cmb_design_model::Design;
use cmb_netlist::MAX_NETS;
use cmb_netlist::netlist::{Driver, Kind};
use cmb_wave::Wave;
use std::alloc::{AllocError, Global};

// Marks these nets.
fn mark_all(pins: &[u32], read: &mut [bool])
    requires { All (λ pin. pin < length read.old) pins.now }
    ensures { (net : ℕ) → slice_index_or read.new net false
        ≡ (list_any (λ pin. pin == net) pins.now || slice_index_or read.old net false) }
{
    for pin in pins {
        read[*pin as usize] = true;
    }
}

// For each net whether a net of the cluster reads it.
fn nets_read(
    alloc: Global,
    design: &Design,
    clustering: &Clustering,
    cluster: u32,
) -> Result<Vec<bool>, AllocError>
    requires { length clustering.now.assign ≡ nets_of design.now }
    ensures read { IfOk result (λ read. AreRead design.now clustering.now cluster (nets_of design.now) read.items) }
    ensures few { IfOk result (λ read. length read.items ≤ MAX_NETS) }
{
    let netlist = design.netlist();
    let mut read = vec![in alloc; false; netlist.len()]?;
    for net in 0..netlist.len() {
        if clustering.of(net as u32) == cluster {
            mark_all(netlist.driver(net).pins(), &mut read);
        }
    }
    Ok(read)
}

// Whether a net is the cluster's own, or one that it reads.
fn is_held(clustering: &Clustering, cluster: u32, read: &[bool], net: u32) -> bool
    requires nets { length clustering.now.assign ≡ length read.now }
    requires net { net < length read.now }
    ensures { result ≡ ((cluster_of clustering.now net == cluster) || slice_index_or read.now net false) }
{
    clustering.of(net) == cluster || read[net as usize]
}

// The nets that are the cluster's own or that it reads, by rising number.
fn nets_marked(
    alloc: Global,
    clustering: &Clustering,
    cluster: u32,
    read: &[bool],
) -> Result<Vec<u32>, AllocError>
    requires nets { length clustering.now.assign ≡ length read.now }
    requires few { length read.now ≤ MAX_NETS }
    ensures { IfOk result (λ nets. nets.items
        ≡ filter (λ net. (cluster_of clustering.now net == cluster) || slice_index_or read.now net false)
        (range_with_len 0 (length read.now))) }
{
    let mut nets = Vec::new(alloc);
    for net in 0..read.len() {
        if is_held(clustering, cluster, read, net as u32) {
            nets.push(net as u32)?;
        }
    }
    Ok(nets)
}

/// The nets that are the cluster's own or that it reads, by rising number.
pub(crate) fn nets_held(
    alloc: Global,
    design: &Design,
    clustering: &Clustering,
    cluster: u32,
) -> Result<Vec<u32>, AllocError>
    requires { length clustering.now.assign ≡ nets_of design.now }
    ensures { IfOk result (λ nets. nets.items ≡ held_nets design.now clustering.now cluster) }
{
    let read = nets_read(alloc, design, clustering, cluster)?;
    nets_marked(alloc, clustering, cluster, &read)
}

/// The place of each net among these.
pub(crate) fn places_among(
    alloc: Global,
    nets: &[u32],
    count: usize,
) -> Result<Vec<Option<u16>>, AllocError>
    requires there { All (λ net. net < count) nets.now }
    requires few { length nets.now ≤ MAX_NETS }
    ensures places { IfOk result (λ places. (net : ℕ) → slice_index_or places.items net None ≡ place_in nets.now net) }
    ensures count { IfOk result (λ places. length places.items ≡ count) }
{
    let mut places = vec![in alloc; None; count]?;
    for place in (0..nets.len()).rev() {
        places[nets[place] as usize] = Some(place as u16);
    }
    Ok(places)
}

// The operands on a net's pins.
fn operands_on(
    alloc: Global,
    design: &Design,
    net: u32,
    sources: &[u32],
    places: &[Option<u16>],
) -> Result<Vec<ProcessPin>, AllocError>
    requires net { net < nets_of design.now }
    requires pins { sources.now ≡ pins_of (driver_of design.now.netlist net) }
    requires placed { ArePlaced places.now sources.now }
    requires there { All (λ source. source < length places.now) sources.now }
    requires few { length places.now ≤ MAX_NETS }
    ensures operands { IfOk result (λ operands. AreOperands design.now net 1 sources.now operands.items) }
    ensures places { IfOk result (λ operands. AreAt places.now operands.items) }
    ensures count { IfOk result (λ operands. length operands.items ≡ length sources.now) }
{
    let mut operands = Vec::with_capacity(alloc, sources.len())?;
    for (i, source) in sources.iter().enumerate() {
        operands.push(ProcessPin {
            net: *source as u16,
            slot: places[*source as usize].unwrap(),
            delay: design.delay(net as usize, i + 1),
        })?;
    }
    Ok(operands)
}

// The process of an input.
fn input_node(alloc: Global, design: &Design, net: u32) -> Result<Node, AllocError>
    requires net { net < nets_of design.now }
    requires driver { driver_of design.now.netlist net ≡ Input }
    ensures driven { IfOk result (λ node. IsDrivenBy design.now net (driver_of design.now.netlist net) node) }
    ensures starts { IfOk result (λ node. (places : List (Option ℕ)) → StartsOn places node) }
{
    let stimulus = Vec::from_slice(alloc, design.stim_changes(net as usize))?;
    Ok(Node::new(ProcessRule::Input, Vec::new(alloc), stimulus))
}

// The process of a gate.
fn gate_node(
    alloc: Global,
    design: &Design,
    net: u32,
    kind: Kind,
    sources: &[u32],
    places: &[Option<u16>],
) -> Result<Node, AllocError>
    requires net { net < nets_of design.now }
    requires driver { driver_of design.now.netlist net ≡ Gate kind sources.now }
    requires takes { MayTake kind (length sources.now) }
    requires placed { ArePlaced places.now sources.now }
    requires there { All (λ source. source < length places.now) sources.now }
    requires few { length places.now ≤ MAX_NETS }
    ensures driven { IfOk result (λ node. IsDrivenBy design.now net (driver_of design.now.netlist net) node) }
    ensures starts { IfOk result (λ node. StartsOn places.now node) }
{
    let operands = operands_on(alloc, design, net, sources, places)?;
    Ok(Node::new(ProcessRule::Gate(kind), operands, Vec::new(alloc)))
}

// The process of a flip-flop.
fn flop_node(
    alloc: Global,
    design: &Design,
    net: u32,
    source: u32,
    places: &[Option<u16>],
) -> Result<Node, AllocError>
    requires net { net < nets_of design.now }
    requires driver { driver_of design.now.netlist net ≡ Flop source }
    requires placed { ArePlaced places.now (source ∷ []) }
    requires there { source < length places.now }
    requires few { length places.now ≤ MAX_NETS }
    ensures driven { IfOk result (λ node. IsDrivenBy design.now net (driver_of design.now.netlist net) node) }
    ensures starts { IfOk result (λ node. StartsOn places.now node) }
{
    let clock = design.clock(net as usize);
    let operands = operands_on(alloc, design, net, &[source], places)?;
    let rule = ProcessRule::Flop {
        first: clock.first,
        period: clock.period,
        init: design.init(net as usize),
    };
    Ok(Node::new(rule, operands, Vec::new(alloc)))
}

// The process of a net that the cluster drives.
fn driven_node(
    alloc: Global,
    design: &Design,
    net: u32,
    places: &[Option<u16>],
) -> Result<Node, AllocError>
    requires net { net < nets_of design.now }
    requires wired { IsWired (nets_of design.now) (driver_of design.now.netlist net) }
    requires places { length places.now ≡ nets_of design.now }
    requires few { length places.now ≤ MAX_NETS }
    requires placed { ArePlaced places.now (pins_of (driver_of design.now.netlist net)) }
    ensures driven { IfOk result (λ node. IsDrivenBy design.now net (driver_of design.now.netlist net) node) }
    ensures starts { IfOk result (λ node. StartsOn places.now node) }
{
    match design.netlist().driver(net as usize) {
        Driver::Input => input_node(alloc, design, net),
        Driver::Gate(kind, operands) => {
            gate_node(alloc, design, net, *kind, operands.as_slice(), places)
        }
        Driver::Flop(source) => flop_node(alloc, design, net, *source, places),
    }
}

// The process of a net as the cluster has it.
fn node_of(
    alloc: Global,
    design: &Design,
    clustering: &Clustering,
    cluster: u32,
    net: u32,
    places: &[Option<u16>],
) -> Result<Node, AllocError>
    requires net { net < nets_of design.now }
    requires netlist { IsNetlist design.now.netlist }
    requires nets { length clustering.now.assign ≡ nets_of design.now }
    requires places { length places.now ≡ nets_of design.now }
    requires placed { cluster_of clustering.now net ≡ cluster
        → ArePlaced places.now (pins_of (driver_of design.now.netlist net)) }
    ensures process { IfOk result (λ node. IsProcessOf design.now clustering.now cluster net node) }
    ensures starts { IfOk result (λ node. StartsOn places.now node) }
{
    if clustering.of(net) == cluster {
        driven_node(alloc, design, net, places)
    } else {
        Ok(Node::new(ProcessRule::Given, Vec::new(alloc), Vec::new(alloc)))
    }
}

/// The processes of these nets.
pub(crate) fn nodes_of(
    alloc: Global,
    design: &Design,
    clustering: &Clustering,
    cluster: u32,
    nets: &[u32],
    places: &[Option<u16>],
) -> Result<Vec<Node>, AllocError>
    requires there { All (λ net. net < nets_of design.now) nets.now }
    requires netlist { IsNetlist design.now.netlist }
    requires nets { length clustering.now.assign ≡ nets_of design.now }
    requires places { length places.now ≡ nets_of design.now }
    requires placed { All (λ net. cluster_of clustering.now net ≡ cluster
        → ArePlaced places.now (pins_of (driver_of design.now.netlist net))) nets.now }
    ensures processes { IfOk result (λ nodes. AreProcessesOf design.now clustering.now cluster nets.now nodes.items) }
    ensures start { IfOk result (λ nodes. AllStartOn places.now nodes.items) }
    ensures count { IfOk result (λ nodes. length nodes.items ≡ length nets.now) }
{
    let mut nodes = Vec::with_capacity(alloc, nets.len())?;
    for net in nets {
        nodes.push(node_of(alloc, design, clustering, cluster, *net, places)?)?;
    }
    Ok(nodes)
}

/// The nets whose processes are driven, and those that are given.
pub(crate) fn sides_of(
    alloc: Global,
    nodes: &[Node],
    nets: &[u32],
) -> Result<(Vec<u32>, Vec<u32>), AllocError>
    requires { length nodes.now ≡ length nets.now }
    ensures { IfOk result (λ sides. (sides.0.items ≡ driven_among nodes.now nets.now)
        × (sides.1.items ≡ given_among nodes.now nets.now)) }
{
    let mut driven = Vec::new(alloc);
    let mut given = Vec::new(alloc);
    for i in 0..nets.len() {
        if nodes[i].is_given() {
            given.push(nets[i])?;
        } else {
            driven.push(nets[i])?;
        }
    }
    Ok((driven, given))
}

/// New waves of these nets, of which nothing is known yet.
pub(crate) fn waves_of(alloc: Global, nets: &[u32]) -> Result<Vec<Wave>, AllocError>
    ensures { IfOk result (λ waves. waves.items ≡ map new_wave nets.now) }
{
    let mut waves = Vec::with_capacity(alloc, nets.len())?;
    for net in nets {
        waves.push(Wave::new(alloc, *net))?;
    }
    Ok(waves)
}
