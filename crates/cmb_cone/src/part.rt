//! A netlist of some nets of another one, numbered in their order.

ghost use Rattle.std.specs.Prelude.{◌≡◌, ℕ, ◌<◌, ◌≤◌, length, map, slice_index, nat_eq, All, Contains, IfOk};
ghost use Rattle.std.specs.List.{IsDistinct, filter};
ghost use Rattle.std.specs.List.Sorted.{IsStrictlyIncreasing};
ghost use Rattle.cmb_netlist.specs.Netlist.{IsNetlist, driver_of, name_of, pins_of};
ghost use Rattle.cmb_cone.specs.Closed.{IsClosed};
ghost use Rattle.cmb_cone.specs.Restriction.{IsPart, is_among, with_nets};
ghost use Rattle.cmb_cone.specs.Inner.Places.{ArePlaces};

use cmb_netlist::{Driver, MAX_NETS, Name, Netlist, Operands};
use indexmap::IndexSet;
use std::alloc::{AllocError, Global};

/// For each net of a list its place there; for each other net anything.
fn places_of(alloc: Global, count: usize, nets: &[u32]) -> Result<Vec<u32>, AllocError>
    requires nets { All (λ net. net < count) nets.now }
    requires rising { IsStrictlyIncreasing nets.now }
    requires few { length nets.now ≤ MAX_NETS }
    ensures { IfOk result (λ v. (length v.items ≡ count) × ArePlaces nets.now v.items) }
{
    let mut places = vec![in alloc; 0u32; count]?;
    for (i, net) in nets.iter().enumerate() {
        places[*net as usize] = i as u32;
    }
    Ok(places)
}

/// The nets of a part, and for each net of the whole its place there; for a net that isn't in the part anything.
#[derive(Clone, Copy)]
struct PartNets<'a> {
    nets: &'a [u32],
    places: &'a [u32],
    ghost placed: { ArePlaces nets.now places.now },
}

/// Whether a net is in the part.
fn is_kept(kept: &PartNets, net: u32) -> bool
    requires { net < length kept.now.places.now }
    ensures { result ≡ is_among kept.now.nets.now net }
{
    let place = kept.places[net as usize] as usize;
    if place < kept.nets.len() {
        kept.nets[place] == net
    } else {
        false
    }
}

/// The places of nets of a list, in its order.
fn renumbered_all(alloc: Global, nets: &[u32], places: &[u32]) -> Result<Vec<u32>, AllocError>
    requires { All (λ net. net < length places.now) nets.now }
    ensures { IfOk result (λ v. v.items ≡ map (slice_index places.now) nets.now) }
{
    let mut numbers = Vec::with_capacity(alloc, nets.len())?;
    for net in nets {
        numbers.push(places[*net as usize])?;
    }
    Ok(numbers)
}

/// A driver with the places of its nets in their stead.
fn renumbered(alloc: Global, driver: &Driver, places: &[u32]) -> Result<Driver, AllocError>
    requires { All (λ net. net < length places.now) (pins_of driver.now) }
    ensures { IfOk result (λ d. d ≡ with_nets (slice_index places.now) driver.now) }
{
    match driver {
        Driver::Input => Ok(Driver::Input),
        Driver::Gate(kind, operands) => {
            let numbers = renumbered_all(alloc, operands.as_slice(), places)?;
            let operands = Operands::from_slice(alloc, numbers.as_slice())?;
            Ok(Driver::Gate(*kind, operands))
        }
        Driver::Flop(source) => Ok(Driver::Flop(places[*source as usize])),
    }
}

fn names_of(alloc: Global, netlist: &Netlist, nets: &[u32]) -> Result<IndexSet<Name>, AllocError>
    requires sound { IsNetlist netlist.now }
    requires closed { IsClosed netlist.now nets.now }
    ensures { IfOk result (λ names. names.keys ≡ map (name_of netlist.now) nets.now) }
{
    let mut names = IndexSet::with_capacity(alloc, nets.len())?;
    for net in nets {
        let name = Name::new(alloc, netlist.name(*net as usize))?;
        names.insert(name)?;
    }
    Ok(names)
}

fn drivers_of(alloc: Global, netlist: &Netlist, kept: &PartNets) -> Result<Vec<Driver>, AllocError>
    requires closed { IsClosed netlist.now kept.now.nets.now }
    requires long { length kept.now.places.now ≡ length netlist.now.names }
    ensures { IfOk result (λ drivers. drivers.items
        ≡ map (λ net. with_nets (slice_index kept.now.places.now) (driver_of netlist.now net)) kept.now.nets.now) }
{
    let mut drivers = Vec::with_capacity(alloc, kept.nets.len())?;
    for net in kept.nets {
        let driver = renumbered(alloc, netlist.driver(*net as usize), kept.places)?;
        drivers.push(driver)?;
    }
    Ok(drivers)
}

fn outputs_of(
    alloc: Global,
    netlist: &Netlist,
    kept: &PartNets,
) -> Result<IndexSet<u32>, AllocError>
    requires sound { IsNetlist netlist.now }
    requires long { length kept.now.places.now ≡ length netlist.now.names }
    ensures kept { IfOk result (λ outputs. outputs.keys
        ≡ map (slice_index kept.now.places.now) (filter (is_among kept.now.nets.now) netlist.now.outputs)) }
    ensures distinct { IfOk result (λ outputs. IsDistinct nat_eq outputs.keys) }
{
    let mut outputs = IndexSet::new(alloc);
    let all = netlist.outputs();
    for net in all {
        if is_kept(kept, *net) {
            outputs.insert(kept.places[*net as usize])?;
        }
    }
    Ok(outputs)
}

/// The netlist of a closed set of nets, numbered in their order.
pub(crate) fn netlist_of(
    alloc: Global,
    netlist: &Netlist,
    nets: &[u32],
) -> Result<Netlist, AllocError>
    requires { IsClosed netlist.now nets.now }
    ensures part { IfOk result (λ part. IsPart netlist.now nets.now part) }
    ensures sound { IfOk result IsNetlist }
{
    let places = places_of(alloc, netlist.len(), nets)?;
    let kept = PartNets {
        nets,
        places: places.as_slice(),
    };
    let drivers = drivers_of(alloc, netlist, &kept)?;
    let outputs = outputs_of(alloc, netlist, &kept)?;
    let names = names_of(alloc, netlist, nets)?;
    Ok(Netlist::new(names, drivers, outputs))
}

/// The places of some nets in a list that rises and has them all, in their order. There are `count` nets.
pub fn places_in(
    alloc: Global,
    count: usize,
    nets: &[u32],
    some: &[u32],
) -> Result<Vec<u32>, AllocError>
    requires nets { All (λ net. net < count) nets.now }
    requires rising { IsStrictlyIncreasing nets.now }
    requires few { length nets.now ≤ MAX_NETS }
    requires there { All (Contains nets.now) some.now }
    ensures back { IfOk result (λ places. map (slice_index nets.now) places.items ≡ some.now) }
    ensures within { IfOk result (λ places. All (λ place. place < length nets.now) places.items) }
    ensures rising { IfOk result (λ places. IsStrictlyIncreasing some.now → IsStrictlyIncreasing places.items) }
    ensures count { IfOk result (λ places. length places.items ≡ length some.now) }
{
    let places = places_of(alloc, count, nets)?;
    renumbered_all(alloc, some, places.as_slice())
}
