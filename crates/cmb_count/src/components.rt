//! The strongly connected components of gates, in an order in which signals go.

ghost use Rattle.std.specs.Prelude.{◌≡◌, ◌≤◌, length, IfOk};
ghost use Rattle.cmb_netlist.specs.Netlist.{IsNetlist};
ghost use Rattle.cmb_count.specs.Inner.Arrivals.{AreComponents, IsOrder};

use cmb_graph::{Steps, nets_in_loops, strong_components};
use cmb_netlist::Netlist;
use std::alloc::{AllocError, Global};

/// A net with the number of its component.
#[derive(Clone, Copy)]
pub(crate) struct Ranked {
    pub number: usize,
    pub net: usize,
}

/// The components of a netlist's gates: steps through flip-flops don't count.
#[derive(Drop)]
pub(crate) struct Components {
    /// For each net the number of its component. Gates read none of higher numbers.
    pub numbers: Vec<usize>,
    /// For each net whether it is in a loop.
    pub loops: Vec<bool>,
    /// The nets by rising numbers.
    pub order: Vec<Ranked>,
}

fn order_of(alloc: Global, numbers: &[usize]) -> Result<Vec<Ranked>, AllocError>
    ensures { IfOk result (λ order. IsOrder numbers.now order.items) }
{
    let mut order = Vec::with_capacity(alloc, numbers.len())?;
    for net in 0..numbers.len() {
        let number = numbers[net];
        order.push(Ranked { number, net })?;
    }
    order.sort_by_key(|ranked| ranked.number)?;
    Ok(order)
}

/// The components of a netlist's gates.
pub(crate) fn components_of(alloc: Global, netlist: &Netlist) -> Result<Components, AllocError>
    ensures { IfOk result (AreComponents netlist.now) }
{
    let numbers = strong_components(alloc, netlist, Steps::Gates)?;
    let loops = nets_in_loops(alloc, netlist, Steps::Gates)?;
    let order = order_of(alloc, numbers.as_slice())?;
    Ok(Components {
        numbers,
        loops,
        order,
    })
}
