//! What partitions of a netlist go by, whatever its nets cost.

ghost use Rattle.std.specs.Prelude.{◌≡◌, ◌<◌, ◌≤◌, true, length, All, IfOk, IfSome};

use crate::classes::{Classes, Cones, cones_of};
use crate::families::{Families, families_of};
use crate::lists::all_at;
use cmb_netlist::Netlist;
use std::alloc::{AllocError, Global};
use std::marker::Model;

/// What partitions of a netlist go by, whatever its nets cost: the nets in classes, of which each is needed by the same
/// sinks (flip-flops, and nets that nothing reads). It is seen as how many nets there are.
#[derive(Drop)]
pub struct Structure {
    families: Families,
    cones: Cones,
}

impl Model for Structure {
    ghost use Rattle.std.specs.Prelude.{ℕ, length};
    ghost use Rattle.cmb_graph_partition.specs.Inner.Structures.{IsStructure};

    ghost Value = { ℕ };

    ghost view = { λ structure. length structure.families.of_nets.items };

    ghost invariant = { λ s. IsStructure s.families.of_nets.items s.families.imports.items };
}

// Whether all numbers are below that.
fn are_below(numbers: &[u32], bound: usize) -> bool
    ensures { result ≡ true → All (λ number. number < bound) numbers.now }
{
    numbers.iter().all(|number| (*number as usize) < bound)
}

// The structure of so many nets, unless their classes aren't there.
fn checked(families: Families, cones: Cones, nets: usize) -> Option<Structure>
    requires { nets ≤ 65535 }
    ensures { IfSome result (λ structure. structure ≡ nets) }
{
    let classes = families.imports.len();
    if families.of_nets.len() != nets || !are_below(&families.of_nets, classes) {
        drop(families);
        drop(cones);
        return None;
    }
    Some(Structure { families, cones })
}

/// The structure of a netlist. The answer is `None` where too many gates are in the cones of too many sinks, so that it
/// would take long to find. Errors: memory was refused.
pub fn structure_of(alloc: Global, netlist: &Netlist) -> Result<Option<Structure>, AllocError>
    ensures nets { IfOk result (λ found. IfSome found (λ structure. structure ≡ length netlist.now.names)) }
{
    let families = families_of(alloc, netlist)?;
    match cones_of(alloc, netlist, &families)? {
        Some(cones) => Ok(checked(families, cones, netlist.len())),
        None => Ok(None),
    }
}

// Adds the weights of nets to those of their classes: twice what they cost, so that an import weighs half.
fn add_nets(weights: &mut [u32], costs: &[u32], of_nets: &[u32])
    requires nets { length of_nets.now ≡ length costs.now }
    requires below { All (λ class. class < length weights.old) of_nets.now }
{
    for net in 0..costs.len() {
        let class = of_nets[net] as usize;
        weights[class] = weights[class].saturating_add(costs[net].saturating_mul(2));
    }
}

impl Structure {
    /// The classes of nets that cost so much each. An import weighs what its flip-flop costs.
    pub(crate) fn weighed(self, alloc: Global, costs: &[u32]) -> Result<Classes, AllocError>
        requires { length costs.now ≡ self }
        ensures { IfOk result (λ classes. length classes.families.of_nets.items ≡ length costs.now) }
    {
        let Structure { families, cones } = self;
        let mut weights = all_at(alloc, costs, &families.imports)?;
        add_nets(&mut weights, costs, &families.of_nets);
        Ok(Classes {
            families,
            cones,
            weights,
        })
    }
}
