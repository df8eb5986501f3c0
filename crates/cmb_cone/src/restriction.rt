//! The design of a closed set of nets.

ghost use Rattle.std.specs.Prelude.{◌≡◌, ℕ, ◌<◌, length, slice_index, IfOk};
ghost use Rattle.cmb_design_model.specs.Value.{value};
ghost use Rattle.cmb_design_model.specs.declared.fault.DesignFault.TheVariants as fault;
ghost use Rattle.cmb_cone.specs.Closed.{IsClosed};
ghost use Rattle.cmb_cone.specs.Restriction.{IsRestriction};

use crate::part::netlist_of;
use cmb_design_model::{Design, DesignFault};
use std::alloc::{AllocError, Global};

/// The one reason for which a part of a design is refused.
fn out_of_memory(reason: DesignFault) -> AllocError
    requires { reason ≡ fault.Memory }
{
    match reason {
        DesignFault::Memory => AllocError,
        _ => unreachable!(),
    }
}

/// The design of a closed set of nets alone, numbered in their order: net `i` has the name and, at each tick, the level
/// of net `nets[i]`. It is refused only where memory runs out. Work is linear, but for the stimuli, which are sorted
/// anew.
pub fn restrict(alloc: Global, design: &Design, nets: &[u32]) -> Result<Design, AllocError>
    requires { IsClosed design.now.netlist nets.now }
    ensures part { IfOk result (λ part. IsRestriction design.now nets.now part) }
    ensures values { IfOk result (λ part. (i tick : ℕ) → i < length nets.now
        → value part i tick ≡ value design.now (slice_index nets.now i) tick) }
{
    let netlist = netlist_of(alloc, design.netlist(), nets)?;
    // What every design keeps, this one does; so no check stands in its part.
    let _ = design.horizon();
    match design.on(alloc, netlist) {
        Ok(part) => Ok(part),
        Err(reason) => Err(out_of_memory(reason)),
    }
}
