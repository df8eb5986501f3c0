//! What an engine does with each net, where it drives a share of them.

ghost use Rattle.std.specs.Prelude.{◌≡◌, ℕ, ◌<◌, false, All, IfOk, length};
ghost use Rattle.cmb_netlist.specs.Netlist.{driver_of, pins_of, IsNetlist};
ghost use Rattle.cmb_design_model.specs.Exact.{nets_of};
ghost use Rattle.cmb_engine.specs.Inner.Roles.{driven_of, gives, is_driven, is_given, AreOf, Gives};

use crate::role::Role;
use cmb_design_model::Design;
use std::alloc::{AllocError, Global};

// The role of a net where nothing is given yet.
fn first_role(driven: bool) -> Role
    ensures driven { is_driven result ≡ driven }
    ensures none { is_given result ≡ false }
{
    if driven { Role::Driven } else { Role::Absent }
}

// The roles of nets of which some are driven, where nothing is given yet.
fn first_roles(alloc: Global, driven: &[bool]) -> Result<Vec<Role>, AllocError>
    ensures driven { IfOk result (λ roles. driven_of roles.items ≡ driven.now) }
    ensures none { IfOk result (λ roles. (net : ℕ) → gives roles.items net ≡ false) }
{
    let mut roles = Vec::with_capacity(alloc, driven.len())?;
    for one in driven {
        roles.push(first_role(*one))?;
    }
    Ok(roles)
}

// Lets some nets be given, where they aren't driven.
fn give_all(roles: &mut [Role], nets: &[u32])
    requires { All (λ net. net < length roles.old) nets.now }
    ensures { Gives roles.old roles.new nets.now }
{
    for net in nets {
        let net = *net as usize;
        if let Role::Absent = roles[net] {
            roles[net] = Role::Given;
        }
    }
}

// Lets be given what a net reads.
fn give_pins(design: &Design, net: usize, roles: &mut [Role])
    requires netlist { IsNetlist design.now.netlist }
    requires net { net < nets_of design.now }
    requires count { length roles.old ≡ nets_of design.now }
    ensures { Gives roles.old roles.new (pins_of (driver_of design.now.netlist net)) }
{
    give_all(roles, design.netlist().driver(net).pins());
}

/// The roles of a design's nets for an engine that drives those that `driven` marks: what these read is given.
pub(crate) fn roles_of(
    alloc: Global,
    design: &Design,
    driven: &[bool],
) -> Result<Vec<Role>, AllocError>
    requires { length driven.now ≡ nets_of design.now }
    ensures { IfOk result (λ roles. AreOf design.now driven.now roles.items) }
{
    let mut roles = first_roles(alloc, driven)?;
    for net in 0..design.netlist().len() {
        if driven[net] {
            give_pins(design, net, &mut roles);
        }
    }
    Ok(roles)
}
