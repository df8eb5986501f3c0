//! Nets by what drives them.

ghost use Rattle.std.specs.Prelude.{◌≡◌, ◌<◌, ◌≤◌, ◌==◌, length};
ghost use Rattle.cmb_netlist.specs.Netlist.{driver_of};
ghost use Rattle.cmb_design_model.specs.Nets.{driver_cell, is_at, kind_number};
ghost use Rattle.cmb_count.specs.DriverKinds.{has_kind, is_silent, is_still, kind_count, silent_count, still_count};

use cmb_design_model::Design;
use cmb_netlist::{Driver, Kind, Netlist};

/// What drives the nets that are counted together.
#[derive(Clone, Copy)]
pub enum DriverKind {
    /// INPUT statements.
    Inputs,
    /// Gates of a kind.
    Gates(Kind),
    /// Flip-flops.
    Flops,
}

// Kinds are compared by their numbers, in the order of their declaration; 8 is that of flip-flops.
fn is_gate(kind: Kind, driver: &Driver) -> bool
    ensures { result ≡ is_at (driver_cell driver.now) (kind_number kind) }
{
    match driver {
        Driver::Input => false,
        Driver::Gate(other, _) => *other as u32 == kind as u32,
        Driver::Flop(_) => 8 == kind as u32,
    }
}

/// Whether a driver is of a kind.
pub(crate) fn has_kind(wanted: &DriverKind, driver: &Driver) -> bool
    ensures { result ≡ has_kind wanted.now driver.now }
{
    match wanted {
        DriverKind::Inputs => matches!(driver, Driver::Input),
        DriverKind::Gates(kind) => is_gate(*kind, driver),
        DriverKind::Flops => matches!(driver, Driver::Flop(_)),
    }
}

/// How many nets are driven by drivers of a kind.
#[tactic(auto, using(crate::proofs::BelowFacts::count_below_next, crate::proofs::BelowFacts::count_below_none))]
pub fn count_drivers(netlist: &Netlist, wanted: &DriverKind) -> usize
    ensures { result ≡ kind_count netlist.now wanted.now }
{
    let mut count = 0;
    for net in 0..netlist.len() {
        count += usize::from(has_kind(wanted, netlist.driver(net)));
    }
    count
}

/// Whether a net is an input that is x at each tick below the horizon.
pub fn is_silent_input(design: &Design, net: usize) -> bool
    requires { net < length design.now.netlist.names }
    ensures { result ≡ is_silent design.now net }
{
    has_kind(&DriverKind::Inputs, design.netlist().driver(net))
        && design.stim_changes(net).is_empty()
}

/// How many inputs are x at each tick below the horizon.
#[tactic(auto, using(crate::proofs::BelowFacts::count_below_next, crate::proofs::BelowFacts::count_below_none))]
pub fn count_silent(design: &Design) -> usize
    ensures { result ≡ silent_count design.now }
{
    let mut count = 0;
    for net in 0..design.netlist().len() {
        count += usize::from(is_silent_input(design, net));
    }
    count
}

pub(crate) fn is_still_flop(design: &Design, net: usize) -> bool
    requires { net < length design.now.netlist.names }
    ensures { result ≡ is_still design.now net }
{
    has_kind(&DriverKind::Flops, design.netlist().driver(net))
        && design.horizon() <= design.clock(net).first
}

/// How many flip-flops have no sample tick below the horizon.
#[tactic(auto, using(crate::proofs::BelowFacts::count_below_next, crate::proofs::BelowFacts::count_below_none))]
pub fn count_still(design: &Design) -> usize
    ensures { result ≡ still_count design.now }
{
    let mut count = 0;
    for net in 0..design.netlist().len() {
        count += usize::from(is_still_flop(design, net));
    }
    count
}
