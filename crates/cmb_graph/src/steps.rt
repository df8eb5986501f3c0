//! Steps from a net to the nets that its driver reads.

ghost use Rattle.std.specs.Prelude.{◌≡◌, ◌<◌, length};
ghost use Rattle.cmb_graph.specs.Loops.{targets, targets_of};

use cmb_netlist::{Driver, Netlist};

/// Which steps count.
#[derive(Clone, Copy)]
pub enum Steps {
    /// Those from a gate to its operands, and from a flip-flop to its data.
    All,
    /// Those from a gate to its operands.
    Gates,
}

fn targets_by(steps: Steps, driver: &Driver) -> &[u32]
    ensures { result.now ≡ targets_of steps driver.now }
{
    match (steps, driver) {
        (Steps::Gates, Driver::Flop(_)) => &[],
        _ => driver.pins(),
    }
}

/// The nets to which a step leads from a net.
pub fn targets_from(netlist: &Netlist, steps: Steps, net: usize) -> &[u32]
    requires { net < length netlist.now.names }
    ensures { result.now ≡ targets netlist.now steps net }
{
    targets_by(steps, netlist.driver(net))
}
