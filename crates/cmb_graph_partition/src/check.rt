//! Whether nets are partitioned as they should be.

ghost use Rattle.std.specs.Prelude.{◌≡◌, ℕ, ◌<◌, true, length, All};
ghost use Rattle.cmb_netlist.specs.Netlist.{driver_of, pins_of};
ghost use Rattle.cmb_graph_partition.specs.Partitions.{Crosses, Drives, IsFlop, IsPartition, Knows, KnowsAll, Owns};
ghost use Rattle.cmb_graph_partition.specs.Inner.Shapes.{IsShaped};
ghost use Rattle.cmb_graph_partition.specs.declared.shares.Share.{Share};

use crate::shares::Partition;
use cmb_graph::{Steps, targets_from};
use cmb_netlist::{Driver, Netlist};

// Whether each net's owner drives it.
fn owners_drive(netlist: &Netlist, partition: &Partition) -> bool
    requires { IsShaped netlist.now partition.now }
    ensures { result ≡ true → (net : ℕ) → net < length netlist.now.names
        → (owner : Share) × Owns partition.now owner net × Drives owner net }
{
    for net in 0..netlist.len() {
        let owner = &partition.shares[partition.owners[net] as usize];
        if !owner.driven[net] {
            return false;
        }
    }
    true
}

/// Whether a net is driven by a flip-flop.
pub(crate) fn is_flop(netlist: &Netlist, net: usize) -> bool
    requires { net < length netlist.now.names }
    ensures { result ≡ true → IsFlop netlist.now net }
{
    matches!(netlist.driver(net), Driver::Flop(_))
}

// Whether flip-flops alone cross.
fn flops_cross(netlist: &Netlist, partition: &Partition) -> bool
    requires { IsShaped netlist.now partition.now }
    ensures { result ≡ true → (net : ℕ) → net < length netlist.now.names
        → Crosses partition.now net → IsFlop netlist.now net }
{
    for net in 0..netlist.len() {
        if partition.crossing[net] && !is_flop(netlist, net) {
            return false;
        }
    }
    true
}

// Whether the share of a number drives a net or is given it.
fn knows(netlist: &Netlist, partition: &Partition, number: usize, net: usize) -> bool
    requires shaped { IsShaped netlist.now partition.now }
    requires number { number < length partition.now.shares.items }
    requires net { net < length netlist.now.names }
    ensures { result ≡ true → Knows partition.now number net }
{
    partition.crossing[net] || partition.shares[number].driven[net]
}

// Whether the share of a number knows what a net's value rule asks for.
fn knows_asked(netlist: &Netlist, partition: &Partition, number: usize, net: usize) -> bool
    requires shaped { IsShaped netlist.now partition.now }
    requires number { number < length partition.now.shares.items }
    requires net { net < length netlist.now.names }
    ensures { result ≡ true → All (Knows partition.now number) (pins_of (driver_of netlist.now net)) }
{
    for other in targets_from(netlist, Steps::All, net) {
        if !knows(netlist, partition, number, *other as usize) {
            return false;
        }
    }
    true
}

// Whether the share of a number knows what the value rules of the nets ask for that it drives.
fn knows_all(netlist: &Netlist, partition: &Partition, number: usize) -> bool
    requires shaped { IsShaped netlist.now partition.now }
    requires number { number < length partition.now.shares.items }
    ensures { result ≡ true → KnowsAll netlist.now partition.now number }
{
    for net in 0..netlist.len() {
        if partition.shares[number].driven[net] && !knows_asked(netlist, partition, number, net) {
            return false;
        }
    }
    true
}

/// Whether what is shaped as a partition is one.
pub(crate) fn is_lawful(netlist: &Netlist, partition: &Partition) -> bool
    requires { IsShaped netlist.now partition.now }
    ensures { result ≡ true → IsPartition netlist.now partition.now }
{
    if !owners_drive(netlist, partition) || !flops_cross(netlist, partition) {
        return false;
    }
    for number in 0..partition.shares.len() {
        if !knows_all(netlist, partition, number) {
            return false;
        }
    }
    true
}
