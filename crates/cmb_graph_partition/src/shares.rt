//! What a partition is.

ghost use Rattle.std.specs.Prelude.{◌≡◌, length, IfOk};
ghost use Rattle.cmb_graph_partition.specs.Partitions.{IsPartition};

use cmb_netlist::Netlist;
use std::alloc::{AllocError, Global};

/// The nets that one logical process drives.
#[derive(Drop)]
pub struct Share {
    /// For each net whether the share drives it, which is to say computes it.
    pub driven: Vec<bool>,
}

/// The nets of a netlist, partitioned.
#[derive(Drop)]
pub struct Partition {
    /// For each net the number of the share that owns it: of the shares that drive it the one that reports its changes.
    pub owners: Vec<u32>,
    /// For each net whether a share reads it that doesn't drive it, and so is given it. Such nets are flip-flops.
    pub crossing: Vec<bool>,
    /// The shares, in any order: each may read what any other owns.
    pub shares: Vec<Share>,
}

/// The partition with one share, which has all nets. Errors: memory was refused.
pub fn whole_partition(alloc: Global, netlist: &Netlist) -> Result<Partition, AllocError>
    ensures partition { IfOk result (IsPartition netlist.now) }
    ensures one { IfOk result (λ partition. length partition.shares.items ≡ 1) }
{
    let nets = netlist.len();
    let owners = vec![in alloc; 0; nets]?;
    let crossing = vec![in alloc; false; nets]?;
    let driven = vec![in alloc; true; nets]?;
    let mut shares = Vec::new(alloc);
    shares.push(Share { driven })?;
    Ok(Partition {
        owners,
        crossing,
        shares,
    })
}
