//! What shares have to do.

ghost use Rattle.std.specs.Prelude.{◌≡◌, ◌≤◌, length};
ghost use Rattle.cmb_graph_partition.specs.Partitions.{load_of, total_of};

use crate::shares::Share;

/// What it costs to compute the nets that a share drives, by what each net costs.
pub fn load(costs: &[u32], share: &Share) -> u64
    requires few { length costs.now ≤ 65535 }
    requires marks { length share.now.driven.items ≡ length costs.now }
    ensures { result ≡ load_of costs.now share.now }
{
    let mut sum = 0_u64;
    for net in 0..costs.len() {
        if share.driven[net] {
            sum += u64::from(costs[net]);
        }
    }
    sum
}

/// What it costs to compute all nets once, by what each net costs.
pub fn total(costs: &[u32]) -> u64
    requires { length costs.now ≤ 65535 }
    ensures { result ≡ total_of costs.now }
{
    let mut all = 0_u64;
    for net in 0..costs.len() {
        all += u64::from(costs[net]);
    }
    all
}
