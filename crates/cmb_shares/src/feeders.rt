//! Which shares feed a share.

ghost use Rattle.std.specs.Prelude.{◌≡◌, ◌<◌, ℕ, true, false, length, All, Contains, IfOk, slice_index, slice_index_or};
ghost use Rattle.cmb_design_model.specs.Exact.{nets_of};
ghost use Rattle.cmb_engine.specs.Shares.{IsDriven, IsGiven};
ghost use Rattle.cmb_netlist.specs.Netlist.{driver_of, pins_of};

use cmb_design_model::Design;
use cmb_graph::{Steps, targets_from};
use cmb_netlist::Netlist;
use std::alloc::{AllocError, Global};

// Marks the owners of those of some nets that aren't driven.
fn mark(nets: &[u32], driven: &[bool], owners: &[u32], feeders: &mut Vec<bool>)
    requires nets { All (λ net. net < length owners.now) nets.now }
    requires driven { length driven.now ≡ length owners.now }
    requires owners { All (λ owner. owner < length feeders.old.items) owners.now }
    ensures len { length feeders.new.items ≡ length feeders.old.items }
    ensures kept { (k : ℕ) → slice_index_or feeders.old.items k false ≡ true
        → slice_index_or feeders.new.items k false ≡ true }
    ensures marked { (net : ℕ) → Contains nets.now net → slice_index_or driven.now net false ≡ false
        → slice_index_or feeders.new.items (slice_index owners.now net) false ≡ true }
{
    for net in nets {
        let net = *net as usize;
        if !driven[net] {
            feeders[owners[net] as usize] = true;
        }
    }
}

// Marks the owners of what a net reads of nets that aren't driven, where it is driven itself.
fn mark_read(
    netlist: &Netlist,
    reader: usize,
    driven: &[bool],
    owners: &[u32],
    feeders: &mut Vec<bool>,
)
    requires reader { reader < length netlist.now.names }
    requires nets { length owners.now ≡ length netlist.now.names }
    requires driven { length driven.now ≡ length netlist.now.names }
    requires owners { All (λ owner. owner < length feeders.old.items) owners.now }
    ensures len { length feeders.new.items ≡ length feeders.old.items }
    ensures kept { (k : ℕ) → slice_index_or feeders.old.items k false ≡ true
        → slice_index_or feeders.new.items k false ≡ true }
    ensures marked { IsDriven driven.now reader → (net : ℕ) → Contains (pins_of (driver_of netlist.now reader)) net
        → slice_index_or driven.now net false ≡ false
        → slice_index_or feeders.new.items (slice_index owners.now net) false ≡ true }
{
    // Its contract tells that what is read are nets.
    let _nets = netlist.len();
    if driven[reader] {
        mark(
            targets_from(netlist, Steps::All, reader),
            driven,
            owners,
            feeders,
        );
    }
}

/// The shares, of so many, that own a net which this one, which drives these nets, reads and doesn't drive.
pub(crate) fn feeders_of(
    alloc: Global,
    design: &Design,
    owners: &[u32],
    driven: &[bool],
    shares: usize,
) -> Result<Vec<bool>, AllocError>
    requires owners { length owners.now ≡ nets_of design.now }
    requires driven { length driven.now ≡ nets_of design.now }
    requires below { All (λ owner. owner < shares) owners.now }
    ensures len { IfOk result (λ feeders. length feeders.items ≡ shares) }
    ensures marked { IfOk result (λ feeders. (net : ℕ) → IsGiven design.now driven.now net
        → slice_index_or feeders.items (slice_index owners.now net) false ≡ true) }
{
    let netlist = design.netlist();
    let mut feeders = vec![in alloc; false; shares]?;
    for reader in 0..netlist.len() {
        mark_read(netlist, reader, driven, owners, &mut feeders);
    }
    Ok(feeders)
}
