//! What a cluster answers of its waves as they stand.

ghost use Rattle.std.specs.Prelude.{◌≡◌, ◌<◌, ◌≤◌, ◌==◌, ◌&&◌, not, ℕ, true, IfOk, IfSome, map, length, Ok, Some, None};
ghost use Rattle.std.specs.List.{AllByRecursion, list_all};
ghost use Rattle.cmb_wave.specs.Calls.{cut, promised};
ghost use Rattle.cmb_design_model.specs.Design.{Design};
ghost use Rattle.cmb_design_model.specs.Exact.{IsExactIn, IsExactWaveIn, IsRightIn};
ghost use Rattle.cmb_core_cluster.specs.Clustering.{Clustering as Clusters};
ghost use Rattle.cmb_core_cluster.specs.Clusters.{IsDrivenHere, IsSound, inputs_of, input_slot, is_complete};
ghost use Rattle.cmb_core_cluster.specs.Directory.{driven_among};
ghost use Rattle.cmb_core_cluster.specs.Clusters.{output_slot, outputs_of, told_at};
ghost use Rattle.cmb_core_cluster.specs.Exactness.{IsExactCluster};
ghost use Rattle.cmb_core_cluster.specs.Opened.{IsClusterOf, IsOwnNet, own_nets, read_nets};
ghost use Rattle.cmb_core_cluster.specs.Rows.{is_given};
ghost use Rattle.cmb_core_cluster.specs.Step.{wave_at};

use crate::cluster::Cluster;
use crate::node::Node;
use cmb_wave::{Piece, Promise, Wave};
use std::alloc::AllocError;

// Whether a wave that is not given is not known up to a tick.
fn is_behind(node: &Node, wave: &Wave, upto: u32) -> bool
    ensures { result ≡ (not (is_given node.now.rule) && not (wave.now.clock == upto)) }
{
    !node.is_given() && wave.clock() != upto
}

// Whether every wave that is not given is known up to a tick.
fn all_known(nodes: &[Node], waves: &[Wave], upto: u32) -> bool
    requires { length waves.now ≡ length nodes.now }
    ensures { result ≡ list_all (λ wave. wave.clock == upto) (driven_among nodes.now waves.now) }
{
    for slot in 0..waves.len() {
        if is_behind(&nodes[slot], &waves[slot], upto) {
            return false;
        }
    }
    true
}

impl Cluster {
    // The place of the wave of a net that is driven here.
    fn driven_place(&self, net: u32) -> usize
        requires { IsDrivenHere self.now net }
        ensures there { result < length self.now.waves }
        ensures place { output_slot self.now net ≡ Some result }
    {
        match self.output_place(net) {
            Some(slot) => slot,
            None => unreachable!(),
        }
    }

    /// The piece of a net that is driven here from a tick up to its clock, none where that is its clock,
    /// also where there is no memory. Of exact waves it is exact.
    pub fn post(&self, net: u32, from: u32) -> Result<Option<Piece>, AllocError>
        requires driven { IsDrivenHere self.now net }
        requires known { from ≤ (wave_at self.now.waves net).clock }
        ensures cut { IfOk result (λ piece. piece ≡ cut (wave_at self.now.waves net) from) }
        ensures idle { from ≡ (wave_at self.now.waves net).clock → result ≡ Ok None }
        ensures sent { (design : Design) (clustering : Clusters) (cluster : ℕ)
            → IsExactCluster design clustering cluster self.now
            → IfOk result (λ piece. IfSome piece (IsExactIn design)) }
    {
        self.wave(self.driven_place(net)).cut(from)
    }

    /// How far a net that is driven here is known, and how many changes it has there. Of exact waves it
    /// is right.
    pub fn promise(&self, net: u32) -> Promise
        requires { IsDrivenHere self.now net }
        ensures promised { result ≡ promised (wave_at self.now.waves net) }
        ensures right { (design : Design) (clustering : Clusters) (cluster : ℕ)
            → IsExactCluster design clustering cluster self.now → IsRightIn design result }
    {
        self.wave(self.driven_place(net)).promise()
    }

    /// The clock of a net that is driven here, None of any other.
    pub fn out_clock(&self, net: u32) -> Option<u32>
        ensures { result ≡ told_at (λ wave. wave.clock) self.now net (output_slot self.now net) }
    {
        match self.output_place(net) {
            Some(slot) => Some(self.wave(slot).clock()),
            None => None,
        }
    }

    /// The clock of an input wave, None where the cluster has none of the net.
    pub fn in_clock(&self, net: u32) -> Option<u32>
        ensures { result ≡ told_at (λ wave. wave.clock) self.now net (input_slot self.now net) }
    {
        match self.input_place(net) {
            Some(place) => Some(self.wave(place).clock()),
            None => None,
        }
    }

    /// The tick from which on an input wave is kept, None where the cluster has none of the net.
    pub fn base(&self, net: u32) -> Option<u32>
        ensures { result ≡ told_at (λ wave. wave.base) self.now net (input_slot self.now net) }
    {
        match self.input_place(net) {
            Some(slot) => Some(self.wave(slot).base()),
            None => None,
        }
    }

    /// The nets that are driven here, by rising number.
    pub fn driven(&self) -> &[u32]
        ensures nets { result.now ≡ map (λ wave. wave.net) (outputs_of self.now) }
        ensures own { (design : Design) (clustering : Clusters) (cluster : ℕ)
            → IsClusterOf design clustering cluster self.now → result.now ≡ own_nets design clustering cluster }
    {
        self.directory.driven.as_slice()
    }

    /// The other nets that they read, by rising number. The waves of these keep what is still needed of them.
    pub fn inputs(&self) -> &[u32]
        ensures nets { result.now ≡ map (λ wave. wave.net) (inputs_of self.now) }
        ensures sound { IsSound self.now }
        ensures read { (design : Design) (clustering : Clusters) (cluster : ℕ)
            → IsClusterOf design clustering cluster self.now → result.now ≡ read_nets design clustering cluster }
    {
        self.directory.inputs.as_slice()
    }

    /// Whether every net that is driven here is known up to the horizon.
    pub fn complete(&self) -> bool
        ensures complete { result ≡ is_complete self.now }
        ensures known { (design : Design) (clustering : Clusters) (cluster net : ℕ)
            → IsClusterOf design clustering cluster self.now → IsOwnNet design clustering cluster net → result ≡ true
            → (wave_at self.now.waves net).clock ≡ design.horizon }
    {
        all_known(&self.processes, &self.waves, self.horizon)
    }

    /// All waves of the cluster, given up: those of the nets that are driven here, and those that it was
    /// given. Copies no change. Of a net that is driven here nothing was forgotten.
    pub fn into_waves(self) -> Vec<Wave>
        ensures waves { result.items ≡ self.waves }
        ensures whole { (design : Design) (clustering : Clusters) (cluster net : ℕ)
            → IsClusterOf design clustering cluster self → IsOwnNet design clustering cluster net
            → (wave_at self.waves net).base ≡ 0 }
        ensures exact { (design : Design) (clustering : Clusters) (cluster : ℕ)
            → IsExactCluster design clustering cluster self → AllByRecursion (IsExactWaveIn design) result.items }
    {
        let Cluster { waves, .. } = self;
        waves
    }
}
