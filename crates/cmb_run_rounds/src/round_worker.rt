//! What a worker of a run in rounds has.

ghost use Rattle.std.specs.Prelude.{◌≡◌, ◌<◌, ◌≤◌, ◌↔◌, ℕ, false, map, IfOk, IfSome, IsSome, IsTrue, OnOk};
ghost use Rattle.cmb_wave.specs.Wave.{cut_of, new_wave};
ghost use Rattle.cmb_core_cluster.specs.Clustering.{has_input};
ghost use Rattle.cmb_core_cluster.specs.Clusters.{IsDrivenHere, IsSameButWaves, input_slot, told_at};
ghost use Rattle.cmb_core_cluster.specs.Opened.{IsClusterOf, IsOwnNet, held_nets, read_nets};
ghost use Rattle.cmb_core_cluster.specs.Step.{wave_at};
ghost use Rattle.cmb_run_text.specs.Collector.{wave_of};
ghost use Rattle.cmb_run_exact.specs.Passed.{IsPassed};
ghost use Rattle.cmb_run_exact.specs.OfRun.{IsOfRun};
ghost use Rattle.cmb_run_rounds.specs.Inner.Rounds.{HasWorked, IsSwept};

use crate::collected::Collected;
use crate::gauge::Gauge;
use cmb_core_cluster::Clustering;
use cmb_design_model::Design;
use cmb_run_exact::{ClusterRun, ExactCluster, Posted};
use std::alloc::{AllocError, Global};
use std::marker::Model;

/// A worker's cluster, and how the worker stands.
#[derive(Drop)]
pub struct RoundWorker<T: ClusterRun> {
    cluster: ExactCluster<T>,
    gauge: Gauge,
    load: usize,
    refused: bool,
}

impl<T: ClusterRun> Model for RoundWorker<T> {
    ghost use Rattle.cmb_run_rounds.specs.Inner.Rounds.{RoundWorker};

    ghost Value = { RoundWorker };

    ghost view = { λ h. record { cluster = h.cluster; refused = h.refused } };
}

impl<T: ClusterRun> RoundWorker<T> {
    /// The cluster with the worker's number, newly opened.
    pub fn open(
        alloc: Global,
        design: &Design,
        clustering: &Clustering,
        worker: u32,
    ) -> Result<RoundWorker<T>, AllocError>
        requires run { IsOfRun T.design T.clustering design.now clustering.now }
        requires worker { worker < clustering.now.clusters }
        ensures of { IfOk result (λ hand. IsClusterOf T.design T.clustering worker hand.cluster) }
        ensures new { IfOk result (λ hand. hand.cluster.waves
            ≡ map new_wave (held_nets design.now clustering.now worker)) }
    {
        let cluster = ExactCluster::open(alloc, design, clustering, worker)?;
        let Ok(gauge) = Gauge::open(alloc, &cluster) else {
            drop(cluster);
            return Err(AllocError);
        };
        Ok(RoundWorker {
            cluster,
            gauge,
            load: usize::MAX,
            refused: false,
        })
    }

    /// A worker's part of a round. Where it meets want of memory it notes so, and stops.
    pub fn work(&mut self)
        ensures { HasWorked T.design T.clustering self.old self.new }
    {
        self.refused = self.step().is_err();
    }

    // Steps each net of the cluster once, unless all are known to their end.
    fn step(&mut self) -> Result<(), AllocError>
        ensures same { IsSameButWaves self.old.cluster self.new.cluster }
        ensures swept { (worker : ℕ) → IsClusterOf T.design T.clustering worker self.old.cluster
            → OnOk result (IsSwept T.design T.clustering worker self.old.cluster.waves self.new.cluster.waves) }
    {
        self.load = 0;
        if self.cluster.complete() {
            return Ok(());
        }
        if self.cluster.step()? {
            self.load = self.gauge.read(&self.cluster);
        }
        Ok(())
    }

    /// Whether the worker met want of memory in its last round.
    pub fn refused(&self) -> bool
        ensures { result ≡ self.now.refused }
    {
        self.refused
    }

    /// About how many looks at a net the worker's next round takes. Before the first round there is no
    /// telling, and it is the greatest number.
    pub(crate) fn load(&self) -> usize {
        self.load
    }

    /// The nets that the worker reads and doesn't drive, by rising number.
    pub fn inputs(&self) -> &[u32]
        ensures { (worker : ℕ) → IsClusterOf T.design T.clustering worker self.now.cluster
            → result.now ≡ read_nets T.design T.clustering worker }
    {
        self.cluster.inputs()
    }

    /// How far such a net is known to the worker, None of any other.
    pub fn in_clock(&self, net: u32) -> Option<u32>
        ensures { result ≡ told_at (λ wave. wave.clock) self.now.cluster net (input_slot self.now.cluster net) }
    {
        self.cluster.in_clock(net)
    }

    /// The piece of a net from a tick up to its clock, none where it isn't known further or isn't driven here.
    pub fn post(&self, net: u32, from: u32) -> Result<Option<Posted<T>>, AllocError>
        ensures cut { IfOk result (λ posted.
            IfSome posted (λ piece. piece ≡ cut_of (wave_at self.now.cluster.waves net) from)) }
        ensures new { IfOk result (λ posted.
            IsSome posted ↔ (IsDrivenHere self.now.cluster net × (from < (wave_at self.now.cluster.waves net).clock))) }
    {
        self.cluster.post(net, from)
    }

    /// Gives a piece to the cluster.
    pub fn deliver(&mut self, posted: &Posted<T>) -> Result<(), AllocError>
        requires read { IsSome (input_slot self.old.cluster posted.now.net) }
        requires joined { posted.now.from ≤ (wave_at self.old.cluster.waves posted.now.net).clock }
        ensures passed { IsSome (input_slot self.old.cluster posted.now.net)
            → posted.now.from ≤ (wave_at self.old.cluster.waves posted.now.net).clock
            → (wave_at self.old.cluster.waves posted.now.net).clock < posted.now.to
            → OnOk result (IsPassed posted.now.net posted.now.to self.old.cluster.waves self.new.cluster.waves) }
        ensures same { IsSameButWaves self.old.cluster self.new.cluster }
    {
        self.cluster.deliver(posted)
    }

    /// Gives the waves of the cluster to what is collected, which then knows each net that is driven here as far.
    pub fn hand_over(self, collected: &mut Collected<T>)
        ensures keeps { (net : ℕ) → (wave_of collected.old.waves net).clock ≤ (wave_of collected.new.waves net).clock }
        ensures given { (worker net : ℕ) → IsClusterOf T.design T.clustering worker self.cluster
            → IsOwnNet T.design T.clustering worker net
            → (wave_at self.cluster.waves net).clock ≤ (wave_of collected.new.waves net).clock }
    {
        collected.adopt_all(self.cluster.into_waves());
    }

    /// Whether each net that is driven here is known up to the horizon.
    pub fn complete(&self) -> bool
        ensures { (worker : ℕ) → IsClusterOf T.design T.clustering worker self.now.cluster → IsTrue result ↔ ((net : ℕ)
            → IsOwnNet T.design T.clustering worker net
            → (wave_at self.now.cluster.waves net).clock ≡ T.design.horizon) }
    {
        self.cluster.complete()
    }
}
