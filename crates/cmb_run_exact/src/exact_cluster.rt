//! What a run's workers hold and hand on: all of it is exact in the run's design, by its type.

ghost use Rattle.std.specs.Prelude.{◌≡◌, ◌<◌, ◌↔◌, ◌≤◌, ℕ, true, map, All, IfOk, IfSome, IsSome, OnOk, Ok, Err};
ghost use Rattle.cmb_wave.specs.Calls.{promised};
ghost use Rattle.cmb_wave.specs.Wave.{Wave as WaveOf, cut_of, new_wave};
ghost use Rattle.cmb_wave.specs.declared.level.Heard.{Heard as Hearing};
ghost use Rattle.std.specs.List.{AllByRecursion};
ghost use Rattle.cmb_design_model.specs.Exact.{IsExactIn, IsExactWaveIn, IsRightIn};
ghost use Rattle.cmb_core_cluster.specs.Clusters.{IsDrivenHere, IsSameButWaves, delivered, heard_at, input_slot};
ghost use Rattle.cmb_core_cluster.specs.Clusters.{inputs_of};
ghost use Rattle.cmb_core_cluster.specs.Clusters.{is_complete, outputs_of, told_at};
ghost use Rattle.cmb_core_cluster.specs.Opened.{IsClusterOf, IsOwnNet, held_nets, own_nets, read_nets};
ghost use Rattle.cmb_core_cluster.specs.Sweep.{some_rises, stepped_waves};
ghost use Rattle.cmb_core_cluster.specs.Step.{wave_at, with_wave};
ghost use Rattle.cmb_core_cluster.specs.declared.delivery.DeliverFault.{DeliverFault as Refusal};
ghost use Rattle.cmb_run_exact.specs.Passed.{IsHeard, IsPassed};
ghost use Rattle.cmb_run_exact.specs.OfRun.{IsOfRun};

use crate::cluster_run::ClusterRun;
use cmb_core_cluster::{Cluster, Clustering, DeliverFault};
use cmb_design_model::Design;
use cmb_wave::{Heard, Piece, Promise, Wave};
use std::alloc::{AllocError, Global};
use std::marker::{Model, PhantomData};

/// A piece that is exact in the run's design.
#[derive(Drop)]
pub struct Posted<T: ClusterRun> {
    piece: Piece,
    of: PhantomData<T>,
}

impl<T: ClusterRun> Model for Posted<T> {
    ghost use Rattle.cmb_wave.specs.Wave.{Piece};
    ghost use Rattle.cmb_design_model.specs.Exact.{IsExactIn};

    ghost Value = { Piece };

    ghost view = { λ p. p.piece };

    ghost invariant = { λ p. IsExactIn T.design p.piece };
}

impl<T: ClusterRun> Posted<T> {
    /// A piece that was posted.
    pub fn new(piece: Piece) -> Posted<T>
        requires { IsExactIn T.design piece }
        ensures { result ≡ piece }
    {
        Posted {
            piece,
            of: PhantomData,
        }
    }

    /// The piece itself.
    pub fn piece(&self) -> &Piece
        ensures piece { result.now ≡ self.now }
        ensures exact { IsExactIn T.design result.now }
    {
        &self.piece
    }

    /// The piece, given up.
    pub fn into_piece(self) -> Piece
        ensures piece { result ≡ self }
        ensures exact { IsExactIn T.design result }
    {
        self.piece
    }
}

/// A cluster of the run, each wave of which is its net's up to its clock.
#[derive(Drop)]
pub struct ExactCluster<T: ClusterRun> {
    number: u32,
    cluster: Cluster,
    horizon: u32,
    // So many pieces were given since the cluster last forgot what nobody needs.
    given: usize,
    of: PhantomData<T>,
    ghost end: { horizon ≡ T.design.horizon },
}

impl<T: ClusterRun> Model for ExactCluster<T> {
    ghost use Rattle.cmb_core_cluster.specs.Clusters.{Cluster};
    ghost use Rattle.cmb_core_cluster.specs.Exactness.{IsExactCluster};

    ghost Value = { Cluster };

    ghost view = { λ p. p.cluster };

    ghost invariant = { λ p. IsExactCluster T.design T.clustering p.number p.cluster };
}

impl<T: ClusterRun> ExactCluster<T> {
    /// The cluster with this number, of which nothing is known yet.
    pub fn open(
        alloc: Global,
        design: &Design,
        clustering: &Clustering,
        number: u32,
    ) -> Result<ExactCluster<T>, AllocError>
        requires run { IsOfRun T.design T.clustering design.now clustering.now }
        requires number { number < clustering.now.clusters }
        ensures new { IfOk result (λ cluster.
            cluster.waves ≡ map new_wave (held_nets design.now clustering.now number)) }
        ensures of { IfOk result (λ cluster. IsClusterOf T.design T.clustering number cluster) }
    {
        let cluster = Cluster::open(alloc, design, clustering, number)?;
        Ok(ExactCluster {
            number,
            cluster,
            horizon: design.horizon(),
            given: 0,
            of: PhantomData,
        })
    }

    /// The tick at which a net is known to its end.
    pub fn horizon(&self) -> u32
        ensures { result ≡ T.design.horizon }
    {
        self.horizon
    }

    /// Steps each net that is driven here once, in order, and says whether a clock rose. Once as many pieces
    /// were given as nets are read, what nobody needs any more is forgotten.
    pub fn step(&mut self) -> Result<bool, AllocError>
        ensures rose { (cluster : ℕ) → IsClusterOf T.design T.clustering cluster self.old
            → IfOk result (λ rose. rose ≡ some_rises T.design self.old.waves (own_nets T.design T.clustering cluster)) }
        ensures clocks { (cluster net : ℕ) → IsClusterOf T.design T.clustering cluster self.old
            → OnOk result ((wave_at self.new.waves net).clock
            ≡ (wave_at (stepped_waves T.design self.old.waves (own_nets T.design T.clustering cluster)) net).clock) }
        ensures rises { (net : ℕ) → (wave_at self.old.waves net).clock ≤ (wave_at self.new.waves net).clock }
        ensures same { IsSameButWaves self.old self.new }
    {
        let rose = self.cluster.step_all()?;
        if rose && self.given > 0 && self.given >= self.cluster.inputs().len() {
            self.cluster.trim();
            self.given = 0;
        }
        Ok(rose)
    }

    /// The piece of a net from a tick up to its clock, none where it isn't known further or isn't driven here.
    pub fn post(&self, net: u32, from: u32) -> Result<Option<Posted<T>>, AllocError>
        ensures cut { IfOk result (λ posted.
            IfSome posted (λ piece. piece ≡ cut_of (wave_at self.now.waves net) from)) }
        ensures new { IfOk result (λ posted.
            IsSome posted ↔ (IsDrivenHere self.now net × (from < (wave_at self.now.waves net).clock))) }
    {
        let Some(clock) = self.cluster.out_clock(net) else {
            return Ok(None);
        };
        if clock <= from {
            return Ok(None);
        }
        match self.cluster.post(net, from)? {
            Some(piece) => Ok(Some(Posted::new(piece))),
            None => Ok(None),
        }
    }

    /// Gives a piece, which leaves no gap, to the input wave of its net. One that has nothing new, since a promise
    /// overtook it, changes nothing.
    pub fn deliver(&mut self, posted: &Posted<T>) -> Result<(), AllocError>
        requires read { IsSome (input_slot self.old posted.now.net) }
        requires joined { posted.now.from ≤ (wave_at self.old.waves posted.now.net).clock }
        ensures taken { (wave : WaveOf) → delivered self.old posted.now ≡ Ok wave
            → OnOk result (self.new.waves ≡ with_wave self.old.waves wave) }
        ensures refused { (fault : Refusal) → delivered self.old posted.now ≡ Err fault → self.new ≡ self.old }
        ensures passed { IsSome (input_slot self.old posted.now.net)
            → posted.now.from ≤ (wave_at self.old.waves posted.now.net).clock
            → (wave_at self.old.waves posted.now.net).clock < posted.now.to
            → OnOk result (IsPassed posted.now.net posted.now.to self.old.waves self.new.waves) }
        ensures still { posted.now.to ≤ (wave_at self.old.waves posted.now.net).clock → self.new ≡ self.old }
        ensures rises { (net : ℕ) → (wave_at self.old.waves net).clock ≤ (wave_at self.new.waves net).clock }
        ensures same { IsSameButWaves self.old self.new }
    {
        self.given = self.given.saturating_add(1);
        match self.cluster.deliver(posted.piece()) {
            Ok(_) | Err(DeliverFault::Old { .. }) => Ok(()),
            Err(DeliverFault::Memory) => Err(AllocError),
            Err(_) => unreachable!(),
        }
    }

    /// How far a net is known, and how many changes it has there. None where it isn't driven here.
    pub fn promise(&self, net: u32) -> Option<Promise>
        ensures driven { IsSome result ↔ IsDrivenHere self.now net }
        ensures promised { IfSome result (λ promise. promise ≡ promised (wave_at self.now.waves net)) }
        ensures right { IfSome result (λ promise. IsRightIn T.design promise) }
    {
        match self.cluster.out_clock(net) {
            Some(_) => Some(self.cluster.promise(net)),
            None => None,
        }
    }

    /// Tells a promise to the input wave of its net. What is no input here counts as known.
    pub fn hear(&mut self, promise: Promise) -> Heard
        requires { IsRightIn T.design promise }
        ensures answer { (heard : Hearing) → heard_at self.old promise (input_slot self.old promise.net) ≡ Ok heard
            → result ≡ heard }
        ensures waves { IsHeard promise self.old self.new (input_slot self.old promise.net) }
        ensures rises { (net : ℕ) → (wave_at self.old.waves net).clock ≤ (wave_at self.new.waves net).clock }
        ensures same { IsSameButWaves self.old self.new }
    {
        match self.cluster.hear(promise) {
            Ok(heard) => heard,
            Err(_) => Heard::Old,
        }
    }

    /// The nets that are driven here, by rising number.
    pub fn driven(&self) -> &[u32]
        ensures { result.now ≡ map (λ wave. wave.net) (outputs_of self.now) }
    {
        self.cluster.driven()
    }

    /// The other nets that they read, by rising number.
    pub fn inputs(&self) -> &[u32]
        ensures nets { result.now ≡ map (λ wave. wave.net) (inputs_of self.now) }
        ensures read { (cluster : ℕ) → IsClusterOf T.design T.clustering cluster self.now
            → result.now ≡ read_nets T.design T.clustering cluster }
        ensures given { All (λ net. IsSome (input_slot self.now net)) result.now }
    {
        self.cluster.inputs()
    }

    /// How far an input wave is known, None where there is none of the net.
    pub fn in_clock(&self, net: u32) -> Option<u32>
        ensures { result ≡ told_at (λ wave. wave.clock) self.now net (input_slot self.now net) }
    {
        self.cluster.in_clock(net)
    }

    /// Whether every net that is driven here is known up to the horizon.
    pub fn complete(&self) -> bool
        ensures complete { result ≡ is_complete self.now }
        ensures known { (cluster net : ℕ) → IsClusterOf T.design T.clustering cluster self.now
            → IsOwnNet T.design T.clustering cluster net → result ≡ true
            → (wave_at self.now.waves net).clock ≡ T.design.horizon }
    {
        self.cluster.complete()
    }

    /// The waves of the nets that are driven here and of the others that they read, given up.
    pub fn into_waves(self) -> Vec<Wave>
        ensures waves { result.items ≡ self.waves }
        ensures whole { (cluster net : ℕ) → IsClusterOf T.design T.clustering cluster self
            → IsOwnNet T.design T.clustering cluster net → (wave_at self.waves net).base ≡ 0 }
        ensures exact { AllByRecursion (IsExactWaveIn T.design) result.items }
    {
        self.cluster.into_waves()
    }
}
