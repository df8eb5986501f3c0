//! A cluster whose waves are exact: what it gives is exact and right, whatever comes in whatever order.

use cmb_core_cluster::{Cluster, Clustering, DeliverFault, Stranger};
use cmb_design_model::Design;
use cmb_wave::{Heard, Piece, Promise};
use std::alloc::{AllocError, Global};
use std::marker::Model;
use std::snapshot::Snapshot;

/// Contracts see the design that it is a cluster of.
#[derive(Drop)]
pub struct ExactCluster {
    cluster: Cluster,
    number: u32,
    design: Snapshot<Design>,
    clustering: Snapshot<Clustering>,
}

impl Model for ExactCluster {
    ghost use Rattle.cmb_design_model.specs.Design.{Design};
    ghost use Rattle.cmb_core_cluster.specs.Exactness.{IsExactCluster};

    ghost Value = { Design };

    ghost view = { λ c. c.design.value };

    ghost invariant = { λ c. IsExactCluster c.design.value c.clustering.value c.number c.cluster };
}

impl ExactCluster {
    ghost use Rattle.std.specs.Prelude.{◌≡◌, ◌<◌, length, IfOk, IfSome};
    ghost use Rattle.cmb_design_model.specs.Exact.{nets_of, IsExactIn, IsRightIn};

    /// The cluster with this number, of which nothing is known yet.
    pub fn open(
        alloc: Global,
        design: &Design,
        clustering: &Clustering,
        number: u32,
    ) -> Result<ExactCluster, AllocError>
        requires nets { length clustering.now.assign ≡ nets_of design.now }
        requires number { number < clustering.now.clusters }
        ensures { IfOk result (λ c. c ≡ design.now) }
    {
        Ok(ExactCluster {
            cluster: Cluster::open(alloc, design, clustering, number)?,
            number,
            design: Snapshot::of(design),
            clustering: Snapshot::of(clustering),
        })
    }

    /// Lets each net that is driven here go on as far as its operands are known, in order, and says whether one did.
    pub fn step(&mut self) -> Result<bool, AllocError>
        ensures { self.new ≡ self.old }
    {
        self.cluster.step_all()
    }

    /// Gives an exact piece to the input wave of its net, and answers the new clock.
    pub fn deliver(&mut self, piece: &Piece) -> Result<u32, DeliverFault>
        requires { IsExactIn self.old piece.now }
        ensures { self.new ≡ self.old }
    {
        self.cluster.deliver(piece)
    }

    /// Tells a right promise to the input wave of its net.
    pub fn hear(&mut self, promise: Promise) -> Result<Heard, Stranger>
        requires { IsRightIn self.old promise }
        ensures { self.new ≡ self.old }
    {
        self.cluster.hear(promise)
    }

    /// How far a net that is driven here is known, and how many changes it has there. None of any other net.
    pub fn promise(&self, net: u32) -> Option<Promise>
        ensures { IfSome result (IsRightIn self.now) }
    {
        match self.cluster.out_clock(net) {
            Some(_) => Some(self.cluster.promise(net)),
            None => None,
        }
    }

    /// The piece of a net that is driven here from a tick up to its clock. None of any other net, and where its clock
    /// isn't above the tick.
    pub fn post(&self, net: u32, from: u32) -> Result<Option<Piece>, AllocError>
        ensures { IfOk result (λ piece. IfSome piece (IsExactIn self.now)) }
    {
        match self.cluster.out_clock(net) {
            Some(clock) if from < clock => self.cluster.post(net, from),
            _ => Ok(None),
        }
    }

    /// Whether every net that is driven here is known up to the horizon.
    pub fn complete(&self) -> bool {
        self.cluster.complete()
    }
}
