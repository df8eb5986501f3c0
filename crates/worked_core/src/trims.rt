//! The law of trims, applied from outside: what a cluster answers behind a trim is what it would answer without it. The
//! functions here are proved from the public contracts of clusters alone.

ghost use Rattle.std.specs.Prelude.{◌≡◌, ℕ, IfOk, OnOk, IfErr};
ghost use Rattle.cmb_design_model.specs.Design.{Design};
ghost use Rattle.cmb_core_cluster.specs.Clustering.{Clustering};
ghost use Rattle.cmb_core_cluster.specs.Clusters.{RefusesDelivery, delivered, heard_at, input_slot, step_answer};
ghost use Rattle.cmb_core_cluster.specs.Clusters.{step_waves};
ghost use Rattle.cmb_core_cluster.specs.Exactness.{IsExactCluster};
ghost use Rattle.cmb_core_cluster.specs.Opened.{IsOwnNet};
ghost use Rattle.cmb_core_cluster.specs.Step.{wave_at};
ghost use Rattle.cmb_core_cluster.specs.Trims.{IsTrimOf};

use crate::checks::same;
use crate::clusters::{is_piece, toggle};
use crate::toggle::{D, Q, at, pulse};
use cmb_core_cluster::laws::trims_change_no_answer;
use cmb_core_cluster::{Cluster, DeliverFault, Stranger};
use cmb_wave::{Heard, Level, Piece, Promise};
use std::alloc::{AllocError, Global};
use std::process::Abort;
use std::test::Fail;

// Trims a cluster and then steps a net. The answer is that of the cluster as it was, and the cluster is then that one
// after the same step, less what it forgot.
fn trim_and_step(cluster: &mut Cluster, net: u32) -> Result<Option<Piece>, AllocError>
    ensures answer { (design : Design) (clustering : Clustering) (number : ℕ)
        → IsExactCluster design clustering number cluster.old → IsOwnNet design clustering number net
        → IfOk result (λ part. part ≡ step_answer design cluster.old.waves (wave_at cluster.old.waves net)) }
    ensures after { (design : Design) (clustering : Clustering) (number : ℕ)
        → IsExactCluster design clustering number cluster.old → IsOwnNet design clustering number net
        → OnOk result (IsTrimOf (record
        cluster.old { waves = step_waves design cluster.old.waves (wave_at cluster.old.waves net) }) cluster.new) }
    ensures exact { (design : Design) (clustering : Clustering) (number : ℕ)
        → IsExactCluster design clustering number cluster.old → IsExactCluster design clustering number cluster.new }
{
    trims_change_no_answer();
    cluster.trim();
    // That a trimmed cluster keeps what it needs is told by the contract of `inputs`.
    let _ = cluster.inputs();
    cluster.step(net)
}

// Trims a cluster and then gives it a piece. It refuses what the cluster as it was refuses, and for the same reason.
fn trim_and_deliver(cluster: &mut Cluster, piece: &Piece) -> Result<u32, DeliverFault>
    ensures { (design : Design) (clustering : Clustering) (number : ℕ)
        → IsExactCluster design clustering number cluster.old
        → IfErr result (λ fault. RefusesDelivery fault (delivered cluster.old piece.now)) }
{
    trims_change_no_answer();
    cluster.trim();
    cluster.deliver(piece)
}

// Trims a cluster and then tells it a promise. The answer is that of the cluster as it was.
fn trim_and_hear(cluster: &mut Cluster, promise: Promise) -> Result<Heard, Stranger>
    ensures { (design : Design) (clustering : Clustering) (number : ℕ)
        → IsExactCluster design clustering number cluster.old
        → result ≡ heard_at cluster.old promise (input_slot cluster.old promise.net) }
{
    trims_change_no_answer();
    cluster.trim();
    cluster.hear(promise)
}

fn trimmed_steps(rt: &impl Abort, alloc: Global, cluster: &mut Cluster) -> Result<(), Fail> {
    let first = pulse(alloc, Q, 0, 3, at(0, Level::Zero))?;
    same(rt, trim_and_deliver(cluster, &first), Ok(3));
    is_piece(rt, trim_and_step(cluster, D)?, 0, 4, &[at(1, Level::One)]);
    let second = pulse(alloc, Q, 3, 7, at(3, Level::One))?;
    same(rt, trim_and_deliver(cluster, &second), Ok(7));
    same(rt, cluster.base(Q), Some(3));
    is_piece(rt, trim_and_step(cluster, D)?, 4, 8, &[at(4, Level::Zero)]);
    Ok(())
}

fn trimmed_answers(rt: &impl Abort, cluster: &mut Cluster) {
    let early = Promise {
        net: Q,
        count: 2,
        upto: 7,
    };
    let late = Promise {
        net: Q,
        count: 2,
        upto: 9,
    };
    same(rt, trim_and_hear(cluster, early), Ok(Heard::Old));
    same(rt, trim_and_hear(cluster, late), Ok(Heard::Extended));
}

// The cluster of the inverter d is trimmed before each call, and answers as the same cluster that never is.
#[test]
fn trims_between_calls(rt: HostRuntime) -> Result<(), Fail> {
    let mut cluster = toggle(&rt, rt.alloc(), 2, 1)?;
    trimmed_steps(&rt, rt.alloc(), &mut cluster)?;
    trimmed_answers(&rt, &mut cluster);
    Ok(())
}
