//! A worker's way out: a link to the collector or to another worker, and the nets that go there.

ghost use Rattle.std.specs.Prelude.{◌≡◌, true, None, Some, Ok, IfOk};
ghost use Rattle.cmb_core_cluster.specs.Clusters.{Cluster};
ghost use Rattle.cmb_links.specs.Links.{after_put};
ghost use Rattle.cmb_run_free.specs.Inner.Channels.{IsFurther, IsOutlet, MayFollow, MayWait, due};
ghost use Rattle.cmb_run_free.specs.Inner.Turns.{OutGoes, outbound};

use crate::ends::{PutEnd, TakeEnd, open_link};
use crate::passing::{Passing, leave_out_done, unsent};
use cmb_design_model::Design;
use cmb_run_exact::{ClusterRun, ExactCluster, Posted};
use std::alloc::{AllocError, Global};
use std::marker::Model;
use std::sync::Wait;

/// A link, and the nets that go there. Contracts see what was put, and what waits.
#[derive(Drop)]
pub struct Out<T: ClusterRun> {
    end: PutEnd<T>,
    outlets: Vec<Passing>,
    /// A piece that found the link full.
    waiting: Option<Posted<T>>,
    /// The place of the net that is put next.
    next: usize,
    /// Whether pieces without a change go there too.
    takes_empty: bool,
    /// Whether there may be something to put.
    is_left: bool,
}

impl<T: ClusterRun> Model for Out<T> {
    ghost use Rattle.cmb_run_free.specs.Inner.Channels.{Outbound, IsOutbound};

    ghost Value = { Outbound };

    ghost view = { λ o. record { pass = o.end; waiting = o.waiting } };

    // No piece of a net that goes there is lost.
    ghost invariant = { λ o. IsOutbound T.design.horizon o.end o.waiting o.outlets.items };
}

// Puts a piece, or keeps it where the link is full. Says whether it was put.
fn put_or_keep<T: ClusterRun, R: Wait>(
    rt: &R,
    end: &mut PutEnd<T>,
    waiting: &mut Option<Posted<T>>,
    posted: Posted<T>,
) -> bool
    requires follows { MayFollow end.old posted }
    requires none { waiting.old ≡ None }
    ensures put { result ≡ true → waiting.new ≡ None }
    ensures waits { MayWait end.new waiting.new }
    ensures due { due end.new waiting.new ≡ after_put end.old posted }
    ensures goes { (cluster : Cluster) → OutGoes T.design T.clustering cluster (outbound end.old (Some posted))
        (outbound end.new waiting.new) }
{
    match end.put(rt, posted) {
        Ok(()) => true,
        Err(posted) => {
            *waiting = Some(posted);
            false
        }
    }
}

// Puts what is new of a net, or keeps it. Says whether none waits.
fn put_net<T: ClusterRun, R: Wait>(
    rt: &R,
    end: &mut PutEnd<T>,
    waiting: &mut Option<Posted<T>>,
    outlet: &mut Passing,
    cluster: &ExactCluster<T>,
    takes_empty: bool,
) -> Result<bool, AllocError>
    requires outlet { IsOutlet T.design.horizon end.old outlet.old }
    requires none { waiting.old ≡ None }
    ensures put { result ≡ Ok true → waiting.new ≡ None }
    ensures waits { MayWait end.new waiting.new }
    ensures outlet { IsOutlet T.design.horizon (due end.new waiting.new) outlet.new }
    ensures further { IsFurther end.old (due end.new waiting.new) }
    ensures goes { OutGoes T.design T.clustering cluster.now (outbound end.old waiting.old)
        (outbound end.new waiting.new) }
{
    match outlet.cut(cluster, takes_empty)? {
        Some(posted) => Ok(put_or_keep(rt, end, waiting, posted)),
        None => Ok(true),
    }
}

impl<T: ClusterRun> Out<T> {
    ghost use Rattle.cmb_run_free.specs.Inner.Channels.{IsNewOut};

    /// A new link by which these nets go, and the end that takes.
    pub(crate) fn open(
        alloc: Global,
        design: &Design,
        nets: &[u32],
        takes_empty: bool,
    ) -> Result<(Out<T>, TakeEnd<T>), AllocError>
        requires { design.now ≡ T.design }
        ensures { IfOk result (λ opened. IsNewOut nets.now opened.0 opened.1) }
    {
        let outlets = unsent(alloc, nets)?;
        let (end, take) = open_link(alloc, design, nets)?;
        let out = Out {
            end,
            outlets,
            waiting: None,
            next: 0,
            takes_empty,
            is_left: false,
        };
        Ok((out, take))
    }

    // Puts the piece that waits, if there is one. Says whether none waits any more.
    fn put_waiting<R: Wait>(&mut self, rt: &R) -> bool
        ensures none { result ≡ true → self.new.waiting ≡ None }
        ensures goes { (cluster : Cluster) → OutGoes T.design T.clustering cluster self.old self.new }
    {
        match self.waiting.take() {
            Some(posted) => put_or_keep(rt, &mut self.end, &mut self.waiting, posted),
            None => true,
        }
    }

    // Puts what is new of each net, and begins where it last stopped. Where the link was full something
    // is left. A net that was put up to the horizon is done.
    fn put_nets<R: Wait>(&mut self, rt: &R, cluster: &ExactCluster<T>) -> Result<(), AllocError>
        ensures { OutGoes T.design T.clustering cluster.now self.old self.new }
    {
        if !self.put_waiting(rt) {
            return Ok(());
        }
        for _ in 0..self.outlets.len() {
            let place = if self.next < self.outlets.len() {
                self.next
            } else {
                0
            };
            let outlet = &mut self.outlets[place];
            self.next = place + 1;
            if !put_net(
                rt,
                &mut self.end,
                &mut self.waiting,
                outlet,
                cluster,
                self.takes_empty,
            )? {
                return Ok(());
            }
        }
        leave_out_done(&mut self.outlets, cluster.horizon());
        self.is_left = false;
        Ok(())
    }

    /// Puts what is new, that of the last step and what was left. Says whether something is left.
    pub(crate) fn put_all<R: Wait>(
        &mut self,
        rt: &R,
        cluster: &ExactCluster<T>,
        is_new: bool,
    ) -> Result<bool, AllocError>
        ensures { OutGoes T.design T.clustering cluster.now self.old self.new }
    {
        self.is_left |= is_new;
        if self.is_left {
            self.put_nets(rt, cluster)?;
        }
        Ok(self.is_left)
    }
}
