//! A worker of a free run: its cluster, its seat, and what links it to the others.

ghost use Rattle.std.specs.Prelude.{◌≡◌, [], ◌∷◌, ◌++◌, All, IfOk, IsSome, List, MatchResult, OnOk, map};
ghost use Rattle.cmb_core_cluster.specs.Clusters.{input_slot};
ghost use Rattle.cmb_links.specs.Links.{TakeData};
ghost use Rattle.cmb_links.specs.declared.view.View.{View};
ghost use Rattle.cmb_run_free.specs.Inner.Channels.{IsFedBy, IsLater, Outbound};
ghost use Rattle.cmb_run_free.specs.Inner.Turns.{Goes, InGoes, IsCutShort, working};

use crate::ends::TakeEnd;
use crate::outbound::Out;
use crate::passing::{Passing, leave_out_done, unsent};
use crate::turnstile::Turnstile;
use crate::worker_seat::{Own, WorkerSeat};
use cmb_core_cluster::Clustering;
use cmb_design_model::Design;
use cmb_run_exact::{ClusterRun, ExactCluster};
use cmb_waiting::Idle;
use cmb_wave::Heard;
use std::alloc::{AllocError, Global};
use std::marker::Model;
use std::sync::Wait;

/// How many pieces a worker takes from a link in one turn.
const AT_ONCE: u32 = 64;

// Takes what a link holds, up to so many pieces, and gives it to the cluster. Says whether there was a piece.
fn take_some<T: ClusterRun, R: Wait>(
    rt: &R,
    end: &mut TakeEnd<T>,
    cluster: &mut ExactCluster<T>,
) -> Result<bool, AllocError>
    requires { IsFedBy cluster.old end.old }
    ensures fed { OnOk result (IsFedBy cluster.new end.new) }
    ensures later { IsLater cluster.old cluster.new }
    ensures goes { OnOk result (InGoes T.design T.clustering cluster.old end.old cluster.new end.new) }
{
    let mut found = false;
    for _ in 0..AT_ONCE {
        let Some(posted) = end.take(rt) else {
            break;
        };
        let delivered = cluster.deliver(&posted);
        drop(posted);
        delivered?;
        found = true;
    }
    Ok(found)
}

// The same of each link.
fn take_each<T: ClusterRun, R: Wait>(
    rt: &R,
    ends: &mut [TakeEnd<T>],
    cluster: &mut ExactCluster<T>,
) -> Result<bool, AllocError>
    requires { All (IsFedBy cluster.old) ends.old }
    ensures fed { OnOk result (All (IsFedBy cluster.new) ends.new) }
    ensures later { OnOk result (IsLater cluster.old cluster.new) }
    ensures goes { OnOk result ((outs : List Outbound) (seat : View)
        → Goes T.design T.clustering (working cluster.old ends.old outs seat)
        (working cluster.new ends.new outs seat)) }
{
    let mut found = false;
    for end in ends.iter_mut() {
        found |= take_some(rt, end, cluster)?;
    }
    Ok(found)
}

// Looks at each net that is read here and not known to its end, and hears what is new of it. Says whether a clock rose.
fn look_each<T: ClusterRun>(
    worker_seat: &mut WorkerSeat<T>,
    inlets: &mut [Passing],
    cluster: &mut ExactCluster<T>,
) -> bool
    ensures later { IsLater cluster.old cluster.new }
    ensures goes { (ins : List TakeData) (outs : List Outbound)
        → Goes T.design T.clustering (working cluster.old ins outs worker_seat.old.seat.view)
        (working cluster.new ins outs worker_seat.new.seat.view) }
{
    let mut rose = false;
    for inlet in inlets.iter_mut() {
        let Some(promise) = worker_seat.look(inlet.net) else {
            continue;
        };
        if promise.upto <= inlet.upto {
            continue;
        }
        let heard = cluster.hear(promise);
        if heard != Heard::Ahead {
            inlet.upto = promise.upto;
        }
        rose |= heard == Heard::Extended;
    }
    rose
}

// Puts what is new into each link. Says whether something is left.
fn put_each<T: ClusterRun, R: Wait>(
    rt: &R,
    outs: &mut [Out<T>],
    cluster: &ExactCluster<T>,
    is_new: bool,
) -> Result<bool, AllocError>
    ensures { (ins : List TakeData) (seat : View) → Goes T.design T.clustering (working cluster.now ins outs.old seat)
        (working cluster.now ins outs.new seat) }
{
    let mut is_left = false;
    for out in outs.iter_mut() {
        is_left |= out.put_all(rt, cluster, is_new)?;
    }
    Ok(is_left)
}

// Tells the board how far each of these nets is known.
fn publish_each<T: ClusterRun>(
    worker_seat: &mut WorkerSeat<T>,
    own: &mut [Own<T>],
    cluster: &ExactCluster<T>,
)
    ensures { (ins : List TakeData) (outs : List Outbound)
        → Goes T.design T.clustering (working cluster.now ins outs worker_seat.old.seat.view)
        (working cluster.now ins outs worker_seat.new.seat.view) }
{
    for own in own.iter_mut() {
        if let Some(promise) = cluster.promise(own.net) {
            worker_seat.publish(own, promise);
        }
    }
}

/// A worker before and between its turns. Contracts see its cluster, what went through each of its links, and what its
/// seat knows of the board.
#[derive(Drop)]
pub struct Worker<T: ClusterRun> {
    worker_seat: WorkerSeat<T>,
    cluster: ExactCluster<T>,
    /// The nets that other workers drive and this one reads.
    inlets: Vec<Passing>,
    /// The ends of the links by which the worker is sent nets.
    ins: Vec<TakeEnd<T>>,
    outs: Vec<Out<T>>,
    /// The nets that others read.
    own: Vec<Own<T>>,
    idle: Idle,
    /// Whether a step may bring a net on.
    is_new: bool,
    is_complete: bool,
}

impl<T: ClusterRun> Model for Worker<T> {
    ghost use Rattle.std.specs.Prelude.{All};
    ghost use Rattle.cmb_run_free.specs.Inner.Channels.{IsFedBy};
    ghost use Rattle.cmb_run_free.specs.Inner.Turns.{Working, working};

    ghost Value = { Working };

    ghost view = { λ w. working w.cluster w.ins.items w.outs.items w.worker_seat.seat.view };

    // No piece that the worker took is lost.
    ghost invariant = { λ w. All (IsFedBy w.cluster) w.ins.items };
}

impl<T: ClusterRun> Worker<T> {
    /// A worker with its cluster, which isn't linked to the collector and to others yet.
    pub(crate) fn new(
        alloc: Global,
        worker_seat: WorkerSeat<T>,
        cluster: ExactCluster<T>,
    ) -> Worker<T>
        ensures { result ≡ working cluster [] [] worker_seat.seat.view }
    {
        Worker {
            worker_seat,
            cluster,
            inlets: Vec::new(alloc),
            ins: Vec::new(alloc),
            outs: Vec::new(alloc),
            own: Vec::new(alloc),
            idle: Idle::new(),
            is_new: true,
            is_complete: false,
        }
    }

    /// The nets that the worker is given.
    pub(crate) fn inputs(&self) -> &[u32]
        ensures { All (λ net. IsSome (input_slot self.now.cluster net)) result.now }
    {
        self.cluster.inputs()
    }

    /// Those of them that another worker drives.
    pub(crate) fn inputs_from(
        &self,
        alloc: Global,
        clustering: &Clustering,
        worker: usize,
    ) -> Result<Vec<u32>, AllocError>
        ensures { IfOk result (λ nets. All (λ net. IsSome (input_slot self.now.cluster net)) nets.items) }
    {
        let mut nets = Vec::new(alloc);
        for net in self.inputs() {
            if (*net as usize) < clustering.nets() && clustering.of(*net) as usize == worker {
                nets.push(*net)?;
            }
        }
        Ok(nets)
    }

    /// Adds a link by which the worker is sent nets that it reads.
    pub(crate) fn add_in(&mut self, end: TakeEnd<T>) -> Result<(), AllocError>
        requires new { end.received ≡ [] }
        requires read { All (λ net. IsSome (input_slot self.old.cluster net)) end.nets }
        ensures { OnOk result (self.new
            ≡ working self.old.cluster (self.old.ins ++ end ∷ []) self.old.outs self.old.seat) }
    {
        self.ins.push(end)?;
        Ok(())
    }

    /// Adds a link by which another worker is sent these nets, and gives that worker's end.
    pub(crate) fn add_out(
        &mut self,
        alloc: Global,
        design: &Design,
        nets: &[u32],
    ) -> Result<TakeEnd<T>, AllocError>
        requires { design.now ≡ T.design }
        ensures same { self.new ≡ working self.old.cluster self.old.ins self.new.outs self.old.seat }
        ensures nets { IfOk result (λ end. end.nets ≡ nets.now) }
        ensures new { IfOk result (λ end. end.received ≡ []) }
    {
        let (out, take) = Out::open(alloc, design, nets, false)?;
        self.outs.push(out)?;
        Ok(take)
    }

    /// Adds the link by which the collector is sent all nets of the worker, and gives the collector's end.
    pub(crate) fn add_collector(
        &mut self,
        alloc: Global,
        design: &Design,
    ) -> Result<TakeEnd<T>, AllocError>
        requires { design.now ≡ T.design }
        ensures { self.new ≡ working self.old.cluster self.old.ins self.new.outs self.old.seat }
    {
        let (out, take) = Out::open(alloc, design, self.cluster.driven(), true)?;
        self.outs.push(out)?;
        Ok(take)
    }

    /// Notes which nets the worker is given, and which of its own others read, by a table with a place for each net.
    pub(crate) fn note_nets(
        &mut self,
        alloc: Global,
        clustering: &Clustering,
        is_read: &[bool],
    ) -> Result<(), AllocError>
        requires { clustering.now ≡ T.clustering }
        ensures { self.new ≡ self.old }
    {
        self.inlets = unsent(alloc, self.cluster.inputs())?;
        for net in self.cluster.driven() {
            if is_read.get(*net as usize) == Some(&true) {
                if let Some(own) = Own::new(clustering, *net, self.worker_seat.number) {
                    self.own.push(own)?;
                }
            }
        }
        Ok(())
    }

    /// Works until all workers have finished or the stop word is raised. Says whether memory was refused to it.
    pub(crate) fn run<G: Turnstile, R: Wait>(mut self, rt: &R, gate: &G) -> bool {
        let is_refused = self.turns(rt, gate).is_err();
        self.worker_seat.leave(is_refused);
        drop(self);
        is_refused
    }

    // One turn after the other, up to the end of the run.
    fn turns<G: Turnstile, R: Wait>(&mut self, rt: &R, gate: &G) -> Result<(), AllocError>
        ensures { MatchResult result (λ _. Goes T.design T.clustering self.old self.new)
            (λ _. IsCutShort T.design T.clustering self.old self.new) }
    {
        let mut turn = 0u32;
        for _ in rt.forever() {
            if !self.goes_on(gate, turn) || self.turn(rt)? {
                break;
            }
            turn = turn.saturating_add(1);
        }
        Ok(())
    }

    // Whether the worker may take its next turn. Where that is refused the run is stopped.
    fn goes_on<G: Turnstile>(&mut self, gate: &G, turn: u32) -> bool
        ensures { Goes T.design T.clustering self.old self.new }
    {
        if !gate.pass(self.worker_seat.number, turn) {
            self.worker_seat.raise();
            return false;
        }
        !self.worker_seat.raised()
    }

    // What a worker does in a turn. Says whether all workers have finished.
    fn turn<R: Wait>(&mut self, rt: &R) -> Result<bool, AllocError>
        ensures { MatchResult result (λ _. Goes T.design T.clustering self.old self.new)
            (λ _. IsCutShort T.design T.clustering self.old self.new) }
    {
        self.take_all(rt)?;
        self.look_all();
        let stepped = self.step()?;
        let is_left = self.put_all(rt)?;
        self.publish_all(stepped);
        self.finish(is_left);
        self.rest(rt, stepped);
        Ok(self.all_finished())
    }

    // Counts the worker as finished once all that it drives is known and put.
    fn finish(&mut self, is_left: bool)
        ensures { Goes T.design T.clustering self.old self.new }
    {
        if self.is_complete && !is_left {
            self.worker_seat.finish();
        }
    }

    // Whether all workers have finished.
    fn all_finished(&mut self) -> bool
        ensures { Goes T.design T.clustering self.old self.new }
    {
        self.worker_seat.all_finished()
    }

    // Rests where nothing was done.
    fn rest<R: Wait>(&mut self, rt: &R, stepped: bool)
        ensures { self.new ≡ self.old }
    {
        if stepped {
            self.idle.end();
        } else {
            self.idle.rest(rt);
        }
    }

    // Steps the cluster where that may bring a net on. Says whether it did. Where nothing goes on, a further step is of
    // no use before something is taken or heard.
    fn step(&mut self) -> Result<bool, AllocError>
        ensures { MatchResult result (λ _. Goes T.design T.clustering self.old self.new)
            (λ _. IsCutShort T.design T.clustering self.old self.new) }
    {
        if !self.is_new {
            return Ok(false);
        }
        self.is_new = self.cluster.step()?;
        self.is_complete = self.cluster.complete();
        Ok(true)
    }

    // Takes what the links hold, and gives it to the cluster. Where memory is refused a piece is lost, and the worker
    // takes nothing more.
    fn take_all<R: Wait>(&mut self, rt: &R) -> Result<(), AllocError>
        ensures { MatchResult result (λ _. Goes T.design T.clustering self.old self.new)
            (λ _. IsCutShort T.design T.clustering self.old self.new) }
    {
        let found = match take_each(rt, &mut self.ins, &mut self.cluster) {
            Ok(found) => found,
            Err(refused) => {
                self.ins.clear();
                return Err(refused);
            }
        };
        self.is_new |= found;
        Ok(())
    }

    // Hears what the board tells of the nets that are read here.
    fn look_all(&mut self)
        ensures { Goes T.design T.clustering self.old self.new }
    {
        self.is_new |= look_each(&mut self.worker_seat, &mut self.inlets, &mut self.cluster);
        leave_out_done(&mut self.inlets, self.cluster.horizon());
    }

    // The same of each link of the worker.
    fn put_all<R: Wait>(&mut self, rt: &R) -> Result<bool, AllocError>
        ensures { Goes T.design T.clustering self.old self.new }
    {
        put_each(rt, &mut self.outs, &self.cluster, self.is_new)
    }

    // Once a step brought a net on, tells the board how far the nets that others read are known, until that is up to
    // the horizon.
    fn publish_all(&mut self, stepped: bool)
        ensures { Goes T.design T.clustering self.old self.new }
    {
        if !stepped {
            return;
        }
        publish_each(&mut self.worker_seat, &mut self.own, &self.cluster);
        let horizon = self.cluster.horizon();
        self.own.retain(|own| own.told < horizon);
    }
}
