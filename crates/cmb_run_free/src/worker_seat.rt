//! A worker's place at the board.

ghost use Rattle.std.specs.Prelude.{◌≡◌, ◌<◌, true, false, List, IfSome};
ghost use Rattle.std.specs.List.{Contains};
ghost use Rattle.std.specs.Arc.{arc_value};
ghost use Rattle.cmb_design_model.specs.Exact.{IsRightIn, nets_of};
ghost use Rattle.cmb_wave.specs.Calls.{promised};
ghost use Rattle.cmb_core_cluster.specs.Clustering.{cluster_of};
ghost use Rattle.cmb_core_cluster.specs.Clusters.{Cluster, IsDrivenHere};
ghost use Rattle.cmb_core_cluster.specs.Step.{wave_at};
ghost use Rattle.cmb_links.specs.Links.{TakeData};
ghost use Rattle.cmb_links.specs.Seats.{driver, new_seat, board_run};
ghost use Rattle.cmb_run_free.specs.Inner.Channels.{Outbound};
ghost use Rattle.cmb_run_free.specs.Inner.Turns.{Goes, SeatGoes, working};

use cmb_core_cluster::Clustering;
use cmb_design_model::Design;
use cmb_links::{Board, Seat, Workers};
use cmb_run_exact::ClusterRun;
use cmb_wave::Promise;
use std::marker::PhantomData;
use std::sync::Arc;

/// A net of a worker's cluster, and the tick up to which it was published on the board.
#[derive(Drop)]
pub struct Own<T: ClusterRun> {
    pub net: u32,
    worker: u32,
    pub told: u32,
    of: PhantomData<T>,
    ghost own: { cluster_of T.clustering net ≡ worker },
}

impl<T: ClusterRun> Own<T> {
    /// A net of which nothing was published, None where it is another worker's.
    pub(crate) fn new(clustering: &Clustering, net: u32, worker: u32) -> Option<Own<T>>
        requires { clustering.now ≡ T.clustering }
        ensures { IfSome result (λ own. (own.net ≡ net) × (own.told ≡ 0)) }
    {
        if net as usize >= clustering.nets() || clustering.of(net) != worker {
            return None;
        }
        Some(Own {
            net,
            worker,
            told: 0,
            of: PhantomData,
        })
    }
}

/// A worker's seat, with the board.
#[derive(Drop)]
pub struct WorkerSeat<T: ClusterRun> {
    board: Arc<Board>,
    seat: Seat,
    /// The worker's number.
    pub number: u32,
    workers: u32,
    nets: usize,
    is_finished: bool,
    of: PhantomData<T>,
    ghost same: { seat.board ≡ arc_value board },
    ghost of_run: { seat.view.board_run ≡ board_run T.design T.clustering workers },
    ghost seated: { seat.view.place ≡ number },
    ghost worker: { number < workers },
    ghost words: { nets ≡ nets_of T.design },
    ghost done: { seat.view.endings.finished ≡ is_finished },
}

impl<T: ClusterRun> WorkerSeat<T> {
    /// That of the worker with this number, whose seat is new.
    pub(crate) fn new(
        board: Arc<Board>,
        seat: Seat,
        design: &Design,
        workers: Workers,
        number: u32,
    ) -> WorkerSeat<T>
        requires design { design.now ≡ T.design }
        requires seat { seat ≡ new_seat (arc_value board) (board_run T.design T.clustering workers) false number }
        requires number { number < workers }
        ensures { result.seat ≡ seat }
    {
        WorkerSeat {
            board,
            seat,
            number,
            workers: workers.count(),
            nets: design.netlist().len(),
            is_finished: false,
            of: PhantomData,
        }
    }

    // Whether a net is an own one of this worker.
    fn drives(&self, own: &Own<T>, net: u32) -> bool
        ensures { result ≡ true → driver self.now.seat.view.board_run net ≡ self.now.seat.view.place }
    {
        own.net == net && own.worker == self.number
    }

    /// Tells the board how far an own net is known, where that is further than it knew.
    pub(crate) fn publish(&mut self, own: &mut Own<T>, promise: Promise)
        requires { IsRightIn T.design promise }
        ensures { (cluster : Cluster) (ins : List TakeData) (outs : List Outbound) → IsDrivenHere cluster promise.net
            → promise ≡ promised (wave_at cluster.waves promise.net)
            → Goes T.design T.clustering (working cluster ins outs self.old.seat.view)
            (working cluster ins outs self.new.seat.view) }
    {
        if promise.upto <= own.told || !self.drives(own, promise.net) {
            return;
        }
        // The proof learns here that as much wasn't published of the net, as `publish` asks.
        if self.board.look(&mut self.seat, promise.net).upto < promise.upto {
            self.board.publish(&mut self.seat, promise);
            own.told = promise.upto;
        }
    }

    /// What the board says of a net, None where nothing was published yet.
    pub(crate) fn look(&mut self, net: u32) -> Option<Promise>
        ensures right { IfSome result (λ promise. IsRightIn T.design promise) }
        ensures found { IfSome result (λ promise. Contains self.new.seat.view.promised.loads promise) }
        ensures goes { SeatGoes T.design T.clustering self.old.seat.view self.new.seat.view }
    {
        if net as usize >= self.nets {
            return None;
        }
        let promise = self.board.look(&mut self.seat, net);
        if promise.upto == 0 {
            return None;
        }
        Some(promise)
    }

    /// Raises the stop word.
    pub(crate) fn raise(&mut self)
        ensures { SeatGoes T.design T.clustering self.old.seat.view self.new.seat.view }
    {
        self.board.raise(&mut self.seat);
    }

    /// Whether the stop word was raised.
    pub(crate) fn raised(&mut self) -> bool
        ensures { SeatGoes T.design T.clustering self.old.seat.view self.new.seat.view }
    {
        self.board.raised(&mut self.seat)
    }

    /// Counts the worker as finished, once.
    pub(crate) fn finish(&mut self)
        ensures { SeatGoes T.design T.clustering self.old.seat.view self.new.seat.view }
    {
        if !self.is_finished {
            self.board.finish(&mut self.seat);
            self.is_finished = true;
        }
    }

    /// Counts the worker as finished; where memory was refused to it, the stop word is raised before.
    pub(crate) fn leave(&mut self, is_refused: bool) {
        if is_refused {
            self.raise();
        }
        self.finish();
    }

    /// Whether this worker and all others have finished.
    pub(crate) fn all_finished(&mut self) -> bool
        ensures { SeatGoes T.design T.clustering self.old.seat.view self.new.seat.view }
    {
        self.is_finished && self.board.finished(&mut self.seat) == self.workers
    }
}
