//! The workers of a free run, and what the collecting thread has of it.

ghost use Rattle.std.specs.Prelude.{◌≡◌, ◌+◌, ◌<◌, All, drop, length, vec_len, IfOk, OnOk};
ghost use Rattle.std.specs.Arc.{arc_value};
ghost use Rattle.cmb_links.specs.Seats.{IsSeatOf, new_seats, board_run};
ghost use Rattle.cmb_run_exact.specs.OfRun.{IsOfRun};

use crate::collect::Found;
use crate::ends::TakeEnd;
use crate::worker::Worker;
use crate::worker_seat::WorkerSeat;
use cmb_core_cluster::Clustering;
use cmb_design_model::Design;
use cmb_links::{Board, Seat, Workers};
use cmb_run_exact::{ClusterRun, ExactCluster};
use cmb_waiting::Idle;
use std::alloc::{AllocError, Global};
use std::sync::{Arc, Wait};

/// The last seat, the taking end of each worker's link to the collector, and how long nothing came.
#[derive(Drop)]
pub struct Lookout<T: ClusterRun> {
    board: Arc<Board>,
    seat: Seat,
    pub ends: Vec<TakeEnd<T>>,
    idle: Idle,
    ghost same: { seat.board ≡ arc_value board },
}

impl<T: ClusterRun> Lookout<T> {
    /// Raises the stop word.
    pub(crate) fn raise(&mut self) {
        self.board.raise(&mut self.seat);
    }

    /// How many workers have finished.
    pub(crate) fn finished(&mut self) -> u32 {
        self.board.finished(&mut self.seat)
    }

    /// Rests where nothing was found.
    pub(crate) fn rest_after<R: Wait>(&mut self, rt: &R, found: Found) {
        match found {
            Found::Nothing => self.idle.rest(rt),
            _ => self.idle.end(),
        }
    }
}

/// The workers of a free run, and what the collecting thread has of it.
#[derive(Drop)]
pub struct Crew<T: ClusterRun> {
    pub workers: Vec<Worker<T>>,
    pub lookout: Lookout<T>,
}

// Links a worker to another one, which reads nets of it.
fn link_two<T: ClusterRun>(
    alloc: Global,
    design: &Design,
    clustering: &Clustering,
    workers: &mut [Worker<T>],
    from: usize,
    to: usize,
) -> Result<(), AllocError>
    requires design { design.now ≡ T.design }
    requires from { from < length workers.old }
    requires to { to < length workers.old }
{
    let nets = workers[to].inputs_from(alloc, clustering, from)?;
    if nets.is_empty() {
        return Ok(());
    }
    let end = workers[from].add_out(alloc, design, &nets)?;
    workers[to].add_in(end)
}

// Links each worker that drives a net of another one to that.
fn link_all<T: ClusterRun>(
    alloc: Global,
    design: &Design,
    clustering: &Clustering,
    workers: &mut [Worker<T>],
) -> Result<(), AllocError>
    requires { design.now ≡ T.design }
{
    for to in 0..workers.len() {
        for from in 0..workers.len() {
            link_two(alloc, design, clustering, workers, from, to)?;
        }
    }
    Ok(())
}

// Marks the nets of a list.
fn mark(marks: &mut [bool], nets: &[u32]) {
    for net in nets {
        if let Some(mark) = marks.get_mut(*net as usize) {
            *mark = true;
        }
    }
}

// Tells each worker which nets it is given, and which of its own others read.
fn note_nets<T: ClusterRun>(
    alloc: Global,
    clustering: &Clustering,
    workers: &mut [Worker<T>],
) -> Result<(), AllocError>
    requires { clustering.now ≡ T.clustering }
{
    let mut is_read = Vec::from_elem(alloc, false, clustering.nets())?;
    for worker in workers.iter() {
        mark(&mut is_read, worker.inputs());
    }
    for worker in workers.iter_mut() {
        worker.note_nets(alloc, clustering, &is_read)?;
    }
    Ok(())
}

// Adds a worker for each cluster, who takes the next seat of the board.
fn add_workers<T: ClusterRun>(
    alloc: Global,
    design: &Design,
    clustering: &Clustering,
    workers: Workers,
    board: &Arc<Board>,
    seats: &mut Vec<Seat>,
    crew: &mut Vec<Worker<T>>,
) -> Result<(), AllocError>
    requires run { IsOfRun T.design T.clustering design.now clustering.now }
    requires each { clustering.now.clusters ≡ workers }
    requires seats { seats.old.items ≡ new_seats (arc_value board.now) (board_run design.now clustering.now workers) }
    requires count { vec_len seats.old ≡ workers + 1 }
    ensures { OnOk result (seats.new.items
        ≡ drop workers (new_seats (arc_value board.now) (board_run design.now clustering.now workers))) }
{
    for number in 0..workers.count() {
        let shared = Arc::try_clone(board)?;
        let cluster = ExactCluster::open(alloc, design, clustering, number)?;
        let seat = seats.remove(0);
        let worker_seat = WorkerSeat::new(shared, seat, design, workers, number);
        crew.push(Worker::new(alloc, worker_seat, cluster))?;
    }
    Ok(())
}

// Links each worker to the collector, and gives the collector's ends of these links.
fn link_collector<T: ClusterRun>(
    alloc: Global,
    design: &Design,
    workers: &mut [Worker<T>],
) -> Result<Vec<TakeEnd<T>>, AllocError>
    requires { design.now ≡ T.design }
{
    let mut ends = Vec::with_capacity(alloc, workers.len())?;
    for worker in workers {
        ends.push(worker.add_collector(alloc, design)?)?;
    }
    Ok(ends)
}

// Links workers to one another and to the collector, and tells each which nets it is given and which of its own others
// read. Gives the collector's ends.
fn connect<T: ClusterRun>(
    alloc: Global,
    design: &Design,
    clustering: &Clustering,
    workers: &mut [Worker<T>],
) -> Result<Vec<TakeEnd<T>>, AllocError>
    requires design { design.now ≡ T.design }
    requires clustering { clustering.now ≡ T.clustering }
{
    link_all(alloc, design, clustering, workers)?;
    note_nets(alloc, clustering, workers)?;
    link_collector(alloc, design, workers)
}

// A new board that can be shared, and its seats.
fn open_board(
    alloc: Global,
    design: &Design,
    clustering: &Clustering,
    workers: Workers,
) -> Result<(Arc<Board>, Vec<Seat>), AllocError>
    ensures seats { IfOk result (λ opened.
        opened.1.items ≡ new_seats (arc_value opened.0) (board_run design.now clustering.now workers)) }
    ensures count { IfOk result (λ opened. vec_len opened.1 ≡ workers + 1) }
    ensures board { IfOk result (λ opened.
        All (IsSeatOf (arc_value opened.0) (board_run design.now clustering.now workers)) opened.1.items) }
{
    let (board, seats) = Board::open(alloc, design, clustering, workers)?;
    Ok((Arc::new(alloc, board)?, seats))
}

impl<T: ClusterRun> Crew<T> {
    /// One cluster of T's clustering for each worker, newly opened, with its seat and its ends of links.
    pub(crate) fn open(
        alloc: Global,
        design: &Design,
        clustering: &Clustering,
        workers: Workers,
    ) -> Result<Crew<T>, AllocError>
        requires run { IsOfRun T.design T.clustering design.now clustering.now }
        requires each { clustering.now.clusters ≡ workers }
    {
        let (board, mut seats) = open_board(alloc, design, clustering, workers)?;
        let mut crew = Vec::new(alloc);
        add_workers(
            alloc, design, clustering, workers, &board, &mut seats, &mut crew,
        )?;
        let ends = connect(alloc, design, clustering, &mut crew)?;
        let seat = seats.remove(0);
        Ok(Crew {
            workers: crew,
            lookout: Lookout {
                board,
                seat,
                ends,
                idle: Idle::new(),
            },
        })
    }
}
