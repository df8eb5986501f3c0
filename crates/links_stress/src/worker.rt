//! A worker: a cluster that is driven by what comes through a link and stands on the board, and tells what it finds by
//! both.

ghost use Rattle.std.specs.Prelude.{◌≡◌, IfOk};
ghost use Rattle.links_stress.specs.Seats.{at_first};

use crate::circuit::Circuit;
use crate::ends::{In, Out};
use crate::exact::ExactCluster;
use crate::trouble::Trouble;
use crate::watch::{Notes, Watch};
use cmb_core_cluster::DeliverFault;
use cmb_links::{PutPass, Seat, TakePass};
use std::alloc::Global;
use std::sync::Wait;
use std::thread;

/// A thread that makes so many turns gives up.
pub const TURNS: u32 = 10_000_000;

/// How many pieces a worker takes in one turn at most.
const AT_ONCE: u32 = 16;

/// The nets of a worker.
#[derive(Clone, Copy)]
pub struct Nets {
    /// The net that it tells the other worker about.
    pub told: u32,
    /// The net of the other worker that it reads.
    pub read: u32,
}

/// What a worker leaves: its seat, its ends of the two links, and what it noted. Of the pieces that it put, and of
/// those that it took, in order, it noted the ticks up to which they go: the first begins at tick 0, each other where
/// the one before it ends.
#[derive(Drop)]
pub struct Left {
    pub seat: Seat,
    pub put: PutPass,
    pub take: TakePass,
    pub notes: Notes,
    pub sent: Vec<u32>,
    pub came: Vec<u32>,
}

/// What a worker's thread is handed: its seat, and its ends of the two links.
#[derive(Drop)]
pub struct WorkerPorts<'a> {
    watch: Watch<'a>,
    nets: Nets,
    out: Out<'a>,
    into: In<'a>,
    ghost puts: { out.pass.design ≡ watch.circuit.now.design },
    ghost takes: { into.pass.design ≡ watch.circuit.now.design },
}

impl<'a> WorkerPorts<'a> {
    pub fn new(watch: Watch<'a>, nets: Nets, out: Out<'a>, into: In<'a>) -> WorkerPorts<'a>
        requires puts { out.pass.design ≡ watch.circuit.now.design }
        requires takes { into.pass.design ≡ watch.circuit.now.design }
        ensures seat { result.watch.seat ≡ watch.entry.seat }
        ensures put { result.out.pass ≡ out.entry.pass }
        ensures take { result.into.pass ≡ into.entry.pass }
    {
        WorkerPorts {
            watch,
            nets,
            out,
            into,
        }
    }

    /// Opens the worker's cluster and works until the stop word is raised. Gives back what it was handed, with what it
    /// noted, or raises the stop word where something is wrong.
    pub fn work<R: Wait>(self, rt: &R, alloc: Global) -> Result<Left, Trouble>
        ensures seat { IfOk result (λ left. at_first left.seat ≡ at_first self.entry.watch.seat) }
        ensures put { IfOk result (λ left. left.put.link ≡ self.entry.out.pass.link) }
        ensures take { IfOk result (λ left. left.take.link ≡ self.entry.into.pass.link) }
    {
        let WorkerPorts {
            mut watch,
            nets,
            out,
            into,
        } = self;
        let circuit = watch.circuit;
        match open_cluster(alloc, circuit, watch.place) {
            Ok(cluster) => {
                let worker = Worker {
                    watch,
                    cluster,
                    nets,
                    out,
                    into,
                    horizon: circuit.design.horizon(),
                    told: 0,
                    sent: Vec::new(alloc),
                    came: Vec::new(alloc),
                };
                worker.work(rt)
            }
            Err(trouble) => {
                watch.raise();
                Err(trouble)
            }
        }
    }
}

// The cluster with this number, newly opened.
fn open_cluster(alloc: Global, circuit: &Circuit, number: u32) -> Result<ExactCluster, Trouble>
    ensures { IfOk result (λ cluster. cluster ≡ circuit.now.design) }
{
    if number >= circuit.clustering.clusters() {
        return Err(Trouble::Circuit);
    }
    Ok(ExactCluster::open(alloc, &circuit.design, &circuit.clustering, number)?)
}

/// The last of these ticks, 0 where there is none.
pub fn last_of(ticks: &[u32]) -> u32 {
    ticks.last().copied().unwrap_or(0)
}

// Notes a tick behind the others.
fn note_tick(ticks: &mut Vec<u32>, tick: u32) -> Result<(), Trouble> {
    match ticks.push(tick) {
        Ok(()) => Ok(()),
        Err(_) => Err(Trouble::Memory),
    }
}

/// A worker at its ports.
#[derive(Drop)]
struct Worker<'a> {
    watch: Watch<'a>,
    cluster: ExactCluster,
    nets: Nets,
    out: Out<'a>,
    into: In<'a>,
    horizon: u32,
    told: u32,
    sent: Vec<u32>,
    came: Vec<u32>,
    ghost known: { cluster ≡ watch.circuit.now.design },
    ghost puts: { out.pass.design ≡ cluster },
    ghost takes: { into.pass.design ≡ cluster },
}

impl<'a> Worker<'a> {
    ghost use Rattle.links_stress.specs.Holds.{HasSameHold};

    // Takes pieces. They are exact, and each begins where the one before it ended.
    fn take<R: Wait>(&mut self, rt: &R) -> Result<(), Trouble>
        ensures { HasSameHold self.old self.new }
    {
        for _ in 0..AT_ONCE {
            let Some(piece) = self.into.take(rt) else {
                break;
            };
            if piece.net() != self.nets.read || piece.from() != last_of(&self.came) {
                return Err(Trouble::Order);
            }
            if !self.watch.circuit.is_exact(&piece) {
                return Err(Trouble::NotExact);
            }
            note_tick(&mut self.came, piece.to())?;
            match self.cluster.deliver(&piece) {
                Ok(_) | Err(DeliverFault::Old { .. }) => {}
                Err(DeliverFault::Memory) => return Err(Trouble::Memory),
                Err(_) => return Err(Trouble::Refused),
            }
        }
        Ok(())
    }

    // Looks at the net of the other worker.
    fn look(&mut self) -> Result<(), Trouble>
        ensures { HasSameHold self.old self.new }
    {
        let promise = self.watch.look(self.nets.read)?;
        match self.cluster.hear(promise) {
            Ok(_) => Ok(()),
            Err(_) => Err(Trouble::Refused),
        }
    }

    // Goes on until all is known. What comes after that is left in the link.
    fn go_on<R: Wait>(&mut self, rt: &R) -> Result<(), Trouble>
        ensures { HasSameHold self.old self.new }
    {
        if self.is_complete() {
            return Ok(());
        }
        self.take(rt)?;
        self.look()?;
        self.cluster.step()?;
        Ok(())
    }

    // Publishes how far the told net is known.
    fn publish(&mut self) -> Result<(), Trouble>
        ensures { HasSameHold self.old self.new }
    {
        if let Some(promise) = self.cluster.promise(self.nets.told) {
            if promise.upto > self.told {
                self.watch.publish(promise)?;
                self.told = promise.upto;
            }
        }
        Ok(())
    }

    // Puts what is new of the told net. Where the link is full, a longer piece goes later.
    fn send<R: Wait>(&mut self, rt: &R) -> Result<(), Trouble>
        ensures { HasSameHold self.old self.new }
    {
        if let Some(piece) = self.cluster.post(self.nets.told, last_of(&self.sent))? {
            let to = piece.to();
            if self.out.put(rt, piece).is_ok() {
                note_tick(&mut self.sent, to)?;
            }
        }
        Ok(())
    }

    // Whether all is known and told.
    fn is_complete(&self) -> bool {
        self.cluster.complete() && self.told == self.horizon
    }

    // One turn. True once the stop word is raised.
    fn turn<R: Wait>(&mut self, rt: &R) -> Result<bool, Trouble>
        ensures { HasSameHold self.old self.new }
    {
        self.go_on(rt)?;
        self.publish()?;
        self.send(rt)?;
        if self.is_complete() {
            self.watch.finish();
        }
        self.watch.finished()?;
        self.watch.raised()
    }

    // Turns up to the stop word.
    fn turns<R: Wait>(&mut self, rt: &R) -> Result<(), Trouble>
        ensures { HasSameHold self.old self.new }
    {
        for _ in 0..TURNS {
            if self.turn(rt)? {
                if self.is_complete() {
                    return Ok(());
                }
                return Err(Trouble::Stopped);
            }
            thread::yield_now();
        }
        Err(Trouble::TooLong)
    }

    // Gives back what the worker was handed, with what it noted.
    fn leave(self) -> Left
        ensures seat { result.seat ≡ self.entry.watch.seat }
        ensures put { result.put ≡ self.entry.out.pass }
        ensures take { result.take ≡ self.entry.into.pass }
    {
        let Worker {
            watch,
            cluster: _,
            nets: _,
            out,
            into,
            horizon: _,
            told: _,
            sent,
            came,
        } = self;
        let (seat, notes) = watch.leave();
        Left {
            seat,
            put: out.into_pass(),
            take: into.into_pass(),
            notes,
            sent,
            came,
        }
    }

    // Works until the stop word is raised.
    fn work<R: Wait>(mut self, rt: &R) -> Result<Left, Trouble>
        ensures seat { IfOk result (λ left. at_first left.seat ≡ at_first self.entry.watch.seat) }
        ensures put { IfOk result (λ left. left.put.link ≡ self.entry.out.pass.link) }
        ensures take { IfOk result (λ left. left.take.link ≡ self.entry.into.pass.link) }
    {
        match self.turns(rt) {
            Ok(()) => Ok(self.leave()),
            Err(trouble) => {
                self.watch.raise();
                Err(trouble)
            }
        }
    }
}
