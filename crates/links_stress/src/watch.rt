//! A seat at a board that checks whatever it finds.

ghost use Rattle.std.specs.Prelude.{◌≡◌, true, IfOk};
ghost use Rattle.cmb_design_model.specs.Exact.{IsRightIn};
ghost use Rattle.cmb_links.specs.Seats.{driver, board_run};
ghost use Rattle.links_stress.specs.Seats.{at_first};

use crate::circuit::Circuit;
use crate::trouble::Trouble;
use cmb_links::{Board, Seat, Workers};
use cmb_wave::Promise;
use std::alloc::Global;

/// What a seat found and published, in order, and whether it finished.
#[derive(Drop)]
pub struct Notes {
    pub found: Vec<Promise>,
    pub published: Vec<Promise>,
    pub is_done: bool,
}

/// A seat with its board, and what it has found so far.
#[derive(Drop)]
pub struct Watch<'a> {
    board: &'a Board,
    pub circuit: &'a Circuit,
    seat: Seat,
    workers: Workers,
    pub place: u32,
    is_done: bool,
    is_stopped: bool,
    finished: u32,
    newest: Vec<Promise>,
    found: Vec<Promise>,
    published: Vec<Promise>,
    ghost same: { seat.board ≡ board.now },
    ghost told: { seat.view.board_run ≡ board_run circuit.now.design circuit.now.clustering workers },
    ghost seated: { seat.view.place ≡ place },
    ghost done: { seat.view.endings.finished ≡ is_done },
}

// How far the net of a promise among these is known, 0 where there is none.
fn newest_of(newest: &[Promise], net: u32) -> u32 {
    for promise in newest {
        if promise.net == net {
            return promise.upto;
        }
    }
    0
}

// Puts a promise in the place of the one of its net.
fn note_newest(newest: &mut Vec<Promise>, promise: Promise) -> Result<(), Trouble> {
    for other in newest.iter_mut() {
        if other.net == promise.net {
            *other = promise;
            return Ok(());
        }
    }
    match newest.push(promise) {
        Ok(()) => Ok(()),
        Err(_) => Err(Trouble::Memory),
    }
}

impl<'a> Watch<'a> {
    ghost use Rattle.std.specs.Prelude.{false};

    /// The watch of a seat that has done nothing.
    pub fn new(
        alloc: Global,
        board: &'a Board,
        circuit: &'a Circuit,
        seat: Seat,
        workers: Workers,
        place: u32,
    ) -> Watch<'a>
        requires board { seat.board ≡ board.now }
        requires board_run { seat.view.board_run ≡ board_run circuit.now.design circuit.now.clustering workers }
        requires place { seat.view.place ≡ place }
        requires new { seat.view.endings.finished ≡ false }
        ensures circuit { result.circuit ≡ circuit.entry }
        ensures seat { result.seat ≡ seat }
    {
        Watch {
            board,
            circuit,
            seat,
            workers,
            place,
            is_done: false,
            is_stopped: false,
            finished: 0,
            newest: Vec::new(alloc),
            found: Vec::new(alloc),
            published: Vec::new(alloc),
        }
    }

    /// The promise of a net of the design. It is right, and not below an earlier one.
    pub fn look(&mut self, net: u32) -> Result<Promise, Trouble>
        ensures right { IfOk result (λ promise. IsRightIn self.old.circuit.now.design promise) }
        ensures same { self.new.circuit ≡ self.old.circuit }
        ensures seat { at_first self.new.seat ≡ at_first self.old.seat }
    {
        if net as usize >= self.circuit.design.netlist().len() {
            return Err(Trouble::NotRight);
        }
        let promise = self.board.look(&mut self.seat, net);
        self.note(promise)?;
        Ok(promise)
    }

    /// Compares a promise that was found with the circuit and with the earlier ones of its net.
    fn note(&mut self, promise: Promise) -> Result<(), Trouble>
        ensures same { self.new.circuit ≡ self.old.circuit }
        ensures seat { self.new.seat ≡ self.old.seat }
    {
        if !self.circuit.is_right(promise) {
            return Err(Trouble::NotRight);
        }
        let before = newest_of(&self.newest, promise.net);
        if promise.upto < before {
            return Err(Trouble::Falls);
        }
        if promise.upto > before {
            let Ok(()) = self.found.push(promise) else {
                return Err(Trouble::Memory);
            };
            return note_newest(&mut self.newest, promise);
        }
        Ok(())
    }

    // Whether the seat's worker drives the net.
    fn drives(&self, net: u32) -> bool
        ensures { result ≡ true → driver self.now.seat.view.board_run net ≡ self.now.seat.view.place }
    {
        let clustering = &self.circuit.clustering;
        (net as usize) < clustering.nets() && self.workers.of(clustering.of(net)) == self.place
    }

    /// Publishes a right promise, and finds it there.
    pub fn publish(&mut self, promise: Promise) -> Result<(), Trouble>
        requires { IsRightIn self.old.circuit.now.design promise }
        ensures same { self.new.circuit ≡ self.old.circuit }
        ensures seat { at_first self.new.seat ≡ at_first self.old.seat }
    {
        if !self.drives(promise.net) {
            return Err(Trouble::NotDriven);
        }
        if self.board.look(&mut self.seat, promise.net).upto > promise.upto {
            return Err(Trouble::Falls);
        }
        self.board.publish(&mut self.seat, promise);
        let Ok(()) = self.published.push(promise) else {
            return Err(Trouble::Memory);
        };
        if self.board.look(&mut self.seat, promise.net) != promise {
            return Err(Trouble::NotOwn);
        }
        Ok(())
    }

    /// Raises the stop word.
    pub fn raise(&mut self)
        ensures same { self.new.circuit ≡ self.old.circuit }
        ensures seat { at_first self.new.seat ≡ at_first self.old.seat }
    {
        self.board.raise(&mut self.seat);
    }

    /// Whether some seat raised the stop word. Once it is found, it stays.
    pub fn raised(&mut self) -> Result<bool, Trouble>
        ensures same { self.new.circuit ≡ self.old.circuit }
        ensures seat { at_first self.new.seat ≡ at_first self.old.seat }
    {
        let is_raised = self.board.raised(&mut self.seat);
        if self.is_stopped && !is_raised {
            return Err(Trouble::Stop);
        }
        self.is_stopped = is_raised;
        Ok(is_raised)
    }

    /// Counts the seat's worker as finished, once.
    pub fn finish(&mut self)
        ensures same { self.new.circuit ≡ self.old.circuit }
        ensures seat { at_first self.new.seat ≡ at_first self.old.seat }
    {
        if !self.is_done && self.place < self.workers.count() {
            self.board.finish(&mut self.seat);
            self.is_done = true;
        }
    }

    /// The number of workers that finished. It doesn't fall, and counts this seat's worker.
    pub fn finished(&mut self) -> Result<u32, Trouble>
        ensures same { self.new.circuit ≡ self.old.circuit }
        ensures seat { at_first self.new.seat ≡ at_first self.old.seat }
    {
        let finished = self.board.finished(&mut self.seat);
        if finished < self.finished
            || finished > self.workers.count()
            || self.is_done && finished == 0
        {
            return Err(Trouble::Finished);
        }
        self.finished = finished;
        Ok(finished)
    }

    /// Gives the seat back, and what it found and published.
    pub fn leave(self) -> (Seat, Notes)
        ensures { result.0 ≡ self.entry.seat }
    {
        let Watch {
            board: _,
            circuit: _,
            seat,
            workers: _,
            place: _,
            is_done,
            is_stopped: _,
            finished: _,
            newest: _,
            found,
            published,
        } = self;
        let notes = Notes {
            found,
            published,
            is_done,
        };
        (seat, notes)
    }
}
