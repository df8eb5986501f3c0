//! The board: each net's newest promise, a stop word and the number of finished workers, in words that change in atomic
//! steps.

ghost use Rattle.std.specs.Prelude.{◌≡◌, ◌<◌, [], map, vec_len};
ghost use Rattle.std.specs.List.{All, range_with_len};

use crate::view::{Snapshots, View};
use crate::workers::Workers;
use atomic_table::{Join, Play, Split, Table, TableRule};
use cmb_core_cluster::Clustering;
use cmb_design_model::Design;
use cmb_wave::Promise;
use std::alloc::{AllocError, Global};
use std::collections::LinkedList;
use std::marker::Model;
use std::mem::replace;
use std::snapshot::Snapshot;

// What the table keeps for a seat: its view. The seat that closes the board has the views of all.
type Views = LinkedList<View>;

// What holds of the words and the views between any two steps.
struct Law;

impl TableRule<(), Views, Snapshots> for Law {
    ghost use Rattle.std.specs.Prelude.{true, [], ◌∷◌};
    ghost use Rattle.cmb_links.specs.Seats.{board_run_of, new_view};
    ghost use Rattle.cmb_links.specs.Boards.{IsBoard};
    ghost use Rattle.cmb_links.specs.Inner.BoardSteps.{seats_of};

    ghost holds = { λ told s. IsBoard (board_run_of told) (seats_of s) };

    ghost first = { λ told. new_view (board_run_of told) 0 true ∷ [] };
}

// The steps of a board.
struct Publish;

impl Play<(), Views> for Publish {
    ghost use Rattle.cmb_links.specs.Inner.BoardSteps.{Publishes};

    ghost then = { Publishes };
}

struct Look;

impl Play<(), Views> for Look {
    ghost use Rattle.cmb_links.specs.Inner.BoardSteps.{Looks};

    ghost then = { Looks };
}

struct Raise;

impl Play<(), Views> for Raise {
    ghost use Rattle.cmb_links.specs.Inner.BoardSteps.{Raises};

    ghost then = { Raises };
}

struct Check;

impl Play<(), Views> for Check {
    ghost use Rattle.cmb_links.specs.Inner.BoardSteps.{Checks};

    ghost then = { Checks };
}

struct Finish;

impl Play<(), Views> for Finish {
    ghost use Rattle.cmb_links.specs.Inner.BoardSteps.{Finishes};

    ghost then = { Finishes };
}

struct Count;

impl Play<(), Views> for Count {
    ghost use Rattle.cmb_links.specs.Inner.BoardSteps.{Counts};

    ghost then = { Counts };
}

// How the last seat cuts another.
struct Cut;

impl Split<Views> for Cut {
    ghost use Rattle.std.specs.Prelude.{[], ◌∷◌};
    ghost use Rattle.cmb_links.specs.Inner.BoardSteps.{cut_left, cut_right, only};

    ghost left = { λ v. cut_left (only v) ∷ [] };

    ghost right = { λ v. cut_right (only v) ∷ [] };
}

// How a seat takes over the view of the one that was cut before it.
struct Gather;

impl Join<Views> for Gather {
    ghost use Rattle.std.specs.Prelude.{[], ◌++◌};

    ghost both = { λ v w. w ++ v };

    ghost spent = { [] };
}

type Words = Table<(), Views, Snapshots, Law, Global>;

/// The words that all threads share. Contracts see which board it is.
#[derive(Drop)]
#[derive_where(Debug)]
pub struct Board {
    #[derive_where(skip)]
    table: Words,
    #[derive_where(skip)]
    nets: usize,
}

impl Model for Board {
    ghost use Rattle.std.specs.Prelude.{◌≡◌, ◌+◌, ◌<◌, ◌^◌};
    ghost use Rattle.atomic_table.specs.Seated.{TableId};

    ghost Value = { TableId };

    ghost view = { λ b. b.table.shared.table_id };

    ghost invariant = { λ b. (b.table.shared.table_id.words ≡ b.nets + 2) × (b.nets < 2 ^ 32)
        × (b.table.shared.table_id.slots ≡ 0) };
}

/// A thread's place at a board, with which it makes its steps. Contracts see which board it is of, and what it knows.
#[derive(Drop)]
#[derive_where(Debug)]
pub struct Seat {
    #[derive_where(skip)]
    inner: atomic_table::Seat<(), Views>,
}

impl Model for Seat {
    ghost use Rattle.std.specs.Prelude.{◌≡◌, ◌+◌, [], ◌∷◌};
    ghost use Rattle.cmb_design_model.specs.Exact.{nets_of};
    ghost use Rattle.cmb_links.specs.Seats.{SeatData};
    ghost use Rattle.cmb_links.specs.Inner.BoardSteps.{only};

    ghost Value = { SeatData };

    ghost view = { λ s. record { board = s.inner.table_id; view = only s.inner.me.0 } };

    ghost invariant = { λ s. (s.inner.me ≡ (only s.inner.me.0 ∷ [], []))
        × (s.inner.table_id.words ≡ nets_of (only s.inner.me.0).board_run.design + 2) };
}

/// What the words of a board hold when it is closed: a promise for each net, in order, whether a seat raised the stop
/// word, and how many workers finished.
#[derive(Debug, Drop)]
pub struct Ending {
    pub promises: Vec<Promise>,
    pub is_raised: bool,
    pub finished: u32,
}

impl Board {
    ghost use Rattle.std.specs.Prelude.{◌≡◌, ◌+◌, ◌<◌, ◌≤◌, true, false, map, IfOk, slice_index, vec_len};
    ghost use Rattle.std.specs.List.{All, Contains};
    ghost use Rattle.cmb_wave.specs.Calls.{word_of};
    ghost use Rattle.cmb_design_model.specs.Exact.{nets_of, IsRightIn};
    ghost use Rattle.cmb_links.specs.Promises.{newest};
    ghost use Rattle.cmb_links.specs.Seats.{driver, after_publish, after_look, after_raise, after_check, after_finish};
    ghost use Rattle.cmb_links.specs.Seats.{after_count, with_view, board_run, new_seats, IsSeatOf, AreAllSeats};
    ghost use Rattle.cmb_links.specs.Boards.{Moment, IsKnown, published_at, some_raised, number_finished, any_raised};
    ghost use Rattle.cmb_links.specs.Boards.{count_finished, EndsAs};

    /// A board on which nothing stands, and its seats: one for each worker, in order, and a last one that drives no
    /// net.
    pub fn open(
        alloc: Global,
        design: &Design,
        clustering: &Clustering,
        workers: Workers,
    ) -> Result<(Board, Vec<Seat>), AllocError>
        ensures seats { IfOk result (λ opened.
            opened.1.items ≡ new_seats opened.0 (board_run design.now clustering.now workers)) }
        ensures count { IfOk result (λ opened. vec_len opened.1 ≡ workers + 1) }
        ensures board { IfOk result (λ opened.
            All (IsSeatOf opened.0 (board_run design.now clustering.now workers)) opened.1.items) }
    {
        let nets = design.netlist().len();
        let count = workers.count();
        let words = Vec::from_elem(alloc, 0u64, nets + 2)?;
        let mut seats = Vec::with_capacity(alloc, count as usize + 1)?;
        let told = Snapshots {
            design: Snapshot::of(design),
            clustering: Snapshot::of(clustering),
            workers: count,
        };
        let (table, mut last) = Table::of_words(alloc, words.as_slice(), &told)?;
        for _place in 0..count {
            let next = table.shared.split_seat::<Cut>(&mut last);
            seats.push_reserved(Seat {
                inner: replace(&mut last, next),
            });
        }
        seats.push_reserved(Seat { inner: last });
        Ok((Board { table, nets }, seats))
    }

    /// Stores a promise in its net's word. The seat's worker drives the net, and the promise is right and not below the
    /// seat's last one for that net.
    pub fn publish(&self, seat: &mut Seat, promise: Promise)
        requires board { seat.old.board ≡ self.now }
        requires drives { driver seat.old.view.board_run promise.net ≡ seat.old.view.place }
        requires right { IsRightIn seat.old.view.board_run.design promise }
        requires rises { (newest promise.net seat.old.view.promised.published).upto ≤ promise.upto }
        ensures entry { seat.new ≡ with_view seat.old (after_publish seat.old.view promise) }
        ensures moment { Moment seat.new.view (λ s. slice_index s.words promise.net ≡ word_of promise) }
    {
        let word = promise.word();
        self.table
            .shared
            .store::<Publish>(&mut seat.inner, promise.net as usize, word);
    }

    /// The promise that a net's word holds, (0, 0) where none was published.
    pub fn look(&self, seat: &mut Seat, net: u32) -> Promise
        requires board { seat.old.board ≡ self.now }
        requires net { net < nets_of seat.old.view.board_run.design }
        ensures entry { seat.new ≡ with_view seat.old (after_look seat.old.view result) }
        ensures net { result.net ≡ net }
        ensures right { IsRightIn seat.old.view.board_run.design result }
        ensures rising { All (λ p. p.net ≡ net → p.upto ≤ result.upto) seat.old.view.promised.loads }
        ensures own { driver seat.old.view.board_run net ≡ seat.old.view.place
            → result ≡ newest net seat.old.view.promised.published }

        // Some state that the rule allows, with the seat's new view, has the answer in the word; it is (0, 0), or the
        // net's driving seat published it.
        ensures moment { Moment seat.new.view
            (λ s. (slice_index s.words net ≡ word_of result)
            × IsKnown net (published_at s.views (driver seat.old.view.board_run net)) result) }
    {
        let found = self
            .table
            .shared
            .load::<Look>(&mut seat.inner, net as usize);
        Promise::of_word(net, found)
    }

    /// Stores 1 in the stop word: the workers are to end.
    pub fn raise(&self, seat: &mut Seat)
        requires board { seat.old.board ≡ self.now }
        ensures entry { seat.new ≡ with_view seat.old (after_raise seat.old.view) }
        ensures moment { Moment seat.new.view
            (λ s. slice_index s.words (nets_of seat.old.view.board_run.design) ≡ 1) }
    {
        self.table
            .shared
            .store::<Raise>(&mut seat.inner, self.nets, 1);
    }

    /// Whether some seat has raised.
    pub fn raised(&self, seat: &mut Seat) -> bool
        requires board { seat.old.board ≡ self.now }
        ensures entry { seat.new ≡ with_view seat.old (after_check seat.old.view result) }
        ensures own { seat.old.view.stops.raised ≡ true → result ≡ true }
        ensures stays { Contains seat.old.view.stops.loads true → result ≡ true }
        ensures moment { Moment seat.new.view (λ s. result ≡ some_raised s.views) }
    {
        self.table.shared.load::<Check>(&mut seat.inner, self.nets) == 1
    }

    /// Counts the seat's worker as finished, once.
    pub fn finish(&self, seat: &mut Seat)
        requires board { seat.old.board ≡ self.now }
        requires worker { seat.old.view.place < seat.old.view.board_run.workers }
        requires once { seat.old.view.endings.finished ≡ false }
        ensures entry { seat.new ≡ with_view seat.old (after_finish seat.old.view) }
        ensures moment { Moment seat.new.view
            (λ s. slice_index s.words (nets_of seat.old.view.board_run.design + 1) ≡ number_finished s.views) }
    {
        self.table
            .shared
            .fetch_add::<Finish>(&mut seat.inner, self.nets + 1, 1);
    }

    /// The number of workers that finished.
    pub fn finished(&self, seat: &mut Seat) -> u32
        requires board { seat.old.board ≡ self.now }
        ensures entry { seat.new ≡ with_view seat.old (after_count seat.old.view result) }
        ensures rising { All (λ k. k ≤ result) seat.old.view.endings.loads }
        ensures own { seat.old.view.endings.finished ≡ true → 1 ≤ result }
        ensures few { result ≤ seat.old.view.board_run.workers }
        ensures moment { Moment seat.new.view (λ s. result ≡ number_finished s.views) }
    {
        self.table
            .shared
            .load::<Count>(&mut seat.inner, self.nets + 1) as u32
    }

    /// Ends the board, and answers what its words hold. `seats` are all of its seats, in order. Of each net that is the
    /// newest promise of its driving seat, (0, 0) where there is none. Whatever a load of any seat found was (0, 0) or
    /// was published by that seat, and isn't above its newest. Where memory is refused, the board is given up.
    pub fn close(self, alloc: Global, seats: Vec<Seat>) -> Result<Ending, AllocError>
        requires seats { AreAllSeats self seats.items }
        ensures nets { IfOk result (λ end.
            All (λ s. vec_len end.promises ≡ nets_of s.view.board_run.design) seats.items) }
        ensures words { IfOk result (λ end.
            All (λ s. EndsAs end.promises.items end.is_raised end.finished (map (λ s. s.view) seats.items) s.view)
            seats.items) }
        ensures raised { IfOk result (λ end. end.is_raised ≡ any_raised (map (λ s. s.view.stops) seats.items)) }
        ensures finished { IfOk result (λ end. end.finished ≡ count_finished (map (λ s. s.view.endings) seats.items)) }
    {
        let Board { table, nets } = self;
        let mut promises = Vec::with_capacity(alloc, nets)?;
        let all = join_all(&table, seats);
        let closed = table.close_with(all);
        for net in 0..nets {
            promises.push_reserved(Promise::of_word(net as u32, closed.word(net)));
        }
        let is_raised = closed.word(nets) == 1;
        let finished = closed.word(nets + 1) as u32;
        closed.free();
        Ok(Ending {
            promises,
            is_raised,
            finished,
        })
    }
}

// Joins the seats of a table in one, which then has the views of all.
fn join_all(table: &Words, seats: Vec<Seat>) -> atomic_table::Seat<(), Views>
    requires some { 0 < vec_len seats }
    requires words { 0 < table.now.shared.table_id.words }
    requires same { All (λ s. s.board ≡ table.now.shared.table_id) seats.items }
    requires order { map (λ s. s.view.place) seats.items ≡ range_with_len 0 (vec_len seats) }
    ensures same { result.table_id ≡ table.now.shared.table_id }
    ensures all { result.me ≡ (map (λ s. s.view) seats.items, []) }
{
    let mut seats = seats;
    let Some(last) = seats.pop() else {
        unreachable!()
    };
    let Seat { inner: mut all } = last;
    while let Some(seat) = seats.pop() {
        let Seat { inner } = seat;
        table.shared.join_seat::<Gather>(&mut all, inner);
    }
    all
}
