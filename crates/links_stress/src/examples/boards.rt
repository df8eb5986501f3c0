//! What two seats of a board find of one another's words, in one thread and in two.

ghost use Rattle.std.specs.Prelude.{◌≡◌, true, false, IfOk};
ghost use Rattle.cmb_design_model.specs.Exact.{IsRightIn};
ghost use Rattle.cmb_links.specs.Seats.{driver, new_seat};
ghost use Rattle.links_stress.specs.Hands.{board_terms};

use super::{expect, source};
use crate::circuit::Circuit;
use crate::closing::close_board;
use crate::exact::ExactCluster;
use crate::run::{Table, open_board};
use crate::trouble::Trouble;
use crate::watch::Watch;
use crate::worker::TURNS;
use cmb_links::{Ending, Workers};
use cmb_wave::Promise;
use std::alloc::Global;
use std::thread;
use std::thread::Threads;

fn promise(count: u32, upto: u32) -> Promise
    ensures { result ≡ record { net = 0; count = count; upto = upto } }
{
    Promise {
        net: 0,
        count,
        upto,
    }
}

// Lets the flip-flop go on, and publishes how far it is known.
fn publish_next(watch: &mut Watch<'_>, cluster: &mut ExactCluster) -> Result<Promise, Trouble>
    requires { cluster.old ≡ watch.old.circuit.now.design }
    ensures watch { watch.new.circuit ≡ watch.old.circuit }
    ensures cluster { cluster.new ≡ cluster.old }
{
    cluster.step()?;
    match cluster.promise(0) {
        Some(promise) => {
            watch.publish(promise)?;
            Ok(promise)
        }
        None => Err(Trouble::NotDriven),
    }
}

// What the first seat does in the example, and what it finds.
fn first_seat(watch: &mut Watch<'_>, cluster: &mut ExactCluster) -> Result<(), Trouble>
    requires { cluster.old ≡ watch.old.circuit.now.design }
{
    let before = watch.look(0)?;
    let told = publish_next(watch, cluster)?;
    let after = watch.look(0)?;
    let none = watch.finished()?;
    watch.finish();
    let one = watch.finished()?;
    let is_told = told == promise(1, 3) && after == promise(1, 3) && told.word() == 4_294_967_299;
    expect(
        before == promise(0, 0) && is_told && none == 0 && one == 1,
        Trouble::FirstSeat,
    )
}

// What the second seat does after it, in the same thread. At last it reads back what the first one published.
fn second_seat(watch: &mut Watch<'_>) -> Result<(), Trouble> {
    let before = watch.raised()?;
    watch.raise();
    let after = watch.raised()?;
    let read_back = watch.look(0)?;
    expect(
        !before && after && read_back == promise(1, 3),
        Trouble::SecondSeat,
    )
}

// A new board for this circuit with its seats, and a cluster that goes on.
#[derive(Drop)]
struct Setting<'a> {
    circuit: &'a Circuit,
    workers: Workers,
    table: Table,
    cluster: ExactCluster,
    ghost two: { workers ≡ 2 },
    ghost first: { table.first ≡ new_seat table.board (board_terms circuit.now) false 0 },
    ghost second: { table.second ≡ new_seat table.board (board_terms circuit.now) false 1 },
    ghost last: { table.last ≡ new_seat table.board (board_terms circuit.now) true 2 },
    ghost same: { cluster ≡ circuit.now.design },
}

fn open_setting(alloc: Global, circuit: &Circuit) -> Result<Setting<'_>, Trouble> {
    let Ok(workers) = Workers::new(2) else {
        return Err(Trouble::Workers);
    };
    let cluster = source(alloc, circuit)?;
    let table = open_board(alloc, circuit, workers)?;
    Ok(Setting {
        circuit,
        workers,
        table,
        cluster,
    })
}

// The first seat's part, and then the second one's.
fn both_seats(
    first: &mut Watch<'_>,
    cluster: &mut ExactCluster,
    second: &mut Watch<'_>,
) -> Result<(), Trouble>
    requires { cluster.old ≡ first.old.circuit.now.design }
{
    first_seat(first, cluster)?;
    second_seat(second)
}

// Both seats work in this thread.
fn in_one_thread(alloc: Global, setting: Setting<'_>) -> Result<(), Trouble> {
    let Setting {
        circuit,
        workers,
        table,
        mut cluster,
    } = setting;
    let board = table.board;
    let mut first = Watch::new(alloc, &board, circuit, table.first, workers, 0);
    let mut second = Watch::new(alloc, &board, circuit, table.second, workers, 1);
    both_seats(&mut first, &mut cluster, &mut second)
}

/// A promise is one word of the board: seats find it there once it is published, and not before. The stop word and the
/// number of finished workers are found likewise.
pub fn board_words(alloc: Global, circuit: &Circuit) -> Result<(), Trouble> {
    let setting = open_setting(alloc, circuit)?;
    in_one_thread(alloc, setting)
}

// How far the first seat's net is known after a step.
fn next_promise(
    circuit: &Circuit,
    workers: Workers,
    cluster: &mut ExactCluster,
) -> Result<Promise, Trouble>
    requires two { workers ≡ 2 }
    requires same { cluster.old ≡ circuit.now.design }
    ensures right { IfOk result (IsRightIn circuit.now.design) }
    ensures driven { IfOk result (λ promise. driver (board_terms circuit.now) promise.net ≡ 0) }
{
    cluster.step()?;
    let Some(promise) = cluster.promise(0) else {
        return Err(Trouble::NotDriven);
    };
    if workers.of(circuit.clustering.of(promise.net)) != 0 {
        return Err(Trouble::NotDriven);
    }
    Ok(promise)
}

// Closes a new board on which the first seat published this promise, and finished, and the second one raised.
fn close_after(
    alloc: Global,
    circuit: &Circuit,
    table: Table,
    promise: Promise,
) -> Result<Ending, Trouble>
    requires first { table.first ≡ new_seat table.board (board_terms circuit.now) false 0 }
    requires second { table.second ≡ new_seat table.board (board_terms circuit.now) false 1 }
    requires last { table.last ≡ new_seat table.board (board_terms circuit.now) true 2 }
    requires right { IsRightIn circuit.now.design promise }
    requires driven { driver (board_terms circuit.now) promise.net ≡ 0 }
    ensures raised { IfOk result (λ end. end.is_raised ≡ true) }
    ensures finished { IfOk result (λ end. end.finished ≡ 1) }
{
    let Table {
        board,
        mut first,
        mut second,
        last,
    } = table;
    board.publish(&mut first, promise);
    board.finish(&mut first);
    board.raise(&mut second);
    close_board(alloc, board, first, second, last)
}

// Closes a board on which the first seat published how far its net is known, and finished, and the second one raised.
fn close_over(alloc: Global, setting: Setting<'_>) -> Result<Ending, Trouble>
    ensures raised { IfOk result (λ end. end.is_raised ≡ true) }
    ensures finished { IfOk result (λ end. end.finished ≡ 1) }
{
    let Setting {
        circuit,
        workers,
        table,
        mut cluster,
    } = setting;
    match next_promise(circuit, workers, &mut cluster) {
        Ok(promise) => close_after(alloc, circuit, table, promise),
        Err(trouble) => Err(trouble),
    }
}

/// A closed board tells what was published last of each net, that somebody raised, and how many workers finished.
pub fn closed_board(alloc: Global, circuit: &Circuit) -> Result<(), Trouble> {
    let setting = open_setting(alloc, circuit)?;
    let end = close_over(alloc, setting)?;
    let none = Promise {
        net: 1,
        count: 0,
        upto: 0,
    };
    let are_told = end.promises.as_slice() == [promise(1, 3), none].as_slice();
    expect(
        are_told && end.is_raised && end.finished == 1,
        Trouble::Ending,
    )
}

// Publishes four promises, the last of them up to the horizon.
fn publish_four(watch: &mut Watch<'_>, cluster: &mut ExactCluster) -> Result<(), Trouble>
    requires { cluster.old ≡ watch.old.circuit.now.design }
{
    let first = publish_next(watch, cluster)?;
    let second = publish_next(watch, cluster)?;
    let third = publish_next(watch, cluster)?;
    let fourth = publish_next(watch, cluster)?;
    expect(
        first == promise(1, 3)
            && second == promise(2, 7)
            && third == promise(3, 11)
            && fourth == promise(4, 12),
        Trouble::Published,
    )
}

fn publish_all(mut watch: Watch<'_>, mut cluster: ExactCluster) -> Result<(), Trouble>
    requires { cluster ≡ watch.circuit.now.design }
{
    publish_four(&mut watch, &mut cluster)
}

fn is_known(found: Promise) -> bool {
    found == promise(0, 0)
        || found == promise(1, 3)
        || found == promise(2, 7)
        || found == promise(3, 11)
        || found == promise(4, 12)
}

// Looks until the horizon is found. The watch compares each answer with the earlier ones, and all have to be of those
// that are published.
fn look_all(mut watch: Watch<'_>) -> Result<(), Trouble> {
    for _ in 0..TURNS {
        let found = watch.look(0)?;
        if !is_known(found) {
            return Err(Trouble::Unknown);
        }
        if found.upto == 12 {
            return Ok(());
        }
        thread::yield_now();
    }
    Err(Trouble::TooLong)
}

// The first seat publishes in one thread, and the second looks in another.
fn in_two_threads<R: Threads>(
    rt: &R,
    alloc: Global,
    setting: Setting<'_>,
) -> (Result<(), Trouble>, Result<(), Trouble>) {
    let Setting {
        circuit,
        workers,
        table,
        cluster,
    } = setting;
    let board = table.board;
    let first = Watch::new(alloc, &board, circuit, table.first, workers, 0);
    let second = Watch::new(alloc, &board, circuit, table.second, workers, 1);
    thread::join(rt, || publish_all(first, cluster), || look_all(second))
}

/// What one seat publishes up to the horizon, another finds in a thread of its own.
pub fn board_threads<R: Threads>(rt: &R, alloc: Global, circuit: &Circuit) -> Result<(), Trouble> {
    let setting = open_setting(alloc, circuit)?;
    let (published, found) = in_two_threads(rt, alloc, setting);
    published?;
    found
}
