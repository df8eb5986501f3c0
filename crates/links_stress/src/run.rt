//! One run: two workers, and a seat that looks at every net.

ghost use Rattle.std.specs.Prelude.{◌≡◌, true, false, IfOk, Ok};
ghost use Rattle.cmb_links.specs.Seats.{new_seat};
ghost use Rattle.links_stress.specs.Hands.{IsHand, IsLeft, board_terms, link_into, link_out, told_of};
ghost use Rattle.links_stress.specs.Seats.{at_first};

use crate::circuit::Circuit;
use crate::closing::{Rest, Room, close_all};
use crate::ends::{In, Out};
use crate::trouble::Trouble;
use crate::watch::{Notes, Watch};
use crate::worker::{Left, Nets, TURNS, WorkerPorts};
use cmb_links::{Board, Link, PutPass, Seat, TakePass, Workers};
use std::alloc::Global;
use std::sync::Wait;
use std::thread;
use std::thread::Threads;

/// The first cluster has a flip-flop that samples its own inverse, and so can run ahead of the second one. It needs the
/// second one's net for z alone.
const NETLIST: &[u8] = b"p = DFF(n)\nn = NOT(p)\nz = XOR(p, y)\ny = BUFF(p)\n";

/// How many nets it has.
pub const NETS: u32 = 4;

const CLUSTERS: [u32; 4] = [0, 0, 0, 1];

/// The nets of the first worker.
pub const FIRST: Nets = Nets { told: 0, read: 3 };

/// The nets of the second one.
pub const SECOND: Nets = Nets { told: 3, read: 0 };

/// A board for two workers, with its three seats.
#[derive(Drop)]
pub struct Table {
    pub board: Board,
    pub first: Seat,
    pub second: Seat,
    pub last: Seat,
}

/// Opens a board for the two clusters of a circuit.
pub fn open_board(alloc: Global, circuit: &Circuit, workers: Workers) -> Result<Table, Trouble>
    requires { workers ≡ 2 }
    ensures first { IfOk result (λ t. t.first ≡ new_seat t.board (board_terms circuit.now) false 0) }
    ensures second { IfOk result (λ t. t.second ≡ new_seat t.board (board_terms circuit.now) false 1) }
    ensures last { IfOk result (λ t. t.last ≡ new_seat t.board (board_terms circuit.now) true 2) }
{
    let (board, mut seats) = Board::open(alloc, &circuit.design, &circuit.clustering, workers)?;
    let first = seats.remove(0);
    let second = seats.remove(0);
    let last = seats.remove(0);
    Ok(Table {
        board,
        first,
        second,
        last,
    })
}

/// A worker's seat, and its ends of the links.
#[derive(Drop)]
struct Hand {
    seat: Seat,
    put: PutPass,
    take: TakePass,
}

/// What the threads are handed: the two workers, and the seat that looks on.
#[derive(Drop)]
struct Hands {
    first: Hand,
    second: Hand,
    last: Seat,
}

// Looks at every net until both workers have finished.
fn look_on(watch: &mut Watch<'_>) -> Result<(), Trouble>
    ensures { at_first watch.new.seat ≡ at_first watch.old.seat }
{
    for _ in 0..TURNS {
        for net in 0..NETS {
            watch.look(net)?;
        }
        if watch.raised()? {
            return Err(Trouble::Stopped);
        }
        if watch.finished()? == 2 {
            return Ok(());
        }
        thread::yield_now();
    }
    Err(Trouble::TooLong)
}

// Looks on, and then stops the workers, which look for the stop word even when they have finished. Gives the seat back,
// and what it found.
fn oversee(
    alloc: Global,
    circuit: &Circuit,
    room: &Room,
    workers: Workers,
    seat: Seat,
) -> Result<(Seat, Notes), Trouble>
    requires workers { workers ≡ 2 }
    requires seat { seat ≡ new_seat room.now.board (board_terms circuit.now) true 2 }
    ensures { IfOk result (λ last. at_first last.0 ≡ new_seat room.now.board (board_terms circuit.now) false 2) }
{
    let mut watch = Watch::new(alloc, &room.board, circuit, seat, workers, 2);
    let outcome = look_on(&mut watch);
    watch.raise();
    outcome?;
    if !watch.raised()? {
        return Err(Trouble::Stop);
    }
    Ok(watch.leave())
}

// The trouble of a thread.
fn trouble_of<T>(outcome: &Result<T, Trouble>) -> Option<Trouble> {
    match outcome {
        Ok(_) => None,
        Err(trouble) => Some(*trouble),
    }
}

// Which of two tells more. That a thread was stopped tells the least.
fn worse(one: Option<Trouble>, other: Option<Trouble>) -> Option<Trouble> {
    match one {
        None => other,
        Some(trouble) => {
            if trouble == Trouble::Stopped && other.is_some() {
                return other;
            }
            one
        }
    }
}

// What the three threads leave. Where one of them came to no end, the trouble that tells most.
fn gathered(
    first: Result<Left, Trouble>,
    second: Result<Left, Trouble>,
    last: Result<(Seat, Notes), Trouble>,
) -> Result<Rest, Trouble>
    ensures first { IfOk result (λ rest. first ≡ Ok rest.first) }
    ensures second { IfOk result (λ rest. second ≡ Ok rest.second) }
    ensures last { IfOk result (λ rest. last ≡ Ok (rest.last, rest.found)) }
{
    let worst = worse(
        worse(trouble_of(&first), trouble_of(&second)),
        trouble_of(&last),
    );
    if let Some(trouble) = worst {
        return Err(trouble);
    }
    let first = first?;
    let second = second?;
    let (last, found) = last?;
    Ok(Rest {
        first,
        second,
        last,
        found,
    })
}

// The nets of a worker, the link into which it puts and the one from which it takes.
fn ways_of(room: &Room, place: u32) -> (Nets, &Link, &Link)
    ensures told { result.0.told ≡ told_of place }
    ensures out { result.1.now ≡ link_out room.now place }
    ensures into { result.2.now ≡ link_into room.now place }
{
    if place == 0 {
        (FIRST, &room.there, &room.back)
    } else {
        (SECOND, &room.back, &room.there)
    }
}

// What the worker at a place does.
fn work<R: Wait>(
    rt: &R,
    alloc: Global,
    circuit: &Circuit,
    room: &Room,
    workers: Workers,
    place: u32,
    hand: Hand,
) -> Result<Left, Trouble>
    requires workers { workers ≡ 2 }
    requires hand { IsHand room.now circuit.now place hand }
    ensures { IfOk result (IsLeft room.now circuit.now place) }
{
    let (nets, out, into) = ways_of(room, place);
    let Hand { seat, put, take } = hand;
    let told = nets.told;
    let ports = WorkerPorts::new(
        Watch::new(alloc, &room.board, circuit, seat, workers, place),
        nets,
        Out::new(out, put, told),
        In::new(into, take),
    );
    ports.work(rt, alloc)
}

// Runs the second worker in a thread of its own, and the seat that looks on in this one.
fn run_two<R: Threads + Wait + Sync>(
    rt: &R,
    alloc: Global,
    circuit: &Circuit,
    room: &Room,
    workers: Workers,
    second: Hand,
    last: Seat,
) -> (Result<Left, Trouble>, Result<(Seat, Notes), Trouble>)
    requires workers { workers ≡ 2 }
    requires second { IsHand room.now circuit.now 1 second }
    requires last { last ≡ new_seat room.now.board (board_terms circuit.now) true 2 }
    ensures second { IfOk result.0 (IsLeft room.now circuit.now 1) }
    ensures last { IfOk result.1 (λ found.
        at_first found.0 ≡ new_seat room.now.board (board_terms circuit.now) false 2) }
{
    thread::join(
        rt,
        move || -> Result<Left, Trouble>
            requires { (workers ≡ 2) × IsHand room.now circuit.now 1 second }
            ensures { IfOk result (IsLeft room.entry.now circuit.entry.now 1) }
        { work(rt, alloc, circuit, room, workers, 1, second) },
        move || -> Result<(Seat, Notes), Trouble>
            requires { (workers ≡ 2) × (last ≡ new_seat room.now.board (board_terms circuit.now) true 2) }
            ensures { IfOk result (λ found.
                at_first found.0 ≡ new_seat room.entry.now.board (board_terms circuit.entry.now) false 2) }
        { oversee(alloc, circuit, room, workers, last) },
    )
}

// Runs two workers and the seat that looks on, each in a thread, and gives back what they leave.
fn run_in<R: Threads + Wait + Sync>(
    rt: &R,
    alloc: Global,
    circuit: &Circuit,
    room: &Room,
    workers: Workers,
    hands: Hands,
) -> Result<Rest, Trouble>
    requires workers { workers ≡ 2 }
    requires first { IsHand room.now circuit.now 0 hands.first }
    requires second { IsHand room.now circuit.now 1 hands.second }
    requires last { hands.last ≡ new_seat room.now.board (board_terms circuit.now) true 2 }
    ensures first { IfOk result (λ rest. IsLeft room.now circuit.now 0 rest.first) }
    ensures second { IfOk result (λ rest. IsLeft room.now circuit.now 1 rest.second) }
    ensures last { IfOk result (λ rest.
        at_first rest.last ≡ new_seat room.now.board (board_terms circuit.now) false 2) }
{
    let Hands {
        first,
        second,
        last,
    } = hands;
    let (first, (second, last)) = thread::join(
        rt,
        move || -> Result<Left, Trouble>
            requires { (workers ≡ 2) × IsHand room.now circuit.now 0 first }
            ensures { IfOk result (IsLeft room.entry.now circuit.entry.now 0) }
        { work(rt, alloc, circuit, room, workers, 0, first) },
        move || -> (Result<Left, Trouble>, Result<(Seat, Notes), Trouble>)
            requires { (workers ≡ 2) × IsHand room.now circuit.now 1 second
                × (last ≡ new_seat room.now.board (board_terms circuit.now) true 2) }
            ensures second { IfOk result.0 (IsLeft room.entry.now circuit.entry.now 1) }
            ensures last { IfOk result.1 (λ found.
                at_first found.0 ≡ new_seat room.entry.now.board (board_terms circuit.entry.now) false 2) }
        { run_two(rt, alloc, circuit, room, workers, second, last) },
    );
    gathered(first, second, last)
}

// Runs this circuit with links that hold so many pieces, and closes them and the board.
fn run_over<R: Threads + Wait + Sync>(
    rt: &R,
    alloc: Global,
    circuit: &Circuit,
    workers: Workers,
    capacity: usize,
) -> Result<(), Trouble>
    requires { workers ≡ 2 }
{
    let Table {
        board,
        first,
        second,
        last,
    } = open_board(alloc, circuit, workers)?;
    let Ok((there, put_there, take_there)) = Link::open(
        alloc,
        &circuit.design,
        &[FIRST.told],
        capacity,
    ) else {
        return Err(Trouble::Memory);
    };
    let Ok((back, put_back, take_back)) = Link::open(
        alloc,
        &circuit.design,
        &[SECOND.told],
        capacity,
    ) else {
        return Err(Trouble::Memory);
    };
    let hands = Hands {
        first: Hand {
            seat: first,
            put: put_there,
            take: take_back,
        },
        second: Hand {
            seat: second,
            put: put_back,
            take: take_there,
        },
        last,
    };
    let room = Room { board, there, back };
    let rest = run_in(rt, alloc, circuit, &room, workers, hands)?;
    close_all(rt, alloc, circuit, capacity, room, rest)
}

/// Runs the circuit up to a horizon with links that hold so many pieces.
pub fn run<R: Threads + Wait + Sync>(
    rt: &R,
    alloc: Global,
    horizon: u32,
    capacity: usize,
) -> Result<(), Trouble> {
    let Ok(workers) = Workers::new(2) else {
        return Err(Trouble::Circuit);
    };
    let circuit = Circuit::read(alloc, NETLIST, &CLUSTERS, horizon)?;
    run_over(rt, alloc, &circuit, workers, capacity)
}
