//! The end of a run: the board and the links are closed, and what they answer is compared with what the threads noted.

ghost use Rattle.std.specs.Prelude.{◌≡◌, [], ◌∷◌, IfOk};
ghost use Rattle.cmb_links.specs.Boards.{any_raised, count_finished};
ghost use Rattle.cmb_links.specs.Seats.{AreAllSeats};

use crate::circuit::Circuit;
use crate::run::{FIRST, NETS, SECOND};
use crate::trouble::Trouble;
use crate::watch::Notes;
use crate::worker::{Left, last_of};
use cmb_links::{Board, Ending, Link, PutPass, Seat, TakePass};
use cmb_wave::{Piece, Promise};
use std::alloc::Global;
use std::sync::Wait;

/// The board and the two links, one each way, that the threads share.
#[derive(Drop)]
pub struct Room {
    pub board: Board,
    pub there: Link,
    pub back: Link,
}

/// What the threads leave: the two workers, and the seat that looked on.
#[derive(Drop)]
pub struct Rest {
    pub first: Left,
    pub second: Left,
    pub last: Seat,
    pub found: Notes,
}

// Whether the promise is one of these, which rise.
fn is_among(published: &[Promise], promise: Promise) -> bool {
    let first = published.partition_point(|other| other.upto < promise.upto);
    match published.get(first) {
        Some(other) => *other == promise,
        None => false,
    }
}

// Whether each promise that was found was published by one of the two.
fn are_known(found: &[Promise], first: &[Promise], second: &[Promise]) -> bool {
    for promise in found {
        if !is_among(first, *promise) && !is_among(second, *promise) {
            return false;
        }
    }
    true
}

// Whether each promise that a seat found was published.
fn are_all_known(first: &Notes, second: &Notes, last: &Notes) -> bool {
    let (one, other) = (&first.published, &second.published);
    are_known(&first.found, one, other)
        && are_known(&second.found, one, other)
        && are_known(&last.found, one, other)
}

// The last promise that was published, and of a net of which none was, (0, 0).
fn newest(published: &[Promise], net: u32) -> Promise {
    match published.last() {
        Some(promise) if promise.net == net => *promise,
        _ => Promise {
            net,
            count: 0,
            upto: 0,
        },
    }
}

// Whether a closed board tells of each net what its worker published last. A worker publishes of its told net alone.
fn are_newest(promises: &[Promise], first: &[Promise], second: &[Promise]) -> bool {
    for (net, promise) in (0..NETS).zip(promises.iter()) {
        let published = if net == SECOND.told { second } else { first };
        if *promise != newest(published, net) {
            return false;
        }
    }
    promises.len() == NETS as usize
}

// Whether no promise that a seat found goes further than what the closed board tells of its net.
fn are_below(found: &[Promise], promises: &[Promise]) -> bool {
    found.iter().all(|promise| match promises.get(promise.net as usize) {
        Some(newest) => promise.upto <= newest.upto,
        None => false,
    })
}

// How many of the two workers finished.
fn count_finished(first: &Notes, second: &Notes) -> u32 {
    u32::from(first.is_done) + u32::from(second.is_done)
}

// What a closed board has to tell. The seat that looked on raised the stop word.
fn check_board(end: &Ending, first: &Notes, second: &Notes, last: &Notes) -> Result<(), Trouble> {
    let promises = &end.promises;
    if !are_newest(promises, &first.published, &second.published) {
        return Err(Trouble::Ending);
    }
    let are_all_below = are_below(&first.found, promises)
        && are_below(&second.found, promises)
        && are_below(&last.found, promises);
    if !are_all_below || !end.is_raised || end.finished != count_finished(first, second) {
        return Err(Trouble::Ending);
    }
    Ok(())
}

/// Closes the board with its three seats.
pub fn close_board(
    alloc: Global,
    board: Board,
    first: Seat,
    second: Seat,
    last: Seat,
) -> Result<Ending, Trouble>
    requires { AreAllSeats board (first ∷ second ∷ last ∷ []) }
    ensures raised { IfOk result (λ end. end.is_raised
        ≡ any_raised (first.view.stops ∷ second.view.stops ∷ last.view.stops ∷ [])) }
    ensures finished { IfOk result (λ end. end.finished
        ≡ count_finished (first.view.endings ∷ second.view.endings ∷ last.view.endings ∷ [])) }
{
    let mut seats = Vec::with_capacity(alloc, 3)?;
    seats.push_reserved(first);
    seats.push_reserved(second);
    seats.push_reserved(last);
    Ok(board.close(alloc, seats)?)
}

// Whether the pieces are those that go up to these ticks, each from where the one before it ended, and are exact.
fn are_rest(circuit: &Circuit, net: u32, from: u32, ticks: &[u32], pieces: &[Piece]) -> bool {
    let mut from = from;
    for (to, piece) in ticks.iter().zip(pieces.iter()) {
        if piece.net() != net || piece.from() != from || piece.to() != *to {
            return false;
        }
        if !circuit.is_exact(piece) {
            return false;
        }
        from = *to;
    }
    ticks.len() == pieces.len()
}

// Whether what came and what was left in the link is what was sent, in order.
fn is_whole(circuit: &Circuit, net: u32, sent: &[u32], came: &[u32], left: &[Piece]) -> bool {
    match sent.strip_prefix(came) {
        Some(rest) => are_rest(circuit, net, last_of(came), rest, left),
        None => false,
    }
}

// Closes a link, and gives what is left in it. There is no more than it holds.
fn close_link<R: Wait>(
    rt: &R,
    alloc: Global,
    link: Link,
    put: PutPass,
    take: TakePass,
    capacity: usize,
) -> Result<Vec<Piece>, Trouble>
    requires put { put.link ≡ link.link }
    requires take { take.link ≡ link.link }
{
    let left = link.close(rt, alloc, put, take)?;
    if left.len() > capacity {
        return Err(Trouble::Room);
    }
    Ok(left)
}

// What the closed links have to tell: the first worker sent there, and the second one back.
fn check_links(
    circuit: &Circuit,
    there: &[Piece],
    back: &[Piece],
    sent: (&[u32], &[u32]),
    came: (&[u32], &[u32]),
) -> Result<(), Trouble> {
    if is_whole(circuit, FIRST.told, sent.0, came.1, there)
        && is_whole(circuit, SECOND.told, sent.1, came.0, back)
    {
        return Ok(());
    }
    Err(Trouble::Left)
}

// What the closed board and links answer.
#[derive(Drop)]
struct Closed {
    end: Ending,
    there: Vec<Piece>,
    back: Vec<Piece>,
}

// The answers together, where none is a trouble.
fn put_together(
    end: Result<Ending, Trouble>,
    there: Result<Vec<Piece>, Trouble>,
    back: Result<Vec<Piece>, Trouble>,
) -> Result<Closed, Trouble> {
    Ok(Closed {
        end: end?,
        there: there?,
        back: back?,
    })
}

// What all that is closed has to tell.
fn check_all(
    circuit: &Circuit,
    closed: &Closed,
    notes: (&Notes, &Notes, &Notes),
    sent: (&[u32], &[u32]),
    came: (&[u32], &[u32]),
) -> Result<(), Trouble> {
    let (first, second, found) = notes;
    if !are_all_known(first, second, found) {
        return Err(Trouble::Unknown);
    }
    check_board(&closed.end, first, second, found)?;
    check_links(circuit, &closed.there, &closed.back, sent, came)
}

/// Closes the board and the links of a run, and compares what they answer with what its threads noted.
pub fn close_all<R: Wait>(
    rt: &R,
    alloc: Global,
    circuit: &Circuit,
    capacity: usize,
    room: Room,
    rest: Rest,
) -> Result<(), Trouble>
    requires seats { AreAllSeats room.board (rest.first.seat ∷ rest.second.seat ∷ rest.last ∷ []) }
    requires there { (rest.first.put.link ≡ room.there.link) × (rest.second.take.link ≡ room.there.link) }
    requires back { (rest.second.put.link ≡ room.back.link) × (rest.first.take.link ≡ room.back.link) }
{
    let Room { board, there, back } = room;
    let Rest {
        first,
        second,
        last,
        found,
    } = rest;
    let end = close_board(alloc, board, first.seat, second.seat, last);
    let there = close_link(rt, alloc, there, first.put, second.take, capacity);
    let back = close_link(rt, alloc, back, second.put, first.take, capacity);
    let notes = (&first.notes, &second.notes, &found);
    let sent = (first.sent.as_slice(), second.sent.as_slice());
    let came = (first.came.as_slice(), second.came.as_slice());
    match put_together(end, there, back) {
        Ok(closed) => check_all(circuit, &closed, notes, sent, came),
        Err(trouble) => Err(trouble),
    }
}
