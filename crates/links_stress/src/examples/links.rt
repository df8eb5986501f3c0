//! Links that hold one piece: what they do when they are full or empty, and what they hand from one thread to another.
//! And which capacities of links and numbers of workers are refused.

ghost use Rattle.std.specs.Prelude.{◌≡◌, true, [], ◌∷◌, IfOk, OnOk};
ghost use Rattle.cmb_design_model.specs.Exact.{IsExactIn};
ghost use Rattle.cmb_links.specs.Links.{after_put, after_take};
ghost use Rattle.links_stress.specs.Pieces.{Follow};

use super::{expect, source};
use crate::circuit::Circuit;
use crate::ends::{In, Out};
use crate::exact::ExactCluster;
use crate::trouble::Trouble;
use crate::worker::TURNS;
use cmb_design_model::Design;
use cmb_links::{Full, Link, LinkFault, PartCount, PutPass, TakePass, Workers, WorkersFault};
use cmb_wave::{Piece, Wave};
use std::alloc::Global;
use std::sync::Wait;
use std::thread;
use std::thread::Threads;

// The number of the net q.
const Q: u32 = 0;

// The piece of q from a tick on, after a step.
fn next_piece(cluster: &mut ExactCluster, from: u32) -> Result<Piece, Trouble>
    ensures exact { IfOk result (IsExactIn cluster.old) }
    ensures same { cluster.new ≡ cluster.old }
{
    cluster.step()?;
    match cluster.post(Q, from)? {
        Some(piece) => Ok(piece),
        None => Err(Trouble::NotDriven),
    }
}

fn is_span(piece: &Piece, from: u32, to: u32, changes: usize) -> bool {
    piece.net() == Q && piece.from() == from && piece.to() == to && piece.changes().len() == changes
}

// Puts two pieces into a link that holds one, and gives back the second.
fn put_two<R: Wait>(
    rt: &R,
    out: &mut Out<'_>,
    first: Piece,
    second: Piece,
) -> Result<Piece, Trouble>
    requires first { IsExactIn out.old.pass.design first }
    requires second { IsExactIn out.old.pass.design second }
    ensures exact { IfOk result (IsExactIn out.old.pass.design) }
    ensures same { out.new.pass.design ≡ out.old.pass.design }
{
    if out.put(rt, first).is_err() {
        return Err(Trouble::NoRoom);
    }
    match out.put(rt, second) {
        Ok(()) => Err(Trouble::NotFull),
        Err(Full(back)) => Ok(back),
    }
}

// Takes the first piece, after which the link is empty.
fn take_one<R: Wait>(rt: &R, into: &mut In<'_>) -> Result<(), Trouble> {
    let Some(first) = into.take(rt) else {
        return Err(Trouble::Empty);
    };
    expect(is_span(&first, 0, 3, 1), Trouble::Span)?;
    expect(into.take(rt).is_none(), Trouble::NotEmpty)
}

/// Pieces of q: the first two, and the second with the third in one.
#[derive(Drop)]
struct Pieces {
    first: Piece,
    second: Piece,
    longer: Piece,
}

fn pieces_by(cluster: &mut ExactCluster) -> Result<Pieces, Trouble>
    ensures first { IfOk result (λ pieces. IsExactIn cluster.old pieces.first) }
    ensures second { IfOk result (λ pieces. IsExactIn cluster.old pieces.second) }
    ensures longer { IfOk result (λ pieces. IsExactIn cluster.old pieces.longer) }
{
    let first = next_piece(cluster, 0)?;
    let second = next_piece(cluster, 3)?;
    let longer = next_piece(cluster, 3)?;
    Ok(Pieces {
        first,
        second,
        longer,
    })
}

// Whether a piece of q from tick 0 on is followed by one that leaves no gap.
fn follows(first: &Piece, second: &Piece) -> bool
    ensures { result ≡ true → Follow first.now second.now }
{
    first.net() == Q && first.from() == 0 && second.net() == Q && second.from() <= first.to()
}

fn pieces_of_q(alloc: Global, circuit: &Circuit) -> Result<Pieces, Trouble>
    ensures follow { IfOk result (λ pieces. Follow pieces.first pieces.second) }
    ensures first { IfOk result (λ pieces. IsExactIn circuit.now.design pieces.first) }
    ensures second { IfOk result (λ pieces. IsExactIn circuit.now.design pieces.second) }
    ensures longer { IfOk result (λ pieces. IsExactIn circuit.now.design pieces.longer) }
{
    let mut cluster = source(alloc, circuit)?;
    let pieces = pieces_by(&mut cluster)?;
    if !follows(&pieces.first, &pieces.second) {
        return Err(Trouble::Span);
    }
    Ok(pieces)
}

// Over a link that holds one: puts two pieces, takes twice, and puts the second piece again, or the longer one.
fn put_again<R: Wait>(
    rt: &R,
    out: &mut Out<'_>,
    into: &mut In<'_>,
    pieces: Pieces,
    is_longer: bool,
) -> Result<(), Trouble>
    requires first { IsExactIn out.old.pass.design pieces.first }
    requires second { IsExactIn out.old.pass.design pieces.second }
    requires longer { IsExactIn out.old.pass.design pieces.longer }
{
    let Pieces {
        first,
        second,
        longer,
    } = pieces;
    let back = put_two(rt, out, first, second)?;
    expect(is_span(&back, 3, 7, 1), Trouble::Span)?;
    take_one(rt, into)?;
    let last = if is_longer { longer } else { back };
    expect(out.put(rt, last).is_ok(), Trouble::NoRoom)
}

fn full_link_by<R: Wait>(
    rt: &R,
    alloc: Global,
    circuit: &Circuit,
    is_longer: bool,
) -> Result<(), Trouble> {
    let pieces = pieces_of_q(alloc, circuit)?;
    expect(is_span(&pieces.longer, 3, 11, 2), Trouble::Span)?;
    let Ok((link, put, take)) = Link::open(alloc, &circuit.design, &[Q], 1) else {
        return Err(Trouble::Memory);
    };
    let (mut out, mut into) = (Out::new(&link, put, Q), In::new(&link, take));
    put_again(rt, &mut out, &mut into, pieces, is_longer)
}

/// A full link gives a piece back. Once there is room, it takes this piece, or one that goes on longer.
pub fn full_link<R: Wait>(rt: &R, alloc: Global, circuit: &Circuit) -> Result<(), Trouble> {
    full_link_by(rt, alloc, circuit, false)?;
    full_link_by(rt, alloc, circuit, true)
}

// Puts two pieces and takes one.
fn put_and_take<R: Wait>(
    rt: &R,
    link: &Link,
    put: &mut PutPass,
    take: &mut TakePass,
    pieces: Pieces,
) -> Result<Piece, Trouble>
    requires put { put.old.link ≡ link.now.link }
    requires nets { put.old.nets ≡ Q ∷ [] }
    requires sent { put.old.sent ≡ [] }
    requires follow { Follow pieces.first pieces.second }
    requires take { take.old.link ≡ link.now.link }
    requires first { IsExactIn put.old.design pieces.first }
    requires second { IsExactIn put.old.design pieces.second }
    ensures put { OnOk result (put.new ≡ after_put (after_put put.old pieces.first) pieces.second) }
    ensures take { IfOk result (λ taken. take.new ≡ after_take take.old taken) }
{
    let Pieces {
        first,
        second,
        longer: _,
    } = pieces;
    if link.put(rt, put, first).is_err() || link.put(rt, put, second).is_err() {
        return Err(Trouble::NoRoom);
    }
    match link.take(rt, take) {
        Some(taken) => Ok(taken),
        None => Err(Trouble::Empty),
    }
}

// Over a link that holds two: puts two pieces and takes one, and closes it. What was taken and what is left is what was
// put.
fn close_over<R: Wait>(
    rt: &R,
    alloc: Global,
    link: Link,
    put: PutPass,
    take: TakePass,
    pieces: Pieces,
) -> Result<(Piece, Vec<Piece>), Trouble>
    requires put { (put.link ≡ link.link) × (put.nets ≡ Q ∷ []) × (put.sent ≡ []) }
    requires follow { Follow pieces.first pieces.second }
    requires take { (take.link ≡ link.link) × (take.received ≡ []) }
    requires first { IsExactIn put.design pieces.first }
    requires second { IsExactIn put.design pieces.second }
    ensures { IfOk result (λ taken. pieces.first ∷ pieces.second ∷ [] ≡ taken.0 ∷ taken.1.items) }
{
    let (mut put, mut take) = (put, take);
    let taken = put_and_take(rt, &link, &mut put, &mut take, pieces)?;
    let left = link.close(rt, alloc, put, take)?;
    Ok((taken, left))
}

// What is taken and what is left where two pieces of q are put.
fn taken_and_left<R: Wait>(
    rt: &R,
    alloc: Global,
    circuit: &Circuit,
) -> Result<(Piece, Vec<Piece>), Trouble> {
    let pieces = pieces_of_q(alloc, circuit)?;
    match Link::open(alloc, &circuit.design, &[Q], 2) {
        Ok((link, put, take)) => close_over(rt, alloc, link, put, take, pieces),
        Err(_) => Err(Trouble::Memory),
    }
}

/// A link that is closed gives what was put and not taken.
pub fn closed_link<R: Wait>(rt: &R, alloc: Global, circuit: &Circuit) -> Result<(), Trouble> {
    let (taken, left) = taken_and_left(rt, alloc, circuit)?;
    let is_left = match left.first() {
        Some(piece) => is_span(piece, 3, 7, 1),
        None => false,
    };
    expect(
        is_span(&taken, 0, 3, 1) && left.len() == 1 && is_left,
        Trouble::Left,
    )
}

// Why a link of this capacity isn't opened, if it isn't.
fn refusal(alloc: Global, design: &Design, capacity: usize) -> Option<LinkFault> {
    Link::open(alloc, design, &[Q], capacity).err()
}

fn are_capacities_right(alloc: Global, design: &Design) -> bool {
    refusal(alloc, design, 0) == Some(LinkFault::Capacity)
        && refusal(alloc, design, 65_537) == Some(LinkFault::Capacity)
        && refusal(alloc, design, 65_536).is_none()
        && LinkFault::Capacity.number() == 48
}

fn are_workers_right() -> bool {
    Workers::new(0) == Err(WorkersFault::Workers)
        && Workers::new(65) == Err(WorkersFault::Workers)
        && WorkersFault::Workers.number() == 54
        && Workers::from(PartCount::ONE).count() == 1
}

/// Which capacities of a link and which numbers of workers are refused, and by which fault.
pub fn capacities(alloc: Global, circuit: &Circuit) -> Result<(), Trouble> {
    expect(
        are_capacities_right(alloc, &circuit.design),
        Trouble::Capacity,
    )?;
    expect(are_workers_right(), Trouble::Workers)
}

// Puts the piece, and tries again where the link was full.
fn put_at_last<R: Wait>(rt: &R, out: &mut Out<'_>, piece: Piece) -> Result<(), Trouble>
    requires { IsExactIn out.old.pass.design piece }
    ensures { out.new.pass.design ≡ out.old.pass.design }
{
    let mut piece = piece;
    for _ in 0..TURNS {
        match out.put(rt, piece) {
            Ok(()) => return Ok(()),
            Err(Full(back)) => piece = back,
        }
        thread::yield_now();
    }
    Err(Trouble::TooLong)
}

// Puts the piece of q from a tick on, after a step.
fn put_next<R: Wait>(
    rt: &R,
    out: &mut Out<'_>,
    cluster: &mut ExactCluster,
    from: u32,
) -> Result<(), Trouble>
    requires { out.old.pass.design ≡ cluster.old }
    ensures out { out.new.pass.design ≡ out.old.pass.design }
    ensures cluster { cluster.new ≡ cluster.old }
{
    let piece = next_piece(cluster, from)?;
    put_at_last(rt, out, piece)
}

// Puts the pieces of q one after the other.
fn put_four<R: Wait>(rt: &R, out: &mut Out<'_>, cluster: &mut ExactCluster) -> Result<(), Trouble>
    requires { out.old.pass.design ≡ cluster.old }
{
    put_next(rt, out, cluster, 0)?;
    put_next(rt, out, cluster, 3)?;
    put_next(rt, out, cluster, 7)?;
    put_next(rt, out, cluster, 11)
}

fn put_all<R: Wait>(rt: &R, mut out: Out<'_>, mut cluster: ExactCluster) -> Result<(), Trouble>
    requires { out.pass.design ≡ cluster }
{
    put_four(rt, &mut out, &mut cluster)
}

// A wave of the pieces that are taken, once it is known up to the horizon.
fn take_all<R: Wait>(rt: &R, alloc: Global, mut into: In<'_>) -> Result<Wave, Trouble> {
    let mut wave = Wave::new(alloc, Q);
    for _ in 0..TURNS {
        match into.take(rt) {
            Some(piece) => {
                if wave.take(&piece).is_err() {
                    return Err(Trouble::Order);
                }
            }
            None => thread::yield_now(),
        }
        if wave.clock() == 12 {
            return Ok(wave);
        }
    }
    Err(Trouble::TooLong)
}

// Sends q in one thread and takes it in another.
fn sent<R: Threads + Wait + Sync>(
    rt: &R,
    alloc: Global,
    out: Out<'_>,
    into: In<'_>,
    cluster: ExactCluster,
) -> Result<Wave, Trouble>
    requires { out.pass.design ≡ cluster }
{
    let (sent, taken) = thread::join(
        rt,
        || put_all(rt, out, cluster),
        || take_all(rt, alloc, into),
    );
    sent?;
    taken
}

fn wave_of_q<R: Threads + Wait + Sync>(
    rt: &R,
    alloc: Global,
    circuit: &Circuit,
) -> Result<Wave, Trouble> {
    let cluster = source(alloc, circuit)?;
    let Ok((link, put, take)) = Link::open(alloc, &circuit.design, &[Q], 1) else {
        return Err(Trouble::Memory);
    };
    sent(
        rt,
        alloc,
        Out::new(&link, put, Q),
        In::new(&link, take),
        cluster,
    )
}

/// What one thread puts up to the horizon, another takes, whole and in order.
pub fn link_threads<R: Threads + Wait + Sync>(
    rt: &R,
    alloc: Global,
    circuit: &Circuit,
) -> Result<(), Trouble> {
    let wave = wave_of_q(rt, alloc, circuit)?;
    expect(
        wave.count() == 4 && circuit.is_right(wave.promise()),
        Trouble::Wave,
    )
}
