//! Worked examples of worlds, by their events and replies.

ghost use Rattle.std.specs.Prelude.{◌≡◌, IfOk, length};
ghost use Rattle.cmb_design_model.specs.Exact.{nets_of};
ghost use Rattle.cmb_core_cluster.specs.Opened.{IsClusterOf};

use crate::checks::holds;
use crate::toggle::{Q, TOGGLE, at, pulse};
use cmb_core_cluster::{Cluster, Clustering, DeliverFault};
use cmb_core_protocol::{Event, PlayFault, Reply};
use cmb_core_world::World;
use cmb_design_model::Design;
use cmb_wave::{Heard, Level, Piece};
use std::alloc::Global;
use std::process::Abort;
use std::test::Fail;
use worked_designs::{bare, of_design, or_fail, sampled, spread, stimulated};

// A world of this design whose nets are spread over so many clusters.
fn opened(alloc: Global, design: &Design, clusters: u32) -> Result<World, Fail> {
    let clustering = spread(alloc, design, clusters)?;
    or_fail(World::open(alloc, design, &clustering))
}

fn toggle(alloc: Global, clusters: u32) -> Result<World, Fail> {
    of_design(
        alloc,
        bare(TOGGLE),
        sampled(12),
        |design| opened(alloc, design, clusters),
    )
}

// A reply as a test says it: of a piece its net, its span, its number of changes and the first of them.
#[derive(Clone, Copy, PartialEq, Eq)]
enum Told {
    Piece(u32, u32, u32, usize, Option<(u32, Level)>),
    Post(usize),
    Clock(u32),
    Promise(usize, u32, u32),
    Look(Heard),
    Fault(PlayFault),
    Nothing,
}

fn told_piece(piece: &Piece) -> Told {
    let changes = piece.changes();
    let first = if changes.is_empty() {
        None
    } else {
        Some((changes[0].tick, changes[0].level))
    };
    Told::Piece(piece.net(), piece.from(), piece.to(), changes.len(), first)
}

fn told_reply(reply: &Reply) -> Told {
    match reply {
        Reply::Stepped(Some(piece)) => told_piece(piece),
        Reply::Posted(Some(number)) => Told::Post(*number),
        Reply::Delivered(clock) => Told::Clock(*clock),
        Reply::Promised(number, promise) => Told::Promise(*number, promise.count, promise.upto),
        Reply::Looked(heard) => Told::Look(*heard),
        _ => Told::Nothing,
    }
}

fn answer_of(reply: &Result<Reply, PlayFault>) -> Told {
    match reply {
        Ok(reply) => told_reply(reply),
        Err(fault) => Told::Fault(*fault),
    }
}

// Whether the reply with this number is as wanted.
fn is_as_wanted(replies: &[Result<Reply, PlayFault>], wanted: &[Told], number: usize) -> bool {
    number < replies.len() && number < wanted.len() && answer_of(&replies[number]) == wanted[number]
}

fn are_as_wanted(replies: &[Result<Reply, PlayFault>], wanted: &[Told]) -> bool {
    for number in 0..wanted.len() {
        if !is_as_wanted(replies, wanted, number) {
            return false;
        }
    }
    replies.len() == wanted.len()
}

// Whether the replies to these events are these.
fn replies_with(world: &mut World, events: &[Event], wanted: &[Told]) -> bool {
    match world.play_all(events) {
        Ok(replies) => are_as_wanted(&replies, wanted),
        Err(_) => false,
    }
}

const TWO_CLUSTERS: [Event; 10] = [
    Event::Step(0),
    Event::Promise(0),
    Event::Look(1, 0),
    Event::Post(0, 0),
    Event::Deliver(1, 0),
    Event::Step(1),
    Event::Post(1, 5),
    Event::Deliver(1, 7),
    Event::Deliver(0, 0),
    Event::Look(1, 0),
];

const WANTED_OF_TWO_CLUSTERS: [Told; 10] = [
    Told::Piece(0, 0, 3, 1, Some((0, Level::Zero))),
    Told::Promise(0, 1, 3),
    Told::Look(Heard::Ahead),
    Told::Post(0),
    Told::Clock(3),
    Told::Piece(1, 0, 4, 1, Some((1, Level::One))),
    Told::Fault(PlayFault::Beyond),
    Told::Fault(PlayFault::NoSuch),
    Told::Fault(PlayFault::Stranger),
    Told::Look(Heard::Old),
];

#[test]
fn two_clusters(rt: HostRuntime) -> Result<(), Fail> {
    let mut world = toggle(rt.alloc(), 2)?;
    holds(
        &rt,
        replies_with(&mut world, &TWO_CLUSTERS, &WANTED_OF_TWO_CLUSTERS),
    );
    holds(&rt, world.promised(0).is_some());
    holds(&rt, world.promised(1).is_none());
    holds(&rt, world.posted(0).is_some());
    holds(&rt, world.posted(1).is_none());
    Ok(())
}

const PROMISE_OVERTAKES: [Event; 11] = [
    Event::Step(1),
    Event::Post(1, 0),
    Event::Deliver(2, 0),
    Event::Step(0),
    Event::Post(0, 0),
    Event::Deliver(1, 1),
    Event::Step(1),
    Event::Promise(1),
    Event::Post(1, 3),
    Event::Look(2, 0),
    Event::Deliver(2, 2),
];

const WANTED_OF_PROMISE_OVERTAKES: [Told; 11] = [
    Told::Piece(1, 0, 3, 1, Some((0, Level::Zero))),
    Told::Post(0),
    Told::Clock(3),
    Told::Piece(0, 0, 12, 1, Some((0, Level::Zero))),
    Told::Post(1),
    Told::Clock(12),
    Told::Piece(1, 3, 12, 0, None),
    Told::Promise(0, 1, 12),
    Told::Post(2),
    Told::Look(Heard::Extended),
    Told::Fault(PlayFault::Old { clock: 12 }),
];

// A flip-flop q that samples the input a, which is 0, and y, which follows it, each in a cluster of its own.
fn followed(alloc: Global) -> Result<World, Fail> {
    let texts = stimulated(
        b"INPUT(a) q = DFF(a) y = BUFF(q)",
        b"tick,net,value\n0,a,0\n",
    );
    of_design(alloc, texts, sampled(12), |design| opened(alloc, design, 3))
}

#[test]
fn promise_overtakes(rt: HostRuntime) -> Result<(), Fail> {
    let mut world = followed(rt.alloc())?;
    holds(
        &rt,
        replies_with(&mut world, &PROMISE_OVERTAKES, &WANTED_OF_PROMISE_OVERTAKES),
    );
    holds(&rt, world.in_clock(2, 1) == Some(12));
    holds(&rt, world.out_clock(2) == Some(0));
    holds(&rt, world.in_clock(0, 1) == None);
    holds(&rt, world.out_clock(3) == None);
    Ok(())
}

// What a world tells after a round: how far q and d are known where they are driven, and where they are read.
#[derive(Clone, Copy, PartialEq, Eq)]
struct After {
    done: bool,
    complete: bool,
    quiet: bool,
    driven: [Option<u32>; 2],
    read: [Option<u32>; 2],
}

fn after_round(world: &mut World) -> Result<After, Fail> {
    let done = world.round()?;
    Ok(After {
        done,
        complete: world.complete(),
        quiet: world.quiet(),
        driven: [world.out_clock(0), world.out_clock(1)],
        read: [world.in_clock(1, 0), world.in_clock(0, 1)],
    })
}

// Each of two clusters knows what the other one drives.
fn apart(q: u32, d: u32, done: bool) -> After {
    After {
        done,
        complete: done,
        quiet: done,
        driven: [Some(q), Some(d)],
        read: [Some(q), Some(d)],
    }
}

fn together(q: u32, d: u32, done: bool) -> After {
    After {
        done,
        complete: done,
        quiet: done,
        driven: [Some(q), Some(d)],
        read: [None, None],
    }
}

#[test]
fn rounds_of_toggle(rt: HostRuntime) -> Result<(), Fail> {
    let mut world = toggle(rt.alloc(), 2)?;
    for (q, d) in [(3u32, 1u32), (3, 4), (7, 4), (7, 8), (11, 8), (11, 12)] {
        holds(&rt, after_round(&mut world)? == apart(q, d, false));
    }
    holds(&rt, after_round(&mut world)? == apart(12, 12, true));
    Ok(())
}

#[test]
fn rounds_of_one_cluster(rt: HostRuntime) -> Result<(), Fail> {
    let mut world = toggle(rt.alloc(), 1)?;
    for (q, d) in [(3u32, 4u32), (7, 8), (11, 12)] {
        holds(&rt, after_round(&mut world)? == together(q, d, false));
    }
    holds(&rt, after_round(&mut world)? == together(12, 12, true));
    Ok(())
}

// The second cluster of two, told what is not so of q.
fn misled(
    rt: &impl Abort,
    alloc: Global,
    design: &Design,
    clustering: &Clustering,
) -> Result<Cluster, Fail>
    requires nets { length clustering.now.assign ≡ nets_of design.now }
    requires two { clustering.now.clusters ≡ 2 }
    ensures { IfOk result (λ s. IsClusterOf design.now clustering.now 1 s) }
{
    let mut cluster = Cluster::open(alloc, design, clustering, 1)?;
    let unknown = pulse(alloc, Q, 0, 3, at(0, Level::X))?;
    holds(
        rt,
        cluster.deliver(&unknown) == Err(DeliverFault::Clash { tick: 0 }),
    );
    let wrong = pulse(alloc, Q, 0, 3, at(0, Level::One))?;
    holds(rt, cluster.deliver(&wrong) == Ok(3));
    Ok(cluster)
}

// A world of a new first cluster and of this second one.
fn world_with(
    alloc: Global,
    design: &Design,
    clustering: &Clustering,
    second: Cluster,
) -> Result<World, Fail>
    requires nets { length clustering.now.assign ≡ nets_of design.now }
    requires two { clustering.now.clusters ≡ 2 }
    requires second { IsClusterOf design.now clustering.now 1 second }
{
    let first = Cluster::open(alloc, design, clustering, 0)?;
    let mut clusters = Vec::with_capacity(alloc, 2)?;
    clusters.push(first)?;
    clusters.push(second)?;
    or_fail(World::of(alloc, design, clustering, clusters))
}

const WORLD_OF: [Event; 4] = [
    Event::Step(1),
    Event::Post(1, 0),
    Event::Deliver(0, 0),
    Event::Step(0),
];

const WANTED_OF_WORLD_OF: [Told; 4] = [
    Told::Piece(1, 0, 4, 1, Some((1, Level::Zero))),
    Told::Post(0),
    Told::Clock(4),
    Told::Piece(0, 0, 7, 1, Some((0, Level::Zero))),
];

// The same where the second one is misled.
fn misled_with(
    rt: &impl Abort,
    alloc: Global,
    design: &Design,
    clustering: &Clustering,
) -> Result<World, Fail>
    requires nets { length clustering.now.assign ≡ nets_of design.now }
    requires two { clustering.now.clusters ≡ 2 }
{
    let second = misled(rt, alloc, design, clustering)?;
    world_with(alloc, design, clustering, second)
}

fn misled_in_two(rt: &impl Abort, alloc: Global, design: &Design) -> Result<World, Fail> {
    let clustering = spread(alloc, design, 2)?;
    holds(rt, clustering.clusters() == 2);
    misled_with(rt, alloc, design, &clustering)
}

fn misled_world(rt: &impl Abort, alloc: Global) -> Result<World, Fail> {
    of_design(
        alloc,
        bare(TOGGLE),
        sampled(12),
        |design| misled_in_two(rt, alloc, design),
    )
}

#[test]
fn world_of(rt: HostRuntime) -> Result<(), Fail> {
    let mut world = misled_world(&rt, rt.alloc())?;
    holds(
        &rt,
        replies_with(&mut world, &WORLD_OF, &WANTED_OF_WORLD_OF),
    );
    Ok(())
}
