//! `cmb_core`: clusters of logical processes, messages and null messages between them, and worlds of clusters.

ghost use Rattle.std.specs.Prelude.{◌≡◌, ◌<◌, IfOk, length};
ghost use Rattle.cmb_design.specs.Exact.{nets_of};

use crate::checks::{holds, same};
use crate::designs::of_toggle;
use cmb_core::{Cluster, Clustering, Event, PlayFault, World};
use cmb_design::Design;
use cmb_wave::Piece;
use std::alloc::Global;
use std::process::Abort;
use std::test::Fail;

/// The nets of a design, spread over so many clusters.
pub fn spread(alloc: Global, design: &Design, clusters: u32) -> Result<Clustering, Fail>
    ensures { IfOk result (λ clustering. length clustering.assign ≡ nets_of design.now) }
{
    let nets = design.netlist().len();
    let clustering = Clustering::spread(alloc, nets as u32, clusters)?;
    if clustering.nets() != nets {
        return Err(Fail::new("a clustering of other nets"));
    }
    Ok(clustering)
}

fn open_of(alloc: Global, design: &Design, cluster: u32) -> Result<Cluster, Fail>
    requires { cluster < 2 }
{
    let clustering = spread(alloc, design, 2)?;
    if clustering.clusters() != 2 {
        return Err(Fail::new("not two clusters"));
    }
    Ok(Cluster::open(alloc, design, &clustering, cluster)?)
}

// The cluster of q, which is 0, or that of d.
fn cluster_of(alloc: Global, cluster: u32) -> Result<Cluster, Fail>
    requires { cluster < 2 }
{
    of_toggle(alloc, |design| open_of(alloc, design, cluster))
}

// What q tells once it has stepped, as far as it goes: a promise, and a message.
fn steps(rt: &impl Abort, q: &mut Cluster) -> Result<Piece, Fail> {
    holds(rt, q.step_all()?);
    same(rt, q.out_clock(0), Some(3));
    holds(rt, q.out_clock(0).is_some());
    let promise = q.promise(0);
    same(rt, (promise.count, promise.upto), (1, 3));
    Ok(q.post(0, 0)?.ok_or("no message")?)
}

fn hears(rt: &impl Abort, d: &mut Cluster, message: &Piece) -> Result<(), Fail> {
    same(rt, d.deliver(message), Ok(3));
    holds(rt, d.step_all()?);
    same(rt, (d.out_clock(1), d.in_clock(0)), (Some(4), Some(3)));
    d.trim();
    holds(rt, !d.complete());
    Ok(())
}

// The message of q.
fn sent(rt: &impl Abort, alloc: Global) -> Result<Piece, Fail> {
    let mut q = cluster_of(alloc, 0)?;
    steps(rt, &mut q)
}

fn heard(rt: &impl Abort, alloc: Global, message: &Piece) -> Result<(), Fail> {
    let mut d = cluster_of(alloc, 1)?;
    hears(rt, &mut d, message)
}

// By hand: q is known below tick 3, where its first sample shows, and then d below tick 4.
#[test]
fn messages(rt: HostRuntime) -> Result<(), Fail> {
    let message = sent(&rt, rt.alloc())?;
    heard(&rt, rt.alloc(), &message)
}

// A step of q, and its message to d.
fn plays(rt: &impl Abort, world: &mut World) -> Result<(), Fail> {
    holds(rt, world.play(Event::Step(0)).is_ok());
    same(
        rt,
        world.play(Event::Post(0, 9)).err(),
        Some(PlayFault::Beyond),
    );
    let replies = world.play_all(&[Event::Post(0, 0), Event::Deliver(1, 0)])?;
    same(rt, replies.len(), 2);
    same(
        rt,
        (world.out_clock(0), world.in_clock(1, 0)),
        (Some(3), Some(3)),
    );
    Ok(())
}

// Rounds until all is done.
fn ends(rt: &impl Abort, world: &mut World) -> Result<(), Fail> {
    for _ in 0..12 {
        let _ = world.round()?;
    }
    holds(rt, world.complete() && world.quiet());
    Ok(())
}

fn world_of(alloc: Global, design: &Design) -> Result<World, Fail> {
    let clustering = spread(alloc, design, 2)?;
    Ok(World::open(alloc, design, &clustering)?)
}

fn played(rt: &impl Abort, world: &mut World) -> Result<(), Fail> {
    plays(rt, world)?;
    ends(rt, world)
}

#[test]
fn worlds(rt: HostRuntime) -> Result<(), Fail> {
    let alloc = rt.alloc();
    let mut world = of_toggle(alloc, |design| world_of(alloc, design))?;
    played(&rt, &mut world)
}
