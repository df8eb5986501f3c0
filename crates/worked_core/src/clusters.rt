//! The worked examples of clusters. Their values follow by hand from the netlists, delays and stimuli.

use crate::checks::{holds, same};
use crate::toggle::{D, Q, TOGGLE, at, pair, pulse};
use cmb_core_cluster::{Cluster, Clustering, ClusteringFault, DeliverFault};
use cmb_design_model::{Design, Settings};
use cmb_netlist::PartCount;
use cmb_wave::{Change, Heard, Level, Piece, Promise, Wave};
use std::alloc::Global;
use std::process::Abort;
use std::test::Fail;
use worked_designs::{Inputs, bare, of_design, or_fail, sampled, spread};

// The cluster with this number, where the design's nets are spread over so many.
fn cluster_in(
    rt: &impl Abort,
    alloc: Global,
    design: &Design,
    clusters: u32,
    cluster: u32,
) -> Result<Cluster, Fail> {
    let clustering = spread(alloc, design, clusters)?;
    holds(rt, cluster < clustering.clusters());
    or_fail(Cluster::open(alloc, design, &clustering, cluster))
}

// The same of a design of these texts.
fn cluster_of(
    rt: &impl Abort,
    alloc: Global,
    texts: Inputs<'_>,
    settings: Settings,
    clusters: u32,
    cluster: u32,
) -> Result<Cluster, Fail> {
    of_design(
        alloc,
        texts,
        settings,
        |design| cluster_in(rt, alloc, design, clusters, cluster),
    )
}

/// Of the toggle, whose flip-flop samples at ticks 2, 6 and 10.
pub fn toggle(
    rt: &impl Abort,
    alloc: Global,
    clusters: u32,
    cluster: u32,
) -> Result<Cluster, Fail> {
    cluster_of(rt, alloc, bare(TOGGLE), sampled(12), clusters, cluster)
}

// What a step of a net answers.
fn stepped(cluster: &mut Cluster, net: u32) -> Result<Option<Piece>, Fail> {
    Ok(cluster.step(net)?)
}

// Whether a step of all nets raises a clock.
fn all_stepped(cluster: &mut Cluster) -> Result<bool, Fail> {
    Ok(cluster.step_all()?)
}

// The output clocks of nets 0 and 1.
fn clocks(cluster: &Cluster) -> (Option<u32>, Option<u32>) {
    (cluster.out_clock(0), cluster.out_clock(1))
}

// The base and the clock of an input wave after a trim.
fn trimmed(cluster: &mut Cluster, net: u32) -> (Option<u32>, Option<u32>) {
    cluster.trim();
    (cluster.base(net), cluster.in_clock(net))
}

/// The part of a step: its span and its changes.
pub fn is_piece(rt: &impl Abort, part: Option<Piece>, from: u32, to: u32, changes: &[Change]) {
    let Some(piece) = part else {
        panic!(rt; "no part");
    };
    same(rt, piece.from(), from);
    same(rt, piece.to(), to);
    holds(rt, piece.changes() == changes);
}

fn delivers(
    rt: &impl Abort,
    cluster: &mut Cluster,
    piece: &Piece,
    answer: Result<u32, DeliverFault>,
) {
    same(rt, cluster.deliver(piece), answer);
}

fn hears(rt: &impl Abort, cluster: &mut Cluster, promise: Promise, answer: Heard) {
    same(rt, cluster.hear(promise), Ok(answer));
}

// What a cluster posts of a net that it drives.
fn post(rt: &impl Abort, cluster: &Cluster, net: u32, from: u32) -> Result<Piece, Fail> {
    let Some(clock) = cluster.out_clock(net) else {
        panic!(rt; "a net that is driven elsewhere");
    };
    holds(rt, from <= clock);
    let piece = cluster.post(net, from)?.ok_or("no piece")?;
    Ok(piece)
}

// What a cluster promises of a net that it drives.
fn promise(rt: &impl Abort, cluster: &Cluster, net: u32) -> Promise {
    holds(rt, cluster.out_clock(net).is_some());
    cluster.promise(net)
}

// A gate goes on from its pins' clocks by its delay, never beyond the horizon.
#[test]
fn step_of_a_slow_gate(rt: HostRuntime) -> Result<(), Fail> {
    let texts = Inputs {
        netlist: b"INPUT(a)\nOUTPUT(y)\ny = NOT(a)\n",
        delays: b"by,name,delay\nnet,y,20\n",
        stimuli: b"tick,net,value\n0,a,0\n5,a,1\n",
        clocks: b"",
        initial: b"",
    };
    let mut all = cluster_of(&rt, rt.alloc(), texts, sampled(10), 1, 0)?;
    let part = stepped(&mut all, 1)?;
    is_piece(&rt, part, 0, 10, &[]);
    Ok(())
}

// A flip-flop goes on to its delay after the first sample that it doesn't know.
#[test]
fn step_of_a_flip_flop(rt: HostRuntime) -> Result<(), Fail> {
    let texts = bare(b"INPUT(a)\nq = DFF(a)\n");
    let settings = Settings {
        clock: Some((0, 5)),
        ..sampled(12)
    };
    let mut all = cluster_of(&rt, rt.alloc(), texts, settings, 1, 0)?;
    let part = stepped(&mut all, 1)?;
    is_piece(&rt, part, 0, 1, &[at(0, Level::Zero)]);
    Ok(())
}

// A flip-flop with a clock of its own.
#[test]
fn step_by_a_clock_row(rt: HostRuntime) -> Result<(), Fail> {
    let texts = Inputs {
        netlist: b"INPUT(a)\np = DFF(a)\nq = DFF(p)\n",
        delays: b"",
        stimuli: b"tick,net,value\n0,a,0\n3,a,1\n",
        clocks: b"net,first,period\nq,4,3\n",
        initial: b"",
    };
    let mut last = cluster_of(&rt, rt.alloc(), texts, sampled(12), 3, 2)?;
    let part = stepped(&mut last, 2)?;
    is_piece(&rt, part, 0, 5, &[at(0, Level::Zero)]);
    Ok(())
}

// A flip-flop with a first level of its own, and one without.
#[test]
fn step_by_a_first_level(rt: HostRuntime) -> Result<(), Fail> {
    let texts = Inputs {
        initial: b"net,value\nq,1\n",
        ..bare(b"INPUT(a)\np = DFF(a)\nq = DFF(p)\n")
    };
    let mut last = cluster_of(&rt, rt.alloc(), texts, sampled(12), 3, 2)?;
    let part = stepped(&mut last, 2)?;
    is_piece(&rt, part, 0, 3, &[at(0, Level::One)]);
    let mut middle = cluster_of(&rt, rt.alloc(), texts, sampled(12), 3, 1)?;
    let part = stepped(&mut middle, 1)?;
    is_piece(&rt, part, 0, 3, &[at(0, Level::Zero)]);
    Ok(())
}

fn loop_steps(rt: &impl Abort, all: &mut Cluster) -> Result<(), Fail> {
    is_piece(rt, stepped(all, 0)?, 0, 1, &[]);
    is_piece(rt, stepped(all, 0)?, 1, 2, &[]);
    is_piece(rt, stepped(all, 0)?, 2, 3, &[]);
    is_piece(rt, stepped(all, 0)?, 3, 4, &[]);
    holds(rt, stepped(all, 0)?.is_none());
    Ok(())
}

// A gate that reads itself goes on by its delay at each step.
#[test]
fn steps_of_a_loop(rt: HostRuntime) -> Result<(), Fail> {
    let texts = bare(b"n = NOT(n)\n");
    let mut all = cluster_of(&rt, rt.alloc(), texts, sampled(4), 1, 0)?;
    loop_steps(&rt, &mut all)
}

fn rounds(rt: &impl Abort, all: &mut Cluster) -> Result<(), Fail> {
    holds(rt, all_stepped(all)?);
    same(rt, clocks(all), (Some(3), Some(4)));
    holds(rt, all_stepped(all)?);
    same(rt, clocks(all), (Some(7), Some(8)));
    holds(rt, all_stepped(all)?);
    same(rt, clocks(all), (Some(11), Some(12)));
    holds(rt, all_stepped(all)?);
    same(rt, clocks(all), (Some(12), Some(12)));
    holds(rt, !all_stepped(all)?);
    Ok(())
}

#[test]
fn rounds_of_one_cluster(rt: HostRuntime) -> Result<(), Fail> {
    let mut all = toggle(&rt, rt.alloc(), 1, 0)?;
    rounds(&rt, &mut all)
}

// What a step of all nets raises the clocks to, and whether another one goes on.
fn goes_to(
    rt: &impl Abort,
    cluster: &mut Cluster,
    after: (Option<u32>, Option<u32>),
    more: bool,
) -> Result<(), Fail> {
    holds(rt, all_stepped(cluster)?);
    same(rt, clocks(cluster), after);
    same(rt, all_stepped(cluster)?, more);
    Ok(())
}

// A loop is gone over once.
#[test]
fn loop_of_one_cluster(rt: HostRuntime) -> Result<(), Fail> {
    let mut all = toggle(&rt, rt.alloc(), 1, 0)?;
    goes_to(&rt, &mut all, (Some(3), Some(4)), true)
}

fn is_wave(rt: &impl Abort, wave: &Wave, net: u32, changes: &[Change]) {
    same(rt, wave.net(), net);
    same(rt, wave.clock(), 12);
    holds(rt, wave.changes() == changes);
}

// q shows at ticks 3, 7 and 11 what d was at 2, 6 and 10, and d is the inverse of q a tick before.
fn are_toggling(rt: &impl Abort, waves: &[Wave]) {
    holds(rt, waves.len() == 2);
    let q = [
        at(0, Level::Zero),
        at(3, Level::One),
        at(7, Level::Zero),
        at(11, Level::One),
    ];
    is_wave(rt, &waves[0], Q, &q);
    let d = [at(1, Level::One), at(4, Level::Zero), at(8, Level::One)];
    is_wave(rt, &waves[1], D, &d);
}

#[test]
fn waves_given_up(rt: HostRuntime) -> Result<(), Fail> {
    let mut all = toggle(&rt, rt.alloc(), 1, 0)?;
    rounds(&rt, &mut all)?;
    are_toggling(&rt, &all.into_waves());
    Ok(())
}

// Half of it waits for the other half.
#[test]
fn loop_of_two_clusters(rt: HostRuntime) -> Result<(), Fail> {
    let mut first = toggle(&rt, rt.alloc(), 2, 0)?;
    goes_to(&rt, &mut first, (Some(3), None), false)
}

// A ring of one tick goes on by one tick, and then others have their turn.
#[test]
fn turns_of_a_loop(rt: HostRuntime) -> Result<(), Fail> {
    let texts = bare(b"n = NOT(n)\n");
    let mut all = cluster_of(&rt, rt.alloc(), texts, sampled(100), 1, 0)?;
    goes_to(&rt, &mut all, (Some(1), None), true)
}

fn wrong_steps(rt: &impl Abort, alloc: Global, second: &mut Cluster) -> Result<(), Fail> {
    let unknown = pulse(alloc, Q, 0, 3, at(0, Level::X))?;
    let clash = DeliverFault::Clash { tick: 0 };
    delivers(rt, second, &unknown, Err(clash));
    let wrong = pulse(alloc, Q, 0, 3, at(0, Level::One))?;
    delivers(rt, second, &wrong, Ok(3));
    is_piece(rt, stepped(second, 1)?, 0, 4, &[at(1, Level::Zero)]);
    Ok(())
}

// Whatever is delivered, a step goes by the cluster's own waves.
#[test]
fn step_by_what_was_delivered(rt: HostRuntime) -> Result<(), Fail> {
    let mut second = toggle(&rt, rt.alloc(), 2, 1)?;
    wrong_steps(&rt, rt.alloc(), &mut second)
}

fn trim_steps(rt: &impl Abort, alloc: Global, second: &mut Cluster) -> Result<(), Fail> {
    let first = pulse(alloc, Q, 0, 3, at(0, Level::Zero))?;
    delivers(rt, second, &first, Ok(3));
    is_piece(rt, stepped(second, 1)?, 0, 4, &[at(1, Level::One)]);
    same(rt, trimmed(second, 0), (Some(3), Some(3)));
    let next = pair(alloc, Q, 7, at(0, Level::Zero), at(3, Level::One))?;
    delivers(rt, second, &next, Ok(7));
    is_piece(rt, stepped(second, 1)?, 4, 8, &[at(4, Level::Zero)]);
    Ok(())
}

// What a trim forgets is needed no more.
#[test]
fn trim_row(rt: HostRuntime) -> Result<(), Fail> {
    let mut second = toggle(&rt, rt.alloc(), 2, 1)?;
    trim_steps(&rt, rt.alloc(), &mut second)
}

// A cluster of an input, a flip-flop and a gate in a row, with each net in a cluster of its own.
fn in_a_row(rt: &impl Abort, alloc: Global, cluster: u32) -> Result<Cluster, Fail> {
    let texts = Inputs {
        netlist: b"INPUT(a)\nq = DFF(a)\ny = BUFF(q)\n",
        delays: b"",
        stimuli: b"tick,net,value\n0,a,0\n",
        clocks: b"",
        initial: b"",
    };
    cluster_of(rt, alloc, texts, sampled(12), 3, cluster)
}

// Up to the flip-flop's second step, which has no change.
fn row_steps(
    rt: &impl Abort,
    input: &mut Cluster,
    flop: &mut Cluster,
    gate: &mut Cluster,
) -> Result<(), Fail> {
    is_piece(rt, stepped(flop, 1)?, 0, 3, &[at(0, Level::Zero)]);
    let first = post(rt, flop, 1, 0)?;
    delivers(rt, gate, &first, Ok(3));
    is_piece(rt, stepped(input, 0)?, 0, 12, &[at(0, Level::Zero)]);
    let data = post(rt, input, 0, 0)?;
    delivers(rt, flop, &data, Ok(12));
    is_piece(rt, stepped(flop, 1)?, 3, 12, &[]);
    Ok(())
}

fn overtakes(rt: &impl Abort, flop: &Cluster, gate: &mut Cluster) -> Result<(), Fail> {
    let late = post(rt, flop, 1, 3)?;
    let told = promise(rt, flop, 1);
    same(rt, (told.net, told.count, told.upto), (1, 1, 12));
    hears(rt, gate, told, Heard::Extended);
    delivers(rt, gate, &late, Err(DeliverFault::Old { clock: 12 }));
    Ok(())
}

// The first two clusters of a row with the third one.
fn row_with(
    rt: &impl Abort,
    alloc: Global,
    input: &mut Cluster,
    flop: &mut Cluster,
) -> Result<(), Fail> {
    let mut gate = in_a_row(rt, alloc, 2)?;
    row_steps(rt, input, flop, &mut gate)?;
    overtakes(rt, flop, &mut gate)
}

// A promise comes before the piece that it makes needless.
#[test]
fn promise_overtakes(rt: HostRuntime) -> Result<(), Fail> {
    let mut input = in_a_row(&rt, rt.alloc(), 0)?;
    let mut flop = in_a_row(&rt, rt.alloc(), 1)?;
    row_with(&rt, rt.alloc(), &mut input, &mut flop)
}

#[test]
fn clusters_in_turn(rt: HostRuntime) -> Result<(), Fail> {
    let one = Clustering::round_robin(rt.alloc(), 3, PartCount::ONE)?;
    same(&rt, one.clusters(), 1);
    Ok(())
}

#[test]
fn refused_clusterings(rt: HostRuntime) -> Result<(), Fail> {
    let alloc = rt.alloc();
    let none = Clustering::new(2, 0, vec![in alloc; 0u32, 0]?).err();
    same(&rt, none, Some(ClusteringFault::Clusters));
    let many = Clustering::new(2, 65, vec![in alloc; 0u32, 0]?).err();
    same(&rt, many, Some(ClusteringFault::Clusters));
    let beyond = Clustering::new(2, 2, vec![in alloc; 0u32, 2]?).err();
    same(&rt, beyond, Some(ClusteringFault::Assign));
    let short = Clustering::new(2, 2, vec![in alloc; 0u32]?).err();
    same(&rt, short, Some(ClusteringFault::Assign));
    let spread = Clustering::spread(alloc, 2, 65).err();
    same(&rt, spread, Some(ClusteringFault::Clusters));
    same(&rt, ClusteringFault::Clusters.number(), 40);
    same(&rt, ClusteringFault::Assign.number(), 41);
    Ok(())
}
