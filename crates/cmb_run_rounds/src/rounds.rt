//! A run in rounds: the workers step their clusters, each in a thread of its own where that is worth it,
//! and between two rounds each is given what is new of the nets that it reads.

ghost use Rattle.std.specs.Prelude.{◌≡◌, ◌≤◌, ◌<◌, ◌↔◌, ℕ, suc, min, true, length, IfOk, IfErr, IsTrue, OnOk};
ghost use Rattle.std.specs.List.{list_any};
ghost use Rattle.cmb_design_model.specs.Exact.{nets_of};
ghost use Rattle.cmb_core_cluster.specs.Assigns.{merged_clustering};
ghost use Rattle.cmb_core_cluster.specs.Clustering.{cluster_of, has_input};
ghost use Rattle.cmb_core_cluster.specs.Onward.{GoesOn};
ghost use Rattle.cmb_core_protocol.specs.Clocks.{Clocks, start};
ghost use Rattle.cmb_core_protocol.specs.Run.{clocks_after};
ghost use Rattle.cmb_run_text.specs.Collector.{IsComplete, IsExactFor, wave_of};
ghost use Rattle.cmb_run_rounds.specs.RoundEvents.{AreRounds, exchange_events, round_events, step_events};
ghost use Rattle.cmb_run_rounds.specs.Inner.Rounds.{AreAt, AreComplete, AreHandsOf, AreKnownTo};
ghost use Rattle.cmb_run_rounds.specs.Inner.Rounds.{HasWorked, IsExchanged, IsPassedOn};
ghost use Rattle.cmb_run_rounds.specs.Inner.Rounds.{IsServed, hand_at, known_at_home};
ghost use Rattle.cmb_run_exact.specs.OfRun.{IsOfRun};
ghost use Rattle.cmb_run_exact.specs.declared.run_fault.RunFault.TheVariants.{Memory};

use crate::collected::Collected;
use crate::round_worker::RoundWorker;
use cmb_core_cluster::Clustering;
use cmb_design_model::Design;
use cmb_links::Workers;
use cmb_run_exact::{ClusterRun, RunFault};
use cmb_run_text::Collector;
use std::alloc::{AllocError, Global};
use std::marker::Brand;
use std::thread;
use std::thread::Threads;

/// What comes of a run in rounds.
#[derive(Drop)]
pub struct Run {
    /// The waves of all nets.
    pub collector: Collector,
    /// How many rounds were made.
    pub rounds: u32,
}

// A thread is started and joined in about the time of so many looks at a net. This is an estimate.
const THREAD: usize = 1_000;

// A cluster for each worker.
fn deal<T: ClusterRun>(
    alloc: Global,
    design: &Design,
    clustering: &Clustering,
) -> Result<Vec<RoundWorker<T>>, AllocError>
    requires { IsOfRun T.design T.clustering design.now clustering.now }
    ensures of { IfOk result (λ hands. AreHandsOf T.design T.clustering hands.items) }
    ensures new { IfOk result (λ hands. AreAt T.design T.clustering (start T.design T.clustering) hands.items) }
{
    // What every netlist keeps is told by the contract of its length.
    let _nets = design.netlist().len();
    let count = clustering.clusters();
    let mut hands = Vec::with_capacity(alloc, count as usize)?;
    for worker in 0..count {
        hands.push(RoundWorker::open(alloc, design, clustering, worker)?)?;
    }
    Ok(hands)
}

// Whether a round in threads is done sooner: what the workers but the busiest have to do is then done beside it,
// and that outweighs their threads.
fn is_worth_threads<T: ClusterRun>(hands: &[RoundWorker<T>]) -> bool {
    let mut beside = 0_usize;
    let mut most = 0;
    for hand in hands {
        let load = hand.load();
        beside = beside.saturating_add(load.min(most));
        most = most.max(load);
    }
    beside > hands.len().saturating_sub(1).saturating_mul(THREAD)
}

// In how many threads a round is done soonest: one for each worker, or the calling one alone.
fn threads_for<T: ClusterRun>(hands: &[RoundWorker<T>]) -> usize
    ensures { 0 < result }
{
    if is_worth_threads(hands) {
        hands.len().max(1)
    } else {
        1
    }
}

// The workers' parts of a round, in at most so many threads.
fn work_all<T: ClusterRun + Send + Sync, R: Threads + Sync>(
    rt: &R,
    hands: &mut [RoundWorker<T>],
    threads: usize,
)
    requires { 0 < threads }
    ensures count { length hands.new ≡ length hands.old }
    ensures each { (worker : ℕ) → worker < length hands.old
        → HasWorked T.design T.clustering (hand_at hands.old worker) (hand_at hands.new worker) }
{
    thread::for_each_mut(rt, hands, threads, &|_, hand| hand.work());
}

// Whether one of them met want of memory.
fn some_refused<T: ClusterRun>(hands: &[RoundWorker<T>]) -> bool
    ensures { result ≡ list_any (λ hand. hand.refused) hands.now }
{
    hands.iter().any(|hand| hand.refused())
}

// The round's steps.
fn step<T: ClusterRun + Send + Sync, R: Threads + Sync>(
    rt: &R,
    hands: &mut [RoundWorker<T>],
) -> Result<(), AllocError>
    requires { AreHandsOf T.design T.clustering hands.old }
    ensures kept { OnOk result (AreHandsOf T.design T.clustering hands.new) }
    ensures on { OnOk result ((worker : ℕ) → worker < T.clustering.clusters
        → GoesOn T.design T.clustering worker (hand_at hands.old worker).cluster.waves
        (hand_at hands.new worker).cluster.waves) }
    ensures events { (clocks : Clocks) → AreAt T.design T.clustering clocks hands.old
        → OnOk result (AreAt T.design T.clustering
        (clocks_after T.design T.clustering clocks (step_events T.design T.clustering clocks)) hands.new) }
{
    let threads = threads_for(hands);
    work_all(rt, hands, threads);
    if some_refused(hands) {
        return Err(AllocError);
    }
    Ok(())
}

// Gives a worker what is new of a net that it reads, by the worker that drives the net.
fn pass_net<T: ClusterRun>(
    hands: &mut [RoundWorker<T>],
    home: usize,
    reader: usize,
    net: u32,
) -> Result<(), AllocError>
    requires hands { AreHandsOf T.design T.clustering hands.old }
    requires home { home ≡ cluster_of T.clustering net }
    requires reader { reader < T.clustering.clusters }
    requires reads { has_input T.design T.clustering reader net ≡ true }
    ensures kept { OnOk result (AreHandsOf T.design T.clustering hands.new) }
    ensures passed { OnOk result (IsPassedOn T.clustering reader net hands.old hands.new) }
{
    let Some(known) = hands[reader].in_clock(net) else {
        return Ok(());
    };
    match hands[home].post(net, known)? {
        Some(new) => hands[reader].deliver(&new),
        None => Ok(()),
    }
}

// Gives a worker what is new of all nets that it reads.
fn pass_to<T: ClusterRun>(
    clustering: &Clustering,
    hands: &mut [RoundWorker<T>],
    reader: usize,
) -> Result<(), AllocError>
    requires clustering { clustering.now ≡ T.clustering }
    requires hands { AreHandsOf T.design T.clustering hands.old }
    requires reader { reader < T.clustering.clusters }
    ensures kept { OnOk result (AreHandsOf T.design T.clustering hands.new) }
    ensures served { OnOk result (IsServed T.design T.clustering reader hands.old hands.new) }
{
    for place in 0..hands[reader].inputs().len() {
        let net = hands[reader].inputs()[place];
        pass_net(hands, clustering.of(net) as usize, reader, net)?;
    }
    Ok(())
}

// Gives each worker what is new of the nets that it reads.
fn pass_on<T: ClusterRun>(
    clustering: &Clustering,
    hands: &mut [RoundWorker<T>],
) -> Result<(), AllocError>
    requires clustering { clustering.now ≡ T.clustering }
    requires hands { AreHandsOf T.design T.clustering hands.old }
    ensures kept { OnOk result (AreHandsOf T.design T.clustering hands.new) }
    ensures exchanged { OnOk result (IsExchanged T.design T.clustering hands.new) }
    ensures homes { OnOk result ((net : ℕ)
        → known_at_home T.clustering hands.new net ≡ known_at_home T.clustering hands.old net) }
    ensures events { (clocks : Clocks) → AreAt T.design T.clustering clocks hands.old
        → OnOk result (AreAt T.design T.clustering
        (clocks_after T.design T.clustering clocks (exchange_events T.design T.clustering clocks)) hands.new) }
{
    for reader in 0..hands.len() {
        pass_to(clustering, hands, reader)?;
    }
    Ok(())
}

// A round: the steps, and then the exchange. It brings every clock on by a tick at least.
fn round<T: ClusterRun + Send + Sync, R: Threads + Sync>(
    rt: &R,
    clustering: &Clustering,
    hands: &mut [RoundWorker<T>],
) -> Result<(), AllocError>
    requires clustering { clustering.now ≡ T.clustering }
    requires hands { AreHandsOf T.design T.clustering hands.old }
    ensures kept { OnOk result (AreHandsOf T.design T.clustering hands.new) }
    ensures further { (tick : ℕ) → AreKnownTo T.design T.clustering tick hands.old → suc tick ≤ T.design.horizon
        → OnOk result (AreKnownTo T.design T.clustering (suc tick) hands.new) }
    ensures events { (clocks : Clocks) → AreAt T.design T.clustering clocks hands.old
        → OnOk result (AreAt T.design T.clustering
        (clocks_after T.design T.clustering clocks (round_events T.design T.clustering clocks)) hands.new) }
{
    step(rt, hands)?;
    pass_on(clustering, hands)
}

// Whether each net is known up to the horizon where it is driven.
fn all_complete<T: ClusterRun>(hands: &[RoundWorker<T>]) -> bool
    requires { AreHandsOf T.design T.clustering hands.now }
    ensures { IsTrue result ↔ AreComplete T.design T.clustering hands.now }
{
    for hand in hands {
        if !hand.complete() {
            return false;
        }
    }
    true
}

// Rounds by new workers until all is known, and how many. There are no more of them than ticks.
fn all_rounds<T: ClusterRun + Send + Sync, R: Threads + Sync>(
    rt: &R,
    design: &Design,
    clustering: &Clustering,
    hands: &mut [RoundWorker<T>],
) -> Result<u32, AllocError>
    requires design { design.now ≡ T.design }
    requires clustering { clustering.now ≡ T.clustering }
    requires hands { AreHandsOf T.design T.clustering hands.old }
    requires new { AreAt T.design T.clustering (start T.design T.clustering) hands.old }
    ensures kept { OnOk result (AreHandsOf T.design T.clustering hands.new) }
    ensures complete { OnOk result (AreComplete T.design T.clustering hands.new) }
    ensures rounds { IfOk result (λ rounds. AreRounds T.design T.clustering rounds) }
{
    for tick in 0..design.horizon() {
        round(rt, clustering, hands)?;
        if all_complete(hands) {
            return Ok(tick + 1);
        }
    }
    Ok(design.horizon())
}

// Gives the waves of all clusters to what is collected.
fn hand_over_all<T: ClusterRun>(mut hands: Vec<RoundWorker<T>>, collected: &mut Collected<T>)
    requires hands { AreHandsOf T.design T.clustering hands.items }
    requires known { AreComplete T.design T.clustering hands.items }
    ensures { (net : ℕ) → net < nets_of T.design → T.design.horizon ≤ (wave_of collected.new.waves net).clock }
{
    while let Some(hand) = hands.pop() {
        hand.hand_over(collected);
    }
}

// The run of the design by one worker for each cluster of the clustering that T names.
fn run_named<T: ClusterRun + Send + Sync, R: Threads + Sync>(
    rt: &R,
    alloc: Global,
    design: &Design,
    clustering: &Clustering,
) -> Result<Run, AllocError>
    requires { IsOfRun T.design T.clustering design.now clustering.now }
    ensures exact { IfOk result (λ run. IsExactFor design.now run.collector) }
    ensures complete { IfOk result (λ run. IsComplete run.collector) }
    ensures rounds { IfOk result (λ run. AreRounds design.now clustering.now run.rounds) }
{
    let mut hands = deal::<T>(alloc, design, clustering)?;
    let rounds = all_rounds(rt, design, clustering, &mut hands)?;
    let mut collected = Collected::open(alloc, design)?;
    hand_over_all(hands, &mut collected);
    Ok(Run {
        collector: collected.into_collector(),
        rounds,
    })
}

/// Simulates a design in rounds and collects the waves of all its nets, up to the horizon. The nets
/// of cluster c belong to worker `c mod workers`, which treats all its nets as one cluster; a worker
/// whose number isn't below that of the clusters has none, and no part in the run. In each round
/// every net is stepped once; then each worker is given what is new of the nets that it reads. Where there are
/// several workers, and a round has enough to do that threads are worth their start, each steps its nets in a thread
/// of its own, one of them in the calling thread, and all are joined before pieces are passed on; else, and where a
/// thread is refused, they step one after the other. What is collected is the same for any clustering and any number
/// of workers. There are no more rounds than ticks below the horizon: each brings every clock on by a tick at least. So
/// the call ends, and without the bound `Wait`. The only refusal is 70, where memory was refused.
pub fn run_rounds<R: Threads + Sync>(
    rt: &R,
    alloc: Global,
    design: &Design,
    clustering: &Clustering,
    workers: Workers,
) -> Result<Run, RunFault>
    requires { length clustering.now.assign ≡ nets_of design.now }
    ensures exact { IfOk result (λ run. IsExactFor design.now run.collector) }
    ensures complete { IfOk result (λ run. IsComplete run.collector) }
    ensures rounds { IfOk result (λ run.
        AreRounds design.now (merged_clustering clustering.now (min workers clustering.now.clusters)) run.rounds) }
    ensures fault { IfErr result (λ fault. fault ≡ Memory) }
{
    let workers = workers.at_most(clustering.clusters());
    let merged = clustering.merged(alloc, workers.count())?;
    let run = run_named::<Brand, R>(rt, alloc, design, &merged)?;
    Ok(run)
}
