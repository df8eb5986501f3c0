//! A free run.

ghost use Rattle.std.specs.Prelude.{◌≡◌, length, Ok, Err, IfOk, IfErr, IfSome, IfNone};
ghost use Rattle.cmb_design_model.specs.Exact.{nets_of};
ghost use Rattle.cmb_run_text.specs.Collector.{IsComplete, IsExactFor};
ghost use Rattle.cmb_run_free.specs.FreeRuns.{IsLeastBehind, IsStopped, IsStoppedAt};
ghost use Rattle.cmb_run_exact.specs.OfRun.{IsOfRun};
ghost use Rattle.cmb_run_free.specs.Inner.TextWriters.{decision, IsDecided, IsUnfinished};

use crate::backlog::Backlog;
use crate::collect::{Collect, Nowhere};
use crate::crew::Crew;
use crate::threads::start;
use crate::turnstile::Turnstile;
use cmb_core_cluster::Clustering;
use cmb_design_model::Design;
use cmb_links::Workers;
use cmb_run_exact::{ClusterRun, RunFault};
use cmb_run_text::Collector;
use std::alloc::Global;
use std::marker::Brand;
use std::sync::Wait;
use std::thread;
use std::thread::{Scope, Threads};

// The least net that isn't known up to the horizon, and the tick up to which it is.
fn least_behind(collector: &Collector) -> Option<(u32, u32)>
    ensures some { IfSome result (λ least. IsLeastBehind collector.now least.0 least.1) }
    ensures none { IfNone result (IsComplete collector.now) }
{
    let horizon = collector.horizon();
    for wave in collector.waves() {
        if wave.clock() < horizon {
            return Some((wave.net(), wave.clock()));
        }
    }
    None
}

// The collector of a run that ended.
fn ended(collector: Collector) -> Result<Collector, RunFault>
    ensures same { IfOk result (λ whole. whole ≡ collector) }
    ensures complete { IfOk result (λ whole. IsComplete whole) }
    ensures fault { IfErr result (IsStoppedAt collector) }
{
    match least_behind(&collector) {
        None => Ok(collector),
        Some((net, upto)) => Err(RunFault::Incomplete {
            net,
            upto,
            collector,
        }),
    }
}

// Why a run isn't whole: a failed write comes before all else, and want of memory before the rest.
fn decided(given: Result<u64, RunFault>, refused: bool) -> Result<u64, RunFault>
    ensures exact { result ≡ decision given refused }
    ensures ok { IfOk result (λ now. given ≡ Ok now) }
    ensures fault { IfErr result (IsDecided given) }
{
    match given {
        Err(RunFault::Write { written }) => Err(RunFault::Write { written }),
        _ if refused => Err(RunFault::Memory),
        given => given,
    }
}

/// What a run that ended comes to: how many bytes of its text were written, and its collector.
pub(crate) fn settled(
    given: Result<u64, RunFault>,
    refused: bool,
    collector: Collector,
) -> Result<(u64, Collector), RunFault>
    ensures given { IfOk result (λ whole. given ≡ Ok whole.0) }
    ensures same { IfOk result (λ whole. whole.1 ≡ collector) }
    ensures complete { IfOk result (λ whole. IsComplete whole.1) }
    ensures decided { IfErr (decision given refused) (λ fault. result ≡ Err fault) }
    ensures fault { IfErr result (IsUnfinished given collector) }
{
    let given = decided(given, refused)?;
    let collector = ended(collector)?;
    Ok((given, collector))
}

// Runs each worker in a thread of the scope, and collects in this one. Says what that came to, and whether memory or a
// thread was refused.
fn collect_in<
    's,
    E,
    T: ClusterRun + Send + Sync + 's,
    C: Collect<T, S>,
    S,
    G: Turnstile + Sync,
    R: Threads + Wait + Sync,
>(
    rt: &'s R,
    alloc: Global,
    scope: &Scope<'s, E>,
    crew: Crew<T>,
    collecting: &mut C,
    gate: &'s G,
    sink: &mut S,
) -> (Result<u64, RunFault>, bool)
    requires { C.is_ready collecting.old sink.old }
    ensures { C.is_told collecting.old collecting.new sink.old sink.new result.0 }
{
    let Crew {
        workers,
        mut lookout,
    } = crew;
    let started = start(rt, alloc, scope, workers, gate, &mut lookout);
    let given = collecting.collect(rt, &mut lookout, started.count(), sink);
    if given.is_err() {
        lookout.raise();
    }
    let refused = started.join(rt);
    drop(lookout);
    (given, refused)
}

// Does nothing. This use of a reference that came back ties it to the parameter that lent it.
fn take_back<T>(back: &mut T)
    ensures { back.new ≡ back.old }
{}

/// Runs a crew and collects meanwhile. Gives what was collected, says what that came to, and whether memory or a thread
/// was refused.
pub(crate) fn run_crew<
    T: ClusterRun + Send + Sync,
    C: Collect<T, S> + Drop,
    S,
    G: Turnstile + Sync,
    R: Threads + Wait + Sync,
>(
    rt: &R,
    alloc: Global,
    crew: Crew<T>,
    mut collecting: C,
    gate: &G,
    sink: &mut S,
) -> (C, Result<u64, RunFault>, bool)
    requires { C.is_ready collecting sink.old }
    ensures { C.is_told collecting result.0 sink.old sink.new result.1 }
{
    let (back, collecting, given, refused) = thread::scope(
        thread::scope_env(),
        rt,
        move |scope| -> (&mut S, C, Result<u64, RunFault>, bool)
            requires { C.is_ready collecting sink.now }
            ensures name { result.0.ghost_name ≡ sink.entry.ghost_name }
            ensures told { C.is_told collecting result.1 sink.entry.now result.0.now result.2 }
        {
            let (given, refused) = collect_in(rt, alloc, scope, crew, &mut collecting, gate, sink);
            (sink, collecting, given, refused)
        },
    );
    take_back(back);
    (collecting, given, refused)
}

// The run of the design and the clustering that T names.
fn run_named<T: ClusterRun + Send + Sync, G: Turnstile + Sync, R: Threads + Wait + Sync>(
    rt: &R,
    alloc: Global,
    design: &Design,
    clustering: &Clustering,
    workers: Workers,
    gate: &G,
) -> Result<Collector, RunFault>
    requires run { IsOfRun T.design T.clustering design.now clustering.now }
    requires each { clustering.now.clusters ≡ workers }
    ensures exact { IfOk result (λ collector. IsExactFor design.now collector) }
    ensures complete { IfOk result (λ collector. IsComplete collector) }
    ensures fault { IfErr result (IsStopped design.now) }
{
    let backlog = Backlog::<T>::open(alloc, design)?;
    let Ok(crew) = Crew::<T>::open(alloc, design, clustering, workers) else {
        drop(backlog);
        return Err(RunFault::Memory);
    };
    let (backlog, given, refused) = run_crew(rt, alloc, crew, backlog, gate, &mut Nowhere);
    let (_, collector) = settled(given, refused, backlog.into_collector())?;
    Ok(collector)
}

/// Simulates a design by workers that run freely, and collects the waves of all its nets, up to the
/// horizon. Cluster c belongs to worker `c mod workers`; a worker whose number isn't below that of the
/// clusters has none. Each worker, that one too, has a thread of its own, in which it takes turn after
/// turn; the calling thread collects what they put. Before each of its turns, from turn 0 on, a worker
/// asks the turnstile, and where that refuses, the run is stopped. What comes out doesn't change with clustering,
/// workers or turns. It may wait without end. Faults: 70 where memory or a worker's thread was
/// refused, and 53 where the run was stopped before all was known.
pub fn run_free<G: Turnstile + Sync, R: Threads + Wait + Sync>(
    rt: &R,
    alloc: Global,
    design: &Design,
    clustering: &Clustering,
    workers: Workers,
    gate: &G,
) -> Result<Collector, RunFault>
    requires { length clustering.now.assign ≡ nets_of design.now }
    ensures exact { IfOk result (λ collector. IsExactFor design.now collector) }
    ensures complete { IfOk result (λ collector. IsComplete collector) }
    ensures fault { IfErr result (IsStopped design.now) }
{
    let merged = clustering.merged(alloc, workers.count())?;
    run_named::<Brand, G, R>(rt, alloc, design, &merged, workers, gate)
}
