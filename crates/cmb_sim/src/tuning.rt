//! The thresholds by which a run is planned: each is an estimate, and none changes a text.

ghost use Rattle.std.specs.Prelude.{◌≡◌, ◌≤◌, true, length, All, IfOk, IfSome};
ghost use Rattle.cmb_design_model.specs.Exact.{nets_of};
ghost use Rattle.cmb_graph_partition.specs.Partitions.{IsPartition};

use cmb_design_model::Design;
use cmb_graph_partition::{Partition, Structure, load, partition, structure_of, total};
use cmb_netlist::{Driver, PartCount};
use cmb_shares::costs_of;
use std::alloc::{AllocError, Global};
use std::thread;
use std::thread::Threads;

// Net and tick pairs up to which several workers run as they are asked to. Above it, what they hand to one another
// takes longer than the engine takes for all nets.
const MOST_BY_WORKERS: u64 = 262_144;

// So many samples the flip-flops take at least, where shares pay: it stands for how much changes in a run.
const LEAST_SAMPLES: u64 = 524_288;

// So many times as many where there are two shares, which gain less on a team, and take longer to begin.
const BY_TWO: u64 = 8;

// So many nets a netlist has at least, where shares pay.
const LEAST_NETS: usize = 2_048;

// The share with the most to do has so many hundredths of all work at most, where shares pay.
const MOST_OF_ALL: u64 = 70;

// What nets cost is seen in so many cycles, the first ones of a run. In fewer a processor hardly gets to its program.
const CYCLES: u64 = 160;

// But in no more than the first of so many parts of the run, since shares begin anew behind it.
const MOST_SEEN: u32 = 25;

// And in no less than the first of so many.
const LEAST_SEEN: u32 = 50;

// A run has so many threads for each processor at most: of more shares than processors some would wait for others'
// threads.
const PER_PROCESSOR: usize = 1;

// So many shares there are at least.
const LEAST_SHARES: u32 = 2;

/// The flip-flops of a design, and about how many samples they take in its run.
#[derive(Clone, Copy)]
struct Sampling {
    flops: u64,
    samples: u64,
}

/// Whether several workers have the nets of a design. Else the engine carries all of them: where one worker has them,
/// and where several wouldn't pay.
pub(crate) fn workers_pay(workers: PartCount, clusters: PartCount, design: &Design) -> bool
    ensures { result ≡ true → (2 ≤ workers.count) × (2 ≤ clusters.count) }
{
    let nets = design.netlist().len() as u64;
    let pairs = nets.saturating_mul(u64::from(design.horizon()));
    2 <= workers.count && 2 <= clusters.count && pairs <= MOST_BY_WORKERS
}

// The flip-flops of a design, and their samples.
fn sampling_of(design: &Design) -> Sampling {
    let netlist = design.netlist();
    let mut flops = 0_u64;
    let mut samples = 0_u64;
    for net in 0..netlist.len() {
        if matches!(netlist.driver(net), Driver::Flop(_)) {
            let cycles = design.horizon() / design.clock(net).period;
            flops = flops.saturating_add(1);
            samples = samples.saturating_add(u64::from(cycles));
        }
    }
    Sampling { flops, samples }
}

// Whether a run is so long, by what is known before it, that so many shares may pay.
fn is_long(design: &Design, sampling: &Sampling, shares: u32) -> bool {
    let times = if shares > 2 { 1 } else { BY_TWO };
    let least = LEAST_SAMPLES.saturating_mul(times);
    design.netlist().len() >= LEAST_NETS && sampling.samples >= least
}

// The tick up to which a run shows what nets cost.
fn seen_upto(horizon: u32, sampling: &Sampling) -> u32 {
    let cycles = (sampling.samples / sampling.flops.max(1)).max(1);
    let most = horizon / MOST_SEEN;
    let ticks = u64::from(horizon).saturating_mul(CYCLES) / cycles;
    (ticks.min(u64::from(most)) as u32).max(horizon / LEAST_SEEN)
}

// Whether no share has so much to do that the others hardly take anything off it.
fn is_even(costs: &[u32], partition: &Partition) -> bool
    requires few { length costs.now ≤ 65535 }
    requires marks { All (λ share. length share.driven.items ≡ length costs.now) partition.now.shares.items }
{
    let most = (total(costs) / 100).saturating_mul(MOST_OF_ALL);
    for share in &partition.shares {
        if load(costs, share) > most {
            return false;
        }
    }
    true
}

// What a partition goes by: the structure of the netlist, if it isn't too large to be found quickly, and what the run
// costs up to a tick. A thread finds the structure beside the calling one, which measures the costs.
fn measured<R: Threads + Sync>(
    rt: &R,
    alloc: Global,
    design: &Design,
    upto: u32,
) -> Result<(Option<Structure>, Vec<u32>), AllocError>
    ensures structure { IfOk result (λ found. IfSome found.0 (λ structure. structure ≡ nets_of design.now)) }
    ensures costs { IfOk result (λ found. length found.1.items ≡ nets_of design.now) }
{
    let (structure, costs) = thread::join(
        rt,
        move || -> Result<Option<Structure>, AllocError>
            ensures { IfOk result (λ found. IfSome found (λ structure. structure ≡ nets_of design.entry.now)) }
        { structure_of(alloc, design.netlist()) },
        move || -> Result<Vec<u32>, AllocError>
            ensures { IfOk result (λ costs. length costs.items ≡ nets_of design.entry.now) }
        { costs_of(alloc, design, upto) },
    );
    Ok((structure?, costs?))
}

/// So many of some threads as can be at work at once, where the system tells how many processors there are.
pub(crate) fn at_once<R: Threads>(rt: &R, threads: u32) -> u32
    ensures { result ≤ threads }
{
    match thread::available_parallelism(rt) {
        Ok(processors) => {
            let most = processors.get().saturating_mul(PER_PROCESSOR);
            most.min(threads as usize) as u32
        }
        Err(_) => threads,
    }
}

/// The shares of a design's nets, where a thread for each pays: they are so many at most. Errors: memory was
/// refused.
pub(crate) fn partition_that_pays<R: Threads + Sync>(
    rt: &R,
    alloc: Global,
    design: &Design,
    shares: u32,
) -> Result<Option<Partition>, AllocError>
    ensures partition { IfOk result (λ found. IfSome found (IsPartition design.now.netlist)) }
    ensures few { IfOk result (λ found. IfSome found (λ partition. length partition.shares.items ≤ shares)) }
{
    if shares < LEAST_SHARES {
        return Ok(None);
    }
    let sampling = sampling_of(design);
    if !is_long(design, &sampling, shares) {
        return Ok(None);
    }
    let upto = seen_upto(design.horizon(), &sampling);
    let (structure, costs) = measured(rt, alloc, design, upto)?;
    let Some(structure) = structure else {
        return Ok(None);
    };
    match partition(alloc, design.netlist(), structure, &costs, shares)? {
        Some(partition) if is_even(&costs, &partition) => Ok(Some(partition)),
        _ => Ok(None),
    }
}
