//! Steps small clusters many times, so that a clock outside can tell how fast a step is. It prints counts and no times.
//!
//! The words are any number of jobs, each a kind, a horizon and how often:
//!
//! - `given`: an AND gate is opened so often, and given its two inputs, which change at every tick;
//! - `merge`: the same, and the gate is stepped;
//! - `ring`: `y = NAND(e, y)`, which changes at every tick, is opened so often and stepped until it doesn't go on;
//! - `ring_all`: the same by `step_all`;
//! - `keep`: the same as `ring_all`, and all that were opened are kept to the end;
//! - `still`: an AND gate is opened once, given nothing and stepped so often.
//!
//! The stored run follows by hand. Both inputs of the AND gate are 0, 1, 0, 1 .. from tick 0 on, and its delay is 1, so
//! it is x at tick 0 and then 0, 1, 0, 1 ..: H - 1 changes in one step. The ring is x at tick 0, 1 at tick 1, since e
//! is 0 at tick 0, and turns at each later tick, since e is 1 from tick 1 on: H - 1 changes, in H steps of one tick
//! each, and one more step doesn't go on. A gate of which nothing is given is known up to its delay, by its first step.
#![tactic(auto)]

ghost use Rattle.std.specs.Prelude.{◌≡◌, ◌<◌, length};
ghost use Rattle.cmb_design_model.specs.Exact.{nets_of};

use cmb_bench::read_bench;
use cmb_core_cluster::{Cluster, Clustering};
use cmb_design_model::{Design, Settings};
use cmb_design_tables::{read_clocks, read_delays, read_initial, read_stimuli};
use cmb_wave::{Change, Level, Piece};
use std::alloc::{AllocError, Global};
use std::env;
use std::io::Write;
use std::process::ExitCode;

/// The bytes of a netlist or a table that are read at most.
const LIMIT: usize = 1_000;

/// Nets 0 and 1, given from elsewhere, and net 2.
const GATE: Circuit = Circuit {
    netlist: "INPUT(a)\nINPUT(b)\ny = AND(a, b)\n",
    stimuli: "",
    assign: &[1, 1, 0],
    clusters: 2,
};

/// Nets 0 and 1.
const RING: Circuit = Circuit {
    netlist: "INPUT(e)\ny = NAND(e, y)\n",
    stimuli: "tick,net,value\n0,e,0\n1,e,1\n",
    assign: &[0, 0],
    clusters: 1,
};

/// A design's texts, and which cluster has each net.
#[derive(Clone, Copy)]
struct Circuit {
    netlist: &'static str,
    stimuli: &'static str,
    assign: &'static [u32],
    clusters: u32,
}

#[derive(Clone, Copy)]
enum Kind {
    Given,
    Merge,
    Ring,
    RingAll,
    Keep,
    Still,
}

/// What is done, and how often.
#[derive(Clone, Copy)]
struct Job {
    kind: Kind,
    horizon: u32,
    times: u32,
}

/// What steps did.
#[derive(Clone, Copy)]
struct Count {
    steps: u64,
    risen: u64,
    changes: u64,
}

fn kind_of(word: &str) -> Option<Kind> {
    match word {
        "given" => Some(Kind::Given),
        "merge" => Some(Kind::Merge),
        "ring" => Some(Kind::Ring),
        "ring_all" => Some(Kind::RingAll),
        "keep" => Some(Kind::Keep),
        "still" => Some(Kind::Still),
        _ => None,
    }
}

fn design_of(alloc: Global, circuit: Circuit, horizon: u32) -> Option<Design> {
    if circuit.netlist.len() > LIMIT || circuit.stimuli.len() > LIMIT {
        return None;
    }
    let delays = read_delays(alloc, b"").ok()?;
    let stimuli = read_stimuli(alloc, circuit.stimuli.as_bytes()).ok()?;
    let clocks = read_clocks(alloc, b"").ok()?;
    let initial = read_initial(alloc, b"").ok()?;
    let netlist = read_bench(alloc, circuit.netlist.as_bytes()).ok()?;
    let settings = Settings {
        horizon,
        clock: None,
        init: Level::X,
    };
    Design::new(alloc, netlist, delays, stimuli, clocks, initial, settings).ok()
}

fn clustering_of(alloc: Global, circuit: Circuit, design: &Design) -> Option<Clustering> {
    let assign = circuit.assign.to_vec(alloc).ok()?;
    Clustering::new(design.netlist().len() as u32, circuit.clusters, assign).ok()
}

/// A design, and the clustering of its nets.
#[derive(Drop)]
struct Bench {
    design: Design,
    clustering: Clustering,
    ghost each: { length clustering.assign ≡ nets_of design },
    ghost some: { 0 < clustering.clusters },
}

impl Bench {
    fn new(alloc: Global, circuit: Circuit, horizon: u32) -> Option<Bench> {
        let design = design_of(alloc, circuit, horizon)?;
        let clustering = clustering_of(alloc, circuit, &design)?;
        Bench::of(design, clustering)
    }

    fn of(design: Design, clustering: Clustering) -> Option<Bench> {
        if clustering.nets() == design.netlist().len() && clustering.clusters() > 0 {
            Some(Bench { design, clustering })
        } else {
            None
        }
    }

    // Cluster 0, of which nothing is known yet.
    fn open(&self, alloc: Global) -> Option<Cluster> {
        Cluster::open(alloc, &self.design, &self.clustering, 0).ok()
    }
}

// A change at each tick, to 0 at the even ones.
fn alternating(alloc: Global, horizon: u32) -> Result<Vec<Change>, AllocError> {
    let mut changes = Vec::with_capacity(alloc, horizon as usize)?;
    for tick in 0..horizon {
        let level = if tick % 2 == 0 {
            Level::Zero
        } else {
            Level::One
        };
        changes.push(Change { tick, level })?;
    }
    Ok(changes)
}

fn busy_piece(alloc: Global, net: u32, horizon: u32) -> Option<Piece> {
    let changes = alternating(alloc, horizon).ok()?;
    Piece::new(net, 0, horizon, changes).ok()
}

impl Count {
    fn new() -> Count {
        Count {
            steps: 0,
            risen: 0,
            changes: 0,
        }
    }

    fn add_step(&mut self, rose: bool) {
        self.steps = self.steps.saturating_add(1);
        if rose {
            self.risen = self.risen.saturating_add(1);
        }
    }

    // Adds the changes of a net that the cluster drives.
    fn add_changes(&mut self, cluster: &Cluster, net: u32) {
        if cluster.out_clock(net).is_some() {
            let promise = cluster.promise(net);
            self.changes = self.changes.saturating_add(u64::from(promise.count));
        }
    }

    // Steps a net once, and answers whether it went on.
    fn step(&mut self, cluster: &mut Cluster, net: u32) -> Option<bool> {
        let rose = cluster.step(net).ok()?.is_some();
        self.add_step(rose);
        Some(rose)
    }

    // Steps all nets once, and answers whether one went on.
    fn step_all(&mut self, cluster: &mut Cluster) -> Option<bool> {
        let rose = cluster.step_all().ok()?;
        self.add_step(rose);
        Some(rose)
    }

    // Steps a net until it doesn't go on, which is so after the horizon's number of steps.
    fn run(&mut self, cluster: &mut Cluster, net: u32, horizon: u32) -> Option<()> {
        for _ in 0..=horizon {
            if !self.step(cluster, net)? {
                return Some(());
            }
        }
        Some(())
    }

    // Steps all nets until none goes on.
    fn run_all(&mut self, cluster: &mut Cluster, horizon: u32) -> Option<()> {
        for _ in 0..=horizon {
            if !self.step_all(cluster)? {
                return Some(());
            }
        }
        Some(())
    }
}

// An AND gate that is given its two nets, and stepped if so wanted.
fn merge_once(
    alloc: Global,
    bench: &Bench,
    pieces: &[Piece],
    steps: bool,
    count: &mut Count,
) -> Option<()> {
    let mut cluster = bench.open(alloc)?;
    for piece in pieces {
        cluster.deliver(piece).ok()?;
    }
    if steps {
        count.step(&mut cluster, 2)?;
    }
    count.add_changes(&cluster, 2);
    Some(())
}

// An AND gate of two nets that change at each tick, so often.
fn merge(alloc: Global, bench: &Bench, job: Job, steps: bool) -> Option<Count> {
    let first = busy_piece(alloc, 0, job.horizon)?;
    let second = busy_piece(alloc, 1, job.horizon)?;
    let pieces = [first, second];
    let mut count = Count::new();
    for _ in 0..job.times {
        merge_once(alloc, bench, &pieces, steps, &mut count)?;
    }
    Some(count)
}

// A ring that is stepped by itself.
fn ring_once(alloc: Global, bench: &Bench, horizon: u32, count: &mut Count) -> Option<()> {
    let mut cluster = bench.open(alloc)?;
    cluster.step(0).ok()?;
    count.run(&mut cluster, 1, horizon)?;
    count.add_changes(&cluster, 1);
    Some(())
}

// The same, so often.
fn ring(alloc: Global, bench: &Bench, job: Job) -> Option<Count> {
    let mut count = Count::new();
    for _ in 0..job.times {
        ring_once(alloc, bench, job.horizon, &mut count)?;
    }
    Some(count)
}

// A ring that is stepped with its cluster.
fn ring_all_once(alloc: Global, bench: &Bench, horizon: u32, count: &mut Count) -> Option<Cluster> {
    let mut cluster = bench.open(alloc)?;
    count.run_all(&mut cluster, horizon)?;
    count.add_changes(&cluster, 1);
    Some(cluster)
}

// The same, so often, where each may be kept to the end.
fn ring_all(alloc: Global, bench: &Bench, job: Job, keeps: bool) -> Option<Count> {
    let mut kept = Vec::new(alloc);
    let mut count = Count::new();
    for _ in 0..job.times {
        let cluster = ring_all_once(alloc, bench, job.horizon, &mut count)?;
        if keeps {
            kept.push(cluster).ok()?;
        }
    }
    Some(count)
}

// A gate that can't go on, stepped so often.
fn still(alloc: Global, bench: &Bench, job: Job) -> Option<Count> {
    let mut cluster = bench.open(alloc)?;
    let mut count = Count::new();
    for _ in 0..job.times {
        count.step(&mut cluster, 2)?;
    }
    count.add_changes(&cluster, 2);
    Some(count)
}

// What a job did on its circuit.
fn done_on(alloc: Global, bench: &Bench, job: Job) -> Option<Count> {
    match job.kind {
        Kind::Given => merge(alloc, bench, job, false),
        Kind::Merge => merge(alloc, bench, job, true),
        Kind::Ring => ring(alloc, bench, job),
        Kind::RingAll => ring_all(alloc, bench, job, false),
        Kind::Keep => ring_all(alloc, bench, job, true),
        Kind::Still => still(alloc, bench, job),
    }
}

// What a job did.
fn done(alloc: Global, job: Job) -> Option<Count> {
    let circuit = match job.kind {
        Kind::Given | Kind::Merge | Kind::Still => GATE,
        Kind::Ring | Kind::RingAll | Kind::Keep => RING,
    };
    let bench = Bench::new(alloc, circuit, job.horizon)?;
    done_on(alloc, &bench, job)
}

// The job of three words.
fn job_of(words: &[String]) -> Option<Job> {
    Some(Job {
        kind: kind_of(words.first()?.as_str())?,
        horizon: words.get(1)?.parse::<u32>().ok()?,
        times: words.get(2)?.parse::<u32>().ok()?,
    })
}

// Does the jobs of all words, and prints what each did.
fn do_all(alloc: Global, words: &[String], out: &mut String) -> Option<()> {
    for words in words.chunks(3) {
        let count = done(alloc, job_of(words)?)?;
        let name = words.first()?;
        let Count {
            steps,
            risen,
            changes,
        } = count;
        writeln!(
            out,
            "{name}: {steps} steps, {risen} went on, {changes} changes"
        )
        .ok()?;
    }
    Some(())
}

fn words_of(rt: &HostRuntime) -> Option<Vec<String>> {
    let mut args = env::args(rt).ok()?;
    let _program = args.next();
    args.collect::<Vec<String>>(rt.alloc()).ok()
}

fn main(rt: HostRuntime) -> ExitCode {
    let mut out = String::new(rt.alloc());
    let Some(words) = words_of(&rt) else {
        return ExitCode::from(1);
    };
    if do_all(rt.alloc(), words.as_slice(), &mut out).is_none() {
        return ExitCode::from(2);
    }
    match rt.stdout().write_all(out.as_bytes()) {
        Ok(()) => ExitCode::SUCCESS,
        Err(_) => ExitCode::from(1),
    }
}
