//! Free runs: that workers meet, that each goes on by its own turns, and what a stopped run hands back.

ghost use Rattle.std.specs.Prelude.{◌≡◌, IfOk, Some, length};
ghost use Rattle.std.specs.Prelude.{◌<◌, ◌-◌, ◌^◌};
ghost use Rattle.cmb_design_model.specs.Exact.{nets_of};

use crate::checks::{holds, same};
use crate::rounds::{TOGGLE, TOGGLE_TEXT};
use cmb_core_cluster::Clustering;
use cmb_design_model::{Design, Settings};
use cmb_io::{Failed, Limited, Room, Sink};
use cmb_links::Workers;
use cmb_run_exact::RunFault;
use cmb_run_free::{OpenGate, Turnstile, run_free, run_free_text};
use cmb_run_text::Collector;
use cmb_wave::{Level, Wave};
use std::alloc::{AllocError, Global};
use std::process::Abort;
use std::sync::Wait;
use std::sync::atomic::AtomicU64;
use std::sync::atomic::Ordering::SeqCst;
use std::test::Fail;
use std::thread;
use std::thread::Threads;
use worked_designs::{Inputs, bare, of_design, sampled, spread, text_of};

const LOOKS: u32 = 10_000_000;

// Waits until the number is above this one, and says whether it ever was.
fn waits_above(number: &AtomicU64, least: u64) -> bool {
    for _ in 0..LOOKS {
        if number.load(SeqCst) > least {
            return true;
        }
        thread::yield_now();
    }
    false
}

// The text of the toggle.
fn toggle_text(alloc: Global) -> Result<String, AllocError> {
    text_of(alloc, TOGGLE_TEXT.0, TOGGLE_TEXT.1)
}

// How a run ended.
#[derive(Clone, Copy, Debug, PartialEq, Eq)]
enum Ended {
    Whole,
    // It was stopped, and is known below this tick by this net.
    Stopped { net: u32, upto: u32 },
    Refused,
}

fn end_of(answer: &Result<Collector, RunFault>) -> Ended {
    match answer {
        Ok(_) => Ended::Whole,
        Err(RunFault::Incomplete { net, upto, .. }) => Ended::Stopped {
            net: *net,
            upto: *upto,
        },
        Err(_) => Ended::Refused,
    }
}

// A run of a design by so many workers.
fn run_by<G: Turnstile + Sync, R: Threads + Wait + Sync>(
    rt: &R,
    alloc: Global,
    design: &Design,
    clustering: &Clustering,
    workers: u32,
    gate: &G,
) -> Result<Ended, Fail>
    requires { length clustering.now.assign ≡ nets_of design.now }
{
    let workers = Workers::new(workers)?;
    let answer = run_free(rt, alloc, design, clustering, workers, gate);
    Ok(end_of(&answer))
}

// The same, with the nets spread over two clusters.
fn spread_by<G: Turnstile + Sync, R: Threads + Wait + Sync>(
    rt: &R,
    alloc: Global,
    design: &Design,
    workers: u32,
    gate: &G,
) -> Result<Ended, Fail> {
    let clustering = spread(alloc, design, 2)?;
    run_by(rt, alloc, design, &clustering, workers, gate)
}

// The toggle, with each of its two nets in a cluster of its own, by so many workers.
fn toggle_by<G: Turnstile + Sync, R: Threads + Wait + Sync>(
    rt: &R,
    alloc: Global,
    workers: u32,
    gate: &G,
) -> Result<Ended, Fail> {
    of_design(
        alloc,
        bare(TOGGLE),
        sampled(12),
        |design| spread_by(rt, alloc, design, workers, gate),
    )
}

// How a run with a text ended.
#[derive(Clone, Copy, Debug, PartialEq, Eq)]
enum Told {
    // So many bytes were written.
    Whole(u64),
    // It was stopped, and is known below this tick by this net. What it keeps begins where the text of so many bytes
    // ends, or doesn't.
    Stopped {
        net: u32,
        upto: u32,
        written: usize,
        keeps: bool,
    },
    // The sink failed after so many bytes.
    Broken(u64),
    Refused,
}

fn end_of_text(answer: &Result<u64, RunFault>) -> Told {
    match answer {
        Ok(written) => Told::Whole(*written),
        Err(
            RunFault::Incomplete {
                net,
                upto,
                collector,
            },
        ) => Told::Stopped {
            net: *net,
            upto: *upto,
            written: bytes_up_to(collector.least()),
            keeps: keeps_what_waits(collector),
        },
        Err(RunFault::Write { written }) => Told::Broken(*written),
        Err(RunFault::Memory) => Told::Refused,
    }
}

// A run by two workers, one of them for each of two clusters, that tells its text.
fn tell_by_two<G: Turnstile + Sync, S: Sink, R: Threads + Wait + Sync>(
    rt: &R,
    alloc: Global,
    design: &Design,
    gate: &G,
    sink: &mut S,
) -> Result<Told, Fail>
    requires { S.failures sink.old < 2 ^ 64 - 1 }
{
    let workers = Workers::new(2)?;
    let clustering = spread(alloc, design, 2)?;
    let answer = run_free_text(rt, alloc, design, &clustering, workers, gate, sink);
    Ok(end_of_text(&answer))
}

// The toggle by two workers, one of them for each net.
fn toggle_told<G: Turnstile + Sync, S: Sink, R: Threads + Wait + Sync>(
    rt: &R,
    alloc: Global,
    gate: &G,
    sink: &mut S,
) -> Result<Told, Fail>
    requires { S.failures sink.old < 2 ^ 64 - 1 }
{
    of_design(
        alloc,
        bare(TOGGLE),
        sampled(12),
        |design|
            requires { S.failures sink.now < 2 ^ 64 - 1 }
        { tell_by_two(rt, alloc, design, gate, sink) },
    )
}

#[derive(Clone, Copy)]
struct ClosedGate;

impl Turnstile for ClosedGate {
    fn pass(&self, _worker: u32, _turn: u32) -> bool {
        false
    }
}

#[test]
fn closed_gate(rt: HostRuntime) -> Result<(), Fail> {
    let alloc = rt.alloc();
    let stopped = Ended::Stopped { net: 0, upto: 0 };
    same(&rt, toggle_by(&rt, alloc, 2, &ClosedGate)?, stopped);
    same(&rt, toggle_by(&rt, alloc, 2, &OpenGate)?, Ended::Whole);
    Ok(())
}

// Each of two workers sets its flag, and goes on once it sees the other's.
#[derive(Drop)]
struct Meeting {
    flags: [AtomicU64; 2],
    missed: AtomicU64,
}

impl Turnstile for Meeting {
    fn pass(&self, worker: u32, turn: u32) -> bool {
        if turn > 0 || worker > 1 {
            return true;
        }
        let mine = worker as usize;
        self.flags[mine].store(1, SeqCst);
        if !waits_above(&self.flags[1 - mine], 0) {
            self.missed.store(1, SeqCst);
        }
        true
    }
}

#[test]
fn workers_meet(rt: HostRuntime) -> Result<(), Fail> {
    let meeting = Meeting {
        flags: [AtomicU64::new(0), AtomicU64::new(0)],
        missed: AtomicU64::new(0),
    };
    same(&rt, toggle_by(&rt, rt.alloc(), 2, &meeting)?, Ended::Whole);
    same(&rt, meeting.missed.load(SeqCst), 0);
    Ok(())
}

// Each worker counts itself before its first turn, and goes on once all have.
#[derive(Drop)]
struct Assembly {
    here: AtomicU64,
    others: u64,
    missed: AtomicU64,
}

impl Turnstile for Assembly {
    fn pass(&self, _worker: u32, turn: u32) -> bool {
        if turn == 0 {
            self.here.fetch_add(1, SeqCst);
            if !waits_above(&self.here, self.others) {
                self.missed.store(1, SeqCst);
            }
        }
        true
    }
}

#[test]
fn workers_without_clusters_meet_too(rt: HostRuntime) -> Result<(), Fail> {
    let assembly = Assembly {
        here: AtomicU64::new(0),
        others: 4,
        missed: AtomicU64::new(0),
    };
    same(&rt, toggle_by(&rt, rt.alloc(), 5, &assembly)?, Ended::Whole);
    same(&rt, assembly.here.load(SeqCst), 5);
    same(&rt, assembly.missed.load(SeqCst), 0);
    Ok(())
}

// Each of three workers expects its turns one by one, from turn 0 on.
#[derive(Drop)]
struct Counted {
    next: [AtomicU64; 3],
    missed: AtomicU64,
}

impl Turnstile for Counted {
    fn pass(&self, worker: u32, turn: u32) -> bool {
        let mine = (worker % 3) as usize;
        if worker > 2 || self.next[mine].load(SeqCst) != turn as u64 {
            self.missed.store(1, SeqCst);
        }
        self.next[mine].store(turn as u64 + 1, SeqCst);
        true
    }
}

#[test]
fn turns_rise_by_one(rt: HostRuntime) -> Result<(), Fail> {
    let counted = Counted {
        next: [AtomicU64::new(0), AtomicU64::new(0), AtomicU64::new(0)],
        missed: AtomicU64::new(0),
    };
    same(&rt, toggle_by(&rt, rt.alloc(), 3, &counted)?, Ended::Whole);
    same(&rt, counted.missed.load(SeqCst), 0);
    for next in &counted.next {
        holds(&rt, next.load(SeqCst) > 0);
    }
    Ok(())
}

// One worker is stopped at one of its turns, once the other had a hundred.
#[derive(Drop)]
struct OneStops {
    stopped: u32,
    at: u32,
    hundred: AtomicU64,
    missed: AtomicU64,
}

impl Turnstile for OneStops {
    fn pass(&self, worker: u32, turn: u32) -> bool {
        if worker != self.stopped {
            if turn == 100 {
                self.hundred.store(1, SeqCst);
            }
            return true;
        }
        if turn != self.at {
            return true;
        }
        if !waits_above(&self.hundred, 0) {
            self.missed.store(1, SeqCst);
        }
        false
    }
}

// The worker is stopped at this turn.
fn one_stops_at(stopped: u32, at: u32) -> OneStops {
    OneStops {
        stopped,
        at,
        hundred: AtomicU64::new(0),
        missed: AtomicU64::new(0),
    }
}

// The worker is stopped at this turn: the run is known below a tick from `least` to `most`, by net 0.
fn stops<R: Abort + Threads + Wait + Sync>(
    rt: &R,
    alloc: Global,
    stopped: u32,
    at: u32,
    least: u32,
    most: u32,
) -> Result<(), Fail> {
    let gate = one_stops_at(stopped, at);
    let ended = toggle_by(rt, alloc, 2, &gate)?;
    same(rt, gate.missed.load(SeqCst), 0);
    let is_known =
        matches!(ended, Ended::Stopped { net: 0, upto } if least <= upto && upto <= most);
    same(
        rt,
        (stopped, at, ended, is_known),
        (stopped, at, ended, true),
    );
    Ok(())
}

#[test]
fn one_stops(rt: HostRuntime) -> Result<(), Fail> {
    let alloc = rt.alloc();
    stops(&rt, alloc, 1, 0, 3, 3)?;
    stops(&rt, alloc, 1, 1, 3, 7)?;
    stops(&rt, alloc, 1, 2, 3, 11)?;
    stops(&rt, alloc, 0, 0, 0, 0)?;
    stops(&rt, alloc, 0, 1, 3, 3)?;
    stops(&rt, alloc, 0, 2, 3, 7)?;
    stops(&rt, alloc, 0, 3, 3, 11)
}

// Ends a run that goes on for so many turns.
#[derive(Clone, Copy)]
struct Patience;

impl Turnstile for Patience {
    fn pass(&self, _worker: u32, turn: u32) -> bool {
        turn < LOOKS
    }
}

// So many inputs, and as many buffers that read them.
fn buffers(alloc: Global, count: u32) -> Result<(String, String), AllocError> {
    let mut bench = String::new(alloc);
    let mut stimuli = String::from_str(alloc, "tick,net,value\n")?;
    for net in 0..count {
        write!(bench, "INPUT(a{net})\n")?;
        write!(stimuli, "0,a{net},0\n5,a{net},1\n")?;
    }
    for net in 0..count {
        write!(bench, "y{net} = BUFF(a{net})\n")?;
    }
    Ok((bench, stimuli))
}

// The inputs in one cluster, and the buffers in another.
fn halves(alloc: Global, count: u32) -> Result<Vec<u32>, AllocError> {
    let mut assign = Vec::new(alloc);
    for cluster in 0..2 {
        for _ in 0..count {
            assign.push(cluster)?;
        }
    }
    Ok(assign)
}

// The inputs of these buffers in one cluster, and the buffers in another.
fn halved(rt: &impl Abort, alloc: Global, design: &Design) -> Result<Clustering, Fail>
    ensures { IfOk result (λ clustering. length clustering.assign ≡ nets_of design.now) }
{
    let clustering = Clustering::new(140, 2, halves(alloc, 70)?)?;
    holds(rt, clustering.nets() == design.netlist().len());
    Ok(clustering)
}

// A run of the buffers by two workers.
fn halved_by_two<R: Abort + Threads + Wait + Sync>(
    rt: &R,
    alloc: Global,
    design: &Design,
) -> Result<Ended, Fail> {
    let clustering = halved(rt, alloc, design)?;
    run_by(rt, alloc, design, &clustering, 2, &Patience)
}

// The buffers are slower than the run is long.
#[test]
fn early_reader(rt: HostRuntime) -> Result<(), Fail> {
    let alloc = rt.alloc();
    let (bench, stimuli) = buffers(alloc, 70)?;
    let inputs = Inputs {
        netlist: bench.as_bytes(),
        delays: b"by,name,delay\nkind,BUFF,20\n",
        stimuli: stimuli.as_bytes(),
        clocks: b"",
        initial: b"",
    };
    let settings = Settings {
        horizon: 10,
        clock: None,
        init: Level::X,
    };
    let ended = of_design(
        alloc,
        inputs,
        settings,
        |design| halved_by_two(&rt, alloc, design),
    )?;
    same(&rt, ended, Ended::Whole);
    Ok(())
}

// A sink that tells another thread how much it took.
#[derive(Drop)]
struct Watched<'a> {
    room: Room,
    taken: &'a AtomicU64,
}

impl<'a> Sink for Watched<'a> {
    ghost taken = { λ s. Some s.room.bytes.items };

    ghost failures = { λ s. s.room.failures };

    fn write(&mut self, text: &[u8]) -> Result<usize, Failed> {
        let answer = self.room.write(text);
        self.taken.store(self.room.bytes.len() as u64, SeqCst);
        answer
    }
}

// Worker 0 has one turn, and its second once more than the declarations is written.
#[derive(Drop)]
struct EarlyText<'a> {
    taken: &'a AtomicU64,
    missed: AtomicU64,
}

impl<'a> Turnstile for EarlyText<'a> {
    fn pass(&self, worker: u32, turn: u32) -> bool {
        if worker == 0 && turn == 1 && !waits_above(self.taken, 144) {
            self.missed.store(1, SeqCst);
        }
        true
    }
}

#[test]
fn early_text(rt: HostRuntime) -> Result<(), Fail> {
    let alloc = rt.alloc();
    let text = toggle_text(alloc)?;
    let taken = AtomicU64::new(0);
    let gate = EarlyText {
        taken: &taken,
        missed: AtomicU64::new(0),
    };
    let mut sink = Watched {
        room: Room::new(alloc, 1000)?,
        taken: &taken,
    };
    let told = toggle_told(&rt, alloc, &gate, &mut sink)?;
    same(&rt, gate.missed.load(SeqCst), 0);
    same(&rt, told, Told::Whole(209));
    holds(&rt, sink.room.bytes.as_slice() == text.as_bytes());
    Ok(())
}

// One worker is refused its turn 3.
#[derive(Clone, Copy)]
struct ThreeTurns {
    worker: u32,
}

impl Turnstile for ThreeTurns {
    fn pass(&self, worker: u32, turn: u32) -> bool {
        worker != self.worker || turn != 3
    }
}

// The whole text with Ok, and a beginning with 53.
fn ends_early<R: Abort + Threads + Wait + Sync>(
    rt: &R,
    alloc: Global,
    worker: u32,
) -> Result<(), Fail> {
    let text = toggle_text(alloc)?;
    let mut sink = Limited::new(alloc, 1000);
    let told = toggle_told(rt, alloc, &ThreeTurns { worker }, &mut sink)?;
    holds(rt, text.as_bytes().starts_with(sink.bytes.as_slice()));
    match told {
        Told::Whole(written) => same(rt, (written, sink.bytes.len()), (209, 209)),
        _ => holds(rt, matches!(told, Told::Stopped { .. })),
    }
    Ok(())
}

#[test]
fn text_of_a_stopped_run(rt: HostRuntime) -> Result<(), Fail> {
    let alloc = rt.alloc();
    ends_early(&rt, alloc, 0)?;
    ends_early(&rt, alloc, 1)
}

// The level of a net of the toggle one tick before this one: q, net 0, is 0 from tick 0 on and changes at ticks 3, 7
// and 11, and d is x at tick 0 and changes at 1, 4 and 8.
fn level_before(net: u32, tick: u32) -> Level {
    match (net, tick) {
        (_, 0) | (1, 1) => Level::X,
        (0, 1..=3) | (0, 8..=11) | (1, 5..=8) => Level::Zero,
        _ => Level::One,
    }
}

// How many bytes the text has up to a tick.
fn bytes_up_to(tick: u32) -> usize {
    match tick {
        0 => 144,
        1 => 168,
        2..=3 => 174,
        4 => 180,
        5..=7 => 186,
        8 => 192,
        9..=11 => 198,
        _ => 209,
    }
}

// What a stopped run keeps of a wave begins at this tick, with the level that was left there.
fn waits(wave: &Wave, least: u32) -> bool {
    wave.base() == least
        && wave.kept() == level_before(wave.net(), least)
        && wave.changes().len() <= 2
        && wave.changes().iter().all(|change| change.tick >= least)
}

// What a stopped run keeps begins where all is known.
fn keeps_what_waits(known: &Collector) -> bool {
    let least = known.least();
    known.waves().iter().all(|wave| waits(wave, least))
}

// Worker 1 stops at this turn, once the other had a hundred: q is known below a tick from 3 to `most`.
fn stops_with_text<R: Abort + Threads + Wait + Sync>(
    rt: &R,
    alloc: Global,
    at: u32,
    most: u32,
) -> Result<(), Fail> {
    let text = toggle_text(alloc)?;
    let gate = one_stops_at(1, at);
    let mut sink = Limited::new(alloc, 1000);
    match toggle_told(rt, alloc, &gate, &mut sink)? {
        Told::Stopped {
            net,
            upto,
            written,
            keeps,
        } => {
            same(rt, (net, written, keeps), (0, sink.bytes.len(), true));
            same(rt, (at, upto, 3 <= upto && upto <= most), (at, upto, true));
        }
        _ => holds(rt, false),
    }
    holds(rt, text.as_bytes().starts_with(sink.bytes.as_slice()));
    Ok(())
}

#[test]
fn written_waves_are_forgotten(rt: HostRuntime) -> Result<(), Fail> {
    let alloc = rt.alloc();
    stops_with_text(&rt, alloc, 0, 3)?;
    stops_with_text(&rt, alloc, 1, 7)?;
    stops_with_text(&rt, alloc, 2, 11)
}

#[test]
fn text_of_a_full_sink(rt: HostRuntime) -> Result<(), Fail> {
    let alloc = rt.alloc();
    let text = toggle_text(alloc)?;
    for room in [0usize, 17, 144, 145, 208] {
        let mut sink = Limited::new(alloc, room);
        let told = toggle_told(&rt, alloc, &OpenGate, &mut sink)?;
        same(&rt, told, Told::Broken(room as u64));
        holds(&rt, text.as_bytes().starts_with(sink.bytes.as_slice()));
        same(&rt, sink.bytes.len(), room);
    }
    Ok(())
}
