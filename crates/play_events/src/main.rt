//! Plays lists of events over worlds of clusters, and prints each event's reply on a line of its own.
//!
//! Standard input has any number of cases, each ended by a line `%%`, with five parts, each but the
//! last ended by a line `%`: the numbers of the settings (horizon, first sample tick, period, initial
//! level 0, 1 or 2 for x, clusters), the netlist, the delays, the stimuli, and the events, as
//! `step NET`, `post NET FROM`, `deliver CLUSTER POST`, `promise NET` and `look CLUSTER PROMISE`.
#![tactic(auto)]

use cmb_bench::read_bench;
use cmb_core_cluster::Clustering;
use cmb_core_protocol::{Event, PlayFault, Reply};
use cmb_core_world::World;
use cmb_design_model::{Design, Settings};
use cmb_design_tables::{read_clocks, read_delays, read_initial, read_stimuli};
use cmb_wave::{Heard, Level, Piece};
use std::alloc::{AllocError, Global};
use std::io::{Read, Write};
use std::process::ExitCode;

const LIMIT: usize = 1_000_000;

fn letter(level: Level) -> char {
    match level {
        Level::Zero => '0',
        Level::One => '1',
        Level::X => 'x',
    }
}

fn level_of(number: u32) -> Level {
    match number {
        0 => Level::Zero,
        1 => Level::One,
        _ => Level::X,
    }
}

fn event_of(line: &str) -> Option<Event> {
    let mut words = line.split_whitespace();
    let name = words.next()?;
    let first = words.next()?.parse::<u32>().ok()?;
    let second = match words.next() {
        Some(word) => word.parse::<u32>().ok()?,
        None => 0,
    };
    match name {
        "step" => Some(Event::Step(first)),
        "post" => Some(Event::Post(first, second)),
        "deliver" => Some(Event::Deliver(first, second as usize)),
        "promise" => Some(Event::Promise(first)),
        "look" => Some(Event::Look(first, second as usize)),
        _ => None,
    }
}

fn events_of(alloc: Global, text: &str) -> Option<Vec<Event>> {
    let mut events = Vec::new(alloc);
    for line in text.lines() {
        events.push(event_of(line)?).ok()?;
    }
    Some(events)
}

/// What a case's first part says.
#[derive(Clone, Copy)]
struct Numbers {
    settings: Settings,
    clusters: u32,
}

fn numbers_of(text: &str) -> Option<Numbers> {
    let mut words = text.split_whitespace();
    let horizon = words.next()?.parse::<u32>().ok()?;
    let first = words.next()?.parse::<u32>().ok()?;
    let period = words.next()?.parse::<u32>().ok()?;
    let init = words.next()?.parse::<u32>().ok()?;
    let clusters = words.next()?.parse::<u32>().ok()?;
    Some(Numbers {
        settings: Settings {
            horizon,
            clock: Some((first, period)),
            init: level_of(init),
        },
        clusters,
    })
}

fn push_piece(out: &mut String, piece: &Piece) -> Result<(), AllocError> {
    write!(out, "piece {} {} {}", piece.net(), piece.from(), piece.to())?;
    for change in piece.changes() {
        write!(out, " {}:{}", change.tick, letter(change.level))?;
    }
    Ok(())
}

fn push_heard(out: &mut String, heard: Heard) -> Result<(), AllocError> {
    match heard {
        Heard::Old => out.push_str("old"),
        Heard::Extended => out.push_str("extended"),
        Heard::Ahead => out.push_str("ahead"),
    }
}

// The fault's number, and the tick that it tells.
fn push_fault(out: &mut String, fault: PlayFault) -> Result<(), AllocError> {
    write!(out, "{}", fault.number())?;
    match fault {
        PlayFault::Gap { clock } | PlayFault::Old { clock } => write!(out, " {clock}"),
        PlayFault::Clash { tick } => write!(out, " {tick}"),
        _ => Ok(()),
    }
}

fn push_reply(out: &mut String, reply: &Reply) -> Result<(), AllocError> {
    match reply {
        Reply::Stepped(Some(piece)) => push_piece(out, piece),
        Reply::Stepped(None) => out.push_str("still"),
        Reply::Posted(Some(number)) => write!(out, "post {number}"),
        Reply::Posted(None) => out.push_str("nothing"),
        Reply::Delivered(clock) => write!(out, "clock {clock}"),
        Reply::Promised(number, promise) => write!(
            out,
            "promise {number} {} {} {}",
            promise.net, promise.count, promise.upto
        ),
        Reply::Looked(heard) => push_heard(out, *heard),
    }
}

fn push_line(out: &mut String, reply: &Result<Reply, PlayFault>) -> Result<(), AllocError> {
    match reply {
        Ok(reply) => push_reply(out, reply)?,
        Err(fault) => push_fault(out, *fault)?,
    }
    out.push_str("\n")
}

/// The parts of a case.
#[derive(Clone, Copy)]
struct Case<'a> {
    numbers: Numbers,
    bench: &'a str,
    delays: &'a str,
    stimuli: &'a str,
    events: &'a str,
}

fn case_of(text: &str) -> Option<Case<'_>> {
    let mut parts = text.split("%\n");
    Some(Case {
        numbers: numbers_of(parts.next()?)?,
        bench: parts.next()?,
        delays: parts.next()?,
        stimuli: parts.next()?,
        events: parts.next()?,
    })
}

fn design_of(alloc: Global, case: Case<'_>) -> Option<Design> {
    if case.bench.len() > LIMIT || case.delays.len() > LIMIT || case.stimuli.len() > LIMIT {
        return None;
    }
    let delays = read_delays(alloc, case.delays.as_bytes()).ok()?;
    let stimuli = read_stimuli(alloc, case.stimuli.as_bytes()).ok()?;
    let clocks = read_clocks(alloc, b"").ok()?;
    let initial = read_initial(alloc, b"").ok()?;
    let netlist = read_bench(alloc, case.bench.as_bytes()).ok()?;
    Design::new(
        alloc,
        netlist,
        delays,
        stimuli,
        clocks,
        initial,
        case.numbers.settings,
    )
    .ok()
}

fn world_of(alloc: Global, design: &Design, clusters: u32) -> Option<World> {
    let nets = design.netlist().len();
    let clustering = Clustering::spread(alloc, nets as u32, clusters).ok()?;
    if clustering.nets() != nets {
        return None;
    }
    World::open(alloc, design, &clustering).ok()
}

// Plays events over the clusters of a design, and prints the replies.
fn play_on(
    alloc: Global,
    design: &Design,
    clusters: u32,
    events: &[Event],
    out: &mut String,
) -> Option<()> {
    let mut world = world_of(alloc, design, clusters)?;
    for reply in world.play_all(events).ok()?.iter() {
        push_line(out, reply).ok()?;
    }
    Some(())
}

// Plays a case's events, and prints the replies.
fn play(alloc: Global, text: &str, out: &mut String) -> Option<()> {
    let case = case_of(text)?;
    let events = events_of(alloc, case.events)?;
    let design = design_of(alloc, case)?;
    play_on(alloc, &design, case.numbers.clusters, &events, out)
}

fn play_all(alloc: Global, text: &str, out: &mut String) -> Option<()> {
    for case in text.split("%%\n") {
        if !case.is_empty() {
            play(alloc, case, out)?;
        }
    }
    Some(())
}

fn main(rt: HostRuntime) -> ExitCode {
    let mut text = String::new(rt.alloc());
    let mut out = String::new(rt.alloc());
    if rt.stdin().read_to_string(&mut text).is_err() {
        return ExitCode::from(1);
    }
    if play_all(rt.alloc(), text.as_str(), &mut out).is_none() {
        return ExitCode::from(1);
    }
    match rt.stdout().write_all(out.as_bytes()) {
        Ok(()) => ExitCode::SUCCESS,
        Err(_) => ExitCode::from(1),
    }
}
