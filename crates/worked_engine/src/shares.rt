//! The text of a design whose nets are partitioned among logical processes, which read each other's flip-flops.

ghost use Rattle.std.specs.Prelude.{IfOk, IfSome};
ghost use Rattle.cmb_design_model.specs.Exact.{nets_of};
ghost use Rattle.cmb_dump.specs.Shown.{CanShow, shown_by};
ghost use Rattle.cmb_graph_partition.specs.Partitions.{IsPartition};

use crate::checks::holds;
use cmb_design_model::{Design, Settings};
use cmb_dump::Shown;
use cmb_dump_stream::write_stream;
use cmb_graph_partition::{Partition, partition, structure_of, whole_partition};
use cmb_io::{Limited, Room, WriteFault};
use cmb_shares::{Shares, costs_of, write_shares, write_team};
use cmb_wave::Level;
use std::alloc::{AllocError, Global};
use std::sync::Wait;
use std::test::Fail;
use std::thread::Threads;
use worked_designs::{Inputs, of_design, or_fail, text_of};

/// What is found out about a counter. Its nets are `a`, `m` and `b`, by their numbers: two flip-flops that sample one
/// another, `a` by an inverter (a Johnson counter of two bits), at ticks 10, 30, 50, 70 and 90.
fn of_counter<T: Drop, F: FnOnce(&Design) -> Result<T, Fail> + Drop>(
    alloc: Global,
    delays: &[u8],
    horizon: u32,
    find: F,
) -> Result<T, Fail>
    requires { F.IsAlwaysCallable find }
{
    let inputs = Inputs {
        netlist: b"OUTPUT(b)\na = DFF(m)\nm = NOT(b)\nb = DFF(a)\n",
        delays,
        stimuli: b"",
        clocks: b"",
        initial: b"",
    };
    let settings = Settings {
        horizon,
        clock: Some((10, 20)),
        init: Level::Zero,
    };
    of_design(alloc, inputs, settings, find)
}

/// Of the counter up to tick 100. A flip-flop shows a level a tick after it sampled it, and the inverter a tick after
/// its operand.
const LINES: &str = "#0 0! x\" 0# #1 1\" #11 1! #31 1# #32 0\" #51 0! #71 0# #72 1\" #91 1! #100";

/// The same up to tick 1, so without any window.
const NO_WINDOW: &str = "#0 0! x\" 0# #1";

/// Whether a sink with this much room takes just these bytes from so many threads of the shares, and they answer so.
fn takes<R: Threads + Wait + Sync>(
    rt: &R,
    alloc: Global,
    shares: Shares<'_>,
    threads: u32,
    room: usize,
    bytes: &[u8],
    answer: Result<u64, WriteFault>,
) -> bool {
    let mut sink = Limited::new(alloc, room);
    let found = write_shares(rt, alloc, shares, threads, &mut sink);
    found == answer && sink.bytes.as_slice() == bytes
}

/// The same of shares that are opened for it.
fn opens_and_takes<R: Threads + Wait + Sync>(
    rt: &R,
    alloc: Global,
    design: &Design,
    shown: Shown<'_>,
    partition: &Partition,
    threads: u32,
    room: usize,
    bytes: &[u8],
    answer: Result<u64, WriteFault>,
) -> Result<bool, Fail>
    requires partition { IsPartition design.now.netlist partition.now }
    requires shown { CanShow (nets_of design.now) (shown_by shown) }
{
    match Shares::open(rt, alloc, design, shown, partition)? {
        Some(shares) => Ok(takes(rt, alloc, shares, threads, room, bytes, answer)),
        None => Ok(false),
    }
}

/// Whether so many threads of a partition's shares write this text, and a sink that fails after 17 bytes took the first
/// 17 of it.
fn is_text_by<R: Threads + Wait + Sync>(
    rt: &R,
    alloc: Global,
    design: &Design,
    shown: Shown<'_>,
    partition: &Partition,
    threads: u32,
    text: &[u8],
) -> Result<bool, Fail>
    requires partition { IsPartition design.now.netlist partition.now }
    requires shown { CanShow (nets_of design.now) (shown_by shown) }
{
    let written = text.len() as u64;
    let begun = &text[..text.len().min(17)];
    let broken_off = Err(WriteFault::Write { written: 17 });
    Ok(
        opens_and_takes(
            rt,
            alloc,
            design,
            shown,
            partition,
            threads,
            100_000,
            text,
            Ok(written),
        )? && opens_and_takes(
            rt, alloc, design, shown, partition, threads, 17, begun, broken_off,
        )?,
    )
}

/// The same by as many threads as there are shares, by fewer and by more.
fn is_text<R: Threads + Wait + Sync>(
    rt: &R,
    alloc: Global,
    design: &Design,
    shown: Shown<'_>,
    partition: &Partition,
    text: &[u8],
) -> Result<bool, Fail>
    requires partition { IsPartition design.now.netlist partition.now }
    requires shown { CanShow (nets_of design.now) (shown_by shown) }
{
    for threads in 0..4 {
        if !is_text_by(rt, alloc, design, shown, partition, threads, text)? {
            return Ok(false);
        }
    }
    Ok(true)
}

/// What the run of a design costs that has these four nets: the input `i`, the flip-flop `s`, which reads itself and so
/// never changes, and the flip-flop `t`, which the inverter `n` turns at each sample.
fn costs_of_four(alloc: Global) -> Result<Vec<u32>, Fail> {
    let inputs = Inputs {
        netlist: b"INPUT(i)\ns = DFF(s)\nt = DFF(n)\nn = NOT(t)\n",
        delays: b"",
        stimuli: b"",
        clocks: b"",
        initial: b"",
    };
    let settings = Settings {
        horizon: 100,
        clock: Some((10, 20)),
        init: Level::Zero,
    };
    of_design(
        alloc,
        inputs,
        settings,
        |design| or_fail(costs_of(alloc, design, 100)),
    )
}

// Each share has its own inputs, so these cost nothing. Each other net costs something. A flip-flop costs the more the
// more often it changes, and more than a gate that changes as often, since it is looked at when samples arrive.
#[test]
fn costs(rt: HostRuntime) -> Result<(), Fail> {
    let costs = costs_of_four(rt.alloc())?;
    holds(
        &rt,
        match costs.as_slice() {
            [0, still, turned, inverted] => {
                0 < *still && *still < *turned && 0 < *inverted && *inverted < *turned
            }
            _ => false,
        },
    );
    Ok(())
}

/// The partition of a design's nets into two shares.
fn halves(alloc: Global, design: &Design) -> Result<Option<Partition>, AllocError>
    ensures { IfOk result (λ found. IfSome found (IsPartition design.now.netlist)) }
{
    let costs = costs_of(alloc, design, design.horizon())?;
    match structure_of(alloc, design.netlist())? {
        Some(structure) => partition(alloc, design.netlist(), structure, &costs, 2),
        None => Ok(None),
    }
}

/// Whether two shares of a design make this text.
fn make_text<R: Threads + Wait + Sync>(
    rt: &R,
    alloc: Global,
    design: &Design,
    text: &[u8],
) -> Result<bool, Fail> {
    match halves(alloc, design)? {
        Some(partition) => is_text(rt, alloc, design, None, &partition, text),
        None => Ok(false),
    }
}

/// Whether two shares of the counter make the text of these lines.
fn are_lines<R: Threads + Wait + Sync>(
    rt: &R,
    alloc: Global,
    horizon: u32,
    lines: &str,
) -> Result<bool, Fail> {
    let text = text_of(alloc, "a m b", lines)?;
    of_counter(
        alloc,
        b"",
        horizon,
        |design| make_text(rt, alloc, design, text.as_bytes()),
    )
}

#[test]
fn two_shares(rt: HostRuntime) -> Result<(), Fail> {
    holds(&rt, are_lines(&rt, rt.alloc(), 100, LINES)?);
    Ok(())
}

#[test]
fn no_window(rt: HostRuntime) -> Result<(), Fail> {
    holds(&rt, are_lines(&rt, rt.alloc(), 1, NO_WINDOW)?);
    Ok(())
}

/// The same of the flip-flops alone.
const FLIP_FLOPS: &str = "#0 0! 0\" #11 1! #31 1\" #51 0! #71 0\" #91 1! #100";

/// Whether two shares of a design of three nets make the text of its first and its last one of these lines.
fn are_lines_of_two<R: Threads + Wait + Sync>(
    rt: &R,
    alloc: Global,
    design: &Design,
) -> Result<bool, Fail> {
    let text = text_of(alloc, "a b", FLIP_FLOPS)?;
    match halves(alloc, design)? {
        Some(partition) if design.netlist().len() == 3 => {
            is_text(
                rt,
                alloc,
                design,
                Some(&[0, 2]),
                &partition,
                text.as_bytes(),
            )
        }
        _ => Ok(false),
    }
}

#[test]
fn chosen_nets(rt: HostRuntime) -> Result<(), Fail> {
    let alloc = rt.alloc();
    let are_shown = of_counter(
        alloc,
        b"",
        100,
        |design| are_lines_of_two(&rt, alloc, design),
    )?;
    holds(&rt, are_shown);
    Ok(())
}

/// The text that one engine makes of a design.
fn streamed(alloc: Global, design: &Design) -> Result<Vec<u8>, Fail> {
    let mut room = Room::new(alloc, 0)?;
    write_stream(alloc, design, None, &mut room)?;
    Ok(room.bytes)
}

/// Whether two shares of a design make the same text as one engine does.
fn is_as_of_one<R: Threads + Wait + Sync>(
    rt: &R,
    alloc: Global,
    design: &Design,
) -> Result<bool, Fail> {
    let text = streamed(alloc, design)?;
    make_text(rt, alloc, design, &text)
}

// The run is long.
#[test]
fn many_windows(rt: HostRuntime) -> Result<(), Fail> {
    let alloc = rt.alloc();
    let is_same = of_counter(alloc, b"", 5_000, |design| is_as_of_one(&rt, alloc, design))?;
    holds(&rt, is_same);
    Ok(())
}

/// Whether the share that has all nets makes that text, and a team does.
fn is_as_of_a_team<R: Threads + Wait + Sync>(
    rt: &R,
    alloc: Global,
    design: &Design,
) -> Result<bool, Fail> {
    let text = streamed(alloc, design)?;
    let whole = whole_partition(alloc, design.netlist())?;
    let mut room = Room::new(alloc, 0)?;
    let written = write_team(rt, alloc, design, None, 3, &mut room)?;
    let is_same = written == text.len() as u64 && room.bytes == text;
    drop(room);
    Ok(is_same && is_text(rt, alloc, design, None, &whole, &text)?)
}

#[test]
fn one_share(rt: HostRuntime) -> Result<(), Fail> {
    let alloc = rt.alloc();
    let is_same = of_counter(
        alloc,
        b"",
        5_000,
        |design| is_as_of_a_team(&rt, alloc, design),
    )?;
    holds(&rt, is_same);
    Ok(())
}

/// Whether shares of a design can be opened, where its nets can be partitioned.
fn can_open<R: Threads + Wait + Sync>(
    rt: &R,
    alloc: Global,
    design: &Design,
) -> Result<bool, Fail> {
    match halves(alloc, design)? {
        Some(partition) => Ok(Shares::open(rt, alloc, design, None, &partition)?.is_some()),
        None => Ok(false),
    }
}

/// Whether shares of the counter can be opened where its flip-flops have these delays.
fn can_wait<R: Threads + Wait + Sync>(rt: &R, alloc: Global, delays: &[u8]) -> Result<bool, Fail> {
    of_counter(alloc, delays, 100, |design| can_open(rt, alloc, design))
}

// What a flip-flop samples shows after more ticks than a window has.
#[test]
fn long_delay(rt: HostRuntime) -> Result<(), Fail> {
    holds(&rt, can_wait(&rt, rt.alloc(), b"by,name,delay\nnet,a,1\n")?);
    holds(
        &rt,
        !can_wait(&rt, rt.alloc(), b"by,name,delay\nnet,a,200\n")?,
    );
    Ok(())
}
