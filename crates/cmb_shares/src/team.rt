//! The whole text of a run, by one thread as far as that pays and then by a team: one share of all nets, and threads
//! that make text.

ghost use Rattle.std.specs.Prelude.{◌≡◌, ◌-◌, ◌^◌, ◌<◌, IfOk, OnOk};
ghost use Rattle.cmb_design_model.specs.Exact.{nets_of};
ghost use Rattle.cmb_dump.specs.Shown.{CanShow, shown_by, vcd_shown};
ghost use Rattle.cmb_dump_stream.specs.Parts.{IsAtEndOf};
ghost use Rattle.cmb_dump_stream.specs.Streams.{IsWrittenTo};

use crate::opening::Shares;
use crate::text::write_shares;
use cmb_design_model::Design;
use cmb_dump::Shown;
use cmb_dump_stream::{Stream, TextBuffer, TextMaker, write_rest, write_stream};
use cmb_graph_partition::whole_partition;
use cmb_io::{Sink, WriteFault};
use std::alloc::{AllocError, Global};
use std::sync::Wait;
use std::thread::Threads;

// Twice so many bytes of the text are made in one thread before it is asked whether more of them pay.
const FIRST: usize = 262_144;

// What is left has so many bytes at least, where threads pay for it: an estimate.
const LEAST: u64 = 16_777_216;

// Below so many bytes a tick, making text is too little work to share: an estimate.
const DENSE: u64 = 64;

// Makes so many bytes of a text in one thread, if there are as many.
fn begin<'a>(stream: Stream<'a>, kept: &mut TextBuffer<'_>) -> Result<Stream<'a>, AllocError>
    requires here { IsAtEndOf kept.old stream }
    ensures here { IfOk result (λ next. IsAtEndOf kept.new next) }
    ensures subject { OnOk result (kept.new.subject ≡ kept.old.subject) }
    ensures given { OnOk result (kept.new.given ≡ kept.old.given) }
{
    let mut stream = stream;
    let most = kept.len().saturating_add(FIRST);
    while !kept.is_done() && kept.len() < most {
        stream = stream.step(kept)?;
    }
    Ok(stream)
}

// Whether more than one thread pays for the rest of a text, where so many bytes were told of the ticks from one on.
fn pays(told: usize, from: u32, kept: &TextBuffer<'_>, design: &Design) -> bool {
    let ticks = kept.clock().saturating_sub(from).max(1);
    let dense = told as u64 / u64::from(ticks);
    let left = design.horizon().saturating_sub(kept.clock());
    dense >= DENSE && dense.saturating_mul(u64::from(left)) >= LEAST
}

// Writes the text by one share of all nets and so many threads.
fn write_whole<R: Threads + Wait + Sync, S: Sink>(
    rt: &R,
    alloc: Global,
    design: &Design,
    shown: Shown<'_>,
    threads: u32,
    sink: &mut S,
) -> Result<u64, WriteFault>
    requires shown { CanShow (nets_of design.now) (shown_by shown) }
    requires room { S.failures sink.old < 2 ^ 64 - 1 }
    ensures { IsWrittenTo S.Sink (vcd_shown design.now (shown_by shown.entry)) sink.old sink.new result }
{
    let partition = whole_partition(alloc, design.netlist())?;
    match Shares::open(rt, alloc, design, shown, &partition)? {
        Some(shares) => write_shares(rt, alloc, shares, threads, sink),
        None => write_stream(alloc, design, shown, sink),
    }
}

/// Writes the VCD text of a design's run while it is made, of the nets that are shown, by so many threads at most, and
/// gives its length; with one thread, or none, by `write_stream`. Threads are started only where there is enough to do
/// for them: then one of them has all nets, and the others make text. The text is the
/// same for any number. What it needs of memory hardly grows with the horizon. Whatever the fault, the sink took a
/// beginning of the text. A failed write is the answer then and only then; else memory was refused.
pub fn write_team<R: Threads + Wait + Sync, S: Sink>(
    rt: &R,
    alloc: Global,
    design: &Design,
    shown: Shown<'_>,
    threads: u32,
    sink: &mut S,
) -> Result<u64, WriteFault>
    requires shown { CanShow (nets_of design.now) (shown_by shown) }
    requires room { S.failures sink.old < 2 ^ 64 - 1 }
    ensures { IsWrittenTo S.Sink (vcd_shown design.now (shown_by shown.entry)) sink.old sink.new result }
{
    if threads < 2 {
        return write_stream(alloc, design, shown, sink);
    }
    let (stream, mut kept) = Stream::open(alloc, design, shown)?;
    let stream = begin(stream, &mut kept)?;
    // What changes at first may tell little of what does later.
    let (from, first) = (kept.clock(), kept.len());
    let stream = begin(stream, &mut kept)?;
    if pays(kept.len().saturating_sub(first), from, &kept, design) {
        drop((stream, kept));
        write_whole(rt, alloc, design, shown, threads, sink)
    } else {
        write_rest(stream, kept, sink)
    }
}
