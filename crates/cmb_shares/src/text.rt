//! The whole text of a run, by threads of which each simulates a share of the nets.

ghost use Rattle.std.specs.Prelude.{◌≡◌, ◌-◌, ◌^◌, ◌<◌, All, IfOk};
ghost use Rattle.cmb_design_model.specs.Exact.{nets_of};
ghost use Rattle.cmb_dump.specs.Shown.{CanShow, shown_by, subject_of, vcd_shown, whole_text};
ghost use Rattle.cmb_shares.specs.Inner.Opened.{AreOpened, run_of};
ghost use Rattle.cmb_shares.specs.Inner.Texts.{IsOf};
ghost use Rattle.cmb_dump_stream.specs.Streams.{IsWrittenTo};

use crate::berth::berths_of;
use crate::desk::Desk;
use crate::opening::Shares;
use crate::part::{Part, parts_of};
use crate::share_run::ShareRun;
use crate::shelf::Shelf;
use crate::stations::{connect_all, stations_of};
use cmb_design_model::Design;
use cmb_dump::Shown;
use cmb_dump_stream::{first_text, write_rest};
use cmb_engine::{ShareEngine, Windows};
use cmb_graph_partition::Partition;
use cmb_io::{Sink, WriteFault};
use std::alloc::Global;
use std::marker::Brand;
use std::sync::{Mutex, Wait};
use std::thread;
use std::thread::{Scope, Threads};

// Begins each part of a run in a thread of its own, for whose end the scope waits. Where a thread is refused others go
// on with its share.
fn start<'s, 'a: 's, E, T: ShareRun + Send + Sync + 's, R: Threads + Wait + Sync>(
    rt: &'s R,
    scope: &Scope<'s, E>,
    parts: Vec<Part<'a, 's, T>>,
) {
    for part in parts {
        drop(scope.spawn(move || part.run(rt)));
    }
}

// Writes the text of a run, by the calling thread, whose part is the last one. The others are at work in threads of a
// scope.
fn write_parts<'s, 'a: 's, E, T: ShareRun + Send + Sync + 's, R: Threads + Wait + Sync, S: Sink>(
    rt: &'s R,
    alloc: Global,
    scope: &Scope<'s, E>,
    design: &'a Design,
    shown: Shown<'a>,
    parts: Vec<Part<'a, 's, T>>,
    sink: &mut S,
) -> Result<u64, WriteFault>
    requires room { S.failures sink.old < 2 ^ 64 - 1 }
    requires of { IsOf T.run design.now shown }
    ensures { IsWrittenTo S.Sink (vcd_shown design.now (shown_by shown.entry)) sink.old sink.new result }
{
    let mut parts = parts;
    let own = parts.pop();
    start(rt, scope, parts);
    let Some(own) = own else {
        return Err(WriteFault::Memory);
    };
    let Ok((dump, kept)) = first_text(alloc, design, shown) else {
        drop(own);
        return Err(WriteFault::Memory);
    };
    drop(dump);
    match own.open_flow(rt) {
        Some(flow) => write_rest(flow, kept, sink),
        None => {
            drop(kept);
            Err(WriteFault::Memory)
        }
    }
}

// Writes the text of the run that T names, by the calling thread, in a scope for the threads of the other shares.
fn write_named<'a, T: ShareRun + Send + Sync, R: Threads + Wait + Sync, S: Sink>(
    rt: &'a R,
    alloc: Global,
    design: &'a Design,
    shown: Shown<'a>,
    partition: &'a Partition,
    engines: Vec<ShareEngine<'a>>,
    windows: Windows,
    threads: u32,
    sink: &mut S,
) -> Result<u64, WriteFault>
    requires room { S.failures sink.old < 2 ^ 64 - 1 }
    requires opened { AreOpened T.run engines.items }
    requires named { run_of (subject_of design.now shown) partition.now windows ≡ T.run }
    requires shown { CanShow (nets_of design.now) (shown_by shown) }
    ensures { IsWrittenTo S.Sink (vcd_shown design.now (shown_by shown.entry)) sink.old sink.new result }
{
    let Ok((mut stations, sources)) = stations_of::<T>(alloc, engines, &partition.owners, &windows)
    else {
        drop(windows);
        return Err(WriteFault::Memory);
    };
    let Ok(()) = connect_all(alloc, design, partition, &mut stations) else {
        drop((windows, stations, sources));
        return Err(WriteFault::Memory);
    };
    let Ok(berths) = berths_of(alloc, stations) else {
        drop((windows, sources));
        return Err(WriteFault::Memory);
    };
    let desk = Mutex::new(Desk::new(alloc, windows, sources));
    let shelf = Mutex::new(Shelf::new(alloc));
    let count = threads.max(1) as usize;
    let Ok(parts) = parts_of(alloc, design, shown, &berths, &desk, &shelf, count) else {
        return Err(WriteFault::Memory);
    };
    let desk_of_all = &desk;
    let (back, answer) = thread::scope(
        thread::scope_env(),
        rt,
        move |scope| -> (&mut S, Result<u64, WriteFault>)
            requires room { S.failures sink.now < 2 ^ 64 - 1 }
            requires of { IsOf T.run design.now shown }
            ensures name { result.0.ghost_name ≡ sink.entry.ghost_name }
            ensures told { IsWrittenTo S.Sink (vcd_shown design.entry.now (shown_by shown.entry)) sink.entry.now
                result.0.now result.1 }
        {
            let answer = write_parts(rt, alloc, scope, design, shown, parts, sink);
            desk_of_all.lock(rt).close();
            (sink, answer)
        },
    );
    // By this use the reference that came back is tied to the parameter that lent it.
    let _lent = &*back;
    answer
}

/// Writes the VCD text of a design's run while it is made, of the nets that are shown, by a thread for each share of
/// its nets, of which the calling one is one, and gives its length. Threads that wait make the text. It is the same
/// however the nets were partitioned. What it needs of memory hardly grows with the horizon. Whatever the fault, the
/// sink took a beginning of the text. A failed write is the answer then and only then; else memory was refused. A
/// thread that is refused is no fault: others go on with its share.
pub fn write_shares<'a, R: Threads + Wait + Sync, S: Sink>(
    rt: &'a R,
    alloc: Global,
    shares: Shares<'a>,
    threads: u32,
    sink: &mut S,
) -> Result<u64, WriteFault>
    requires { S.failures sink.old < 2 ^ 64 - 1 }
    ensures { IsWrittenTo S.Sink (whole_text shares.entry) sink.old sink.new result }
{
    let Shares {
        design,
        shown,
        partition,
        engines,
        windows,
    } = shares;
    write_named::<Brand, R, S>(
        rt, alloc, design, shown, partition, engines, windows, threads, sink,
    )
}
