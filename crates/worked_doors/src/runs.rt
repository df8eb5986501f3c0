//! `cmb_run`: collectors, the text of a run, runs in rounds, and free runs.

ghost use Rattle.std.specs.Prelude.{◌≡◌, length};
ghost use Rattle.cmb_design.specs.Exact.{nets_of};

use crate::checks::holds;
use crate::designs::of_toggle;
use crate::protocol::spread;
use cmb_core::Clustering;
use cmb_design::Design;
use cmb_links::Workers;
use cmb_run::{
    Collector, OpenGate, Room, VcdWriter, run_free, run_free_text, run_rounds, vcd_text,
};
use std::alloc::{AllocError, Global};
use std::process::Abort;
use std::sync::Wait;
use std::test::Fail;
use std::thread::Threads;

// The text of the toggle up to its end of declarations.
const DECLARATIONS: &[u8] =
    b"$version cmbsim 1 $end\n$timescale 1 ns $end\n$scope module top $end\n\
    $var wire 1 ! q $end\n$var wire 1 \" d $end\n$upscope $end\n$enddefinitions $end\n";

// All of it. q samples d at ticks 2, 6 and 10, and shows that a tick later; d follows q by a tick.
const WHOLE: &[u8] = b"$version cmbsim 1 $end\n$timescale 1 ns $end\n$scope module top $end\n\
    $var wire 1 ! q $end\n$var wire 1 \" d $end\n$upscope $end\n$enddefinitions $end\n\
    #0\n$dumpvars\n0!\nx\"\n$end\n#1\n1\"\n#3\n1!\n#4\n0\"\n#7\n0!\n#8\n1\"\n#11\n1!\n#12\n";

// The text of a run in rounds.
fn rounds_text<R: AllocGlobal + Threads + Sync>(
    rt: &R,
    design: &Design,
    clustering: &Clustering,
    workers: Workers,
) -> Result<Vec<u8>, Fail>
    requires { length clustering.now.assign ≡ nets_of design.now }
{
    let run = run_rounds(rt, rt.alloc(), design, clustering, workers)?;
    Ok(vcd_text(rt.alloc(), design, &run.collector)?)
}

// Whether a free run collects all there is.
fn is_collected<R: AllocGlobal + Threads + Wait + Sync>(
    rt: &R,
    design: &Design,
    clustering: &Clustering,
    workers: Workers,
) -> Result<bool, Fail>
    requires { length clustering.now.assign ≡ nets_of design.now }
{
    let collector = run_free(rt, rt.alloc(), design, clustering, workers, &OpenGate)?;
    Ok(collector.complete())
}

// The text that a free run writes.
fn free_text<R: AllocGlobal + Threads + Wait + Sync>(
    rt: &R,
    design: &Design,
    clustering: &Clustering,
    workers: Workers,
) -> Result<Vec<u8>, Fail>
    requires { length clustering.now.assign ≡ nets_of design.now }
{
    let alloc = rt.alloc();
    let mut room = Room::new(alloc, 1000)?;
    let _written = run_free_text(rt, alloc, design, clustering, workers, &OpenGate, &mut room)?;
    Ok(room.bytes)
}

// All three ways give the whole text.
fn are_alike<R: AllocGlobal + Threads + Wait + Sync>(
    rt: &R,
    design: &Design,
    clustering: &Clustering,
) -> Result<bool, Fail>
    requires { length clustering.now.assign ≡ nets_of design.now }
{
    let workers = Workers::new(2)?;
    let in_rounds = rounds_text(rt, design, clustering, workers)?.as_slice() == WHOLE;
    let freely = free_text(rt, design, clustering, workers)?.as_slice() == WHOLE;
    Ok(in_rounds && freely && is_collected(rt, design, clustering, workers)?)
}

fn runs_of<R: AllocGlobal + Threads + Wait + Sync>(rt: &R, design: &Design) -> Result<bool, Fail> {
    let clustering = spread(rt.alloc(), design, 2)?;
    are_alike(rt, design, &clustering)
}

#[test]
fn runs(rt: HostRuntime) -> Result<(), Fail> {
    let are_alike = of_toggle(rt.alloc(), |design| runs_of(&rt, design))?;
    holds(&rt, are_alike);
    Ok(())
}

// The text of a collector that knows nothing, as far as that is known.
fn extended(
    rt: &impl Abort,
    design: &Design,
    writer: &mut VcdWriter<'_>,
    collector: &Collector,
) -> Result<Vec<u8>, AllocError>
    requires { writer.old.design ≡ design.now }
{
    holds(rt, collector.waves().len() == design.netlist().len());
    holds(rt, collector.horizon() == design.horizon());
    holds(rt, writer.done().unwrap_or(0) <= collector.least());
    writer.extend(collector)
}

fn first_text(rt: &impl Abort, alloc: Global, design: &Design) -> Result<Vec<u8>, AllocError> {
    let collector = Collector::open(alloc, design)?;
    let mut writer = VcdWriter::open(alloc, design)?;
    extended(rt, design, &mut writer, &collector)
}

// It has the declarations alone.
#[test]
fn first_part(rt: HostRuntime) -> Result<(), Fail> {
    let alloc = rt.alloc();
    let text = of_toggle(alloc, |design| Ok(first_text(&rt, alloc, design)?))?;
    holds(&rt, text.as_slice() == DECLARATIONS);
    Ok(())
}
