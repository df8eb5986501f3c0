//! The text of a design, as a plan has it made.

ghost use Rattle.std.specs.Prelude.{◌≡◌, ◌-◌, ◌^◌, ◌<◌, None, List, ℕ, length, IfOk};
ghost use Rattle.cmb_design_model.specs.Checks.{first_fault};
ghost use Rattle.cmb_design_model.specs.Exact.{nets_of};
ghost use Rattle.cmb_dump.specs.Shown.{AreAmong, CanShow, shown_by, vcd_shown};
ghost use Rattle.cmb_inputs.specs.Outputs.{written_to};
ghost use Rattle.cmb_graph_partition.specs.Partitions.{IsPartition};
ghost use Rattle.cmb_cli_line.specs.declared.mode.Mode.TheVariants.{Plain};
ghost use Rattle.cmb_sim.specs.Inner.Plans.{CanMake, EngineBreaks, IsPut, MayBreak, PlanMayBreak, way_text};
ghost use Rattle.cmb_sim.specs.Simulation.{mode_checks};
ghost use Rattle.cmb_run_text.specs.Chosen.{vcd_of};
ghost use Rattle.cmb_run_text.specs.Collector.{IsComplete, IsExactFor};
ghost use Rattle.cmb_run_text.specs.Vcd.{vcd};

use crate::plan::{Plan, Way};
use crate::tuning::{at_once, partition_that_pays};
use cmb_chosen::{Part, part_of};
use cmb_core_cluster::Clustering;
use cmb_design_model::{Design, DesignFault, plain_waves};
use cmb_dump::Shown;
use cmb_faults::Fault;
use cmb_graph_partition::Partition;
use cmb_inputs::write_text;
use cmb_io::{Room, Sink};
use cmb_links::Workers;
use cmb_netlist::PartCount;
use cmb_run_free::{OpenGate, run_free_text};
use cmb_run_rounds::run_rounds;
use cmb_run_text::{Collector, vcd_text, vcd_text_of};
use cmb_shares::{Shares, write_shares, write_team};
use std::alloc::{AllocError, Global};
use std::sync::Wait;
use std::thread::Threads;

// The waves of all nets, by a table with a place for each net and tick.
fn table_waves(alloc: Global, design: &Design) -> Result<Collector, AllocError>
    requires { first_fault (mode_checks Plain design.now) ≡ None }
    ensures complete { IfOk result (λ collector. IsComplete collector) }
    ensures exact { IfOk result (λ collector. IsExactFor design.now collector) }
{
    match plain_waves(alloc, design) {
        Ok(waves) => Ok(Collector::of_waves(waves, design.horizon())),
        Err(DesignFault::TableTooLarge) => unreachable!(),
        Err(_) => Err(AllocError),
    }
}

// The text of a design, of such waves.
fn table_text(alloc: Global, design: &Design) -> Result<Vec<u8>, AllocError>
    requires { first_fault (mode_checks Plain design.now) ≡ None }
    ensures { IfOk result (λ text. text.items ≡ vcd design.now) }
{
    let collector = table_waves(alloc, design)?;
    vcd_text(alloc, design, &collector)
}

// The text of chosen nets, of such waves.
fn picked_text(alloc: Global, design: &Design, nets: &[u32]) -> Result<Vec<u8>, AllocError>
    requires fits { first_fault (mode_checks Plain design.now) ≡ None }
    requires nets { AreAmong (nets_of design.now) nets.now }
    ensures { IfOk result (λ text. text.items ≡ vcd_of design.now nets.now) }
{
    let collector = table_waves(alloc, design)?;
    vcd_text_of(alloc, design, collector, nets)
}

// Net n in cluster `n mod clusters`.
fn spread(alloc: Global, design: &Design, clusters: PartCount) -> Result<Clustering, AllocError>
    ensures { IfOk result (λ clustering. length clustering.assign ≡ nets_of design.now) }
{
    Clustering::round_robin(alloc, design.netlist().len() as u32, clusters)
}

// The text of a design, by rounds of several workers.
fn rounds_text<R: AllocGlobal + Threads + Sync>(
    rt: &R,
    workers: PartCount,
    clusters: PartCount,
    design: &Design,
) -> Result<Vec<u8>, AllocError>
    ensures { IfOk result (λ text. text.items ≡ vcd design.now) }
{
    let alloc = rt.alloc();
    let clustering = spread(alloc, design, clusters)?;
    match run_rounds(rt, alloc, design, &clustering, Workers::from(workers)) {
        Ok(run) => vcd_text(alloc, design, &run.collector),
        Err(_) => Err(AllocError),
    }
}

// Writes the text of a design while several workers run, and gives the text's length.
fn write_by_workers<R: AllocGlobal + Threads + Wait + Sync, O: Sink>(
    rt: &R,
    workers: PartCount,
    clusters: PartCount,
    design: &Design,
    out: &mut O,
) -> Result<u64, Fault>
    requires out { O.failures out.old < 2 ^ 64 - 1 }
    ensures { IsPut (vcd design.now) (MayBreak (Way.Free workers clusters) design.now)
        (written_to O.Sink out.old out.new) result }
{
    let alloc = rt.alloc();
    let clustering = spread(alloc, design, clusters)?;
    // A worker without a cluster would have nothing to do.
    let busy = Workers::from(workers).at_most(clustering.clusters());
    let written = run_free_text(rt, alloc, design, &clustering, busy, &OpenGate, out)?;
    Ok(written)
}

// Writes a text that was made whole, and gives its length.
fn put<O: Sink>(out: &mut O, made: Result<Vec<u8>, AllocError>) -> Result<u64, Fault>
    requires { O.failures out.old < 2 ^ 64 - 1 }
    ensures { (text : List ℕ) → IfOk made (λ it. it.items ≡ text)
        → IsPut text (λ _. ⊥) (written_to O.Sink out.old out.new) result }
{
    let text = made?;
    write_text(out, text.as_slice())?;
    Ok(text.len() as u64)
}

// Writes the text of the nets that are shown by a thread for each share of the design's nets, or by a team where the
// shares have no windows alike, and gives the text's length.
fn write_by_shares<R: AllocGlobal + Threads + Wait + Sync, O: Sink>(
    rt: &R,
    partition: &Partition,
    threads: u32,
    design: &Design,
    shown: Shown<'_>,
    out: &mut O,
) -> Result<u64, Fault>
    requires partition { IsPartition design.now.netlist partition.now }
    requires shown { CanShow (nets_of design.now) (shown_by shown) }
    requires out { O.failures out.old < 2 ^ 64 - 1 }
    ensures { IsPut (vcd_shown design.now (shown_by shown.entry)) EngineBreaks (written_to O.Sink out.old out.new)
        result }
{
    let alloc = rt.alloc();
    match Shares::open(rt, alloc, design, shown, partition)? {
        Some(shares) => Ok(write_shares(rt, alloc, shares, threads, out)?),
        None => Ok(write_team(rt, alloc, design, shown, threads, out)?),
    }
}

// Writes the text of a design by the engine and so many threads at most, and gives its length.
fn write_by_engine<R: AllocGlobal + Threads + Wait + Sync, O: Sink>(
    rt: &R,
    threads: u32,
    design: &Design,
    out: &mut O,
) -> Result<u64, Fault>
    requires { O.failures out.old < 2 ^ 64 - 1 }
    ensures { IsPut (vcd design.now) EngineBreaks (written_to O.Sink out.old out.new) result }
{
    Ok(write_team(rt, rt.alloc(), design, None, threads, out)?)
}

// Writes the text of a part's chosen nets, by shares of its nets where that pays, and gives its length.
fn write_part<R: AllocGlobal + Threads + Wait + Sync, O: Sink>(
    rt: &R,
    part: &Part,
    threads: u32,
    out: &mut O,
) -> Result<u64, Fault>
    requires nets { AreAmong (nets_of part.now.design) part.now.nets }
    requires out { O.failures out.old < 2 ^ 64 - 1 }
    ensures { IsPut (vcd_of part.now.design part.now.nets) EngineBreaks (written_to O.Sink out.old out.new) result }
{
    let alloc = rt.alloc();
    let design = &part.design;
    let shown: Shown<'_> = Some(&part.nets);
    let threads = at_once(rt, threads);
    match partition_that_pays(rt, alloc, design, threads)? {
        Some(partition) => write_by_shares(rt, &partition, threads, design, shown, out),
        None => Ok(write_team(rt, alloc, design, shown, threads, out)?),
    }
}

// Writes the text of chosen nets, by the part of the design on which they depend, and gives its length.
fn write_chosen<R: AllocGlobal + Threads + Wait + Sync, O: Sink>(
    rt: &R,
    nets: &[u32],
    threads: u32,
    design: &Design,
    out: &mut O,
) -> Result<u64, Fault>
    requires nets { AreAmong (nets_of design.now) nets.now }
    requires out { O.failures out.old < 2 ^ 64 - 1 }
    ensures { IsPut (vcd_of design.now nets.now) EngineBreaks (written_to O.Sink out.old out.new) result }
{
    let part = part_of(rt.alloc(), design, nets)?;
    let written = write_part(rt, &part, threads, out);
    drop(part);
    written
}

/// Writes the text of a design in a way that can make it, and gives its length.
pub(crate) fn write_by<R: AllocGlobal + Threads + Wait + Sync, O: Sink>(
    rt: &R,
    way: &Way,
    design: &Design,
    out: &mut O,
) -> Result<u64, Fault>
    requires makes { CanMake way.now design.now }
    requires out { O.failures out.old < 2 ^ 64 - 1 }
    ensures { IsPut (way_text way.now design.now) (MayBreak way.now design.now)
        (written_to O.Sink out.old out.new) result }
{
    let alloc = rt.alloc();
    match way {
        Way::Table => put(out, table_text(alloc, design)),
        Way::Picked(nets) => put(out, picked_text(alloc, design, nets)),
        Way::Chosen { nets, threads } => write_chosen(rt, nets, *threads, design, out),
        Way::Engine(threads) => write_by_engine(rt, *threads, design, out),
        Way::Shares { partition, threads } => {
            write_by_shares(rt, partition, *threads, design, None, out)
        }
        Way::Rounds { workers, clusters } => put(out, rounds_text(rt, *workers, *clusters, design)),
        Way::Free { workers, clusters } => write_by_workers(rt, *workers, *clusters, design, out),
    }
}

/// Writes the text that a plan has made, and gives its length. What is held is made into a sink in memory before.
pub(crate) fn write_plan<R: AllocGlobal + Threads + Wait + Sync, O: Sink>(
    rt: &R,
    plan: &Plan,
    design: &Design,
    out: &mut O,
) -> Result<u64, Fault>
    requires makes { CanMake plan.now.way design.now }
    requires out { O.failures out.old < 2 ^ 64 - 1 }
    ensures { IsPut (way_text plan.now.way design.now) (PlanMayBreak plan.now design.now)
        (written_to O.Sink out.old out.new) result }
{
    if !plan.held {
        return write_by(rt, &plan.way, design, out);
    }
    let mut room = Room::new(rt.alloc(), 0)?;
    match write_by(rt, &plan.way, design, &mut room) {
        Ok(_) => put(out, Ok(room.bytes)),
        Err(_) => Err(Fault::Memory),
    }
}
