//! How the text that is asked for is made.

ghost use Rattle.std.specs.Prelude.{◌≡◌, ℕ, ◌≤◌, List, None, true, false, length, IfOk, IfErr};
ghost use Rattle.cmb_design_model.specs.Checks.{first_fault};
ghost use Rattle.cmb_design_model.specs.Exact.{nets_of};
ghost use Rattle.cmb_dump.specs.Shown.{AreAmong};
ghost use Rattle.cmb_io.specs.Sources.{input_limit};
ghost use Rattle.cmb_cli_line.specs.declared.choice.Choice.TheVariants.{All};
ghost use Rattle.cmb_sim.specs.Inner.Plans.{IsByTable, IsPlan, IsWayTo, Streams};
ghost use Rattle.cmb_sim.specs.Simulation.{CanBeStopped, CanRun, IsRefused, IsStreamed, mode_checks};
ghost use Rattle.cmb_run_text.specs.Chosen.{names_of, vcd_of};
ghost use Rattle.cmb_run_text.specs.Vcd.{vcd};

use crate::modes::{check_mode, threads_in};
use crate::tuning::{at_once, partition_that_pays, workers_pay};
use cmb_cli_line::{Choice, Mode, Request};
use cmb_design_model::Design;
use cmb_faults::Fault;
use cmb_graph_partition::Partition;
use cmb_inputs::chosen_nets;
use cmb_netlist::PartCount;
use std::alloc::{AllocError, Global};
use std::thread::Threads;

/// How a text is made.
#[derive(Drop)]
pub enum Way {
    /// By a table with a place for each net and tick.
    Table,
    /// That of chosen nets, by such a table of all.
    Picked(Vec<u32>),
    /// That of chosen nets, by the engine or by shares, of those nets alone on which they depend, and by so many
    /// threads at most.
    Chosen {
        nets: Vec<u32>,
        threads: u32,
    },
    /// By the engine, and by so many threads at most.
    Engine(u32),
    /// By a thread for each share of the nets, and one that makes the text. Where the shares have no common windows, by
    /// the engine and so many threads at most.
    Shares {
        partition: Partition,
        threads: u32,
    },
    /// By workers with clusters of their own, in rounds.
    Rounds {
        workers: PartCount,
        clusters: PartCount,
    },
    /// By workers that run freely.
    Free {
        workers: PartCount,
        clusters: PartCount,
    },
}

/// What is done for what is asked for.
#[derive(Drop)]
pub struct Plan {
    pub way: Way,
    /// What is made of the text while the run goes on is held until it is whole.
    pub held: bool,
}

// By the engine, each thread with a share of the nets where that pays.
fn engine_way<R: Threads + Sync>(
    rt: &R,
    alloc: Global,
    design: &Design,
    threads: u32,
) -> Result<Way, AllocError>
    ensures { IfOk result (IsWayTo design.now design.now.netlist.names (vcd design.now) ⊥) }
{
    let threads = at_once(rt, threads);
    match partition_that_pays(rt, alloc, design, threads)? {
        Some(partition) => Ok(Way::Shares { partition, threads }),
        None => Ok(Way::Engine(threads)),
    }
}

// The way to the text of all nets.
fn way_of<R: Threads + Sync>(
    rt: &R,
    alloc: Global,
    request: Request,
    design: &Design,
) -> Result<Way, AllocError>
    requires { CanRun request.mode design.now }
    ensures way { IfOk result (IsWayTo design.now design.now.netlist.names (vcd design.now)
        (CanBeStopped request.mode request.threads All false)) }
    ensures table { request.mode ≡ Mode.Plain → IfOk result (λ way. IsByTable way) }
{
    let mode = request.mode;
    // Where a number of threads is said, they share the work.
    let unsaid = request.threads.is_none();
    match mode {
        Mode::Plain => Ok(Way::Table),
        Mode::Rounds { workers, clusters } if unsaid && workers_pay(workers, clusters, design) => {
            Ok(Way::Rounds { workers, clusters })
        }
        Mode::Free { workers, clusters } if unsaid && workers_pay(workers, clusters, design) => {
            Ok(Way::Free { workers, clusters })
        }
        Mode::Rounds { .. } | Mode::Free { .. } => {
            engine_way(rt, alloc, design, threads_in(request))
        }
    }
}

// The way to the text of chosen nets: mode plain fills its table for it too.
fn way_to_chosen(request: Request, nets: Vec<u32>, design: &Design) -> Way
    requires nets { AreAmong (nets_of design.now) nets.items }
    requires fits { first_fault (mode_checks request.mode design.now) ≡ None }
    ensures way { IsWayTo design.now (names_of design.now.netlist nets.items) (vcd_of design.now nets.items) ⊥ result }
    ensures table { request.mode ≡ Mode.Plain → IsByTable result }
{
    let threads = threads_in(request);
    match request.mode {
        Mode::Plain => Way::Picked(nets),
        Mode::Rounds { .. } | Mode::Free { .. } => Way::Chosen { nets, threads },
    }
}

// Whether what a way makes of the text while the run goes on is held: in mode free it isn't.
fn is_held(mode: Mode, way: &Way) -> bool
    ensures held { result ≡ true → IsStreamed mode false → ⊥ }
    ensures streamed { result ≡ false → Streams way.now → IsStreamed mode false }
{
    match (mode, way) {
        (Mode::Free { .. }, _) => false,
        (_, Way::Chosen { .. } | Way::Engine(_) | Way::Shares { .. } | Way::Free { .. }) => true,
        _ => false,
    }
}

// The plan for the text of all nets.
fn plan_for_all<R: Threads + Sync>(
    rt: &R,
    alloc: Global,
    request: Request,
    design: &Design,
) -> Result<Plan, Fault>
    requires { request.choice ≡ Choice.All }
    ensures plan { IfOk result (λ plan. (names : List ℕ) → IsPlan request design.now names plan) }
    ensures fault { IfErr result (λ fault. (names : List ℕ) → IsRefused request names design.now fault) }
{
    check_mode(request.mode, design)?;
    let way = way_of(rt, alloc, request, design)?;
    let held = is_held(request.mode, &way);
    Ok(Plan { way, held })
}

/// The plan for what is asked for of a design, by the text of the list that names nets. The faults are 38 and 33, in
/// this order, and 70.
pub(crate) fn plan_of<R: Threads + Sync>(
    rt: &R,
    alloc: Global,
    request: Request,
    design: &Design,
    names: &[u8],
) -> Result<Plan, Fault>
    requires { length names.now ≤ input_limit }
    ensures plan { IfOk result (IsPlan request design.now names.now) }
    ensures fault { IfErr result (IsRefused request names.now design.now) }
{
    match request.choice {
        Choice::All => plan_for_all(rt, alloc, request, design),
        Choice::Only(pick) => {
            let nets = chosen_nets(alloc, pick, design, names)?;
            check_mode(request.mode, design)?;
            let way = way_to_chosen(request, nets, design);
            let held = is_held(request.mode, &way);
            Ok(Plan { way, held })
        }
    }
}
