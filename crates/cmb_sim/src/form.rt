//! The form of a text: as the plan has it made, or with scopes.

ghost use Rattle.std.specs.Prelude.{◌-◌, ◌^◌, ◌<◌, ◌≤◌, length, IfOk};
ghost use Rattle.cmb_design_model.specs.Exact.{nets_of};
ghost use Rattle.cmb_dump.specs.Shown.{AreAmong};
ghost use Rattle.cmb_inputs.specs.Outputs.{written_to};
ghost use Rattle.cmb_run_scopes.specs.Scopes.{replaced};
ghost use Rattle.cmb_run_text.specs.Chosen.{names_of};
ghost use Rattle.cmb_sim.specs.Inner.Plans.{AreHeaders, CanMake, FormMayBreak, IsPut, form_text, way_names};

use crate::activities::all_nets;
use crate::plan::{Plan, Way};
use crate::running::{write_by, write_plan};
use cmb_design_model::Design;
use cmb_faults::Fault;
use cmb_io::{Room, Sink};
use cmb_run_scopes::{Headers, headers_of, write_scoped};
use std::alloc::{AllocError, Global};
use std::sync::Wait;
use std::thread::Threads;

// The lines with scopes for chosen nets.
fn chosen_headers(alloc: Global, design: &Design, nets: &[u32]) -> Result<Headers, AllocError>
    requires { AreAmong (nets_of design.now) nets.now }
    ensures { IfOk result (AreHeaders (names_of design.now.netlist nets.now)) }
{
    headers_of(alloc, design.netlist(), nets)
}

// The lines with scopes for all nets.
fn whole_headers(alloc: Global, design: &Design) -> Result<Headers, AllocError>
    ensures { IfOk result (AreHeaders design.now.netlist.names) }
{
    let netlist = design.netlist();
    let nets = all_nets(alloc, netlist.len() as u32)?;
    headers_of(alloc, netlist, &nets)
}

// The lines with scopes for the nets whose text a way makes.
fn way_headers(alloc: Global, way: &Way, design: &Design) -> Result<Headers, AllocError>
    requires { CanMake way.now design.now }
    ensures { IfOk result (AreHeaders (way_names way.now design.now)) }
{
    match way {
        Way::Picked(nets) => chosen_headers(alloc, design, nets),
        Way::Chosen { nets, .. } => chosen_headers(alloc, design, nets),
        Way::Table | Way::Engine(_) | Way::Shares { .. } | Way::Rounds { .. } | Way::Free { .. } =>
            whole_headers(alloc, design),
    }
}

// Writes a text that was made whole, with the lines with scopes in the place of its header, and gives its length.
fn put_scoped<O: Sink>(out: &mut O, headers: &Headers, text: &[u8]) -> Result<u64, Fault>
    requires header { headers.now.plain ≤ length text.now }
    requires out { O.failures out.old < 2 ^ 64 - 1 }
    ensures { IsPut (replaced headers.now.scoped.items headers.now.plain text.now) (λ _. ⊥)
        (written_to O.Sink out.old out.new) result }
{
    match write_scoped(out, headers, text) {
        Ok(written) => Ok(written),
        Err(written) => Err(Fault::Write { written }),
    }
}

/// Writes the text that a plan has made, with scopes where these are asked for, and gives its length. With scopes it is
/// made into a sink in memory before.
pub(crate) fn write_form<R: AllocGlobal + Threads + Wait + Sync, O: Sink>(
    rt: &R,
    plan: &Plan,
    design: &Design,
    scopes: bool,
    out: &mut O,
) -> Result<u64, Fault>
    requires makes { CanMake plan.now.way design.now }
    requires out { O.failures out.old < 2 ^ 64 - 1 }
    ensures { IsPut (form_text scopes plan.now.way design.now) (FormMayBreak scopes plan.now design.now)
        (written_to O.Sink out.old out.new) result }
{
    if !scopes {
        return write_plan(rt, plan, design, out);
    }
    let headers = way_headers(rt.alloc(), &plan.way, design)?;
    let mut room = Room::new(rt.alloc(), 0)?;
    match write_by(rt, &plan.way, design, &mut room) {
        Ok(_) => put_scoped(out, &headers, room.bytes.as_slice()),
        Err(_) => Err(Fault::Memory),
    }
}
