//! How an engine begins.

ghost use Rattle.std.specs.Prelude.{◌≡◌, ℕ, ◌*◌, ◌^◌, ◌<◌, ◌≤◌, false, true, length, slice_index_or, IfOk};
ghost use Rattle.cmb_design_model.specs.Exact.{nets_of};
ghost use Rattle.cmb_engine.specs.Inner.Ahead.{TellsAhead};
ghost use Rattle.cmb_engine.specs.Inner.Bits.{has};
ghost use Rattle.cmb_engine.specs.Inner.Circuits.{Shows};
ghost use Rattle.cmb_engine.specs.Inner.Roles.{AreRoles};
ghost use Rattle.cmb_engine.specs.Inner.States.{IsCircuit, IsState};
ghost use Rattle.cmb_engine.specs.Inner.Traces.{trace_of};
ghost use Rattle.cmb_engine.specs.Inner.Words.{levels_of};

use crate::circuit::Circuit;
use crate::fanout::fanout_of;
use crate::flops::flops_of;
use crate::lines::followers_of;
use crate::marks::Marks;
use crate::plan::plan_of;
use crate::role::Role;
use crate::start::start_words;
use crate::state::State;
use crate::stimuli::{note_starts, note_stimuli};
use crate::wanted::wanted_of;
use crate::wiring::Wiring;
use crate::words::Words;
use cmb_design_model::Design;
use cmb_wheel::Calendar;
use std::alloc::{AllocError, Global};

/// The circuit of a design, of which each net has its role, with the nets that are to be told.
pub(crate) fn open_circuit(
    alloc: Global,
    design: &Design,
    roles: Vec<Role>,
    told: &[bool],
) -> Result<Circuit, AllocError>
    requires roles { AreRoles design.now roles.items }
    requires told { length told.now ≡ nets_of design.now }
    ensures circuit { IfOk result (λ circuit. IsCircuit design.now circuit) }
    ensures roles { IfOk result (λ circuit. circuit.wiring.roles.items ≡ roles.items) }
    ensures wanted { IfOk result (λ circuit. (net : ℕ) → slice_index_or told.now net false ≡ true
        → has circuit.wanted net ≡ true) }
{
    let Ok(plan) = plan_of(alloc, design, roles.as_slice()) else {
        drop(roles);
        return Err(AllocError);
    };
    let Ok(followers) = followers_of(alloc, &plan.lines, design.netlist().len()) else {
        drop((roles, plan));
        return Err(AllocError);
    };
    let Ok(wanted) = wanted_of(alloc, told, &plan.lines) else {
        drop((roles, plan, followers));
        return Err(AllocError);
    };
    let Ok(flops) = flops_of(alloc, &plan.cells) else {
        drop((roles, plan));
        drop((followers, wanted));
        return Err(AllocError);
    };
    let Ok(fanout) = fanout_of(alloc, &plan.cells) else {
        drop((roles, plan));
        drop((followers, wanted, flops));
        return Err(AllocError);
    };
    Ok(Circuit {
        wiring: Wiring {
            roles,
            cells: plan.cells,
            fanout,
            flops,
            most: plan.most,
        },
        lines: plan.lines,
        followers,
        wanted,
        width: plan.width,
    })
}

// All numbers below `count`.
fn all_below(alloc: Global, count: usize) -> Result<Marks, AllocError>
    ensures room { IfOk result (λ marks. count < 64 * length marks) }
    ensures all { IfOk result (λ marks. (m : ℕ) → m < count → has marks m ≡ true) }
{
    let mut marks = Marks::new(alloc, count)?;
    for number in 0..count {
        marks.insert(number);
    }
    Ok(marks)
}

// What is told from tick 1 on of the slots of a circuit, where their words end before that tick.
fn open_calendar(
    alloc: Global,
    design: &Design,
    circuit: &Circuit,
    words: &Words,
) -> Result<Calendar, AllocError>
    requires circuit { IsCircuit design.now circuit.now }
    requires count { length words.now ≡ length circuit.now.wiring.cells }
    requires shows { Shows (levels_of words.now)
        (trace_of design.now circuit.now.wiring.roles.items circuit.now.lines.items)
        (length circuit.now.wiring.cells) 1 }
    ensures begun { 1 ≤ design.now.horizon }
    ensures ahead { IfOk result (TellsAhead design.now circuit.now.wiring.roles.items circuit.now.lines.items
        circuit.now.wiring.cells 1) }
{
    let mut calendar = Calendar::open(alloc, design.horizon())?;
    note_stimuli(design, circuit.wiring.roles.as_slice(), &mut calendar)?;
    note_starts(words, &circuit.lines, design.netlist().len(), &mut calendar)?;
    Ok(calendar)
}

/// The state of a design's engine of which tick 0 is known.
pub(crate) fn open_state(
    alloc: Global,
    design: &Design,
    circuit: &Circuit,
) -> Result<State, AllocError>
    requires { IsCircuit design.now circuit.now }
    ensures state { IfOk result (λ state. IsState design.now circuit.now state) }
    ensures clock { IfOk result (λ state. state.clock ≡ 1) }
{
    let words = start_words(alloc, design, &circuit.wiring.roles, &circuit.lines)?;
    let Ok(calendar) = open_calendar(alloc, design, circuit, &words) else {
        drop(words);
        return Err(AllocError);
    };
    let Ok(live) = all_below(alloc, words.len()) else {
        drop((words, calendar));
        return Err(AllocError);
    };
    let Ok(marks) = Marks::new(alloc, circuit.wiring.fanout.order.len()) else {
        drop((words, calendar, live));
        return Err(AllocError);
    };
    Ok(State {
        words,
        live,
        marks,
        calendar,
        tells: Vec::new(alloc),
        clock: 1,
    })
}
