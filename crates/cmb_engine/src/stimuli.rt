//! The events of inputs when an engine begins.

ghost use Rattle.std.specs.Prelude.{◌≡◌, ◌+◌, ◌^◌, ◌<◌, true, All, OnOk, length};
ghost use Rattle.cmb_netlist.specs.Netlist.{driver_of};
ghost use Rattle.cmb_netlist.specs.declared.netlist.Driver.TheVariants.{Input};
ghost use Rattle.cmb_wheel.specs.Calendars.{SameTicks};
ghost use Rattle.cmb_design_model.specs.Exact.{nets_of};
ghost use Rattle.cmb_engine.specs.Inner.Lines.{NotesEach};
ghost use Rattle.cmb_engine.specs.Inner.Roles.{drives};
ghost use Rattle.cmb_engine.specs.Inner.Starts.{IsOfInput, IsOfStart, IsOfStimulus};
ghost use Rattle.cmb_engine.specs.Inner.Words.{levels_of};

use crate::cell::Pin;
use crate::role::{Role, is_driven};
use crate::words::Words;
use cmb_design_model::Design;
use cmb_netlist::Driver;
use cmb_wave::Level;
use cmb_wheel::{Calendar, LevelEvent};
use std::alloc::AllocError;

// Notes the changes of a net by its stimulus after tick 0.
fn note_stimulus(design: &Design, net: usize, calendar: &mut Calendar) -> Result<(), AllocError>
    requires net { net < nets_of design.now }
    requires few { nets_of design.now < 2 ^ 32 }
    requires clock { calendar.old.clock ≡ 0 }
    ensures notes { OnOk result (NotesEach (IsOfStimulus design.now net) calendar.old calendar.new) }
    ensures ticks { SameTicks calendar.old calendar.new }
{
    for change in design.stim_changes(net) {
        if change.tick > 0 {
            calendar.note(LevelEvent {
                tick: change.tick,
                slot: net as u32,
                level: change.level,
            })?;
        }
    }
    Ok(())
}

// Whether a net is an input that is driven.
fn is_driven_input(design: &Design, roles: &[Role], net: usize) -> bool
    requires { net < nets_of design.now }
    ensures so { result ≡ true → (driver_of design.now.netlist net ≡ Input) × (drives roles.now net ≡ true) }
    ensures all { driver_of design.now.netlist net ≡ Input → drives roles.now net ≡ true → result ≡ true }
{
    match design.netlist().driver(net) {
        Driver::Input => is_driven(roles, net),
        _ => false,
    }
}

/// Notes the changes of a design's driven inputs after tick 0.
pub(crate) fn note_stimuli(
    design: &Design,
    roles: &[Role],
    calendar: &mut Calendar,
) -> Result<(), AllocError>
    requires { calendar.old.clock ≡ 0 }
    ensures notes { OnOk result (NotesEach (IsOfInput design.now roles.now) calendar.old calendar.new) }
    ensures ticks { SameTicks calendar.old calendar.new }
{
    for net in 0..design.netlist().len() {
        if is_driven_input(design, roles, net) {
            note_stimulus(design, net, calendar)?;
        }
    }
    Ok(())
}

/// Notes the first change of each line, its delay after tick 0, where the words that end before tick 1 say that its net
/// isn't x at tick 0. The lines are the slots behind so many nets.
pub(crate) fn note_starts(
    words: &Words,
    lines: &[Pin],
    nets: usize,
    calendar: &mut Calendar,
) -> Result<(), AllocError>
    requires lines { All (λ line. line.net < length words.now) lines.now }
    requires few { nets + length lines.now < 2 ^ 32 }
    requires clock { calendar.old.clock ≡ 0 }
    ensures notes { OnOk result (NotesEach (IsOfStart (levels_of words.now) lines.now nets) calendar.old calendar.new) }
    ensures ticks { SameTicks calendar.old calendar.new }
{
    for (number, line) in lines.iter().enumerate() {
        let level = words.get(line.net as usize).level(63);
        if level != Level::X {
            calendar.note(LevelEvent {
                tick: line.delay,
                slot: (nets + number) as u32,
                level,
            })?;
        }
    }
    Ok(())
}
