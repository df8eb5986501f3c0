//! Notes on a line that was done: what looks like a slip.

ghost use Rattle.std.specs.Prelude.{◌≡◌, ◌≤◌, [], false, length, string_bytes, IfOk, IfSome};

use crate::designs::{Texts, read_design};
use crate::shown::push_shown;
use crate::slips::{Late, Silent, late_path, silent_inputs};
use crate::words::Given;
use cmb_design_model::{Clock, Design};
use cmb_netlist::{MAX_TEXT, Netlist};
use std::alloc::{AllocError, Global};

// A text that is no longer than an input may be.
fn fitting(text: &[u8]) -> Option<&[u8]>
    ensures { IfSome result (λ text. length text.now ≤ MAX_TEXT) }
{
    (text.len() <= MAX_TEXT).then_some(text)
}

// The design that was given.
fn design_of(alloc: Global, given: &Given<'_>) -> Option<Design> {
    let texts = Texts {
        bench: fitting(given.bench)?,
        delays: fitting(given.delays)?,
        stimuli: fitting(given.stimuli)?,
        clocks: fitting(given.clocks)?,
        initial: fitting(given.initial)?,
    };
    read_design(alloc, texts, given.settings).ok()
}

// Of inputs that are x throughout, the first is named.
fn push_silent(text: &mut String, netlist: &Netlist, silent: Silent) -> Result<(), AllocError> {
    let Some(first) = silent.first else {
        return Ok(());
    };
    if first >= netlist.len() {
        return Ok(());
    }
    text.push_str("cmbsim: the input ")?;
    push_shown(text, netlist.name(first))?;
    match silent.count {
        0 | 1 => text.push_str(
            " is x at all ticks, since no row of the stimuli gives it a level\n",
        ),
        count => {
            let others = count - 1;
            write!(
                text,
                " and {others} more are x at all ticks, since no rows of the stimuli give them levels\n"
            )
        }
    }
}

fn push_late(
    text: &mut String,
    netlist: &Netlist,
    clock: Clock,
    late: Late,
) -> Result<(), AllocError> {
    let Late { net, ticks } = late;
    if net >= netlist.len() {
        return Ok(());
    }
    text.push_str("cmbsim: a sample takes up to ")?;
    write!(text, "{ticks} ticks to the data ")?;
    push_shown(text, netlist.name(net))?;
    write!(text, ", and the clock's period is {}\n", clock.period)
}

fn push_slips(
    alloc: Global,
    text: &mut String,
    given: &Given<'_>,
    design: &Design,
) -> Result<(), AllocError> {
    push_silent(text, design.netlist(), silent_inputs(design))?;
    let Some((first, period)) = given.settings.clock else {
        return Ok(());
    };
    let clock = Clock { first, period };
    match late_path(alloc, design, clock)? {
        Some(late) => push_late(text, design.netlist(), clock, late),
        None => Ok(()),
    }
}

// The same of the design that was given, if it is one.
fn push_given_slips(alloc: Global, text: &mut String, given: &Given<'_>) -> Result<(), AllocError> {
    match design_of(alloc, given) {
        Some(design) => {
            let pushed = push_slips(alloc, text, given, &design);
            drop(design);
            pushed
        }
        None => Ok(()),
    }
}

/// Notes on a run, each on a line of its own: which inputs are x at all ticks, and whether the common clock is too
/// short for what leads from its flip-flops to its flip-flops. Without the whole texts there are none.
pub fn run_notes(alloc: Global, given: &Given<'_>) -> Result<String, AllocError>
    ensures { IfOk result (λ text. given.now.is_whole ≡ false → string_bytes text ≡ []) }
{
    let mut text = String::new(alloc);
    if !given.is_whole {
        return Ok(text);
    }
    push_given_slips(alloc, &mut text, given)?;
    Ok(text)
}
