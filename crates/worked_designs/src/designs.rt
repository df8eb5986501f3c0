//! Designs of given texts.

ghost use Rattle.std.specs.Prelude.{◌≤◌, IfOk, length};

use cmb_bench::read_bench;
use cmb_design_model::{
    ClockRows, DelayRows, Design, DesignFault, InitialRows, Settings, StimulusRows,
};
use cmb_design_tables::{read_clocks, read_delays, read_initial, read_stimuli};
use cmb_netlist::{MAX_TEXT, Netlist};
use cmb_wave::Level;
use std::alloc::Global;
use std::test::Fail;

/// A netlist with its delays, stimuli, clocks and first levels.
#[derive(Clone, Copy)]
pub struct Inputs<'a> {
    pub netlist: &'a [u8],
    pub delays: &'a [u8],
    pub stimuli: &'a [u8],
    pub clocks: &'a [u8],
    pub initial: &'a [u8],
}

/// A netlist without tables.
pub fn bare(netlist: &[u8]) -> Inputs<'_> {
    Inputs {
        netlist,
        delays: b"",
        stimuli: b"",
        clocks: b"",
        initial: b"",
    }
}

/// A netlist with stimuli.
pub fn stimulated<'a>(netlist: &'a [u8], stimuli: &'a [u8]) -> Inputs<'a> {
    Inputs {
        stimuli,
        ..bare(netlist)
    }
}

/// Up to a horizon, with flip-flops that sample at ticks 2, 6, 10 and so on, and hold 0 before.
pub fn sampled(horizon: u32) -> Settings {
    Settings {
        horizon,
        clock: Some((2, 4)),
        init: Level::Zero,
    }
}

// A text, where it isn't longer than the readers take.
fn short(text: &[u8]) -> Result<&[u8], Fail>
    ensures { IfOk result (λ text. length text.now ≤ MAX_TEXT) }
{
    if text.len() > MAX_TEXT {
        return Err(Fail::new("a text that is too long"));
    }
    Ok(text)
}

// The rows of these tables.
fn read_tables(
    alloc: Global,
    delays: &[u8],
    stimuli: &[u8],
    clocks: &[u8],
    initial: &[u8],
) -> Result<(DelayRows, StimulusRows, ClockRows, InitialRows), DesignFault>
    requires delays { length delays.now ≤ MAX_TEXT }
    requires stimuli { length stimuli.now ≤ MAX_TEXT }
    requires clocks { length clocks.now ≤ MAX_TEXT }
    requires initial { length initial.now ≤ MAX_TEXT }
{
    let delays = read_delays(alloc, delays)?;
    let stimuli = read_stimuli(alloc, stimuli)?;
    let clocks = read_clocks(alloc, clocks)?;
    let initial = read_initial(alloc, initial)?;
    Ok((delays, stimuli, clocks, initial))
}

// The design of a netlist with these tables.
fn design_with(
    alloc: Global,
    netlist: Netlist,
    tables: Result<(DelayRows, StimulusRows, ClockRows, InitialRows), DesignFault>,
    settings: Settings,
) -> Result<Design, DesignFault> {
    match tables {
        Ok((delays, stimuli, clocks, initial)) => {
            Design::new(alloc, netlist, delays, stimuli, clocks, initial, settings)
        }
        Err(fault) => {
            drop(netlist);
            Err(fault)
        }
    }
}

/// The design of these texts, or why a netlist with these tables makes none.
pub fn judged_design(
    alloc: Global,
    inputs: Inputs<'_>,
    settings: Settings,
) -> Result<Result<Design, DesignFault>, Fail> {
    let delays = short(inputs.delays)?;
    let stimuli = short(inputs.stimuli)?;
    let clocks = short(inputs.clocks)?;
    let initial = short(inputs.initial)?;
    let netlist = read_bench(alloc, short(inputs.netlist)?)?;
    let tables = read_tables(alloc, delays, stimuli, clocks, initial);
    Ok(design_with(alloc, netlist, tables, settings))
}

/// The design of these texts.
pub fn design_of(alloc: Global, inputs: Inputs<'_>, settings: Settings) -> Result<Design, Fail> {
    let design = judged_design(alloc, inputs, settings)?;
    Ok(design?)
}

/// What is found out about the design of these texts. A function that owns a design is proved slowly, so the others
/// are lent it.
pub fn of_design<T: Drop, F: FnOnce(&Design) -> Result<T, Fail> + Drop>(
    alloc: Global,
    inputs: Inputs<'_>,
    settings: Settings,
    find: F,
) -> Result<T, Fail>
    requires { F.IsAlwaysCallable find }
{
    let design = design_of(alloc, inputs, settings)?;
    let found = find(&design);
    drop(design);
    found
}
