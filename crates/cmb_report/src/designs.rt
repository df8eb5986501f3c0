//! Designs of what was given.

ghost use Rattle.std.specs.Prelude.{◌≤◌, length};

use cmb_bench::read_bench;
use cmb_design_model::{
    ClockRows, DelayRows, Design, DesignFault, InitialRows, Settings, StimulusRows,
};
use cmb_design_tables::{read_clocks, read_delays, read_initial, read_stimuli};
use cmb_netlist::MAX_TEXT;
use std::alloc::Global;

/// The texts of which a design is made.
#[derive(Clone, Copy)]
pub(crate) struct Texts<'a> {
    pub bench: &'a [u8],
    pub delays: &'a [u8],
    pub stimuli: &'a [u8],
    pub clocks: &'a [u8],
    pub initial: &'a [u8],
}

fn read_tables(
    alloc: Global,
    texts: Texts<'_>,
) -> Result<(DelayRows, StimulusRows, ClockRows, InitialRows), DesignFault>
    requires delays { length texts.delays.now ≤ MAX_TEXT }
    requires stimuli { length texts.stimuli.now ≤ MAX_TEXT }
    requires clocks { length texts.clocks.now ≤ MAX_TEXT }
    requires initial { length texts.initial.now ≤ MAX_TEXT }
{
    let delays = read_delays(alloc, texts.delays)?;
    let stimuli = read_stimuli(alloc, texts.stimuli)?;
    let clocks = read_clocks(alloc, texts.clocks)?;
    let initial = read_initial(alloc, texts.initial)?;
    Ok((delays, stimuli, clocks, initial))
}

/// The design of these texts, or the first fault of the tables. Without a netlist it is out of memory.
pub(crate) fn read_design(
    alloc: Global,
    texts: Texts<'_>,
    settings: Settings,
) -> Result<Design, DesignFault>
    requires bench { length texts.bench.now ≤ MAX_TEXT }
    requires delays { length texts.delays.now ≤ MAX_TEXT }
    requires stimuli { length texts.stimuli.now ≤ MAX_TEXT }
    requires clocks { length texts.clocks.now ≤ MAX_TEXT }
    requires initial { length texts.initial.now ≤ MAX_TEXT }
{
    let (delays, stimuli, clocks, initial) = read_tables(alloc, texts)?;
    match read_bench(alloc, texts.bench) {
        Ok(netlist) => Design::new(alloc, netlist, delays, stimuli, clocks, initial, settings),
        Err(_) => {
            drop((delays, stimuli, clocks, initial));
            Err(DesignFault::Memory)
        }
    }
}
