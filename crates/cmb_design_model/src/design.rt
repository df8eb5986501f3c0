//! The design as one value.

ghost use Rattle.std.specs.Prelude.{◌≡◌, ◌<◌, ◌≤◌, length, option_map, IfOk, IfErr, IfSome, Some, Err};
ghost use Rattle.cmb_design_model.specs.Checks.{IsFaultOf, FollowsChecks, first_fault};
ghost use Rattle.cmb_design_model.specs.declared.fault.DesignFault.{DesignFault};
ghost use Rattle.cmb_design_model.specs.Inner.Inside.{AreTables};
ghost use Rattle.cmb_design_model.specs.Nets.{pins_at};
ghost use Rattle.cmb_design_model.specs.Timing.{clock_of, delay as design_delay, initial_level, last_sample};
ghost use Rattle.cmb_design_model.specs.Timing.{next_sample, stimulus};
ghost use Rattle.cmb_design_model.specs.Lawful.{IsDesign};
ghost use Rattle.cmb_design_model.specs.Ranges.{IsDelay};
ghost use Rattle.cmb_wave.specs.Waveform.{Rises, changes_between};
ghost use Rattle.cmb_design_model.specs.Design.{clock_given, design_of};
ghost use Rattle.std.specs.List.{filter};
ghost use Rattle.cmb_design_model.specs.Part.{design_on, has_delayed, has_net};
ghost use Rattle.cmb_design_model.specs.Settings.{design_checks, range_checks};

use crate::clocks::take_clocks;
use crate::delays::{lay_out, pin_delays};
use crate::fault::DesignFault;
use crate::initial::take_levels;
use crate::part::rows_on;
use crate::row_levels::RowLevels;
use crate::rows::{Clock, ClockRows, DelayRows, InitialRows, StimulusRows};
use crate::samples::{clock_for_all, last_at, level_told, next_at, told_before};
use crate::settings::{Settings, check_settings};
use crate::stimuli::stimuli_changes;
use cmb_netlist::Netlist;
use cmb_wave::{Change, Level};
use std::alloc::{AllocError, Global};
use std::marker::Model;

/// The tables that a design is asked by.
#[derive(Drop)]
pub(crate) struct Tables {
    starts: Vec<usize>,
    delays: Vec<u32>,
    changes: Vec<RowLevels>,
    own_clocks: Vec<Option<Clock>>,
    own_levels: Vec<Option<Level>>,
}

fn make_tables(
    alloc: Global,
    netlist: &Netlist,
    delays: &DelayRows,
    stimuli: &StimulusRows,
    clocks: &ClockRows,
    initial: &InitialRows,
    settings: Settings,
) -> Result<Tables, DesignFault>
    ensures ok { let design = design_of netlist.now settings delays.now stimuli.now clocks.now initial.now in
        IfOk result (λ tables. (first_fault (design_checks design) ≡ None) × AreTables design tables) }
    ensures err { let design = design_of netlist.now settings delays.now stimuli.now clocks.now initial.now in
        IfErr result (IsFaultOf (design_checks design)) }
    ensures ranges { let design = design_of netlist.now settings delays.now stimuli.now clocks.now initial.now in
        (e : DesignFault) → first_fault (range_checks design.horizon design.clock) ≡ Some e → result ≡ Err e }
{
    let clock_rows = clocks.as_slice();
    check_settings(
        alloc,
        netlist,
        settings.horizon,
        settings.common_clock(),
        clock_rows,
    )?;
    let layout = lay_out(alloc, netlist)?;
    let delay_rows = delays.as_slice();
    let delays = pin_delays(alloc, netlist, &layout, delay_rows)?;
    let changes = stimuli_changes(alloc, netlist, stimuli.as_slice())?;
    let own_clocks = take_clocks(alloc, netlist, clock_rows)?;
    let own_levels = take_levels(alloc, netlist, initial.as_slice())?;
    Ok(Tables {
        starts: layout.starts,
        delays,
        changes,
        own_clocks,
        own_levels,
    })
}

/// A netlist with all that its waveforms depend on.
#[derive(Drop)]
pub struct Design {
    netlist: Netlist,
    horizon: u32,
    init: Level,
    clock: Option<Clock>,
    delays: DelayRows,
    stimuli: StimulusRows,
    clocks: ClockRows,
    initial: InitialRows,
    tables: Tables,
}

impl Model for Design {
    ghost use Rattle.cmb_design_model.specs.Design.{Design};

    ghost Value = { Design };

    ghost use Rattle.cmb_design_model.specs.Inner.Inside.{AreTables, seen};

    ghost view = { seen };

    ghost invariant = { λ a. AreTables (seen a) a.tables };
}

impl Design {
    /// A design, or the first fault of its settings and rows: 20, 21 and 22 in order; then the delay rows in order,
    /// each by 26, 29, 32 and 35; then the stimulus rows, each by 26, 29 and 30; then the clock rows, and then the
    /// rows of first levels, each by 26, 29 and 37. `Memory` (70) comes where a growth was refused, and never in the
    /// place of 20 or 21. The values are given up on a refusal.
    pub fn new(
        alloc: Global,
        netlist: Netlist,
        delays: DelayRows,
        stimuli: StimulusRows,
        clocks: ClockRows,
        initial: InitialRows,
        settings: Settings,
    ) -> Result<Design, DesignFault>
        ensures checks { let design = design_of netlist settings delays stimuli clocks initial in
            FollowsChecks (design_checks design) design result }
        ensures ranges { let design = design_of netlist settings delays stimuli clocks initial in
            (e : DesignFault) → first_fault (range_checks design.horizon design.clock) ≡ Some e → result ≡ Err e }
    {
        match make_tables(
            alloc, &netlist, &delays, &stimuli, &clocks, &initial, settings,
        ) {
            Ok(tables) => Ok(Design {
                netlist,
                horizon: settings.horizon,
                init: settings.init,
                clock: settings.common_clock(),
                delays,
                stimuli,
                clocks,
                initial,
                tables,
            }),
            Err(fault) => {
                drop((netlist, delays, stimuli, clocks, initial));
                Err(fault)
            }
        }
    }

    /// What was given beside the netlist and the rows.
    fn settings(&self) -> Settings
        ensures { (result.horizon ≡ self.now.horizon) × (result.init ≡ self.now.init)
            × (option_map clock_given result.clock ≡ self.now.clock) }
    {
        Settings {
            horizon: self.horizon,
            clock: self.clock.map(|clock| (clock.first, clock.period)),
            init: self.init,
        }
    }

    /// The rows of each table but for those that are about a net which the netlist lacks.
    fn rows_on(
        &self,
        alloc: Global,
        netlist: &Netlist,
    ) -> Result<(DelayRows, StimulusRows, ClockRows, InitialRows), AllocError>
        ensures { IfOk result (λ rows. (rows.0 ≡ filter (λ row. has_delayed netlist.now row.what) self.now.delays)
            × (rows.1 ≡ filter (λ row. has_net netlist.now row.net) self.now.stimuli)
            × (rows.2 ≡ filter (λ row. has_net netlist.now row.net) self.now.clocks)
            × (rows.3 ≡ filter (λ row. has_net netlist.now row.net) self.now.initial)) }
    {
        let delays = rows_on(alloc, netlist, &self.delays)?;
        let stimuli = rows_on(alloc, netlist, &self.stimuli)?;
        let clocks = rows_on(alloc, netlist, &self.clocks)?;
        let initial = rows_on(alloc, netlist, &self.initial)?;
        Ok((delays, stimuli, clocks, initial))
    }

    /// The design of another netlist with this one's settings, and with its rows but for those that are about a net
    /// which the other netlist lacks; or the first fault there, as `new` answers it.
    pub fn on(&self, alloc: Global, netlist: Netlist) -> Result<Design, DesignFault>
        ensures { let design = design_on self.now netlist in FollowsChecks (design_checks design) design result }
    {
        match self.rows_on(alloc, &netlist) {
            Ok((delays, stimuli, clocks, initial)) => Design::new(
                alloc,
                netlist,
                delays,
                stimuli,
                clocks,
                initial,
                self.settings(),
            ),
            Err(_) => {
                drop(netlist);
                Err(DesignFault::Memory)
            }
        }
    }

    /// The horizon in ticks, 1 to 1,000,000: the ticks below it are simulated.
    pub fn horizon(&self) -> u32
        ensures value { result ≡ self.now.horizon }
        ensures small { (1 ≤ result) × (result ≤ 1000000) }
        ensures lawful { IsDesign self.now }
    {
        self.horizon
    }

    /// The level that a flip-flop's net shows at the ticks below its first sample tick plus its delay: that of its row
    /// of first levels, else the common one.
    pub fn init(&self, net: usize) -> Level
        requires { net < length self.now.netlist.names }
        ensures { result ≡ initial_level self.now net }
    {
        self.tables.own_levels[net].unwrap_or(self.init)
    }

    /// The netlist.
    pub fn netlist(&self) -> &Netlist
        ensures { result.now ≡ self.now.netlist }
    {
        &self.netlist
    }

    /// How many rows the table of delays has.
    pub fn delay_rows(&self) -> usize
        ensures { result ≡ length self.now.delays }
    {
        self.delays.as_slice().len()
    }

    /// How many rows the table of stimuli has.
    pub fn stimulus_rows(&self) -> usize
        ensures { result ≡ length self.now.stimuli }
    {
        self.stimuli.as_slice().len()
    }

    /// How many rows the table of clocks has.
    pub fn clock_rows(&self) -> usize
        ensures { result ≡ length self.now.clocks }
    {
        self.clocks.as_slice().len()
    }

    /// How many rows the table of first levels has.
    pub fn initial_rows(&self) -> usize
        ensures { result ≡ length self.now.initial }
    {
        self.initial.as_slice().len()
    }

    /// The delay, in ticks, from a pin of a net's driver to the net: that of the pin's row, else of the net's, else of
    /// the kind's, else 1. Pins count from 1 in the order of operands; a flip-flop's data is pin 1.
    pub fn delay(&self, net: usize, pin: usize) -> u32
        requires net { net < length self.now.netlist.names }
        requires low { 1 ≤ pin }
        requires high { pin ≤ pins_at self.now.netlist net }
        ensures value { result ≡ design_delay self.now net pin }
        ensures small { IsDelay result }
    {
        self.tables.delays[self.tables.starts[net] + (pin - 1)]
    }

    /// The changes of a net by its stimulus, also those from the horizon on.
    fn told(&self, net: usize) -> &[Change]
        requires { net < length self.now.netlist.names }
        ensures value { result.now ≡ changes_between (stimulus self.now net) 0 4294967296 }
        ensures rises { Rises 0 result.now }
    {
        self.tables.changes[net].changes()
    }

    /// The changes below the horizon of an input net by its stimulus; none for any other net.
    pub fn stim_changes(&self, net: usize) -> &[Change]
        requires { net < length self.now.netlist.names }
        ensures { result.now ≡ changes_between (stimulus self.now net) 0 self.now.horizon }
    {
        told_before(self.told(net), self.horizon())
    }

    /// The level of an input net at a tick by its stimulus: that of its row with the greatest tick that is at most this
    /// one, else x.
    pub fn stim(&self, net: usize, tick: u32) -> Level
        requires { net < length self.now.netlist.names }
        ensures { result ≡ stimulus self.now net tick }
    {
        level_told(self.told(net), tick)
    }

    /// The sampling clock of a net: that of its clock row, else the common clock, else first 0 and period 1, which no
    /// flip-flop of a design has to take.
    pub fn clock(&self, net: usize) -> Clock
        requires { net < length self.now.netlist.names }
        ensures value { result ≡ clock_of self.now net }
        ensures lawful { IsDesign self.now }
    {
        self.tables.own_clocks[net].unwrap_or(clock_for_all(self.clock))
    }

    /// The greatest sample tick of a flip-flop's net that is at most this tick; none below its first sample tick.
    pub fn last(&self, net: usize, tick: u32) -> Option<u32>
        requires { net < length self.now.netlist.names }
        ensures value { result ≡ last_sample (clock_of self.now net) tick }
        ensures small { IfSome result (λ sample. sample ≤ tick) }
    {
        last_at(self.clock(net), tick)
    }

    /// The least sample tick of a flip-flop's net that is at least `tick`. `tick` is at most the horizon; the answer
    /// may lie beyond it.
    pub fn next(&self, net: usize, tick: u32) -> u32
        requires net { net < length self.now.netlist.names }
        requires tick { tick ≤ self.now.horizon }
        ensures value { result ≡ next_sample (clock_of self.now net) tick }
        ensures small { (tick ≤ result) × (result < 2000000) }
    {
        next_at(self.clock(net), tick)
    }
}
