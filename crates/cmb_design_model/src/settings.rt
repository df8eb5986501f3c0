//! The settings of a design, and their checks.

ghost use Rattle.std.specs.Prelude.{◌≡◌, ◌||◌, ◌&&◌, ◌<◌, not, length, IfOk, IfErr, OnOk, slice_index_or, false};
ghost use Rattle.std.specs.Prelude.{Some, Err};
ghost use Rattle.cmb_netlist.specs.Netlist.{driver_of};
ghost use Rattle.cmb_design_model.specs.Checks.{IsFaultOf, first_fault};
ghost use Rattle.cmb_design_model.specs.declared.fault.DesignFault.{DesignFault};
ghost use Rattle.cmb_design_model.specs.Nets.{is_flop};
ghost use Rattle.cmb_design_model.specs.Settings.{any_below, is_bad_clock, is_unclocked, lacks_clock, named_nets};
ghost use Rattle.cmb_design_model.specs.Settings.{range_checks, setting_checks};

use crate::fault::DesignFault;
use crate::nets::is_flop_driver;
use crate::rows::{Clock, ClockRow};
use cmb_netlist::Netlist;
use cmb_wave::Level;
use std::alloc::{AllocError, Global};

/// What a design has beside its netlist and its rows.
#[derive(Clone, Copy, Debug, PartialEq, Eq)]
pub struct Settings {
    /// The ticks below it are simulated; 1 to 1,000,000.
    pub horizon: u32,
    /// The first sample tick, at most 1,000,000, and the period, 1 to 1,000,000, of each flip-flop without a clock row.
    pub clock: Option<(u32, u32)>,
    /// The level that a flip-flop without a row of first levels shows at the ticks below its first sample tick plus its
    /// delay.
    pub init: Level,
}

impl Settings {
    ghost use Rattle.std.specs.Prelude.{option_map};
    ghost use Rattle.cmb_design_model.specs.Design.{clock_given};

    /// The common clock, if one is given.
    pub(crate) fn common_clock(&self) -> Option<Clock>
        ensures { result ≡ option_map clock_given self.now.clock }
    {
        self.clock.map(|(first, period)| Clock { first, period })
    }
}

fn has_bad_clock(clock: Option<Clock>) -> bool
    ensures { result ≡ is_bad_clock clock }
{
    match clock {
        None => false,
        Some(clock) => !(clock.first <= 1_000_000
            && (1 <= clock.period && clock.period <= 1_000_000)),
    }
}

/// For each net whether a clock row names it.
fn nets_named(alloc: Global, netlist: &Netlist, rows: &[ClockRow]) -> Result<Vec<bool>, AllocError>
    ensures { IfOk result (λ v. v.items ≡ named_nets netlist.now rows.now) }
{
    let mut table = vec![in alloc; false; netlist.len()]?;
    for row in rows {
        if let Some(net) = netlist.number(row.net.as_bytes()) {
            table[net] = true;
        }
    }
    Ok(table)
}

fn is_lacking(netlist: &Netlist, named: &[bool], net: usize) -> bool
    requires net { net < length netlist.now.names }
    requires named { net < length named.now }
    ensures { result ≡ (is_flop (driver_of netlist.now net) && not (slice_index_or named.now net false)) }
{
    is_flop_driver(netlist.driver(net)) && !named[net]
}

fn either(a: bool, b: bool) -> bool
    ensures { result ≡ (a || b) }
{
    a || b
}

fn some_unclocked(alloc: Global, netlist: &Netlist, rows: &[ClockRow]) -> Result<bool, AllocError>
    ensures { IfOk result (λ b. b ≡ any_below (is_unclocked netlist.now rows.now) (length netlist.now.names)) }
{
    let named = nets_named(alloc, netlist, rows)?;
    let mut lacking = false;
    for net in 0..netlist.len() {
        lacking = either(lacking, is_lacking(netlist, &named, net));
    }
    Ok(lacking)
}

fn is_clock_lacking(
    alloc: Global,
    netlist: &Netlist,
    clock: Option<Clock>,
    rows: &[ClockRow],
) -> Result<bool, AllocError>
    ensures { IfOk result (λ b. b ≡ lacks_clock netlist.now clock rows.now) }
{
    match clock {
        Some(_) => Ok(false),
        None => some_unclocked(alloc, netlist, rows),
    }
}

#[tactic(auto, unfolding(crate::specs::Checks::first_fault, crate::specs::Settings::setting_checks))]
pub(crate) fn check_settings(
    alloc: Global,
    netlist: &Netlist,
    horizon: u32,
    clock: Option<Clock>,
    rows: &[ClockRow],
) -> Result<(), DesignFault>
    ensures ok { OnOk result (first_fault (setting_checks netlist.now horizon clock rows.now) ≡ None) }
    ensures err { IfErr result (IsFaultOf (setting_checks netlist.now horizon clock rows.now)) }
    ensures ranges { (e : DesignFault) → first_fault (range_checks horizon clock) ≡ Some e → result ≡ Err e }
{
    if horizon < 1 || horizon > 1_000_000 {
        return Err(DesignFault::Horizon);
    }
    if has_bad_clock(clock) {
        return Err(DesignFault::Clock);
    }
    let Ok(lacking) = is_clock_lacking(alloc, netlist, clock, rows) else {
        return Err(DesignFault::Memory);
    };
    if lacking {
        return Err(DesignFault::NoClock);
    }
    Ok(())
}
