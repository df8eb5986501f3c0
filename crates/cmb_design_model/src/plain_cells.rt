//! The level of one net at one tick, where the levels at all earlier ticks stand in a table.

ghost use Rattle.std.specs.Prelude.{◌≡◌, ◌<◌, ◌≤◌, All, IfOk, OnOk};
ghost use Rattle.cmb_netlist.specs.Netlist.{IsNetlist, driver_of, pins_of};
ghost use Rattle.cmb_netlist.specs.declared.netlist.Driver.TheVariants.{Flop};
ghost use Rattle.cmb_design_model.specs.Exact.{nets_of};
ghost use Rattle.cmb_design_model.specs.Nets.{pins_at};
ghost use Rattle.cmb_design_model.specs.Inner.PlainTable.{HoldsTicks};
ghost use Rattle.cmb_design_model.specs.Timing.{delay as design_delay};
ghost use Rattle.cmb_design_model.specs.Value.{delayed, flop_level, pin_levels, value};

use crate::design::Design;
use crate::gates::gate;
use crate::plain_table::Table;
use cmb_netlist::Driver;
use cmb_wave::Level;
use std::alloc::AllocError;

// What a pin of a net sees of its operand.
fn level_on_pin(
    design: &Design,
    table: &Table,
    net: usize,
    pin: usize,
    operand: usize,
    tick: u32,
) -> Level
    requires filled { HoldsTicks design.now table.now tick }
    requires net { net < nets_of design.now }
    requires low { 1 ≤ pin }
    requires high { pin ≤ pins_at design.now.netlist net }
    requires operand { operand < nets_of design.now }
    ensures { result ≡ delayed (value design.now operand) (design_delay design.now net pin) tick }
{
    let ticks = design.delay(net, pin);
    if tick < ticks {
        Level::X
    } else {
        table.level(operand, tick - ticks)
    }
}

// The levels on a net's pins, in place of what `levels` had.
fn collect_levels(
    design: &Design,
    table: &Table,
    net: usize,
    operands: &[u32],
    tick: u32,
    levels: &mut Vec<Level>,
) -> Result<(), AllocError>
    requires filled { HoldsTicks design.now table.now tick }
    requires net { net < nets_of design.now }
    requires pins { operands.now ≡ pins_of (driver_of design.now.netlist net) }
    requires operands { All (λ operand. operand < nets_of design.now) operands.now }
    ensures { OnOk result (levels.new.items ≡ pin_levels design.now (value design.now) net tick 1 operands.now) }
{
    levels.clear();
    for (i, operand) in operands.iter().enumerate() {
        levels.push(level_on_pin(design, table, net, i + 1, *operand as usize, tick))?;
    }
    Ok(())
}

// The level of a flip-flop at a tick, by what it sampled.
fn level_of_flop(design: &Design, table: &Table, net: usize, source: usize, tick: u32) -> Level
    requires filled { HoldsTicks design.now table.now tick }
    requires net { net < nets_of design.now }
    requires driver { driver_of design.now.netlist net ≡ Flop source }
    requires source { source < nets_of design.now }
    ensures { result ≡ flop_level design.now (value design.now source) net tick }
{
    let ticks = design.delay(net, 1);
    if tick < ticks {
        return design.init(net);
    }
    match design.last(net, tick - ticks) {
        None => design.init(net),
        Some(sample) => table.level(source, sample),
    }
}

/// The level of a net at a tick; `levels` is room for those on its pins.
pub(crate) fn level_of_cell(
    design: &Design,
    table: &Table,
    net: usize,
    tick: u32,
    levels: &mut Vec<Level>,
) -> Result<Level, AllocError>
    requires wired { IsNetlist design.now.netlist }
    requires filled { HoldsTicks design.now table.now tick }
    requires net { net < nets_of design.now }
    requires tick { tick < design.now.horizon }
    ensures { IfOk result (λ level. level ≡ value design.now net tick) }
{
    match design.netlist().driver(net) {
        Driver::Input => Ok(design.stim(net, tick)),
        Driver::Gate(kind, operands) => {
            collect_levels(design, table, net, operands.as_slice(), tick, levels)?;
            Ok(gate(*kind, levels.as_slice()))
        }
        Driver::Flop(source) => Ok(level_of_flop(design, table, net, *source as usize, tick)),
    }
}
