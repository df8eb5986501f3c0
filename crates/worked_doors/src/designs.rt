//! `cmb_bench` and `cmb_design`: netlists, tables, designs, and their values by a plain table.

use crate::checks::{holds, same};
use crate::waves::rise;
use cmb_bench::{Driver, Kind, Netlist, read_bench};
use cmb_design::{
    ClockRows, DelayRows, Design, DesignFault, InitialRows, Settings, StimulusRows, gate,
    plain_waves, read_clocks, read_delays, read_initial, read_stimuli,
};
use cmb_wave::{Level, Wave};
use std::alloc::Global;
use std::test::Fail;

// Tables without rows, but for the clock of q.
#[derive(Drop)]
struct Tables {
    delays: DelayRows,
    stimuli: StimulusRows,
    clocks: ClockRows,
    initial: InitialRows,
}

fn read_tables(alloc: Global) -> Result<Tables, DesignFault> {
    Ok(Tables {
        delays: read_delays(alloc, b"")?,
        stimuli: read_stimuli(alloc, b"")?,
        clocks: read_clocks(alloc, b"net,first,period\nq,2,4\n")?,
        initial: read_initial(alloc, b"")?,
    })
}

// The design of a netlist up to tick 12, without delays of its own, whose flip-flops hold 0 at first.
fn design_of(
    alloc: Global,
    netlist: Netlist,
    tables: Tables,
    clock: Option<(u32, u32)>,
) -> Result<Design, DesignFault> {
    let settings = Settings {
        horizon: 12,
        clock,
        init: Level::Zero,
    };
    let Tables {
        delays,
        stimuli,
        clocks,
        initial,
    } = tables;
    Design::new(alloc, netlist, delays, stimuli, clocks, initial, settings)
}

/// What is found out about the toggle: a flip-flop (net 0) that samples its inverse (net 1) at ticks 2, 6 and 10, up to
/// tick 12. Only here a design is owned, since such a function is proved slowly.
pub fn of_toggle<T: Drop, F: FnOnce(&Design) -> Result<T, Fail> + Drop>(
    alloc: Global,
    find: F,
) -> Result<T, Fail>
    requires { F.IsAlwaysCallable find }
{
    let tables = read_tables(alloc)?;
    let netlist = read_bench(alloc, b"q = DFF(d)\nd = NOT(q)\n")?;
    let design = design_of(alloc, netlist, tables, None)?;
    let found = find(&design);
    drop(design);
    found
}

fn is_toggle(netlist: &Netlist) -> bool {
    netlist.len() == 2
        && netlist.number(b"d") == Some(1)
        && matches!(netlist.driver(0), Driver::Flop(_))
}

#[test]
fn netlists(rt: HostRuntime) -> Result<(), Fail> {
    let has_two = of_toggle(rt.alloc(), |design| Ok(is_toggle(design.netlist())))?;
    holds(&rt, has_two);
    Ok(())
}

#[test]
fn gates(rt: HostRuntime) {
    same(
        &rt,
        gate(Kind::Nor, &[Level::Zero, Level::Zero]),
        Level::One,
    );
}

// The number and the line of the fault in a netlist that lacks a net.
fn fault_of_lacking(alloc: Global) -> Option<(u32, u32)> {
    let fault = read_bench(alloc, b"q = DFF(d)\nd = NOT(e)\n").err()?;
    Some((fault.number(), fault.line))
}

#[test]
fn wrong_netlists(rt: HostRuntime) {
    same(&rt, fault_of_lacking(rt.alloc()), Some((6, 2)));
}

// The number of the fault of a design whose clock has no period.
fn refused(alloc: Global) -> Result<Option<u32>, Fail> {
    let tables = read_tables(alloc)?;
    let netlist = read_bench(alloc, b"q = DFF(q)\n")?;
    let design = design_of(alloc, netlist, tables, Some((0, 0)));
    Ok(design.err().map(|fault| fault.number()))
}

#[test]
fn wrong_designs(rt: HostRuntime) -> Result<(), Fail> {
    same(&rt, refused(rt.alloc())?, Some(21));
    Ok(())
}

// By hand: d is the inverse of q a tick ago, so it rises at tick 1; q shows that at tick 3.
#[test]
fn values(rt: HostRuntime) -> Result<(), Fail> {
    let alloc = rt.alloc();
    let waves = of_toggle(alloc, |design| Ok(plain_waves(alloc, design)?))?;
    holds(&rt, are_right(&waves));
    Ok(())
}

fn are_right(waves: &[Wave]) -> bool {
    match waves {
        [q, d] => q.changes().contains(&rise(3)) && d.changes().contains(&rise(1)),
        _ => false,
    }
}
