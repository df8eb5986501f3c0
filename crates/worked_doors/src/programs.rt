//! `cmb_sim`: command lines, whole simulations, and the lines of faults.

ghost use Rattle.std.specs.Prelude.{◌-◌, ◌^◌, ◌<◌};

use crate::checks::{holds, same};
use cmb_sim::{
    Fault, FromBytes, Level, LineFault, Mode, Room, Settings, Task, fault_line, read_line, simulate,
};
use std::alloc::Global;
use std::sync::Wait;
use std::test::Fail;
use std::thread::Threads;

// The words of a line.
fn words(alloc: Global, line: &str) -> Result<Vec<String>, Fail> {
    let mut all = Vec::new(alloc);
    for word in line.split_whitespace() {
        all.push(String::from_str(alloc, word)?)?;
    }
    Ok(all)
}

#[test]
fn lines(rt: HostRuntime) -> Result<(), Fail> {
    let alloc = rt.alloc();
    let line = read_line(
        alloc,
        words(alloc, "run --horizon 10 --mode plain")?.as_slice(),
        false,
    )?;
    same(&rt, (line.task, line.mode), (Task::Run, Mode::Plain));
    let wrong = read_line(alloc, words(alloc, "walk")?.as_slice(), false);
    same(&rt, wrong.err(), Some(LineFault::Wrong));
    Ok(())
}

// Simulates a netlist without tables up to a tick, in mode plain.
fn simulated<R: AllocGlobal + Threads + Wait + Sync>(
    rt: &R,
    netlist: &[u8],
    horizon: u32,
    out: &mut Room,
) -> Result<u64, Fault>
    requires { out.old.failures < 2 ^ 64 - 1 }
{
    let settings = Settings {
        horizon,
        clock: None,
        init: Level::X,
    };
    let report = simulate(
        rt,
        &mut FromBytes::new(netlist),
        &mut FromBytes::new(b""),
        &mut FromBytes::new(b""),
        &mut FromBytes::new(b""),
        &mut FromBytes::new(b""),
        settings,
        Mode::Plain,
        out,
    )?;
    Ok(report.written)
}

// An input that nothing drives: x throughout.
const TEXT: &[u8] = b"$version cmbsim 1 $end\n$timescale 1 ns $end\n$scope module top $end\n\
    $var wire 1 ! a $end\n$upscope $end\n$enddefinitions $end\n#0\n$dumpvars\nx!\n$end\n#1\n";

#[test]
fn simulations(rt: HostRuntime) -> Result<(), Fail> {
    let mut out = Room::new(rt.alloc(), 1000)?;
    let written = simulated(&rt, b"INPUT(a)\n", 1, &mut out)?;
    same(&rt, written, TEXT.len() as u64);
    holds(&rt, out.bytes.as_slice() == TEXT);
    Ok(())
}

#[test]
fn faults(rt: HostRuntime) -> Result<(), Fail> {
    let mut out = Room::new(rt.alloc(), 0)?;
    let Some(fault) = simulated(&rt, b"INPUT(a)\nINPUT(a)\n", 1, &mut out).err() else {
        return Err(Fail::new("no fault"));
    };
    let line = fault_line(rt.alloc(), &fault)?;
    holds(&rt, line.as_slice() == b"cmbsim: fault 5 at 2\n".as_slice());
    Ok(())
}
