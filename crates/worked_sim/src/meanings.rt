//! The library's texts of faults, beside their explanations.

use crate::checks::{holds, same};
use cmb_explain::explanation_of;
use cmb_sim::{BenchFault, DesignFault, Fault, FaultKind, fault_line};
use std::alloc::Global;
use std::process::Abort;
use std::test::Fail;

// The library's text of a fault ends with what the explanation says of its number.
fn same_meaning<R: Abort>(rt: &R, alloc: Global, fault: Fault) -> Result<(), Fail> {
    let text = format!(in alloc; "{fault}")?;
    let entry = explanation_of(fault.number()).ok_or("a fault that isn't explained")?;
    let ends = text.as_str().ends_with(entry.meaning);
    same(rt, (text.as_str(), ends), (text.as_str(), true));
    Ok(())
}

#[test]
fn meanings_of_netlists(rt: HostRuntime) -> Result<(), Fail> {
    let alloc = rt.alloc();
    for kind in [
        FaultKind::Byte,
        FaultKind::Statement,
        FaultKind::Kind,
        FaultKind::Operands,
        FaultKind::Driven,
        FaultKind::Undriven,
        FaultKind::TooMany,
        FaultKind::Name,
    ] {
        same_meaning(&rt, alloc, Fault::Bench(BenchFault { line: 7, kind }))?;
    }
    Ok(())
}

#[test]
fn meanings_of_tables(rt: HostRuntime) -> Result<(), Fail> {
    let alloc = rt.alloc();
    for fault in [
        DesignFault::Header(1),
        DesignFault::Fields(2),
        DesignFault::Number(3),
        DesignFault::UnknownNet(4),
        DesignFault::UnknownKind(5),
        DesignFault::DelayRange(6),
        DesignFault::RepeatedRow(7),
        DesignFault::NotInput(8),
        DesignFault::Level(9),
        DesignFault::DelayOfInput(10),
        DesignFault::PinName(11),
        DesignFault::NoPin(12),
        DesignFault::ClockRange(13),
        DesignFault::NotFlop(14),
        DesignFault::BeyondHorizon(15),
    ] {
        same_meaning(&rt, alloc, Fault::Design(fault))?;
    }
    Ok(())
}

#[test]
fn meanings_of_runs(rt: HostRuntime) -> Result<(), Fail> {
    let alloc = rt.alloc();
    for fault in [
        DesignFault::Horizon,
        DesignFault::Clock,
        DesignFault::NoClock,
        DesignFault::TableTooLarge,
    ] {
        same_meaning(&rt, alloc, Fault::Design(fault))?;
    }
    same_meaning(&rt, alloc, Fault::Unknown { line: 4 })?;
    same_meaning(&rt, alloc, Fault::Clusters)?;
    same_meaning(&rt, alloc, Fault::Incomplete { net: 3, upto: 9 })?;
    same_meaning(&rt, alloc, Fault::Workers)?;
    same_meaning(&rt, alloc, Fault::TooLong { input: 2 })?;
    same_meaning(&rt, alloc, Fault::Read { input: 3 })?;
    same_meaning(&rt, alloc, Fault::Write { written: 70 })?;
    same_meaning(&rt, alloc, Fault::Memory)
}

#[test]
fn line_of_a_fault(rt: HostRuntime) -> Result<(), Fail> {
    let line = fault_line(rt.alloc(), &Fault::Write { written: 70 })?;
    holds(
        &rt,
        line.as_slice() == b"cmbsim: fault 62 at 70\n".as_slice(),
    );
    Ok(())
}
