//! Faults of the netlist and of the settings.

use crate::cases::{Case, bench_case, clocked, refuses, writes};
use crate::checks::same;
use crate::waves::{inverter, toggle};
use cmb_sim::{PartCount, Settings};
use std::alloc::{AllocError, Global};
use std::process::Abort;
use std::sync::Wait;
use std::test::Fail;
use std::thread::Threads;

#[test]
fn cut_short(rt: HostRuntime) -> Result<(), Fail> {
    refuses(&rt, bench_case(b"INPUT(a)\ny = AND(a", 10), 2, 2)
}

#[test]
fn driven_twice(rt: HostRuntime) -> Result<(), Fail> {
    refuses(&rt, bench_case(b"INPUT(a)\na = NOT(a)", 10), 5, 2)?;
    writes(&rt, bench_case(b"n = NOT(n)", 4), "n", "#0 x! #4")
}

#[test]
fn unknown_kind(rt: HostRuntime) -> Result<(), Fail> {
    refuses(
        &rt,
        bench_case(b"OUTPUT(z)\nINPUT(a)\nb = FOO(a)", 10),
        3,
        3,
    )?;
    refuses(&rt, bench_case(b"OUTPUT(z)\nINPUT(a)\n", 10), 6, 1)
}

// A name of so many bytes.
fn name_of(alloc: Global, bytes: usize) -> Result<String, AllocError> {
    let mut name = String::new(alloc);
    for _ in 0..bytes {
        name.push('n')?;
    }
    Ok(name)
}

// A net may have a name of 255 bytes.
fn longest_name<R: AllocGlobal + Abort + Threads + Wait + Sync>(rt: &R) -> Result<(), Fail> {
    let name = name_of(rt.alloc(), 255)?;
    let bench = format!(in rt.alloc(); "INPUT({name})")?;
    writes(
        rt,
        bench_case(bench.as_bytes(), 1),
        name.as_str(),
        "#0 x! #1",
    )
}

// And none of one more.
fn longer_name<R: AllocGlobal + Abort + Threads + Wait + Sync>(rt: &R) -> Result<(), Fail> {
    let name = name_of(rt.alloc(), 256)?;
    let bench = format!(in rt.alloc(); "INPUT({name})")?;
    refuses(rt, bench_case(bench.as_bytes(), 1), 8, 1)
}

#[test]
fn names(rt: HostRuntime) -> Result<(), Fail> {
    longest_name(&rt)?;
    longer_name(&rt)?;
    let keyword = bench_case(b"INPUT(a) INPUT(b) INPUT = AND(a, b)", 1);
    writes(&rt, keyword, "a b INPUT", "#0 x! x\" x# #1")
}

#[test]
fn operands(rt: HostRuntime) -> Result<(), Fail> {
    for (bench, number) in [
        (b"y = NOT(a, b)".as_slice(), 4),
        (b"y = AND()".as_slice(), 2),
        (b"FOO(a)".as_slice(), 2),
        (b"INPUT(a) \xE9".as_slice(), 1),
        (b"y = FOO(".as_slice(), 3),
    ] {
        refuses(&rt, bench_case(bench, 1), number, 1)?;
    }
    Ok(())
}

#[test]
fn part_counts(rt: HostRuntime) {
    same(&rt, PartCount::ONE.count, 1);
    for n in [1, 2, 64] {
        same(&rt, PartCount::new(n).map(|parts| parts.count), Some(n));
    }
    for n in [0, 65, u32::MAX] {
        same(&rt, PartCount::new(n), None);
    }
}

#[test]
fn refused_settings(rt: HostRuntime) -> Result<(), Fail> {
    refuses(&rt, toggle(), 22, 0)?;
    refuses(&rt, clocked(toggle(), 2, 0), 21, 0)?;
    for horizon in [0, 1_000_001] {
        let settings = Settings {
            horizon,
            ..inverter().settings
        };
        let wrong = Case {
            settings,
            ..inverter()
        };
        refuses(&rt, wrong, 20, 0)?;
    }
    for (stimuli, number) in [("0,y,0", 30), ("0,b,0", 26), ("0,a,2", 31), ("-1,a,0", 25)] {
        let wrong = Case {
            stimuli,
            ..inverter()
        };
        refuses(&rt, wrong, number, 2)?;
    }
    let wrong = Case {
        delays: "net,a,3",
        ..inverter()
    };
    refuses(&rt, wrong, 32, 2)
}
