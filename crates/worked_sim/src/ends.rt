//! Sources and sinks that fail, and inputs that are too large.

use crate::cases::{
    How, Told, asked, bench_case, clocked, modes, refuses, run_within, takes, told,
};
use crate::checks::{holds, same};
use crate::drips::dripping;
use crate::waves::{inverter, toggle};
use cmb_sim::{FromBytes, Limited, Mode, simulate, simulate_chosen};
use std::alloc::{AllocError, Global};
use std::process::Abort;
use std::sync::Wait;
use std::test::Fail;
use std::thread::Threads;
use worked_designs::text_of;

// Simulates the inverter with sources that fail after so many reads each.
fn run_drips<R: AllocGlobal + Threads + Wait + Sync>(
    rt: &R,
    how: How,
    reads: [u32; 5],
) -> (Told, Vec<u8>) {
    let case = inverter();
    let mut out = Limited::new(rt.alloc(), 1000);
    let answer = simulate_chosen(
        rt,
        &mut dripping(case.bench, reads[0]),
        &mut dripping(b"by,name,delay\n", reads[1]),
        &mut dripping(b"tick,net,value\n0,a,0\n5,a,1\n", reads[2]),
        &mut dripping(b"net,first,period\n", reads[3]),
        &mut dripping(b"net,value\n", reads[4]),
        &mut FromBytes::new(&[]),
        asked(case.settings, how),
        &mut out,
    );
    (told(&answer), out.bytes)
}

// How many reads each source needs: one for each byte, and one for the end.
const READS: [u32; 5] = [30, 15, 28, 18, 11];

// The place of the input with this number among those that are read: first levels, which are input 6, are the last.
fn place_of(input: u32) -> usize {
    match input {
        6 => 4,
        _ => input.saturating_sub(1) as usize,
    }
}

// The input with this number fails at each of its reads in turn.
fn fails_at_each_read<R: AllocGlobal + Abort + Threads + Wait + Sync>(
    rt: &R,
    how: How,
    input: u32,
) -> Result<(), Fail> {
    let index = place_of(input);
    let mut reads = READS;
    for left in 0..100u32 {
        if index < 5 {
            reads[index] = left;
        }
        let (told, text) = run_drips(rt, how, reads);
        if let Ok(report) = told {
            same(rt, READS.get(index).copied(), Some(left));
            same(rt, report.written, 190);
            return Ok(());
        }
        same(rt, told, Err((61, u64::from(input))));
        holds(rt, text.is_empty());
    }
    Err(Fail::from("it always fails"))
}

#[test]
fn each_read_fails(rt: HostRuntime) -> Result<(), Fail> {
    for how in modes() {
        for input in [1, 2, 3, 4, 6] {
            fails_at_each_read(&rt, how, input)?;
        }
    }
    Ok(())
}

#[test]
fn short_sink(rt: HostRuntime) -> Result<(), Fail> {
    for how in modes() {
        let outcome = run_within(&rt, inverter(), how, 17)?;
        takes(&rt, outcome, "$version cmbsim 1 $end", 17);
    }
    Ok(())
}

#[test]
fn each_write_fails(rt: HostRuntime) -> Result<(), Fail> {
    let body = "#0 0! x\" #1 1\" #3 1! #4 0\" #7 0! #8 1\" #11 1! #12";
    let text = text_of(rt.alloc(), "q d", body)?;
    same(&rt, text.len(), 209);
    for how in modes() {
        for room in 0..=209usize {
            let outcome = run_within(&rt, clocked(toggle(), 2, 4), how, room)?;
            takes(&rt, outcome, text.as_str(), room);
        }
    }
    Ok(())
}

pub const SEVENTEEN: &str =
    "INPUT(a1) INPUT(a2) INPUT(a3) INPUT(a4) INPUT(a5) INPUT(a6) INPUT(a7) INPUT(a8) INPUT(a9)
INPUT(a10) INPUT(a11) INPUT(a12) INPUT(a13) INPUT(a14) INPUT(a15) INPUT(a16) INPUT(a17)";

// So many blanks. It stands apart, so that no proof computes a list of that length.
fn blanks(alloc: Global, len: usize) -> Result<Vec<u8>, AllocError> {
    Vec::from_elem(alloc, b' ', len)
}

// The long text, or none.
fn either(is_long: bool, long: &[u8]) -> &[u8] {
    if is_long { long } else { &[] }
}

// The input with this number has one byte too many.
fn too_long<R: AllocGlobal + Abort + Threads + Wait + Sync>(rt: &R, long: &[u8], input: u64) {
    let mut out = Limited::new(rt.alloc(), 1000);
    let answer = simulate(
        rt,
        &mut FromBytes::new(either(input == 1, long)),
        &mut FromBytes::new(either(input == 2, long)),
        &mut FromBytes::new(either(input == 3, long)),
        &mut FromBytes::new(either(input == 4, long)),
        &mut FromBytes::new(either(input == 6, long)),
        inverter().settings,
        Mode::Plain,
        &mut out,
    );
    same(rt, told(&answer), Err((60, input)));
}

#[test]
fn too_large(rt: HostRuntime) -> Result<(), Fail> {
    refuses(&rt, bench_case(SEVENTEEN.as_bytes(), 1_000_000), 33, 0)?;
    let long = blanks(rt.alloc(), 16_777_217)?;
    for input in [1, 2, 3, 4, 6] {
        too_long(&rt, long.as_slice(), input);
    }
    Ok(())
}
