//! Simulations that are compared with what a table expects of them.

use crate::cases::{Case, How, PLAIN, asked, bench_case, clocked, modes, table, takes};
use crate::checks::{holds, same};
use crate::ends::SEVENTEEN;
use cmb_sim::{Choice, Comparison, FromBytes, Limited, Report, Request, compare};
use std::alloc::{AllocError, Global};
use std::process::Abort;
use std::test::Fail;

// `a` rises at tick 5. The flip-flop samples it at 2, 6 and 10, so that `q` is 1 from tick 7 on. `y` is x at tick 0,
// and 0 from tick 8 on; the last net is a tick behind it, inverted.
fn sampled() -> Case<'static> {
    let case = bench_case(
        b"INPUT(a) OUTPUT(q)\nq = DFF(a)\ny = NAND(a, q)\nn\" = NOT(y)\n",
        12,
    );
    Case {
        stimuli: "0,a,0 5,a,1",
        ..clocked(case, 2, 4)
    }
}

// The comparison, or the fault's number and place.
type Told = Result<Comparison, (u32, u64)>;

// Compares over memory with a sink that takes so many bytes, and gives the answer and what was written.
fn run_compare(
    alloc: Global,
    case: Case<'_>,
    how: How,
    expected: &[u8],
    room: usize,
) -> Result<(Told, Vec<u8>), AllocError> {
    let stimuli = table(alloc, "tick,net,value", case.stimuli)?;
    let mut out = Limited::new(alloc, room);
    let answer = compare(
        alloc,
        &mut FromBytes::new(case.bench),
        &mut FromBytes::new(&[]),
        &mut FromBytes::new(stimuli.as_bytes()),
        &mut FromBytes::new(&[]),
        &mut FromBytes::new(&[]),
        &mut FromBytes::new(expected),
        Request {
            choice: Choice::All,
            ..asked(case.settings, how)
        },
        &mut out,
    );
    let told = match answer {
        Ok(told) => Ok(told),
        Err(fault) => Err((fault.number(), fault.place())),
    };
    Ok((told, out.bytes))
}

// In every mode so many of these rows differ, of so many in all, and the text that tells them is this one.
fn tells(
    rt: &impl Abort,
    alloc: Global,
    case: Case<'_>,
    nets: u32,
    rows: &str,
    count: (u32, u32),
    want: &[u8],
) -> Result<(), Fail> {
    let expected = table(alloc, "tick,net,value", rows)?;
    let comparison = Comparison {
        report: Report {
            nets,
            horizon: case.settings.horizon,
            written: want.len() as u64,
        },
        differ: count.0,
        rows: count.1,
    };
    for how in modes() {
        let (told, text) = run_compare(alloc, case, how, expected.as_bytes(), 1000)?;
        same(rt, (told, text.as_slice() == want), (Ok(comparison), true));
    }
    Ok(())
}

const ROWS: &str =
    "4,a,1 0,a,0 5,a,1 6,q,1 7,q,1 0,y,1 11,y,0 8,\"n\"\"\",1 1,\"n\"\"\",x 9,\"n\"\"\",1";

const DIFFERENT: &[u8] = b"tick,net,expected,value\n4,a,1,0\n6,q,1,0\n0,y,1,x\n8,\"n\"\"\",1,0\n";

#[test]
fn rows_that_differ(rt: HostRuntime) -> Result<(), Fail> {
    tells(&rt, rt.alloc(), sampled(), 4, ROWS, (4, 10), DIFFERENT)
}

#[test]
fn rows_that_are_met(rt: HostRuntime) -> Result<(), Fail> {
    let alloc = rt.alloc();
    let header = b"tick,net,expected,value\n";
    tells(
        &rt,
        alloc,
        sampled(),
        4,
        "11,y,0 7,q,1 0,y,X 0,a,0",
        (0, 4),
        header,
    )?;
    tells(&rt, alloc, sampled(), 4, "", (0, 0), header)
}

// x is met by x alone.
#[test]
fn rows_of_x(rt: HostRuntime) -> Result<(), Fail> {
    let want = b"tick,net,expected,value\n1,y,x,1\n0,y,0,x\n";
    tells(
        &rt,
        rt.alloc(),
        sampled(),
        4,
        "1,y,x 0,y,0 6,a,1",
        (2, 3),
        want,
    )
}

// A flip-flop that is fed its own value, inverted, and samples every fourth tick: it is 0 before tick 3, and changes
// there, at 7 and so on up to 199; its inverter changes a tick later each time.
#[test]
fn rows_of_many_windows(rt: HostRuntime) -> Result<(), Fail> {
    let case = clocked(bench_case(b"q = DFF(d)\nd = NOT(q)\n", 203), 2, 4);
    let rows = "202,d,0 198,q,1 199,q,1 100,d,0 64,q,1 63,q,1 62,q,0 0,d,x 1,d,1";
    let want = b"tick,net,expected,value\n202,d,0,1\n199,q,1,0\n64,q,1,0\n63,q,1,0\n62,q,0,1\n";
    tells(&rt, rt.alloc(), case, 2, rows, (5, 9), want)
}

// Run so, the answer is this fault at this place, and nothing is written.
fn refused(
    rt: &impl Abort,
    alloc: Global,
    case: Case<'_>,
    how: How,
    expected: &[u8],
    want: (u32, u64),
) -> Result<(), Fail> {
    let (told, text) = run_compare(alloc, case, how, expected, 1000)?;
    same(rt, told, Err(want));
    holds(rt, text.is_empty());
    Ok(())
}

// Of these rows one gives this fault at this record.
fn refused_rows(rt: &impl Abort, alloc: Global, rows: &str, want: (u32, u64)) -> Result<(), Fail> {
    let expected = table(alloc, "tick,net,value", rows)?;
    for how in modes() {
        refused(rt, alloc, sampled(), how, expected.as_bytes(), want)?;
    }
    Ok(())
}

#[test]
fn refused_records(rt: HostRuntime) -> Result<(), Fail> {
    let alloc = rt.alloc();
    refused(&rt, alloc, sampled(), PLAIN, b"tick,net,level\n", (23, 1))?;
    refused_rows(&rt, alloc, "1,a", (24, 2))?;
    refused_rows(&rt, alloc, "1,a,0 x,a,1", (25, 3))?;
    refused_rows(&rt, alloc, "1,a,2", (31, 2))?;
    // All records are read before a row is checked.
    refused_rows(&rt, alloc, "0,b,1 1,a,2", (31, 3))
}

#[test]
fn refused_expectations(rt: HostRuntime) -> Result<(), Fail> {
    let alloc = rt.alloc();
    refused_rows(&rt, alloc, "0,a,1 0,b,1", (26, 3))?;
    refused_rows(&rt, alloc, "3,a,1 4,a,1 03,a,0", (29, 4))?;
    refused_rows(&rt, alloc, "11,a,1 12,a,1", (39, 3))?;
    refused_rows(&rt, alloc, "9999999999,b,1", (26, 2))?;
    refused_rows(&rt, alloc, "9999999999,a,1", (39, 2))
}

#[test]
fn order_of_refusals(rt: HostRuntime) -> Result<(), Fail> {
    let alloc = rt.alloc();
    // The netlist's faults come first.
    let undriven = bench_case(b"y = NOT(a)", 10);
    refused(&rt, alloc, undriven, PLAIN, b"tick,net,level\n", (6, 1))?;
    // The table's come before the mode's.
    let large = bench_case(SEVENTEEN.as_bytes(), 1_000_000);
    refused(
        &rt,
        alloc,
        large,
        PLAIN,
        b"tick,net,value\n0,v,1\n",
        (26, 2),
    )?;
    refused(
        &rt,
        alloc,
        large,
        PLAIN,
        b"tick,net,value\n0,a1,1\n",
        (33, 0),
    )
}

#[test]
fn each_write_fails(rt: HostRuntime) -> Result<(), Fail> {
    let alloc = rt.alloc();
    let text = str::from_utf8(DIFFERENT).unwrap_or("");
    let expected = table(alloc, "tick,net,value", ROWS)?;
    for room in 0..=text.len() {
        let (told, taken) = run_compare(alloc, sampled(), PLAIN, expected.as_bytes(), room)?;
        takes(&rt, (told.map(|told| told.report), taken), text, room);
    }
    Ok(())
}
