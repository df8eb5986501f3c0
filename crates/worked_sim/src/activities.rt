//! Simulations of which a table tells how active the nets are.

use crate::cases::{Case, How, PLAIN, Told, asked, bench_case, clocked, modes, table, takes, told};
use crate::checks::{holds, same};
use crate::ends::SEVENTEEN;
use cmb_sim::{Choice, FromBytes, Limited, Pick, Report, Request, measure};
use std::alloc::{AllocError, Global};
use std::process::Abort;
use std::test::Fail;

// `a` rises at tick 5. The flip-flop samples it at 2, 6 and 10, so that `q` is 1 from tick 7 on. `y` is x at tick 0,
// and 0 from tick 8 on; the last net is a tick behind it, inverted.
fn sampled() -> Case<'static> {
    let case = bench_case(
        b"INPUT(a) OUTPUT(q)\nq = DFF(a)\ny = NAND(a, q)\nn\" = NOT(y)\n",
        12,
    );
    Case {
        stimuli: "0,a,0 5,a,1",
        ..clocked(case, 2, 4)
    }
}

// Measures over memory with a sink that takes so many bytes, and gives the answer and what was written.
fn run_measure(
    alloc: Global,
    case: Case<'_>,
    how: How,
    choice: Choice,
    names: &[u8],
    room: usize,
) -> Result<(Told, Vec<u8>), AllocError> {
    let stimuli = table(alloc, "tick,net,value", case.stimuli)?;
    let mut out = Limited::new(alloc, room);
    let answer = measure(
        alloc,
        &mut FromBytes::new(case.bench),
        &mut FromBytes::new(&[]),
        &mut FromBytes::new(stimuli.as_bytes()),
        &mut FromBytes::new(&[]),
        &mut FromBytes::new(&[]),
        &mut FromBytes::new(names),
        Request {
            choice,
            ..asked(case.settings, how)
        },
        &mut out,
    );
    Ok((told(&answer), out.bytes))
}

// In every mode the table of the chosen nets is this one, and the report tells its length.
fn tells(
    rt: &impl Abort,
    alloc: Global,
    case: Case<'_>,
    choice: Choice,
    names: &[u8],
    nets: u32,
    want: &[u8],
) -> Result<(), Fail> {
    let report = Report {
        nets,
        horizon: case.settings.horizon,
        written: want.len() as u64,
    };
    for how in modes() {
        let (told, text) = run_measure(alloc, case, how, choice, names, 1000)?;
        same(rt, (told, text.as_slice() == want), (Ok(report), true));
    }
    Ok(())
}

const LISTED: Choice = Choice::Only(Pick::Listed);

const OUTPUTS: Choice = Choice::Only(Pick::Outputs);

const WHOLE: &[u8] =
    b"net,changes,low,high,unknown\na,1,5,7,0\nq,1,7,5,0\ny,2,4,7,1\n\"n\"\"\",2,7,3,2\n";

#[test]
fn table_of_all_nets(rt: HostRuntime) -> Result<(), Fail> {
    let alloc = rt.alloc();
    tells(&rt, alloc, sampled(), Choice::All, b"no net", 4, WHOLE)?;
    let list = b"n\" y q a";
    tells(&rt, alloc, sampled(), LISTED, list, 4, WHOLE)
}

#[test]
fn table_of_chosen_nets(rt: HostRuntime) -> Result<(), Fail> {
    let alloc = rt.alloc();
    let two = b"net,changes,low,high,unknown\na,1,5,7,0\ny,2,4,7,1\n";
    tells(&rt, alloc, sampled(), LISTED, b"y\na\ny # twice\n", 4, two)?;
    let none = b"net,changes,low,high,unknown\n";
    tells(&rt, alloc, sampled(), LISTED, b"# none\n", 4, none)?;
    let output = b"net,changes,low,high,unknown\nq,1,7,5,0\n";
    tells(&rt, alloc, sampled(), OUTPUTS, b"no net", 4, output)
}

// A flip-flop that is fed its own value, inverted, and samples every fourth tick: it changes at 3, 7 and so on up to
// 199, and its inverter a tick later each time, and at tick 1.
#[test]
fn table_of_many_windows(rt: HostRuntime) -> Result<(), Fail> {
    let case = clocked(bench_case(b"q = DFF(d)\nd = NOT(q)\n", 203), 2, 4);
    let want = b"net,changes,low,high,unknown\nq,50,103,100,0\nd,51,100,102,1\n";
    tells(&rt, rt.alloc(), case, Choice::All, b"", 2, want)
}

// Run so, the answer is this fault at this place, and nothing is written.
fn measure_refused(
    rt: &impl Abort,
    alloc: Global,
    case: Case<'_>,
    how: How,
    names: &[u8],
    want: (u32, u64),
) -> Result<(), Fail> {
    let (told, text) = run_measure(alloc, case, how, LISTED, names, 1000)?;
    same(rt, told, Err(want));
    holds(rt, text.is_empty());
    Ok(())
}

#[test]
fn refused_tables(rt: HostRuntime) -> Result<(), Fail> {
    let alloc = rt.alloc();
    for how in modes() {
        measure_refused(&rt, alloc, sampled(), how, b"a\n# b\ny v\n", (38, 3))?;
        // The netlist's faults come first.
        let undriven = bench_case(b"y = NOT(a)", 10);
        measure_refused(&rt, alloc, undriven, how, b"v", (6, 1))?;
    }
    // The list's fault comes before the mode's.
    let large = bench_case(SEVENTEEN.as_bytes(), 1_000_000);
    measure_refused(&rt, alloc, large, PLAIN, b"v", (38, 1))?;
    measure_refused(&rt, alloc, large, PLAIN, b"a1", (33, 0))
}

#[test]
fn each_write_of_a_table_fails(rt: HostRuntime) -> Result<(), Fail> {
    let alloc = rt.alloc();
    let text = str::from_utf8(WHOLE).unwrap_or("");
    for room in 0..=text.len() {
        let outcome = run_measure(alloc, sampled(), PLAIN, Choice::All, b"", room)?;
        takes(&rt, outcome, text, room);
    }
    Ok(())
}
