//! Simulations of which chosen nets are written.

ghost use Rattle.std.specs.Prelude.{◌≡◌};

use crate::cases::{Case, How, PLAIN, Told, asked, bench_case, clocked, modes, table, takes, told};
use crate::checks::{holds, same};
use crate::drips::{Drip, dripping};
use crate::ends::SEVENTEEN;
use cmb_sim::{Choice, FromBytes, Limited, Pick, Report, Request, simulate_chosen};
use std::alloc::AllocError;
use std::process::Abort;
use std::sync::Wait;
use std::test::Fail;
use std::thread::Threads;
use worked_designs::text_of;

// An input, two gates in a row, and a gate that nobody chooses. With delays of one tick `y` is x at tick 0, 1 from
// tick 1 on and 0 from tick 6 on, and `z` is a tick behind it.
fn row() -> Case<'static> {
    Case {
        stimuli: "0,a,0 5,a,1",
        ..bench_case(
            b"INPUT(a) OUTPUT(z)\ny = NOT(a)\nz = BUFF(y)\nw = NOT(z)\n",
            10,
        )
    }
}

// Simulates with a list and a sink that takes so many bytes, and gives the answer and what was written.
fn run_chosen<R: AllocGlobal + Threads + Wait + Sync>(
    rt: &R,
    case: Case<'_>,
    how: How,
    choice: Choice,
    list: &mut Drip<'_>,
    room: usize,
) -> Result<(Told, Vec<u8>), AllocError>
    requires { list.old.failures ≡ 0 }
{
    let stimuli = table(rt.alloc(), "tick,net,value", case.stimuli)?;
    let initial = table(rt.alloc(), "net,value", case.initial)?;
    let mut out = Limited::new(rt.alloc(), room);
    let answer = simulate_chosen(
        rt,
        &mut FromBytes::new(case.bench),
        &mut None::<FromBytes<'_>>,
        &mut FromBytes::new(stimuli.as_bytes()),
        &mut None::<FromBytes<'_>>,
        &mut FromBytes::new(initial.as_bytes()),
        list,
        Request {
            choice,
            ..asked(case.settings, how)
        },
        &mut out,
    );
    Ok((told(&answer), out.bytes))
}

// Two bits of a bus, a net, and a bit of a bus with that net's name. With delays of one tick `b[0]` is x at tick 0, and
// then 1.
fn buses() -> Case<'static> {
    Case {
        stimuli: "0,a[0],0 3,b,1 5,a[1],1",
        ..bench_case(b"INPUT(a[0]) INPUT(a[1]) INPUT(b)\nb[0] = NOT(a[0])\n", 10)
    }
}

// In every mode the text of the chosen nets of the row is that of these references and this body.
fn shows<R: AllocGlobal + Abort + Threads + Wait + Sync>(
    rt: &R,
    choice: Choice,
    names: &[u8],
    references: &str,
    body: &str,
) -> Result<(), Fail> {
    shows_of(rt, row(), choice, names, references, body)
}

// In every mode the text of the chosen nets of a case with four is that of these references and this body.
fn shows_of<R: AllocGlobal + Abort + Threads + Wait + Sync>(
    rt: &R,
    case: Case<'_>,
    choice: Choice,
    names: &[u8],
    references: &str,
    body: &str,
) -> Result<(), Fail> {
    let want = text_of(rt.alloc(), references, body)?;
    let report = Report {
        nets: 4,
        horizon: 10,
        written: want.len() as u64,
    };
    for how in modes() {
        let (told, text) = run_chosen(rt, case, how, choice, &mut dripping(names, 1000), 1000)?;
        same(rt, (body, text.as_slice() == want.as_bytes()), (body, true));
        same(rt, (body, told), (body, Ok(report)));
    }
    Ok(())
}

const LISTED: Choice = Choice::Only(Pick::Listed);

const OUTPUTS: Choice = Choice::Only(Pick::Outputs);

#[test]
fn listed_nets(rt: HostRuntime) -> Result<(), Fail> {
    let both = "#0 0! x\" #1 1\" #5 1! #6 0\" #10";
    shows(&rt, LISTED, b"y\na\ny # twice\n\n", "a y", both)?;
    shows(&rt, LISTED, b" a y", "a y", both)?;
    shows(&rt, LISTED, b"y", "y", "#0 x! #1 1! #6 0! #10")?;
    shows(&rt, LISTED, b"# none\n", "", "#0 #10")
}

#[test]
fn all_nets_listed(rt: HostRuntime) -> Result<(), Fail> {
    let all = "#0 0! x\" x# x$ #1 1\" #2 1# #3 0$ #5 1! #6 0\" #7 0# #8 1$ #10";
    shows(&rt, LISTED, b"w\nz\ny\na\n", "a y z w", all)?;
    shows(&rt, Choice::All, b"no net", "a y z w", all)
}

#[test]
fn buses_listed(rt: HostRuntime) -> Result<(), Fail> {
    let bits = "#0 0! x\" #5 1\" #10";
    shows_of(&rt, buses(), LISTED, b"a", "\\a[0] \\a[1]", bits)?;
    shows_of(
        &rt,
        buses(),
        LISTED,
        b"a[1]\na # twice\n",
        "\\a[0] \\a[1]",
        bits,
    )?;
    // A net of that name wins.
    shows_of(&rt, buses(), LISTED, b"b", "b", "#0 x! #3 1! #10")?;
    let all = "#0 0! x\" x# x$ #1 1$ #3 1# #5 1\" #10";
    shows_of(
        &rt,
        buses(),
        LISTED,
        b"b b[0] a",
        "\\a[0] \\a[1] b \\b[0]",
        all,
    )
}

#[test]
fn outputs_alone(rt: HostRuntime) -> Result<(), Fail> {
    let body = "#0 x! #2 1! #7 0! #10";
    shows(&rt, OUTPUTS, b"no net", "z", body)?;
    shows(&rt, LISTED, b"z", "z", body)
}

// A part has the first levels of its own flip-flops, and none of another one's.
#[test]
fn first_level_in_a_part(rt: HostRuntime) -> Result<(), Fail> {
    let bench = b"INPUT(a)\nr = DFF(r)\np = DFF(a)\nq = DFF(p)\n";
    let case = Case {
        stimuli: "0,a,0 3,a,1",
        initial: "r,1 q,1",
        ..clocked(bench_case(bench, 12), 2, 4)
    };
    let want = text_of(rt.alloc(), "q", "#0 1! #3 0! #11 1! #12")?;
    for how in modes() {
        let (_, text) = run_chosen(&rt, case, how, LISTED, &mut dripping(b"q", 1000), 1000)?;
        holds(&rt, text.as_slice() == want.as_bytes());
    }
    Ok(())
}

// In every mode a list is refused by this fault at this place, and nothing is written.
fn list_refused<R: AllocGlobal + Abort + Threads + Wait + Sync>(
    rt: &R,
    case: Case<'_>,
    names: &[u8],
    left: u32,
    want: (u32, u64),
) -> Result<(), Fail> {
    for how in modes() {
        let (told, text) = run_chosen(rt, case, how, LISTED, &mut dripping(names, left), 1000)?;
        same(rt, told, Err(want));
        holds(rt, text.is_empty());
    }
    Ok(())
}

#[test]
fn unknown_names(rt: HostRuntime) -> Result<(), Fail> {
    list_refused(&rt, row(), b"a\n# b\ny v\nu\n", 100, (38, 3))?;
    list_refused(&rt, row(), b"A", 100, (38, 1))?;
    list_refused(&rt, row(), b"a,y", 100, (38, 1))?;
    list_refused(&rt, buses(), b"a\na[\n", 100, (38, 2))?;
    list_refused(&rt, buses(), b"a\n\nc\n", 100, (38, 3))?;
    // The netlist's faults come first.
    list_refused(&rt, bench_case(b"y = NOT(a)", 10), b"v", 100, (6, 1))
}

// Mode plain has a table of all nets, whichever are chosen.
#[test]
fn table_is_too_large(rt: HostRuntime) -> Result<(), Fail> {
    let case = bench_case(SEVENTEEN.as_bytes(), 1_000_000);
    let (told, text) = run_chosen(&rt, case, PLAIN, LISTED, &mut dripping(b"a1", 100), 1000)?;
    same(&rt, told, Err((33, 0)));
    holds(&rt, text.is_empty());
    Ok(())
}

#[test]
fn each_read_of_a_list_fails(rt: HostRuntime) -> Result<(), Fail> {
    for left in 0..3u32 {
        list_refused(&rt, row(), b"y\n", left, (61, 5))?;
    }
    let mut names = dripping(b"y\n", 3);
    let (told, _) = run_chosen(&rt, row(), PLAIN, LISTED, &mut names, 1000)?;
    holds(&rt, told.is_ok());
    Ok(())
}

// A sink that takes so many bytes of the text of `y`.
fn takes_chosen<R: AllocGlobal + Abort + Threads + Wait + Sync>(
    rt: &R,
    how: How,
    text: &str,
    room: usize,
) -> Result<(), Fail> {
    let outcome = run_chosen(rt, row(), how, LISTED, &mut dripping(b"y", 100), room)?;
    takes(rt, outcome, text, room);
    Ok(())
}

#[test]
fn each_write_of_chosen_nets_fails(rt: HostRuntime) -> Result<(), Fail> {
    let text = text_of(rt.alloc(), "y", "#0 x! #1 1! #6 0! #10")?;
    for room in 0..=text.len() {
        takes_chosen(&rt, PLAIN, text.as_str(), room)?;
    }
    for how in modes() {
        takes_chosen(&rt, how, text.as_str(), 17)?;
    }
    Ok(())
}
