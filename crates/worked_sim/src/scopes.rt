//! Simulations whose texts have scopes: modules, the bits of a bus, and a name with an empty part.

use crate::cases::{Case, How, PLAIN, Told, asked, bench_case, modes, table, takes, told};
use crate::checks::same;
use cmb_sim::{Choice, FromBytes, Limited, Pick, Report, Request, simulate_chosen};
use std::alloc::AllocError;
use std::process::Abort;
use std::sync::Wait;
use std::test::Fail;
use std::thread::Threads;
use worked_designs::text_of;

// With delays of one tick `led[1]` is x at tick 0, and from then on what `led[0]` wasn't a tick before. `a.b` is a tick
// behind `top.u.q`, and `x..y` a tick behind the inverse of that.
fn named() -> Case<'static> {
    Case {
        stimuli: "0,top.u.q,0 0,led[0],0 3,top.u.q,1 5,led[0],1",
        ..bench_case(
            b"INPUT(top.u.q) INPUT(led[0])\nled[1] = NOT(led[0])\na.b = BUFF(top.u.q)\n\
            x..y = NOT(a.b)\n",
            10,
        )
    }
}

// By hand: in a scope its nets by number, and then its scopes in the order of their first nets.
const ALL_NETS: &str = "\
$version cmbsim 1 $end
$timescale 1 ns $end
$scope module top $end
$var wire 1 \" led [0] $end
$var wire 1 # led [1] $end
$var wire 1 % \\x..y $end
$scope module top $end
$scope module u $end
$var wire 1 ! q $end
$upscope $end
$upscope $end
$scope module a $end
$var wire 1 $ b $end
$upscope $end
$upscope $end
$enddefinitions $end
#0
$dumpvars
0!
0\"
x#
x$
x%
$end
#1
1#
0$
#2
1%
#3
1!
#4
1$
#5
1\"
0%
#6
0#
#10
";

// The nets `top.u.q`, `led[1]` and `x..y`, which have the codes of their places among them.
const CHOSEN_NETS: &str = "\
$version cmbsim 1 $end
$timescale 1 ns $end
$scope module top $end
$var wire 1 \" led [1] $end
$var wire 1 # \\x..y $end
$scope module top $end
$scope module u $end
$var wire 1 ! q $end
$upscope $end
$upscope $end
$upscope $end
$enddefinitions $end
#0
$dumpvars
0!
x\"
x#
$end
#1
1\"
#2
1#
#3
1!
#5
0#
#6
0\"
#10
";

const LISTED: Choice = Choice::Only(Pick::Listed);

// Simulates with scopes, with a list and a sink that takes so many bytes, and gives the answer and what was written.
fn run_scoped<R: AllocGlobal + Threads + Wait + Sync>(
    rt: &R,
    how: How,
    choice: Choice,
    names: &[u8],
    room: usize,
) -> Result<(Told, Vec<u8>), AllocError> {
    let case = named();
    let stimuli = table(rt.alloc(), "tick,net,value", case.stimuli)?;
    let mut out = Limited::new(rt.alloc(), room);
    let answer = simulate_chosen(
        rt,
        &mut FromBytes::new(case.bench),
        &mut FromBytes::new(&[]),
        &mut FromBytes::new(stimuli.as_bytes()),
        &mut FromBytes::new(&[]),
        &mut FromBytes::new(&[]),
        &mut FromBytes::new(names),
        Request {
            choice,
            scopes: true,
            ..asked(case.settings, how)
        },
        &mut out,
    );
    Ok((told(&answer), out.bytes))
}

// In every mode the text of these nets with scopes is this one, and the report tells its length.
fn shows<R: AllocGlobal + Abort + Threads + Wait + Sync>(
    rt: &R,
    choice: Choice,
    names: &[u8],
    want: &str,
) -> Result<(), Fail> {
    let report = Report {
        nets: 5,
        horizon: 10,
        written: want.len() as u64,
    };
    for how in modes() {
        let (told, text) = run_scoped(rt, how, choice, names, 2000)?;
        same(
            rt,
            (names, text.as_slice() == want.as_bytes()),
            (names, true),
        );
        same(rt, (names, told), (names, Ok(report)));
    }
    Ok(())
}

#[test]
fn all_nets(rt: HostRuntime) -> Result<(), Fail> {
    shows(&rt, Choice::All, b"no net", ALL_NETS)?;
    shows(&rt, LISTED, b"x..y led top.u.q a.b", ALL_NETS)
}

#[test]
fn chosen_nets(rt: HostRuntime) -> Result<(), Fail> {
    shows(&rt, LISTED, b"x..y\nled[1]\ntop.u.q\n", CHOSEN_NETS)?;
    // No statement names an output, so no net is declared.
    let none = text_of(rt.alloc(), "", "#0 #10")?;
    shows(&rt, Choice::Only(Pick::Outputs), b"", none.as_str())
}

// A sink that takes so many bytes of the text of these nets.
fn takes_scoped<R: AllocGlobal + Abort + Threads + Wait + Sync>(
    rt: &R,
    how: How,
    choice: Choice,
    text: &str,
    room: usize,
) -> Result<(), Fail> {
    let outcome = run_scoped(rt, how, choice, b"x..y led[1] top.u.q", room)?;
    takes(rt, outcome, text, room);
    Ok(())
}

// The declarations of the chosen nets have 247 bytes.
#[test]
fn each_write_fails(rt: HostRuntime) -> Result<(), Fail> {
    for room in 0..=CHOSEN_NETS.len() {
        takes_scoped(&rt, PLAIN, LISTED, CHOSEN_NETS, room)?;
    }
    for how in modes() {
        takes_scoped(&rt, how, Choice::All, ALL_NETS, 100)?;
        takes_scoped(&rt, how, Choice::All, ALL_NETS, 400)?;
    }
    Ok(())
}
