//! Texts of whole runs.

use crate::cases::{Case, PLAIN, bench_case, clocked, run, writes};
use crate::checks::{holds, same};
use std::test::Fail;

const INVERTER: &str = "INPUT(a) OUTPUT(y) y = NOT(a)";

const TOGGLE: &str = "q = DFF(d) d = NOT(q)";

const PULSE: &str = "INPUT(a) b = NOT(a) y = AND(a, b)";

const LATCH: &str = "INPUT(r) INPUT(s) nq = NOR(s, q) q = NOR(r, nq)";

const TWO_FLOPS: &str = "INPUT(a) p = DFF(a) q = DFF(p)";

/// The inverter with its stimuli.
pub fn inverter<'a>() -> Case<'a> {
    Case {
        stimuli: "0,a,0 5,a,1",
        ..bench_case(INVERTER.as_bytes(), 10)
    }
}

/// A flip-flop that is fed its own value, inverted, without a clock.
pub fn toggle<'a>() -> Case<'a> {
    bench_case(TOGGLE.as_bytes(), 12)
}

/// A pulse of one tick at each rise of its input.
pub fn pulse<'a>() -> Case<'a> {
    Case {
        stimuli: "0,a,0 5,a,1",
        ..bench_case(PULSE.as_bytes(), 10)
    }
}

/// Two flip-flops in a row, without a clock.
pub fn two_flops<'a>() -> Case<'a> {
    Case {
        stimuli: "0,a,0 3,a,1",
        ..bench_case(TWO_FLOPS.as_bytes(), 12)
    }
}

#[test]
fn empty(rt: HostRuntime) -> Result<(), Fail> {
    let (_, text) = run(&rt, bench_case(b"", 1), PLAIN)?;
    same(&rt, text.len(), 123);
    writes(&rt, bench_case(b"", 1), "", "#0 #1")
}

#[test]
fn inverter_text(rt: HostRuntime) -> Result<(), Fail> {
    same(&rt, run(&rt, inverter(), PLAIN)?.1.len(), 190);
    writes(&rt, inverter(), "a y", "#0 0! x\" #1 1\" #5 1! #6 0\" #10")
}

#[test]
fn toggle_text(rt: HostRuntime) -> Result<(), Fail> {
    let body = "#0 0! x\" #1 1\" #3 1! #4 0\" #7 0! #8 1\" #11 1! #12";
    writes(&rt, clocked(toggle(), 2, 4), "q d", body)
}

#[test]
fn pulse_text(rt: HostRuntime) -> Result<(), Fail> {
    let body = "#0 0! x\" x# #1 1\" 0# #5 1! #6 0\" 1# #7 0# #10";
    writes(&rt, pulse(), "a b y", body)
}

#[test]
fn latch(rt: HostRuntime) -> Result<(), Fail> {
    let latch = Case {
        stimuli: "0,r,1 0,s,0 5,r,0 8,s,1",
        ..bench_case(LATCH.as_bytes(), 12)
    };
    let body = "#0 1! 0\" x# x$ #1 0$ #2 1# #5 0! #8 1\" #9 0# #10 1$ #12";
    writes(&rt, latch, "r s nq q", body)
}

#[test]
fn spelling(rt: HostRuntime) -> Result<(), Fail> {
    let bench =
        b"INPUT(a)\r\ninput(b) # caf\xE9\r\nOUTPUT(y)\r\nOUTPUT(y)\r\ny = nand(a,\r\n b)\r\nz = BUF(y)\r\n";
    let spelling = Case {
        stimuli: "0,a,1 0,b,1",
        ..bench_case(bench.as_slice(), 3)
    };
    writes(&rt, spelling, "a b y z", "#0 1! 1\" x# x$ #1 0# #2 0$ #3")
}

#[test]
fn references(rt: HostRuntime) -> Result<(), Fail> {
    let alloc = rt.alloc();
    writes(
        &rt,
        bench_case(b"INPUT(10) INPUT(G17)", 1),
        "\\10 G17",
        "#0 x! x\" #1",
    )?;
    let mut bench = String::new(alloc);
    for net in 0..96u32 {
        write!(bench, "INPUT(n{net})\n")?;
    }
    let (told, text) = run(&rt, bench_case(bench.as_bytes(), 1), PLAIN)?;
    holds(&rt, told.is_ok_and(|report| report.nets == 96));
    let lines =
        b"$var wire 1 ~ n93 $end\n$var wire 1 !! n94 $end\n$var wire 1 \"! n95 $end\n$upscope $end\n";
    let found = text
        .as_slice()
        .windows(lines.len())
        .any(|window| window == lines.as_slice());
    holds(&rt, found);
    Ok(())
}

const USUAL: &str = "# t1
# 1 inputs
# 1 outputs

INPUT(G0)

OUTPUT(G3)

G1 = DFF(G2)

G2 = NOR(G0, G1)
G3 = NOT(G1)
";

#[test]
fn usual_layout(rt: HostRuntime) -> Result<(), Fail> {
    let usual = Case {
        delays: "kind,DFF,2 net,G3,3",
        stimuli: "0,G0,0",
        ..bench_case(USUAL.as_bytes(), 12)
    };
    let body = "#0 0! 0\" x# x$ #1 1# #3 1$ #5 1\" #6 0# #8 0$ #10 0\" #11 1# #12";
    writes(&rt, clocked(usual, 3, 5), "G0 G1 G2 G3", body)
}
