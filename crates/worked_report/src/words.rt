//! What `--explain` says.

use crate::carried::{Inputs, carried};
use crate::checks::{contains, same};
use cmb_report::done_words;
use cmb_sim::{Done, Fault, Report};
use std::process::Abort;
use std::sync::Wait;
use std::test::Fail;
use std::thread::Threads;

// The number of a fault and its place, or twice 0 where there is none.
fn fault_of(answer: &Result<Done, Fault>) -> (u32, u64) {
    match answer {
        Ok(_) => (0, 0),
        Err(fault) => (fault.number(), fault.place()),
    }
}

// A line has this fault at this place and this text, and nothing is written.
fn is_told<R: AllocGlobal + Abort + Threads + Wait + Sync>(
    rt: &R,
    clock: &HostRuntime,
    line: &str,
    inputs: Inputs<'_>,
    want: (u32, u64, &str),
) -> Result<(), Fail> {
    let outcome = carried(rt, clock, line, inputs)?;
    let (number, place, words) = want;
    same(rt, fault_of(&outcome.answer), (number, place));
    same(rt, outcome.words.as_str(), words);
    same(rt, outcome.text.len(), 0);
    Ok(())
}

const FLOP: Inputs<'static> = Inputs {
    bench: b"INPUT(a)\ny = AND(a, q)\nq = DFF(y)\n",
    delays: b"",
    stimuli: b"",
    clocks: b"",
    initial: b"",
    expected: b"",
};

#[test]
fn netlists(rt: HostRuntime) -> Result<(), Fail> {
    let undriven = Inputs {
        bench: b"INPUT(a)\ny = NOT(b)\n",
        ..FLOP
    };
    let line = "run --horizon 10 --explain";
    let words = "cmbsim: the netlist, line 2: not driven: b, in y = NOT(b)\n";
    is_told(&rt, &rt, line, undriven, (6, 2, words))?;
    let words = "cmbsim: a flip-flop has no clock row, and there is no common clock: q\n";
    is_told(&rt, &rt, line, FLOP, (22, 0, words))
}

#[test]
fn tables(rt: HostRuntime) -> Result<(), Fail> {
    let stimuli = Inputs {
        stimuli: b"tick,net,value\n\n0,a,0\n5,A,1\n",
        ..FLOP
    };
    let line = "check --horizon 10 --clock 2:4 --explain --stimuli in.csv --delays wait.csv";
    let words = "cmbsim: in.csv, line 4: the netlist hasn't this net: A\n";
    is_told(&rt, &rt, line, stimuli, (26, 3, words))?;
    let delays = Inputs {
        delays: b"by;name;delay\nnet;y;2\n",
        ..stimuli
    };
    let words =
        "cmbsim: wait.csv, line 1: not the table's header: by;name;delay; it has to be by,name,delay\n";
    is_told(&rt, &rt, line, delays, (23, 1, words))
}

#[test]
fn first_levels(rt: HostRuntime) -> Result<(), Fail> {
    let line = "run --horizon 10 --clock 2:4 --explain --initial first.csv";
    let other = Inputs {
        initial: b"net,value\nq,1\ny,0\n",
        ..FLOP
    };
    let words = "cmbsim: first.csv, line 3: the net isn't driven by a flip-flop: y\n";
    is_told(&rt, &rt, line, other, (37, 3, words))?;
    let level = Inputs {
        initial: b"net,value\nq,2\n",
        ..FLOP
    };
    let words = "cmbsim: first.csv, line 2: a value is 0, 1, x or X: 2\n";
    is_told(&rt, &rt, line, level, (31, 2, words))
}

// A line of `expect` with this table has this fault at this place, and these words.
fn is_told_of<R: AllocGlobal + Abort + Threads + Wait + Sync>(
    rt: &R,
    clock: &HostRuntime,
    expected: &[u8],
    want: (u32, u64, &str),
) -> Result<(), Fail> {
    let line = "expect --horizon 10 --clock 2:4 --explain --expected want.csv";
    is_told(rt, clock, line, Inputs { expected, ..FLOP }, want)
}

#[test]
fn expectations(rt: HostRuntime) -> Result<(), Fail> {
    let words = "cmbsim: want.csv, line 3: the tick isn't below the horizon: 10\n";
    let late = b"tick,net,value\n9,y,x\n10,y,x\n";
    is_told_of(&rt, &rt, late, (39, 3, words))?;
    let words = "cmbsim: want.csv, line 2: the netlist hasn't this net: z\n";
    is_told_of(&rt, &rt, b"tick,net,value\n9,z,x\n", (26, 2, words))?;
    let words = "cmbsim: want.csv, line 2: a value is 0, 1, x or X: 2\n";
    is_told_of(&rt, &rt, b"tick,net,value\n9,y,2\n", (31, 2, words))
}

#[test]
fn expectation_that_is_not_met(rt: HostRuntime) -> Result<(), Fail> {
    let line = "expect --horizon 10 --clock 2:4 --expected want.csv";
    let inputs = Inputs {
        expected: b"tick,net,value\n9,y,1\n9,a,x\n",
        ..FLOP
    };
    let outcome = carried(&rt, &rt, line, inputs)?;
    same(&rt, fault_of(&outcome.answer), (0, 0));
    let text = b"tick,net,expected,value\n9,y,1,x\n";
    same(&rt, outcome.text.as_slice() == text.as_slice(), true);
    Ok(())
}

// The declarations by hand: a net of a module, and a bit of a bus.
#[test]
fn text_with_scopes(rt: HostRuntime) -> Result<(), Fail> {
    let line = "run --horizon 2 --scopes --stimuli in.csv --stats";
    let inputs = Inputs {
        bench: b"INPUT(led[0])\ncpu.q = BUFF(led[0])\n",
        stimuli: b"tick,net,value\n0,led[0],1\n",
        ..FLOP
    };
    let outcome = carried(&rt, &rt, line, inputs)?;
    same(&rt, fault_of(&outcome.answer), (0, 0));
    let text = b"$version cmbsim 1 $end\n$timescale 1 ns $end\n$scope module top $end\n\
        $var wire 1 ! led [0] $end\n$scope module cpu $end\n$var wire 1 \" q $end\n$upscope $end\n\
        $upscope $end\n$enddefinitions $end\n#0\n$dumpvars\n1!\nx\"\n$end\n#1\n1\"\n#2\n";
    same(&rt, outcome.text.as_slice() == text.as_slice(), true);
    same(&rt, (outcome.so_far.tick, outcome.so_far.changes), (2, 3));
    Ok(())
}

// A table that went to another's option, with the header that it has and that it should have.
#[test]
fn swapped_tables(rt: HostRuntime) -> Result<(), Fail> {
    let line = "run --horizon 10 --clock 2:4 --explain --delays in.csv";
    let swapped = Inputs {
        delays: b"tick,net,value\n0,a,1\n",
        ..FLOP
    };
    let words =
        "cmbsim: in.csv, line 1: not the table's header: tick,net,value, as stimuli have it; it has to be \
        by,name,delay\n";
    is_told(&rt, &rt, line, swapped, (23, 1, words))
}

// A word that is no kind, in a netlist and in a table. NADN becomes NAND by two letters, and NANT by one.
#[test]
fn kinds(rt: HostRuntime) -> Result<(), Fail> {
    let line = "run --horizon 10 --clock 2:4 --explain --delays wait.csv";
    let misspelled = Inputs {
        bench: b"INPUT(a)\ny = nadn(a)\n",
        ..FLOP
    };
    let words =
        "cmbsim: the netlist, line 2: not a kind: y = nadn(a); nadn is nearest to NAND, and the kinds are \
        AND, NAND, OR, NOR, XOR, XNOR, NOT, BUFF (or BUF) and DFF\n";
    is_told(&rt, &rt, line, misspelled, (3, 2, words))?;
    let constant = Inputs {
        bench: b"k = vdd\n",
        ..FLOP
    };
    let words = "cmbsim: the netlist, line 1: not a kind: k = vdd; the kinds are \
        AND, NAND, OR, NOR, XOR, XNOR, NOT, BUFF (or BUF) and DFF\n";
    is_told(&rt, &rt, line, constant, (3, 1, words))?;
    let delays = Inputs {
        delays: b"by,name,delay\nkind,NANT,3\n",
        ..FLOP
    };
    let words =
        "cmbsim: wait.csv, line 2: no such kind: kind,NANT,3; NANT is nearest to NAND, and the kinds are \
        AND, NAND, OR, NOR, XOR, XNOR, NOT, BUFF (or BUF) and DFF\n";
    is_told(&rt, &rt, line, delays, (27, 2, words))?;
    let delays = Inputs {
        delays: b"by,name,delay\ngate,y,3\n",
        ..FLOP
    };
    let words =
        "cmbsim: wait.csv, line 2: no such kind: gate,y,3; a row of delays begins with kind, net or pin\n";
    is_told(&rt, &rt, line, delays, (27, 2, words))
}

// A stimulus of this net, which the netlist hasn't, and how the net is shown.
fn is_shown<R: AllocGlobal + Abort + Threads + Wait + Sync>(
    rt: &R,
    clock: &HostRuntime,
    stimuli: &[u8],
    words: &str,
) -> Result<(), Fail> {
    let line = "run --horizon 10 --clock 2:4 --explain --stimuli in.csv";
    let inputs = Inputs { stimuli, ..FLOP };
    is_told(rt, clock, line, inputs, (26, 2, words))
}

// A quote, a backslash and a letter with an accent stand as they are; a control and a byte that isn't UTF-8 don't.
#[test]
fn names(rt: HostRuntime) -> Result<(), Fail> {
    let words = "cmbsim: in.csv, line 2: the netlist hasn't this net: it's\\a\n";
    is_shown(&rt, &rt, b"tick,net,value\n5,it's\\a,1\n", words)?;
    let words = "cmbsim: in.csv, line 2: the netlist hasn't this net: \u{e9}\n";
    is_shown(&rt, &rt, b"tick,net,value\n5,\xc3\xa9,1\n", words)?;
    let words = "cmbsim: in.csv, line 2: the netlist hasn't this net: \\u{1b}[2J\n";
    is_shown(&rt, &rt, b"tick,net,value\n5,\x1b[2J,1\n", words)?;
    let words = "cmbsim: in.csv, line 2: the netlist hasn't this net: a\\xff\n";
    is_shown(&rt, &rt, b"tick,net,value\n5,a\xff,1\n", words)
}

// A line that is done, and what is said of it.
fn is_noted<R: AllocGlobal + Abort + Threads + Wait + Sync>(
    rt: &R,
    clock: &HostRuntime,
    line: &str,
    inputs: Inputs<'_>,
    words: &str,
) -> Result<(), Fail> {
    let outcome = carried(rt, clock, line, inputs)?;
    same(rt, fault_of(&outcome.answer), (0, 0));
    same(rt, outcome.words.as_str(), words);
    Ok(())
}

// From q its sample comes to y, the data of q, after 1 tick of the flip-flop and 1 of the gate.
#[test]
fn clocks_that_are_too_short(rt: HostRuntime) -> Result<(), Fail> {
    let inputs = Inputs {
        stimuli: b"tick,net,value\n0,a,1\n",
        ..FLOP
    };
    let line = "run --horizon 10 --clock 2:1 --explain";
    let words = "cmbsim: a sample takes up to 2 ticks to the data y, and the clock's period is 1\n";
    is_noted(&rt, &rt, line, inputs, words)?;
    let line = "run --horizon 10 --clock 2:2 --explain";
    is_noted(&rt, &rt, line, inputs, "")?;
    is_noted(&rt, &rt, "run --horizon 10 --clock 2:1", inputs, "")
}

// The stimuli have no level of a, and one of c that comes after the run.
#[test]
fn inputs_without_stimuli(rt: HostRuntime) -> Result<(), Fail> {
    let inputs = Inputs {
        bench: b"INPUT(a)\nINPUT(b)\nINPUT(c)\ny = AND(a, b, c)\n",
        stimuli: b"tick,net,value\n0,b,1\n10,c,1\n",
        ..FLOP
    };
    let line = "run --horizon 10 --explain";
    let words =
        "cmbsim: the input a and 1 more are x at all ticks, since no rows of the stimuli give them levels\n";
    is_noted(&rt, &rt, line, inputs, words)?;
    let words =
        "cmbsim: the input a is x at all ticks, since no row of the stimuli gives it a level\n";
    is_noted(&rt, &rt, "run --horizon 11 --explain", inputs, words)?;
    is_noted(&rt, &rt, "run --horizon 10", inputs, "")
}

#[test]
fn netlists_without_nets(rt: HostRuntime) -> Result<(), Fail> {
    let done = Done::Ran(Report {
        nets: 0,
        horizon: 10,
        written: 100,
    });
    contains(&rt, done_words(&done, false), "the netlist has no nets");
    contains(&rt, done_words(&done, true), "read from the terminal");
    let done = Done::Ran(Report {
        nets: 1,
        horizon: 10,
        written: 100,
    });
    same(&rt, done_words(&done, true), "");
    Ok(())
}
