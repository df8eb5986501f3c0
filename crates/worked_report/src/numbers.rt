//! What `--progress` and `--stats` say.

use crate::carried::{Inputs, carried};
use crate::checks::{holds, same};
use cmb_report::{Stats, TextProgress, peak_of, processor_of, stats_text};
use std::test::Fail;
use std::time::Duration;

// a rises at tick 5, and y falls a tick later. y leaves x at tick 1, and there are two levels at tick 0.
const INVERTER: Inputs<'static> = Inputs {
    bench: b"INPUT(a)\ny = NOT(a)\n",
    delays: b"",
    stimuli: b"tick,net,value\n0,a,0\n5,a,1\n",
    clocks: b"",
    initial: b"",
    expected: b"",
};

#[test]
fn watched_text(rt: HostRuntime) -> Result<(), Fail> {
    let plain = carried(&rt, &rt, "run --horizon 10", INVERTER)?;
    holds(&rt, plain.answer.is_ok());
    holds(&rt, plain.screen.is_empty());
    same(&rt, plain.so_far, TextProgress::new());
    for mode in ["plain", "rounds", "free"] {
        let line = format!(in rt.alloc(); "run --horizon 10 --stats --progress --mode {mode}")?;
        let told = carried(&rt, &rt, line.as_str(), INVERTER)?;
        holds(&rt, told.answer.is_ok());
        same(
            &rt,
            (mode, told.text.as_slice() == plain.text.as_slice()),
            (mode, true),
        );
        same(
            &rt,
            (mode, told.so_far.bytes),
            (mode, plain.text.len() as u64),
        );
        same(
            &rt,
            (mode, (told.so_far.changes, told.so_far.tick)),
            (mode, (5, 10)),
        );
        holds(&rt, told.was_timed);
        same(
            &rt,
            (mode, told.screen.ends_with(b"\r\x1b[K")),
            (mode, true),
        );
    }
    Ok(())
}

#[test]
fn counts_and_empty_netlists(rt: HostRuntime) -> Result<(), Fail> {
    let counted = carried(&rt, &rt, "check --horizon 10", INVERTER)?;
    holds(&rt, counted.answer.is_ok());
    holds(
        &rt,
        counted
            .text
            .starts_with(b"       2  nets\n       1  inputs\n"),
    );
    holds(
        &rt,
        counted.text.ends_with(b"       0  rows of clocks\n       0  rows of first levels\n"),
    );
    holds(&rt, counted.words.is_empty());
    let none = Inputs {
        bench: b"",
        ..INVERTER
    };
    let none = Inputs {
        stimuli: b"",
        ..none
    };
    let told = carried(&rt, &rt, "check --horizon 10 --explain", none)?;
    holds(
        &rt,
        told.words.starts_with("cmbsim: the netlist has no nets"),
    );
    Ok(())
}

#[test]
fn text_of_numbers(rt: HostRuntime) -> Result<(), Fail> {
    let mut so_far = TextProgress::new();
    so_far.add(b"#0\n$dumpvars\n0!\nx\"\n$end\n#1");
    so_far.add(b"2\n1!\n#4000\n");
    same(
        &rt,
        (so_far.bytes, so_far.changes, so_far.tick),
        (37, 3, 4000),
    );
    let stats = Stats {
        nets: 2,
        ticks: 4000,
        so_far,
        reading: Duration::from_millis(7),
        writing: Duration::from_millis(1020),
        whole: Duration::from_millis(4030),
        processor: processor_of(b"123 (a) b (c) R 1 2 3 0 -1 4 99 0 0 0 250 31 7 8 20 0 4 0\n"),
        peak: peak_of(b"VmPeak:\t    9000 kB\nVmHWM:\t    2404 kB\n"),
    };
    let mut want = String::new(rt.alloc());
    for (number, what) in [
        ("2", "nets"),
        ("4000", "ticks"),
        ("3", "changes, with the levels at tick 0"),
        ("37", "bytes written"),
        ("0.007", "seconds until the inputs were read"),
        ("3.003", "seconds of making the design and simulating"),
        ("1.020", "seconds of writing"),
        ("2.810", "seconds of processor time, all threads together"),
        ("2404", "KB of memory at most"),
    ] {
        write!(want, "{number:>16}  {what}\n")?;
    }
    let text = stats_text(rt.alloc(), &stats)?;
    same(&rt, text.as_str(), want.as_str());
    Ok(())
}
