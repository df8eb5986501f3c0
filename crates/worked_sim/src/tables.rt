//! The tables of delays, stimuli, clocks and first levels.

use crate::cases::{Case, clocked, refuses, writes};
use crate::waves::{inverter, pulse, toggle, two_flops};
use cmb_sim::Settings;
use std::test::Fail;

#[test]
fn delay_rows(rt: HostRuntime) -> Result<(), Fail> {
    let zero = Case {
        delays: "kind,NOT,0",
        ..inverter()
    };
    refuses(&rt, zero, 28, 2)?;
    let late = Case {
        delays: "net,y,20",
        ..inverter()
    };
    writes(&rt, late, "a y", "#0 0! x\" #5 1! #10")
}

// The inverter with these stimuli.
fn stimulated(stimuli: &str) -> Case<'_> {
    Case {
        stimuli,
        ..inverter()
    }
}

#[test]
fn stimulus_rows(rt: HostRuntime) -> Result<(), Fail> {
    refuses(&rt, stimulated("0,a,0 0,a,1"), 29, 3)?;
    writes(
        &rt,
        stimulated("0,a,0 10,a,1"),
        "a y",
        "#0 0! x\" #1 1\" #10",
    )?;
    writes(
        &rt,
        stimulated("0,a,0 9,a,1"),
        "a y",
        "#0 0! x\" #1 1\" #9 1! #10",
    )
}

#[test]
fn pin_delays(rt: HostRuntime) -> Result<(), Fail> {
    let first = Case {
        delays: "pin,y:1,3",
        ..pulse()
    };
    writes(
        &rt,
        first,
        "a b y",
        "#0 0! x\" x# #1 1\" #3 0# #5 1! #6 0\" #10",
    )?;
    let second = Case {
        delays: "pin,y:2,3",
        ..pulse()
    };
    let body = "#0 0! x\" x# #1 1\" 0# #5 1! #6 0\" 1# #9 0# #10";
    writes(&rt, second, "a b y", body)
}

#[test]
fn wrong_pin_delays(rt: HostRuntime) -> Result<(), Fail> {
    for (delays, number, place) in [
        ("pin,y,3", 34, 2),
        ("pin,y:,3", 34, 2),
        ("pin,y:3,3", 35, 2),
        ("pin,y:0,3", 35, 2),
        ("pin,a:1,3", 32, 2),
        ("pin,:1,3", 26, 2),
        ("pin,y:2,3 pin,y:02,4", 29, 3),
    ] {
        let wrong = Case { delays, ..pulse() };
        refuses(&rt, wrong, number, place)?;
    }
    Ok(())
}

// The two flip-flops with these clock rows.
fn rows(clocks: &str) -> Case<'_> {
    Case {
        clocks,
        ..two_flops()
    }
}

#[test]
fn clock_rows(rt: HostRuntime) -> Result<(), Fail> {
    let body = "#0 0! 0\" 0# #3 1! #7 1\" #8 1# #12";
    writes(&rt, clocked(rows("q,4,3"), 2, 4), "a p q", body)?;
    let common = "#0 0! 0\" 0# #3 1! #7 1\" #11 1# #12";
    writes(&rt, clocked(rows(""), 2, 4), "a p q", common)?;
    let settings = Settings {
        clock: None,
        ..clocked(rows(""), 2, 4).settings
    };
    let own = Case {
        settings,
        ..rows("q,4,3 p,2,4")
    };
    writes(&rt, own, "a p q", body)
}

#[test]
fn wrong_clock_rows(rt: HostRuntime) -> Result<(), Fail> {
    refuses(&rt, rows("q,4,3"), 22, 0)?;
    for (clocks, number, place) in [
        ("q,0,0", 36, 2),
        ("a,2,4", 37, 2),
        ("z,1,1", 26, 2),
        ("q,4,3 q,4,3", 29, 3),
        ("q,4", 24, 2),
    ] {
        refuses(&rt, clocked(rows(clocks), 2, 4), number, place)?;
    }
    Ok(())
}

// The two flip-flops with these rows of first levels.
fn first_levels(initial: &str) -> Case<'_> {
    Case {
        initial,
        ..clocked(two_flops(), 2, 4)
    }
}

#[test]
fn first_level_rows(rt: HostRuntime) -> Result<(), Fail> {
    let one = Case {
        initial: "q,1",
        ..clocked(toggle(), 2, 4)
    };
    let body = "#0 1! x\" #1 0\" #3 0! #4 1\" #7 1! #8 0\" #11 0! #12";
    writes(&rt, one, "q d", body)?;
    let body = "#0 0! 0\" 1# #3 1! 0# #7 1\" #11 1# #12";
    writes(&rt, first_levels("q,1"), "a p q", body)?;
    let body = "#0 0! 1\" x# #3 1! 0\" 1# #7 1\" 0# #11 1# #12";
    writes(&rt, first_levels("q,x p,1"), "a p q", body)
}

#[test]
fn wrong_first_level_rows(rt: HostRuntime) -> Result<(), Fail> {
    for (initial, number, place) in [
        ("q", 24, 2),
        ("q,2", 31, 2),
        ("a,1", 37, 2),
        ("z,1", 26, 2),
        ("q,1 q,1", 29, 3),
        ("z,1 q,1,0", 24, 3),
    ] {
        refuses(&rt, first_levels(initial), number, place)?;
    }
    Ok(())
}

// Rows of clocks are checked before those of first levels, and behind the records of these.
#[test]
fn first_levels_behind_clocks(rt: HostRuntime) -> Result<(), Fail> {
    let unknown = Case {
        clocks: "a,2,4",
        ..first_levels("z,1")
    };
    refuses(&rt, unknown, 37, 2)?;
    let unread = Case {
        clocks: "a,2,4",
        ..first_levels("q,2")
    };
    refuses(&rt, unread, 31, 2)
}
