//! Tables as texts: laid out in odd ways, with far ticks, cut short and damaged at every byte.

use crate::checks::{holds, same};
use cmb_design_model::{ClockRow, InitialRow, Settings};
use cmb_design_tables::{read_clocks, read_initial};
use cmb_wave::Level;
use std::alloc::{AllocError, Global};
use std::test::Fail;
use worked_designs::{Inputs, judged_design};

const BENCH: &[u8] = b"INPUT(G0)\nG1 = DFF(G2)\nG2 = NOR(G0, G1)\nG3 = NOT(G1)\n";

const DELAYS: &[u8] = b"by,name,delay\nkind,DFF,2\nnet,G3,3\n";

const STIMULI: &[u8] = b"tick,net,value\n0,G0,0\n";

const SETTINGS: Settings = Settings {
    horizon: 12,
    clock: Some((3, 5)),
    init: Level::Zero,
};

// The number and the record of the fault, or 0 and 0 where there is a design.
fn outcome(alloc: Global, delays: &[u8], stimuli: &[u8]) -> Result<(u32, u32), Fail> {
    let texts = Inputs {
        netlist: BENCH,
        delays,
        stimuli,
        clocks: b"",
        initial: b"",
    };
    match judged_design(alloc, texts, SETTINGS)?.err() {
        None => Ok((0, 0)),
        Some(fault) => Ok((fault.number(), fault.record())),
    }
}

// What the first n bytes of the delays give.
fn of_delays(n: usize) -> (u32, u32) {
    match n {
        0 | 13 | 14 | 24 | 25 | 33 | 34 => (0, 0),
        1..=12 => (23, 1),
        23 => (25, 2),
        32 => (25, 3),
        15..=22 => (24, 2),
        _ => (24, 3),
    }
}

// What the first n bytes of the stimuli give.
fn of_stimuli(n: usize) -> (u32, u32) {
    match n {
        0 | 14 | 15 | 21 | 22 => (0, 0),
        1..=13 => (23, 1),
        20 => (31, 2),
        _ => (24, 2),
    }
}

#[test]
fn cut_tables(rt: HostRuntime) -> Result<(), Fail> {
    for n in 0..=DELAYS.len() {
        let found = outcome(rt.alloc(), &DELAYS[..n], STIMULI)?;
        same(&rt, (n, found), (n, of_delays(n)));
    }
    for n in 0..=STIMULI.len() {
        let found = outcome(rt.alloc(), DELAYS, &STIMULI[..n])?;
        same(&rt, (n, found), (n, of_stimuli(n)));
    }
    Ok(())
}

// A design, or a fault of a record of a table.
fn is_of_record((number, record): (u32, u32)) -> bool {
    number == 0 || record >= 1 && number >= 23 && number <= 37 && number != 33
}

// The text with another byte at a place.
fn damaged(alloc: Global, text: &[u8], at: usize, value: u8) -> Result<Vec<u8>, AllocError> {
    let mut text = Vec::from_slice(alloc, text)?;
    if at < text.len() {
        text[at] = value;
    }
    Ok(text)
}

#[test]
fn damaged_delays(rt: HostRuntime) -> Result<(), Fail> {
    for (at, value, want) in [
        (0, b'B', (23, 1)),
        (14, b'"', (24, 2)),
        (19, b'X', (27, 2)),
        (23, b'0', (28, 2)),
        (23, b'-', (25, 2)),
        (30, b'0', (32, 3)),
        (30, b'9', (26, 3)),
    ] {
        let text = damaged(rt.alloc(), DELAYS, at, value)?;
        same(
            &rt,
            (at, value, outcome(rt.alloc(), &text, STIMULI)?),
            (at, value, want),
        );
    }
    for at in 0..DELAYS.len() {
        for value in 0..=255 {
            let text = damaged(rt.alloc(), DELAYS, at, value)?;
            let found = outcome(rt.alloc(), &text, STIMULI)?;
            same(&rt, (at, value, is_of_record(found)), (at, value, true));
        }
    }
    Ok(())
}

#[test]
fn damaged_stimuli(rt: HostRuntime) -> Result<(), Fail> {
    for (at, value, want) in [
        (14, b',', (23, 1)),
        (15, b'x', (25, 2)),
        (18, b'1', (30, 2)),
        (18, b'9', (26, 2)),
        (20, b'2', (31, 2)),
        (20, b'X', (0, 0)),
    ] {
        let text = damaged(rt.alloc(), STIMULI, at, value)?;
        same(
            &rt,
            (at, value, outcome(rt.alloc(), DELAYS, &text)?),
            (at, value, want),
        );
    }
    for at in 0..STIMULI.len() {
        for value in 0..=255 {
            let text = damaged(rt.alloc(), STIMULI, at, value)?;
            let found = outcome(rt.alloc(), DELAYS, &text)?;
            same(&rt, (at, value, is_of_record(found)), (at, value, true));
        }
    }
    Ok(())
}

#[test]
fn layouts(rt: HostRuntime) -> Result<(), Fail> {
    for (delays, want) in [
        ("\r\n\n", (0, 0)),
        ("\"\"", (23, 1)),
        (
            "by ,\"name\",\tdelay\r\n net,\"G3\" ,0000000007\r\n",
            (0, 0),
        ),
        ("by,name,delay\nnet,G3,00000000007", (25, 2)),
        ("by,name,delay\nkind,buf,2\nkind,BUFF,3", (29, 3)),
        ("by,name,delay\npin,G2:1:2,3", (26, 2)),
        ("by,name,delay\nnet,G9,3\nnet,G3,1000001", (28, 3)),
    ] {
        let found = outcome(rt.alloc(), delays.as_bytes(), b"")?;
        same(&rt, (delays, found), (delays, want));
    }
    Ok(())
}

#[test]
fn ticks_of_10_digits(rt: HostRuntime) -> Result<(), Fail> {
    for (stimuli, want) in [
        ("tick,net,value\n1,G0,0\n4294967297,G0,1", (0, 0)),
        ("tick,net,value\n9999999999,G0,0\n9999999999,G0,1", (29, 3)),
        ("tick,net,value\n10000000000,G0,0", (25, 2)),
    ] {
        let found = outcome(rt.alloc(), b"", stimuli.as_bytes())?;
        same(&rt, (stimuli, found), (stimuli, want));
    }
    Ok(())
}

// Whether a row is about this net, with this first sample tick and this period.
fn is_row(row: &ClockRow, net: &[u8], first: u32, period: u32) -> bool {
    row.net.as_bytes() == net && row.first == first && row.period == period
}

// Whether a table of two clocks has the rows that its records say, in their order.
fn are_in_order(alloc: Global) -> bool {
    match read_clocks(alloc, b"net,first,period\nG3,4,10\nG1,2,3\n") {
        Ok(rows) => match rows.as_slice() {
            [one, other] => is_row(one, b"G3", 4, 10) && is_row(other, b"G1", 2, 3),
            _ => false,
        },
        Err(_) => false,
    }
}

// Whether a row is about this net, with this level.
fn is_level(row: &InitialRow, net: &[u8], level: Level) -> bool {
    row.net.as_bytes() == net && row.level == level
}

// Whether a table of two first levels has the rows that its records say, in their order.
fn levels_are_in_order(alloc: Global) -> bool {
    match read_initial(alloc, b"net,value\nG3,X\nG1,1\n") {
        Ok(rows) => match rows.as_slice() {
            [one, other] => { is_level(one, b"G3", Level::X) && is_level(other, b"G1", Level::One) }
            _ => false,
        },
        Err(_) => false,
    }
}

#[test]
fn rows_as_they_were_read(rt: HostRuntime) {
    holds(&rt, are_in_order(rt.alloc()));
    holds(&rt, levels_are_in_order(rt.alloc()));
}
