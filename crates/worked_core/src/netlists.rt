//! Netlists as texts: what they spell, and the first fault of damaged ones.

ghost use Rattle.std.specs.Prelude.{◌<◌, ◌≤◌, length};

use crate::checks::holds;
use cmb_bench::read_bench;
use cmb_netlist::{Cell, Driver, Kind, MAX_TEXT, Netlist, cell_named};
use std::alloc::{AllocError, Global};
use std::process::Abort;
use worked_designs::{has_gate, has_input, has_name};

// The number and the line of the fault, or 0 and 0 where the text has a netlist.
fn outcome(alloc: Global, text: &[u8]) -> (u32, u32)
    requires { length text.now ≤ MAX_TEXT }
{
    match read_bench(alloc, text) {
        Ok(_) => (0, 0),
        Err(fault) => (fault.number(), fault.line),
    }
}

fn netlist_of(rt: &impl Abort, alloc: Global, text: &[u8]) -> Netlist
    requires { length text.now ≤ MAX_TEXT }
{
    match read_bench(alloc, text) {
        Ok(netlist) => netlist,
        Err(_) => panic!(rt; "a fault was found"),
    }
}

#[test]
fn spelling(rt: HostRuntime) {
    let netlist = netlist_of(
        &rt,
        rt.alloc(),
        b"INPUT(a)\r\ninput(b) # caf\xe9\r\nOUTPUT(y)\r\nOUTPUT(y)\r\ny = nand(a,\r\n b)\r\nz = BUF(y)\r\n",
    );
    holds(&rt, netlist.len() == 4);
    holds(&rt, !netlist.is_empty());
    holds(&rt, netlist.outputs() == [2].as_slice());
    holds(&rt, has_name(&netlist, 0, b"a"));
    holds(&rt, has_name(&netlist, 1, b"b"));
    holds(&rt, has_name(&netlist, 2, b"y"));
    holds(&rt, has_name(&netlist, 3, b"z"));
    holds(&rt, netlist.number(b"z") == Some(3));
    holds(&rt, netlist.number(b"Z") == None);
    holds(&rt, has_input(&netlist, 0));
    holds(&rt, has_gate(&netlist, 2, Kind::Nand, &[0, 1]));
    holds(&rt, has_gate(&netlist, 3, Kind::Buff, &[2]));
    drop(netlist);
}

#[test]
fn flip_flops(rt: HostRuntime) {
    let netlist = netlist_of(&rt, rt.alloc(), b"q = DFF(d)\nd = NOT(q)\n");
    holds(&rt, netlist.len() == 2);
    holds(&rt, matches!(netlist.driver(0), Driver::Flop(1)));
    holds(&rt, netlist.driver(0).pins() == &[1][..]);
    holds(&rt, has_gate(&netlist, 1, Kind::Not, &[0]));
    drop(netlist);
}

#[test]
fn kind_words(rt: HostRuntime) {
    holds(
        &rt,
        cell_named(&b"XNOR"[..]) == Some(Cell::Gate(Kind::Xnor)),
    );
    holds(&rt, cell_named(&b"buf"[..]) == Some(Cell::Gate(Kind::Buff)));
    holds(
        &rt,
        cell_named(&b"Buff"[..]) == Some(Cell::Gate(Kind::Buff)),
    );
    holds(&rt, cell_named(&b"dFF"[..]) == Some(Cell::Flop));
    holds(&rt, cell_named(&b"INPUT"[..]) == None);
    holds(&rt, cell_named(&b""[..]) == None);
}

#[test]
fn cut_short(rt: HostRuntime) {
    holds(&rt, outcome(rt.alloc(), b"INPUT(a)\ny = AND(a") == (2, 2));
}

#[test]
fn driven_twice(rt: HostRuntime) {
    holds(
        &rt,
        outcome(rt.alloc(), b"INPUT(a)\na = NOT(a)\n") == (5, 2),
    );
    let netlist = netlist_of(&rt, rt.alloc(), b"n = NOT(n)\n");
    holds(&rt, netlist.len() == 1);
    holds(&rt, has_gate(&netlist, 0, Kind::Not, &[0]));
}

#[test]
fn unknown_kind(rt: HostRuntime) {
    holds(
        &rt,
        outcome(rt.alloc(), b"OUTPUT(z)\nINPUT(a)\nb = FOO(a)\n") == (3, 3),
    );
    holds(&rt, outcome(rt.alloc(), b"OUTPUT(z)\nINPUT(a)\n") == (6, 1));
}

// An input statement of a net whose name has so many bytes.
fn long_input(alloc: Global, bytes: usize) -> Result<Vec<u8>, AllocError> {
    let mut text = Vec::new(alloc);
    text.extend_from_slice(b"INPUT(")?;
    for _ in 0..bytes {
        text.push(b'n')?;
    }
    text.push(b')')?;
    Ok(text)
}

#[test]
fn names_and_operands(rt: HostRuntime) -> Result<(), AllocError> {
    let text = long_input(rt.alloc(), 255)?;
    holds(&rt, text.len() == 262);
    holds(&rt, outcome(rt.alloc(), &text) == (0, 0));
    let text = long_input(rt.alloc(), 256)?;
    holds(&rt, text.len() == 263);
    holds(&rt, outcome(rt.alloc(), &text) == (8, 1));
    holds(&rt, outcome(rt.alloc(), b"y = NOT(a, b)") == (4, 1));
    holds(&rt, outcome(rt.alloc(), b"y = AND()") == (2, 1));
    holds(&rt, outcome(rt.alloc(), b"FOO(a)") == (2, 1));
    holds(&rt, outcome(rt.alloc(), b"\xe9") == (1, 1));
    let netlist = netlist_of(&rt, rt.alloc(), b"INPUT(a)\nINPUT(b)\nINPUT = AND(a, b)\n");
    holds(&rt, netlist.len() == 3);
    holds(&rt, has_name(&netlist, 2, b"INPUT"));
    drop(netlist);
    holds(&rt, outcome(rt.alloc(), b"y = FOO(") == (3, 1));
    Ok(())
}

const SMALL: [u8; 30] = *b"INPUT(a)\nOUTPUT(y)\ny = NOT(a)\n";

// What the first n bytes of the small netlist give.
fn of_prefix(n: usize) -> (u32, u32) {
    match n {
        0 | 8 | 9 | 29 | 30 => (0, 0),
        1..=7 => (2, 1),
        10..=17 => (2, 2),
        18 | 19 => (6, 2),
        24 | 25 => (3, 3),
        _ => (2, 3),
    }
}

// How many nets the first n bytes of the small netlist have, where they are a netlist.
fn nets_of_prefix(rt: &impl Abort, alloc: Global, n: usize) -> usize
    requires { n ≤ 30 }
{
    netlist_of(rt, alloc, &SMALL[..n]).len()
}

#[test]
fn truncated_netlist(rt: HostRuntime) {
    for n in 0..31 {
        holds(&rt, outcome(rt.alloc(), &SMALL[..n]) == of_prefix(n));
    }
    holds(&rt, netlist_of(&rt, rt.alloc(), b"").is_empty());
    holds(&rt, nets_of_prefix(&rt, rt.alloc(), 9) == 1);
    holds(&rt, nets_of_prefix(&rt, rt.alloc(), 30) == 2);
}

// The small netlist with another byte at a place.
fn damaged(at: usize, value: u8) -> [u8; 30]
    requires { at < 30 }
{
    let mut text = SMALL;
    text[at] = value;
    text
}

#[test]
fn damaged_netlist(rt: HostRuntime) {
    holds(&rt, outcome(rt.alloc(), &damaged(0, 0)) == (1, 1));
    holds(&rt, outcome(rt.alloc(), &damaged(5, b'=')) == (3, 1));
    holds(
        &rt,
        netlist_of(&rt, rt.alloc(), &damaged(8, b'#'))
            .outputs()
            .is_empty(),
    );
    holds(&rt, outcome(rt.alloc(), &damaged(23, b'X')) == (3, 3));
    holds(&rt, outcome(rt.alloc(), &damaged(27, b'b')) == (6, 3));
    for at in 0..30 {
        for value in 0..=255 {
            let (number, line) = outcome(rt.alloc(), &damaged(at, value));
            holds(&rt, number == 0 || number <= 8 && line >= 1 && line <= 4);
        }
    }
}

/// So many inputs, with names by number.
pub fn inputs(alloc: Global, count: usize) -> Result<String, AllocError> {
    let mut text = String::new(alloc);
    for net in 0..count {
        write!(text, "INPUT(n{net})\n")?;
    }
    Ok(text)
}

#[test]
fn largest_netlist(rt: HostRuntime) -> Result<(), AllocError> {
    let text = inputs(rt.alloc(), 65_535)?;
    holds(&rt, text.len() < 1_000_000);
    let netlist = netlist_of(&rt, rt.alloc(), text.as_bytes());
    holds(&rt, netlist.len() == 65_535);
    holds(&rt, netlist.number(&b"n65534"[..]) == Some(65_534));
    drop(netlist);
    let text = inputs(rt.alloc(), 65_536)?;
    holds(&rt, text.len() < 1_000_000);
    holds(&rt, outcome(rt.alloc(), text.as_bytes()) == (7, 65_536));
    Ok(())
}

#[test]
fn fault_text(rt: HostRuntime) -> Result<(), AllocError> {
    match read_bench(rt.alloc(), b"INPUT(a)\na = NOT(a)\n") {
        Ok(_) => panic!(&rt; "a netlist was read"),
        Err(fault) => {
            holds(
                &rt,
                format!(in rt.alloc(); "{fault}")?.as_str() == "line 2: driven twice",
            );
        }
    }
    Ok(())
}
