//! Designs that are counted and not simulated.

use crate::checks::same;
use cmb_sim::{FromBytes, Level, Settings, check_design};
use std::alloc::Global;
use std::test::Fail;

fn netlist() -> &'static [u8] {
    b"INPUT(a)\nINPUT(b)\nOUTPUT(y)\ny = NAND(a, q)\nn = NOT(y)\nm = NOT(n)\nq = DFF(m)\n"
}

fn settings() -> Settings {
    Settings {
        horizon: 20,
        clock: Some((4, 5)),
        init: Level::X,
    }
}

// What is told of the netlist with these tables, with so many names of each thing: the text of its counts, or the
// fault's number.
fn told(
    alloc: Global,
    delays: &[u8],
    stimuli: &[u8],
    named: usize,
) -> Result<Result<Vec<u8>, u32>, Fail> {
    let checked = check_design(
        alloc,
        &mut FromBytes::new(netlist()),
        &mut FromBytes::new(delays),
        &mut FromBytes::new(stimuli),
        &mut FromBytes::new(&[]),
        &mut FromBytes::new(b"net,value\nq,1\n"),
        settings(),
        named,
    );
    match checked {
        Ok(checked) => Ok(Ok(checked.text)),
        Err(fault) => Ok(Err(fault.number())),
    }
}

// From q to m it takes 1 + 7 + 3 + 3 ticks, from a 1 + 3 + 3.
fn counted() -> &'static str {
    "       6  nets
       2  inputs
       1  inputs that are x at all ticks
       -  b
       0  gates AND
       1  gates NAND
       0  gates OR
       0  gates NOR
       0  gates XOR
       0  gates XNOR
       2  gates NOT
       0  gates BUFF
       1  flip-flops
       0  flip-flops that never sample
       4  nets in feedback loops
       0  nets in loops of gates alone
       1  nets that drive nothing and are no outputs
       -  b
       7  ticks in the largest delay
      14  ticks in the longest path
       -  m
       1  different clocks of flip-flops
      14  ticks in the longest path from clock 4:5 to itself
       -  m
       9  ticks that clock 4:5 is shorter than that path
       7  ticks in the longest path from inputs to clock 4:5
       -  m
       0  ticks in the longest path from other clocks to clock 4:5: there is none
       2  rows of delays
       2  rows of stimuli
       0  rows of clocks
       1  rows of first levels
"
}

#[test]
fn counts(rt: HostRuntime) -> Result<(), Fail> {
    let delays = b"by,name,delay\nkind,NOT,3\npin,y:2,7\n";
    let stimuli = b"tick,net,value\n0,a,1\n30,b,1\n";
    let text = told(rt.alloc(), delays, stimuli, 20)??;
    same(&rt, text.as_slice(), counted().as_bytes());
    Ok(())
}

#[test]
fn no_names(rt: HostRuntime) -> Result<(), Fail> {
    let text = told(rt.alloc(), b"", b"", 0)??;
    let begun =
        b"       6  nets\n       2  inputs\n       2  inputs that are x at all ticks\n       0  gates AND\n";
    same(
        &rt,
        text.as_slice().get(..begun.len()),
        Some(begun.as_slice()),
    );
    Ok(())
}

#[test]
fn faults_of_checks(rt: HostRuntime) -> Result<(), Fail> {
    let alloc = rt.alloc();
    for (delays, stimuli, number) in [
        (
            b"by,name,delay\nkind,MUX,3\n".as_slice(),
            b"".as_slice(),
            27,
        ),
        (b"".as_slice(), b"tick,net,value\n0,y,1\n".as_slice(), 30),
    ] {
        same(&rt, told(alloc, delays, stimuli, 20)?.err(), Some(number));
    }
    Ok(())
}
