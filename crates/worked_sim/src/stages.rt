//! The stages of a simulation, called one by one.

ghost use Rattle.cmb_inputs.specs.Inputs.{CanBeInputs, texts_in};

use crate::checks::{holds, same};
use crate::drips::dripping;
use cmb_inputs::{
    InputTexts, chosen_nets, read_input, read_names, read_texts, spelled_design, write_text,
};
use cmb_sim::{
    Checked, Choice, Fault, FromBytes, Level, Limited, Pick, Settings, check, check_design,
};
use std::alloc::Global;
use std::test::Fail;

// An input, two gates in a row, and a gate that nobody chooses.
fn netlist() -> &'static [u8] {
    b"INPUT(a) OUTPUT(z)\ny = NOT(a)\nz = BUFF(y)\nw = NOT(z)\n"
}

fn settings() -> Settings {
    Settings {
        horizon: 10,
        clock: None,
        init: Level::X,
    }
}

// The nets of the design of these texts that their list names.
fn named_in(alloc: Global, texts: &InputTexts) -> Result<Vec<u32>, Fault>
    requires { CanBeInputs (texts_in texts.now) }
{
    let design = spelled_design(alloc, texts, settings())?;
    chosen_nets(alloc, Pick::Listed, &design, texts.names.as_slice())
}

// The nets that a list names.
fn named(alloc: Global, list: &[u8]) -> Result<Vec<u32>, Fault> {
    let texts = read_texts(
        alloc,
        Choice::Only(Pick::Listed),
        5,
        &mut FromBytes::new(netlist()),
        &mut FromBytes::new(b""),
        &mut FromBytes::new(b"tick,net,value\n0,a,0\n5,a,1\n"),
        &mut FromBytes::new(b""),
        &mut FromBytes::new(b""),
        &mut FromBytes::new(list),
    )?;
    named_in(alloc, &texts)
}

// The number and the place of a fault, 0 where there is none.
fn place_of<T>(answer: &Result<T, Fault>) -> (u32, u64) {
    match answer {
        Ok(_) => (0, 0),
        Err(fault) => (fault.number(), fault.place()),
    }
}

#[test]
fn lists_by_stages(rt: HostRuntime) -> Result<(), Fail> {
    let alloc = rt.alloc();
    let nets = named(alloc, b"z\ny # both\n")?;
    holds(&rt, nets.as_slice() == [1, 2].as_slice());
    same(&rt, place_of(&named(alloc, b"y\nv\n")), (38, 2));
    let mut list = dripping(b"y", 0);
    let names = read_names(alloc, Choice::Only(Pick::Outputs), 5, &mut list)?;
    holds(&rt, names.is_empty());
    let listed = read_names(alloc, Choice::Only(Pick::Listed), 5, &mut list);
    same(&rt, place_of(&listed), (61, 5));
    let expected = read_names(alloc, Choice::Only(Pick::Listed), 7, &mut dripping(b"y", 0));
    same(&rt, place_of(&expected), (61, 7));
    Ok(())
}

#[test]
fn inputs_by_number(rt: HostRuntime) -> Result<(), Fail> {
    let alloc = rt.alloc();
    let text = read_input(alloc, &mut FromBytes::new(b"a,b\n"), 3)?;
    holds(&rt, text.as_slice() == b"a,b\n".as_slice());
    let failed = read_input(alloc, &mut dripping(b"a,b\n", 2), 3);
    same(&rt, place_of(&failed), (61, 3));
    Ok(())
}

// What is counted of the netlist.
fn counted(alloc: Global) -> Result<Checked, Fault> {
    check_design(
        alloc,
        &mut FromBytes::new(netlist()),
        &mut FromBytes::new(b""),
        &mut FromBytes::new(b""),
        &mut FromBytes::new(b""),
        &mut FromBytes::new(b""),
        settings(),
        20,
    )
}

#[test]
fn counts_by_stages(rt: HostRuntime) -> Result<(), Fail> {
    let checked = counted(rt.alloc())?;
    same(&rt, checked.counts.nets, 4);
    let begun = b"       4  nets\n       1  inputs\n".as_slice();
    same(&rt, checked.text.as_slice().get(..begun.len()), Some(begun));
    Ok(())
}

// How writing the counts into a sink that takes so many bytes ends, and what it took.
fn checked_into(alloc: Global, room: usize) -> ((u32, u64), Vec<u8>) {
    let mut out = Limited::new(alloc, room);
    let answer = check(
        alloc,
        &mut FromBytes::new(netlist()),
        &mut FromBytes::new(b""),
        &mut FromBytes::new(b""),
        &mut FromBytes::new(b""),
        &mut FromBytes::new(b""),
        settings(),
        20,
        &mut out,
    );
    (place_of(&answer), out.bytes)
}

#[test]
fn counts_are_written(rt: HostRuntime) -> Result<(), Fail> {
    let checked = counted(rt.alloc())?;
    let (whole, text) = checked_into(rt.alloc(), 10_000);
    same(&rt, whole, (0, 0));
    holds(&rt, text.as_slice() == checked.text.as_slice());
    let (few, text) = checked_into(rt.alloc(), 9);
    same(&rt, few, (62, 9));
    same(&rt, text.as_slice(), b"       4 ".as_slice());
    Ok(())
}

#[test]
fn text_by_stages(rt: HostRuntime) {
    let mut two = Limited::new(rt.alloc(), 2);
    same(&rt, place_of(&write_text(&mut two, b"abc")), (62, 2));
    holds(&rt, two.bytes.as_slice() == b"ab".as_slice());
}
