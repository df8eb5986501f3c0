//! An inverter's run: the windows of its engine, and the text that is made as it goes on.
//!
//! The input `a` is 0, and 1 from tick 5 on. The inverter's delay is one tick, so its output `y` is x at tick 0, 1 from
//! tick 1 on and 0 from tick 6 on. The engine goes from tick 1 to the horizon, tick 10, in one window, or in three that
//! end where they are told to. Where a window ends at tick 10, tick 9 stands at place 63 of a word and tick 0 at place
//! 54.

ghost use Rattle.std.specs.Prelude.{◌≡◌, ◌≤◌, IfOk, IfSome};
ghost use Rattle.cmb_design_model.specs.Exact.{nets_of};

use crate::checks::holds;
use cmb_design_model::{Design, Settings};
use cmb_dump_stream::write_stream;
use cmb_engine::{Engine, start_level};
use cmb_io::{Limited, Room, WriteFault};
use cmb_wave::Level;
use cmb_wave::Level::{One, X, Zero};
use cmb_words::Changed;
use std::alloc::{AllocError, Global};
use std::process::Abort;
use std::test::Fail;
use worked_designs::{of_design, stimulated, text_of};

/// How many ticks are simulated.
pub const HORIZON: u32 = 10;

/// The input.
pub const A: u16 = 0;

/// The output.
pub const Y: u16 = 1;

// The place of tick 0, where a window ends at the horizon.
const START: u32 = 54;

/// What is found out about the inverter's design.
pub fn of_inverter<T: Drop, F: FnOnce(&Design) -> Result<T, Fail> + Drop>(
    alloc: Global,
    find: F,
) -> Result<T, Fail>
    requires { F.IsAlwaysCallable find }
{
    let inputs = stimulated(
        b"INPUT(a)\nOUTPUT(y)\ny = NOT(a)\n",
        b"tick,net,value\n0,a,0\n5,a,1\n",
    );
    let settings = Settings {
        horizon: HORIZON,
        clock: None,
        init: X,
    };
    of_design(alloc, inputs, settings, find)
}

/// Ends the test unless a design has as many nets and ticks.
pub fn is_inverter(rt: &impl Abort, design: &Design)
    ensures nets { nets_of design.now ≡ 2 }
    ensures horizon { design.now.horizon ≡ HORIZON }
{
    holds(rt, design.netlist().len() == 2);
    holds(rt, design.horizon() == HORIZON);
}

/// The text of its run.
pub fn inverted(alloc: Global) -> Result<String, AllocError> {
    text_of(alloc, "a y", "#0 0! x\" #1 1\" #5 1! #6 0\" #10")
}

/// Whether a net changed in the window up to the horizon, and has these levels from tick 0 on.
fn has_levels(changed: &Changed, net: u16, levels: &[Level]) -> bool {
    for (tick, level) in levels.iter().enumerate() {
        if tick >= HORIZON as usize || changed.word.level(START + tick as u32) != *level {
            return false;
        }
    }
    changed.net == net
}

/// Whether the input is 0 at tick 0, and the inverter's output x.
fn begins(design: &Design) -> bool
    requires { nets_of design.now ≡ 2 }
{
    start_level(design, A as usize) == Zero && start_level(design, Y as usize) == X
}

/// Whether a net changed in a window, and has a level at its last tick.
fn ends_with(changed: &Changed, net: u16, level: Level) -> bool {
    changed.net == net && changed.word.level(63) == level
}

/// Whether a window tells that `y` alone changed, and is 1 at its end.
fn is_first(changed: &[Changed]) -> bool {
    let [y] = changed else {
        return false;
    };
    ends_with(y, Y, One)
}

/// Whether a window tells that both nets changed, and at its end `a` is 1 and `y` 0.
fn is_second(changed: &[Changed]) -> bool {
    let [a, y] = changed else {
        return false;
    };
    ends_with(a, A, One) && ends_with(y, Y, Zero)
}

/// Whether a window tells that `a` changed at tick 5 and `y` at ticks 1 and 6.
fn are_told(changed: &[Changed]) -> bool {
    let [a, y] = changed else {
        return false;
    };
    has_levels(
        a,
        A,
        &[Zero, Zero, Zero, Zero, Zero, One, One, One, One, One],
    ) && has_levels(y, Y, &[X, One, One, One, One, One, Zero, Zero, Zero, Zero])
}

/// Whether the engine goes from tick 1 to the horizon at once.
fn advances(alloc: Global, design: &Design, changed: &mut Vec<Changed>) -> Result<bool, AllocError>
    requires nets { nets_of design.now ≡ 2 }
    requires horizon { design.now.horizon ≡ HORIZON }
{
    let engine = Engine::open(alloc, design)?;
    let opens = engine.clock() == 1 && begins(design);
    let upto = engine.next_end();
    let last = engine.advance(upto, changed)?;
    let ends = last.clock() == HORIZON;
    drop(last);
    Ok(opens && ends)
}

/// Whether the engine's only window is as it should be.
fn goes_on(rt: &impl Abort, alloc: Global, design: &Design) -> Result<bool, Fail> {
    is_inverter(rt, design);
    let mut changed = Vec::new(alloc);
    let is_whole = advances(alloc, design, &mut changed)?;
    Ok(is_whole && are_told(&changed))
}

/// The engine a window further, up to a tick, where that is one of its ticks to come.
fn further<'d>(
    engine: Engine<'d>,
    upto: u32,
    changed: &mut Vec<Changed>,
) -> Result<Option<Engine<'d>>, AllocError>
    requires horizon { engine.design.horizon ≡ HORIZON }
    requires within { upto ≤ HORIZON }
    ensures horizon { IfOk result (λ found. IfSome found (λ next. next.design.horizon ≡ HORIZON)) }
    ensures clock { IfOk result (λ found. IfSome found (λ next. next.clock ≡ upto)) }
{
    if engine.clock() < upto && engine.width() == 62 {
        return Ok(Some(engine.advance(upto, changed)?));
    }
    drop(engine);
    Ok(None)
}

/// Whether windows that end at ticks 4, 8 and 10 tell what changed in them.
fn are_narrow(
    alloc: Global,
    design: &Design,
    changed: &mut Vec<Changed>,
) -> Result<bool, AllocError>
    requires { design.now.horizon ≡ HORIZON }
{
    let engine = Engine::open(alloc, design)?;
    let Some(first) = further(engine, 4, changed)? else {
        return Ok(false);
    };
    let begins = first.clock() == 4 && is_first(changed);
    let Some(second) = further(first, 8, changed)? else {
        return Ok(false);
    };
    let goes = second.clock() == 8 && is_second(changed);
    let Some(last) = further(second, HORIZON, changed)? else {
        return Ok(false);
    };
    let ends = last.clock() == HORIZON && changed.is_empty();
    drop(last);
    Ok(begins && goes && ends)
}

/// The same.
fn goes_on_narrowly(rt: &impl Abort, alloc: Global, design: &Design) -> Result<bool, Fail> {
    is_inverter(rt, design);
    let mut changed = Vec::new(alloc);
    let is_narrow = are_narrow(alloc, design, &mut changed)?;
    Ok(is_narrow)
}

/// Whether the text is written whole, and its length is the answer.
fn is_written(alloc: Global, design: &Design) -> Result<bool, Fail> {
    let wanted = inverted(alloc)?;
    let mut room = Room::new(alloc, wanted.len())?;
    let answer = write_stream(alloc, design, None, &mut room);
    let is_whole = room.bytes.as_slice() == wanted.as_bytes() && room.failures == 0;
    Ok(is_whole && answer == Ok(wanted.len() as u64))
}

/// Whether a sink that fails after 17 bytes took the first 17 of the text, and the answer tells so.
fn is_broken_off(alloc: Global, design: &Design) -> Result<bool, Fail> {
    let wanted = inverted(alloc)?;
    let mut sink = Limited::new(alloc, 17);
    let answer = write_stream(alloc, design, None, &mut sink);
    let is_begun = wanted.as_bytes().starts_with(&sink.bytes) && sink.bytes.len() == 17;
    Ok(is_begun && answer == Err(WriteFault::Write { written: 17 }))
}

/// Whether the text is told as it should be.
fn told(alloc: Global, design: &Design) -> Result<bool, Fail> {
    Ok(is_written(alloc, design)? && is_broken_off(alloc, design)?)
}

#[test]
fn one_window(rt: HostRuntime) -> Result<(), Fail> {
    let alloc = rt.alloc();
    let is_simulated = of_inverter(alloc, |design| goes_on(&rt, alloc, design))?;
    holds(&rt, is_simulated);
    Ok(())
}

#[test]
fn three_windows(rt: HostRuntime) -> Result<(), Fail> {
    let alloc = rt.alloc();
    let is_simulated = of_inverter(alloc, |design| goes_on_narrowly(&rt, alloc, design))?;
    holds(&rt, is_simulated);
    Ok(())
}

#[test]
fn text_of_an_engine(rt: HostRuntime) -> Result<(), Fail> {
    let alloc = rt.alloc();
    let is_told = of_inverter(alloc, |design| told(alloc, design))?;
    holds(&rt, is_told);
    Ok(())
}
