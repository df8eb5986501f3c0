//! Dumps: the text of the inverter's run, window by window.
//!
//! Words say by hand what the inverter does: where a window ends at a tick, that tick would stand at place 64, so the
//! tick before it stands at place 63, and so on downwards. The text comes out the same whether the run is cut at tick 5
//! or where nothing happens.

ghost use Rattle.std.specs.Prelude.{◌≡◌, ◌<◌, IfOk};
ghost use Rattle.cmb_design_model.specs.Exact.{nets_of};

use crate::checks::holds;
use crate::inverter::{A, HORIZON, Y, inverted, is_inverter, of_inverter};
use cmb_design_model::Design;
use cmb_dump::Dump;
use cmb_wave::Level;
use cmb_words::{Changed, Word};
use std::alloc::{AllocError, Global};
use std::process::Abort;
use std::test::Fail;

/// A net whose level is another from a place on.
pub fn turned(net: u16, before: Level, place: u32, after: Level) -> Changed
    requires { place < 64 }
    ensures { result.net ≡ net }
{
    Changed {
        net,
        word: Word::constant(before).with_from(place, after),
    }
}

fn open<'a>(alloc: Global, design: &'a Design) -> Result<Dump<'a>, AllocError>
    requires { nets_of design.now ≡ 2 }
    ensures design { IfOk result (λ dump. dump.subject.design ≡ design.entry.now) }
    ensures clock { IfOk result (λ dump. dump.clock ≡ 1) }
{
    Dump::open(alloc, design, None, &[Level::Zero, Level::X])
}

/// Two windows, one up to tick 5 and one from there on.
fn write_two(dump: &mut Dump<'_>, text: &mut Vec<u8>) -> Result<(), AllocError>
    requires nets { nets_of dump.old.subject.design ≡ 2 }
    requires horizon { dump.old.subject.design.horizon ≡ HORIZON }
    requires clock { dump.old.clock ≡ 1 }
{
    text.extend_from_slice(dump.text())?;
    dump.window(&[turned(Y, Level::X, 60, Level::One)], 5)?;
    text.extend_from_slice(dump.text())?;
    let both = [
        turned(A, Level::Zero, 59, Level::One),
        turned(Y, Level::One, 60, Level::Zero),
    ];
    dump.window(&both, HORIZON)?;
    text.extend_from_slice(dump.text())
}

/// Windows of one and of two ticks, and between them and after them ticks at which no net changes.
fn write_rests(dump: &mut Dump<'_>, text: &mut Vec<u8>) -> Result<(), AllocError>
    requires nets { nets_of dump.old.subject.design ≡ 2 }
    requires horizon { dump.old.subject.design.horizon ≡ HORIZON }
    requires clock { dump.old.clock ≡ 1 }
{
    text.extend_from_slice(dump.text())?;
    dump.window(&[turned(Y, Level::X, 63, Level::One)], 2)?;
    text.extend_from_slice(dump.text())?;
    dump.pass(5)?;
    text.extend_from_slice(dump.text())?;
    let both = [
        turned(A, Level::Zero, 62, Level::One),
        turned(Y, Level::One, 63, Level::Zero),
    ];
    dump.window(&both, 7)?;
    text.extend_from_slice(dump.text())?;
    dump.pass(HORIZON)?;
    text.extend_from_slice(dump.text())
}

/// Writes a run by two windows.
fn in_two(alloc: Global, design: &Design, text: &mut Vec<u8>) -> Result<(), AllocError>
    requires nets { nets_of design.now ≡ 2 }
    requires horizon { design.now.horizon ≡ HORIZON }
{
    let mut dump = open(alloc, design)?;
    let written = write_two(&mut dump, text);
    drop(dump);
    written
}

/// Writes it with rests.
fn with_rests(alloc: Global, design: &Design, text: &mut Vec<u8>) -> Result<(), AllocError>
    requires nets { nets_of design.now ≡ 2 }
    requires horizon { design.now.horizon ≡ HORIZON }
{
    let mut dump = open(alloc, design)?;
    let written = write_rests(&mut dump, text);
    drop(dump);
    written
}

/// Whether both ways give the text of the run.
fn are_dumped(rt: &impl Abort, alloc: Global, design: &Design) -> Result<bool, Fail> {
    is_inverter(rt, design);
    let mut one = Vec::new(alloc);
    in_two(alloc, design, &mut one)?;
    let mut other = Vec::new(alloc);
    with_rests(alloc, design, &mut other)?;
    let wanted = inverted(alloc)?;
    Ok(one.as_slice() == wanted.as_bytes() && other.as_slice() == wanted.as_bytes())
}

#[test]
fn text_by_windows(rt: HostRuntime) -> Result<(), Fail> {
    let alloc = rt.alloc();
    let is_dumped = of_inverter(alloc, |design| are_dumped(&rt, alloc, design))?;
    holds(&rt, is_dumped);
    Ok(())
}
