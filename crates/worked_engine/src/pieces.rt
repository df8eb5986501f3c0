//! The text of a window that is made in pieces: it is the same as that which is made at once.

ghost use Rattle.std.specs.Prelude.{◌≡◌, IfOk};
ghost use Rattle.cmb_design_model.specs.Exact.{nets_of};
ghost use Rattle.cmb_dump.specs.Shown.{CanShow, shown_by};
ghost use Rattle.cmb_words.specs.Changes.{RisesWithin};

use crate::checks::holds;
use crate::windows::turned;
use cmb_design_model::{Design, Settings};
use cmb_dump::{Dump, Shown};
use cmb_wave::Level;
use cmb_words::Changed;
use std::alloc::{AllocError, Global};
use std::fmt::Write;
use std::process::Abort;
use std::test::Fail;
use worked_designs::{bare, of_design};

/// How many nets there are: more than those of two pieces.
const NETS: u16 = 200;

/// How many ticks there are.
const HORIZON: u32 = 10;

/// A netlist of so many inputs.
fn inputs(alloc: Global) -> Result<String, AllocError> {
    let mut netlist = String::new(alloc);
    for net in 0..NETS {
        write!(netlist, "INPUT(n{net})\n")?;
    }
    Ok(netlist)
}

/// Ends the test unless a design has so many nets and ticks.
fn are_inputs(rt: &impl Abort, design: &Design)
    ensures nets { nets_of design.now ≡ NETS }
    ensures horizon { design.now.horizon ≡ HORIZON }
{
    holds(rt, design.netlist().len() == NETS as usize);
    holds(rt, design.horizon() == HORIZON);
}

/// All of these nets, which are 0 and from tick 6 on 1.
fn all_turned(alloc: Global) -> Result<Vec<Changed>, AllocError>
    ensures { IfOk result (λ changed. RisesWithin 0 NETS changed.items) }
{
    let mut changed = Vec::new(alloc);
    for net in 0..NETS {
        changed.push(turned(net, Level::Zero, 60, Level::One))?;
    }
    Ok(changed)
}

/// The text of the window up to the horizon, made at once.
fn at_once(alloc: Global, design: &Design, shown: Shown<'_>) -> Result<Vec<u8>, AllocError>
    requires shown { CanShow (nets_of design.now) (shown_by shown) }
    requires nets { nets_of design.now ≡ NETS }
    requires horizon { design.now.horizon ≡ HORIZON }
{
    let mut dump = Dump::at(alloc, design, shown, 1)?;
    dump.window(&all_turned(alloc)?, HORIZON)?;
    dump.text().to_vec(alloc)
}

/// The same, made in pieces, and how many these are.
fn in_pieces(
    alloc: Global,
    design: &Design,
    shown: Shown<'_>,
) -> Result<(Vec<u8>, usize), AllocError>
    requires shown { CanShow (nets_of design.now) (shown_by shown) }
    requires nets { nets_of design.now ≡ NETS }
    requires horizon { design.now.horizon ≡ HORIZON }
{
    let mut dump = Dump::at(alloc, design, shown, 1)?;
    dump.begin(&mut all_turned(alloc)?, HORIZON)?;
    let mut pieces = 1usize;
    'pieces: while !dump.go_on()? {
        pieces = pieces.saturating_add(1);
    }
    Ok((dump.text().to_vec(alloc)?, pieces))
}

/// Whether both ways give the same text, and the second takes so many pieces.
fn is_same(
    alloc: Global,
    design: &Design,
    shown: Shown<'_>,
    wanted: usize,
) -> Result<bool, AllocError>
    requires shown { CanShow (nets_of design.now) (shown_by shown) }
    requires nets { nets_of design.now ≡ NETS }
    requires horizon { design.now.horizon ≡ HORIZON }
{
    let whole = at_once(alloc, design, shown)?;
    let (text, pieces) = in_pieces(alloc, design, shown)?;
    Ok(whole.len() > 0 && text.as_slice() == whole.as_slice() && pieces == wanted)
}

/// Whether it is so of all nets and of three of them.
fn are_same(rt: &impl Abort, alloc: Global, design: &Design) -> Result<bool, Fail> {
    are_inputs(rt, design);
    let all = is_same(alloc, design, None, 3)?;
    let chosen = is_same(alloc, design, Some(&[3, 100, 199]), 1)?;
    Ok(all && chosen)
}

#[test]
fn window_in_pieces(rt: HostRuntime) -> Result<(), Fail> {
    let alloc = rt.alloc();
    let netlist = inputs(alloc)?;
    let settings = Settings {
        horizon: HORIZON,
        clock: None,
        init: Level::X,
    };
    let is_same_text = of_design(
        alloc,
        bare(netlist.as_bytes()),
        settings,
        |design| are_same(&rt, alloc, design),
    )?;
    holds(&rt, is_same_text);
    Ok(())
}
