//! What nets show at tick 0, and the slots of a design's engine.

ghost use Rattle.std.specs.Prelude.{◌≡◌, ℕ, ◌+◌, ◌<◌, ◌≤◌, All, IfOk, length};
ghost use Rattle.cmb_wave.specs.declared.level.Level.{Level};
ghost use Rattle.cmb_design_model.specs.Exact.{nets_of};
ghost use Rattle.cmb_design_model.specs.Value.{value};
ghost use Rattle.cmb_words.specs.Word.{level_at_place};
ghost use Rattle.cmb_engine.specs.Inner.Circuits.{Shows};
ghost use Rattle.cmb_engine.specs.Inner.Roles.{level_in};
ghost use Rattle.cmb_engine.specs.Inner.Traces.{trace_of};
ghost use Rattle.cmb_engine.specs.Inner.Windows.{in_place};
ghost use Rattle.cmb_engine.specs.Inner.Words.{levels_of};

use crate::cell::Pin;
use crate::role::{Role, is_absent};
use crate::words::Words;
use cmb_design_model::Design;
use cmb_netlist::Driver;
use cmb_wave::Level;
use cmb_words::Word;
use std::alloc::{AllocError, Global};

/// The level of a net, given by its number, at tick 0: an input's by its stimulus, a flip-flop's its first one, and a
/// gate's x, since before tick 0 all its pins are.
pub fn start_level(design: &Design, net: usize) -> Level
    requires { net < nets_of design.now }
    ensures { result ≡ value design.now net 0 }
{
    let netlist = design.netlist();
    // The proof learns here that the netlist is lawful.
    let _nets = netlist.len();
    match netlist.driver(net) {
        Driver::Input => design.stim(net, 0),
        Driver::Gate(_, _) => Level::X,
        Driver::Flop(_) => design.init(net),
    }
}

// The level that an engine has at tick 0 of a net, given by its number. An absent net is 0 for ever, so that it never
// counts as x.
fn level_at_start(design: &Design, roles: &[Role], net: usize) -> Level
    requires { net < nets_of design.now }
    ensures { result ≡ level_in design.now roles.now net 0 }
{
    if is_absent(roles, net) {
        Level::Zero
    } else {
        start_level(design, net)
    }
}

// The word of a slot with a level at tick 0, in the words that end before tick 1: it is x before.
fn start_word(level: Level) -> Word
    ensures { (trace : ℕ → Level) → trace 0 ≡ level
        → (place : ℕ) → place < 64 → level_at_place result place ≡ in_place trace 1 place }
{
    Word::constant(Level::X).with_from(63, level)
}

/// The words of a design's nets and of lines that follow some of them, which end before tick 1.
pub(crate) fn start_words(
    alloc: Global,
    design: &Design,
    roles: &[Role],
    lines: &[Pin],
) -> Result<Words, AllocError>
    requires lines { All (λ line. (line.net < nets_of design.now) × (1 ≤ line.delay)) lines.now }
    ensures len { IfOk result (λ words. length words ≡ nets_of design.now + length lines.now) }
    ensures shows { IfOk result (λ words. Shows (levels_of words) (trace_of design.now roles.now lines.now)
        (nets_of design.now + length lines.now) 1) }
{
    let nets = design.netlist().len();
    let mut words = Words::new(alloc, start_word(Level::X), nets + lines.len())?;
    for net in 0..nets {
        words.set(net, start_word(level_at_start(design, roles, net)));
    }
    Ok(words)
}
