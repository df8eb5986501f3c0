//! The text of a run from its beginning on, by a dump.

ghost use Rattle.std.specs.Prelude.{◌≡◌, ℕ, ◌<◌, ◌++◌, length, slice_index, slice_index_or, All, IfOk, OnOk};
ghost use Rattle.cmb_wave.specs.declared.level.Level.TheVariants.{X};
ghost use Rattle.cmb_design_model.specs.Exact.{nets_of};
ghost use Rattle.cmb_design_model.specs.Value.{value};
ghost use Rattle.cmb_dump.specs.Shown.{CanShow, TellsShown, count_shown, levels_shown, shown_by, subject_of};
ghost use Rattle.cmb_dump_stream.specs.Parts.{made_text};
ghost use Rattle.cmb_words.specs.Changes.{IsWindow};

use crate::buffer::TextBuffer;
use cmb_design_model::Design;
use cmb_dump::{Dump, Shown};
use cmb_engine::start_level;
use cmb_wave::Level;
use cmb_words::Changed;
use std::alloc::{AllocError, Global};

// The levels of all nets at tick 0.
fn all_levels(alloc: Global, design: &Design) -> Result<Vec<Level>, AllocError>
    ensures count { IfOk result (λ levels. length levels.items ≡ nets_of design.now) }
    ensures levels { IfOk result (λ levels. (net : ℕ) → net < nets_of design.now
        → slice_index_or levels.items net X ≡ value design.now net 0) }
{
    let nets = design.netlist().len();
    let mut levels = Vec::with_capacity(alloc, nets)?;
    for net in 0..nets {
        levels.push(start_level(design, net))?;
    }
    Ok(levels)
}

// The levels of chosen nets at tick 0.
fn levels_of(alloc: Global, design: &Design, nets: &[u32]) -> Result<Vec<Level>, AllocError>
    requires { All (λ net. net < nets_of design.now) nets.now }
    ensures count { IfOk result (λ levels. length levels.items ≡ length nets.now) }
    ensures levels { IfOk result (λ levels. (place : ℕ) → place < length nets.now
        → slice_index_or levels.items place X ≡ value design.now (slice_index nets.now place) 0) }
{
    let mut levels = Vec::with_capacity(alloc, nets.len())?;
    for net in nets {
        levels.push(start_level(design, *net as usize))?;
    }
    Ok(levels)
}

// The levels at tick 0 of the nets that are shown.
fn first_levels(alloc: Global, design: &Design, shown: Shown<'_>) -> Result<Vec<Level>, AllocError>
    requires { CanShow (nets_of design.now) (shown_by shown) }
    ensures count { IfOk result (λ levels. length levels.items
        ≡ count_shown (nets_of design.now) (shown_by shown.entry)) }
    ensures levels { IfOk result (λ levels. (place : ℕ) → place < length levels.items
        → slice_index_or levels.items place X ≡ levels_shown (shown_by shown.entry) (value design.now) place 0) }
{
    match shown {
        None => all_levels(alloc, design),
        Some(nets) => levels_of(alloc, design, nets),
    }
}

// The dump of a design as it begins: it has the text up to tick 1.
fn first_dump<'a>(
    alloc: Global,
    design: &'a Design,
    shown: Shown<'a>,
) -> Result<Dump<'a>, AllocError>
    requires { CanShow (nets_of design.now) (shown_by shown) }
    ensures subject { IfOk result (λ dump. dump.subject ≡ subject_of design.entry.now shown.entry) }
    ensures clock { IfOk result (λ dump. dump.clock ≡ 1) }
    ensures text { IfOk result (λ dump. dump.text ≡ made_text (subject_of design.entry.now shown.entry) 1) }
{
    let levels = first_levels(alloc, design, shown)?;
    Dump::open(alloc, design, shown, &levels)
}

/// The text of a design up to tick 1, of the nets that are shown, and the dump that goes on from there.
pub fn first_text<'a>(
    alloc: Global,
    design: &'a Design,
    shown: Shown<'a>,
) -> Result<(Dump<'a>, TextBuffer<'a>), AllocError>
    requires { CanShow (nets_of design.now) (shown_by shown) }
    ensures dumped { IfOk result (λ first. first.0.subject ≡ subject_of design.entry.now shown.entry) }
    ensures timed { IfOk result (λ first. first.0.clock ≡ 1) }
    ensures subject { IfOk result (λ first. first.1.subject ≡ subject_of design.entry.now shown.entry) }
    ensures clock { IfOk result (λ first. first.1.clock ≡ 1) }
    ensures given { IfOk result (λ first. first.1.given ≡ 0) }
{
    let dump = first_dump(alloc, design, shown)?;
    let Ok(kept) = TextBuffer::open(alloc, design, shown, &dump) else {
        drop(dump);
        return Err(AllocError);
    };
    Ok((dump, kept))
}

// The text of a window, by the nets that changed in it: where there are none, that costs nothing.
fn format_window(dump: &mut Dump<'_>, changed: &[Changed], upto: u32) -> Result<(), AllocError>
    requires window { IsWindow (nets_of dump.old.subject.design) dump.old.subject.design.horizon dump.old.clock upto
        changed.now }
    requires tells { TellsShown dump.old.subject.shown (value dump.old.subject.design)
        (nets_of dump.old.subject.design) dump.old.clock upto changed.now }
    ensures text { OnOk result (made_text dump.old.subject upto
        ≡ made_text dump.old.subject dump.old.clock ++ dump.new.text) }
    ensures clock { OnOk result (dump.new.clock ≡ upto) }
    ensures subject { dump.new.subject ≡ dump.old.subject }
{
    if changed.is_empty() {
        dump.pass(upto)
    } else {
        dump.window(changed, upto)
    }
}

/// Makes the text of a window, by the nets that changed in it, and keeps it.
pub fn keep_window(
    dump: &mut Dump<'_>,
    changed: &[Changed],
    upto: u32,
    kept: &mut TextBuffer<'_>,
) -> Result<(), AllocError>
    requires window { IsWindow (nets_of dump.old.subject.design) dump.old.subject.design.horizon dump.old.clock upto
        changed.now }
    requires tells { TellsShown dump.old.subject.shown (value dump.old.subject.design)
        (nets_of dump.old.subject.design) dump.old.clock upto changed.now }
    requires same { kept.old.subject ≡ dump.old.subject }
    requires here { kept.old.clock ≡ dump.old.clock }
    ensures dumped { dump.new.subject ≡ dump.old.subject }
    ensures timed { OnOk result (dump.new.clock ≡ upto) }
    ensures subject { OnOk result (kept.new.subject ≡ kept.old.subject) }
    ensures given { OnOk result (kept.new.given ≡ kept.old.given) }
    ensures clock { OnOk result (kept.new.clock ≡ upto) }
{
    format_window(dump, changed, upto)?;
    kept.grow_by(dump, upto)
}
