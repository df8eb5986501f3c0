//! The part of a design that chosen nets need.

ghost use Rattle.std.specs.Prelude.{◌≡◌, ◌<◌, ℕ, length, slice_index, All, IfOk};
ghost use Rattle.cmb_activity.specs.Texts.{activity_table};
ghost use Rattle.cmb_chosen.specs.Parts.{IsPartOf};
ghost use Rattle.cmb_design_model.specs.Exact.{nets_of};
ghost use Rattle.cmb_design_model.specs.Value.{value};
ghost use Rattle.cmb_dump.specs.Shown.{AreAmong};
ghost use Rattle.cmb_run_text.specs.Chosen.{vcd_of};

use cmb_cone::{closure, places_in, restrict};
use cmb_design_model::Design;
use std::alloc::{AllocError, Global};
use std::marker::Model;

/// The part of a design on which chosen nets depend, and the numbers there of the chosen nets, in their order. It has
/// no net that no chosen one needs.
#[derive(Drop)]
pub struct Part {
    pub design: Design,
    pub nets: Vec<u32>,
}

impl Model for Part {
    ghost use Rattle.cmb_chosen.specs.Parts.{IsPruned, Part};

    ghost Value = { Part };

    ghost view = { λ part. record { design = part.design; nets = part.nets.items } };

    ghost invariant = { λ part. IsPruned part.design.netlist part.nets.items };
}

/// The least part of a design that has the chosen nets, and with each net those that its value rule asks for. The
/// chosen nets have the same levels and the same text there, and are as active; they rise where they rise in the whole.
pub fn part_of(alloc: Global, design: &Design, chosen: &[u32]) -> Result<Part, AllocError>
    requires { All (λ net. net < nets_of design.now) chosen.now }
    ensures part { IfOk result (λ part. IsPartOf design.now chosen.now part.design part.nets) }
    ensures within { IfOk result (λ part. All (λ net. net < nets_of part.design) part.nets) }
    ensures among { IfOk result (λ part. AreAmong (nets_of design.now) chosen.now
        → AreAmong (nets_of part.design) part.nets) }
    ensures count { IfOk result (λ part. length part.nets ≡ length chosen.now) }
    ensures levels { IfOk result (λ part. (i tick : ℕ) → i < length chosen.now
        → value part.design (slice_index part.nets i) tick ≡ value design.now (slice_index chosen.now i) tick) }
    ensures text { IfOk result (λ part. vcd_of part.design part.nets ≡ vcd_of design.now chosen.now) }
    ensures activity { IfOk result (λ part.
        activity_table part.design part.nets ≡ activity_table design.now chosen.now) }
{
    let count = design.netlist().len();
    let nets = closure(alloc, design.netlist(), chosen)?;
    let part = restrict(alloc, design, &nets)?;
    // The proof learns here that the part's netlist is lawful.
    let netlist = part.netlist();
    let _kept = netlist.len();
    let Ok(places) = places_in(alloc, count, &nets, chosen) else {
        drop(part);
        return Err(AllocError);
    };
    Ok(Part {
        design: part,
        nets: places,
    })
}
