//! What was expected of a run, compared with the part of it on which that depends.

ghost use Rattle.std.specs.Prelude.{◌≡◌, ◌^◌, ◌<◌, length, map, count_by, All, IfOk};
ghost use Rattle.cmb_design_model.specs.Expected.{IsWithin};
ghost use Rattle.cmb_design_model.specs.Exact.{nets_of};
ghost use Rattle.cmb_chosen.specs.Inner.Levels.{AreLevelsAt, AreRenumbered};
ghost use Rattle.cmb_expect.specs.Expectations.{differs};
ghost use Rattle.cmb_expect.specs.Texts.{difference_table};

use crate::part::part_of;
use cmb_design_model::{Design, Expected};
use cmb_expect::{Differences, differing_rows, levels_found};
use cmb_wave::Level;
use std::alloc::{AllocError, Global};

// The nets of rows, in their order.
fn nets_named(alloc: Global, rows: &[Expected]) -> Result<Vec<u32>, AllocError>
    ensures { IfOk result (λ nets. nets.items ≡ map (λ row. row.net) rows.now) }
{
    rows.iter().map(|row| row.net).collect(alloc)
}

// The rows with these numbers of their nets.
fn renumbered(alloc: Global, rows: &[Expected], nets: &[u32]) -> Result<Vec<Expected>, AllocError>
    requires { length nets.now ≡ length rows.now }
    ensures { IfOk result (λ placed. AreRenumbered rows.now nets.now (length rows.now) placed.items) }
{
    let mut placed = Vec::with_capacity(alloc, rows.len())?;
    for i in 0..rows.len() {
        placed.push(Expected {
            tick: rows[i].tick,
            net: nets[i],
            level: rows[i].level,
        })?;
    }
    Ok(placed)
}

// The levels that these nets have at the rows' ticks.
fn levels_at(
    alloc: Global,
    design: &Design,
    nets: &[u32],
    rows: &[Expected],
) -> Result<Vec<Level>, AllocError>
    requires nets { All (λ net. net < nets_of design.now) nets.now }
    requires count { length nets.now ≡ length rows.now }
    requires ticks { All (λ row. row.tick < design.now.horizon) rows.now }
    requires few { length rows.now < 2 ^ 32 }
    ensures { IfOk result (λ levels. AreLevelsAt design.now nets.now rows.now levels.items) }
{
    let placed = renumbered(alloc, rows, nets)?;
    levels_found(alloc, design, &placed)
}

/// The rows that differ from a design's run, as `differing_rows` tells them. Only nets on which that of a row depends
/// are simulated. Errors: memory was refused.
pub fn expected_differences(
    alloc: Global,
    design: &Design,
    rows: &[Expected],
) -> Result<Differences, AllocError>
    requires rows { All (IsWithin design.now) rows.now }
    requires few { length rows.now < 2 ^ 32 }
    ensures text { IfOk result (λ told. told.text.items ≡ difference_table design.now rows.now) }
    ensures count { IfOk result (λ told. told.count ≡ count_by (differs design.now) rows.now) }
{
    let nets = nets_named(alloc, rows)?;
    let part = part_of(alloc, design, &nets)?;
    let found = levels_at(alloc, &part.design, &part.nets, rows);
    drop(part);
    differing_rows(alloc, design, rows, &found?)
}
