//! What is expected of a design's run, from the rows of a table.

ghost use Rattle.std.specs.Prelude.{◌≡◌, ◌+◌, ◌<◌, ◌≤◌, length, map, slice_index_or, take, All, None};
ghost use Rattle.std.specs.Prelude.{IfOk, IfErr, OnOk};
ghost use Rattle.cmb_design_model.specs.Checks.{IsFaultOf, checks_at, first_fault, rows_checks};
ghost use Rattle.cmb_design_model.specs.Expected.{IsWithin, expected_of};
ghost use Rattle.cmb_design_model.specs.Rows.{expected_row_checks};
ghost use Rattle.cmb_design_model.specs.declared.rows.StimulusRow.{StimulusRow};
ghost use Rattle.cmb_design_model.specs.Inner.Stimuli.{AreStimuli};

use crate::design::Design;
use crate::fault::DesignFault;
use crate::row_levels::RowLevels;
use crate::rows::{StimulusRow, StimulusRows};
use crate::stimuli::{no_levels, take_level};
use cmb_netlist::MAX_TEXT;
use cmb_wave::Level;
use std::alloc::Global;

/// What is expected of a run: that a net has a level at a tick.
#[derive(Clone, Copy, Debug, PartialEq, Eq)]
pub struct Expected {
    pub tick: u32,
    /// The number of the net.
    pub net: u32,
    /// x: that the net is x.
    pub level: Level,
}

// What the row with an index expects.
fn take_expected(
    alloc: Global,
    design: &Design,
    rows: &[StimulusRow],
    i: usize,
    likely: &mut usize,
    table: &mut Vec<RowLevels>,
) -> Result<Expected, DesignFault>
    requires within { i < length rows.now }
    requires few { length rows.now ≤ MAX_TEXT }
    requires so_far { AreStimuli design.now.netlist (take i rows.now) table.old.items }
    ensures checks { OnOk result
        (first_fault (checks_at (expected_row_checks design.now.netlist design.now.horizon) rows.now i) ≡ None) }
    ensures row { IfOk result (λ expected. (d : StimulusRow)
        → expected ≡ expected_of design.now.netlist (slice_index_or rows.now i d)) }
    ensures within { IfOk result (IsWithin design.now) }
    ensures table { OnOk result (AreStimuli design.now.netlist (take (i + 1) rows.now) table.new.items) }
    ensures err { IfErr result
        (IsFaultOf (checks_at (expected_row_checks design.now.netlist design.now.horizon) rows.now i)) }
{
    let net = take_level(alloc, design.netlist(), rows, i, likely, table)?;
    let row = &rows[i];
    if row.tick >= u64::from(design.horizon()) {
        return Err(DesignFault::BeyondHorizon(i as u32 + 2));
    }
    Ok(Expected {
        tick: row.tick as u32,
        net: net as u32,
        level: row.level,
    })
}

/// What the rows of a table expect of a design's run, in their order, or the first fault of the rows, each by 26, 29
/// and 39. A row has the form of a stimulus, and is of any net. `Memory` comes where a growth was refused.
pub fn expected_rows(
    alloc: Global,
    design: &Design,
    rows: &StimulusRows,
) -> Result<Vec<Expected>, DesignFault>
    ensures checks { OnOk result
        (first_fault (rows_checks (expected_row_checks design.now.netlist design.now.horizon) rows.now) ≡ None) }
    ensures rows { IfOk result (λ expected. expected.items ≡ map (expected_of design.now.netlist) rows.now) }
    ensures within { IfOk result (λ expected. All (IsWithin design.now) expected.items) }
    ensures few { IfOk result (λ expected. length expected.items ≤ MAX_TEXT) }
    ensures err { IfErr result
        (IsFaultOf (rows_checks (expected_row_checks design.now.netlist design.now.horizon) rows.now)) }
{
    let rows = rows.as_slice();
    let Ok(mut table) = no_levels(alloc, design.netlist().len()) else {
        return Err(DesignFault::Memory);
    };
    let Ok(mut all) = Vec::with_capacity(alloc, rows.len()) else {
        return Err(DesignFault::Memory);
    };
    let mut likely = 0;
    for i in 0..rows.len() {
        let expected = take_expected(alloc, design, rows, i, &mut likely, &mut table)?;
        if all.push(expected).is_err() {
            return Err(DesignFault::Memory);
        }
    }
    Ok(all)
}
