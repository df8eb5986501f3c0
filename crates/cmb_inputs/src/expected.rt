//! What a table expects of a design's run.

ghost use Rattle.std.specs.Prelude.{◌≤◌, length, All, IfOk, IfErr};
ghost use Rattle.cmb_design_model.specs.Expected.{IsWithin};
ghost use Rattle.cmb_io.specs.Sources.{input_limit};
ghost use Rattle.cmb_inputs.specs.Expected.{AreExpected, AreUnexpected};

use cmb_design_model::{Design, Expected, expected_rows};
use cmb_design_tables::read_stimuli;
use cmb_faults::Fault;
use cmb_netlist::MAX_TEXT;
use std::alloc::Global;

/// What a table expects of a design's run, row by row: the first fault of its records, as `read_stimuli` finds it (23,
/// 24, 25, 31), else of its rows, in order, each by 26, 29 and 39; 70 where memory was refused.
pub fn expected_in(alloc: Global, design: &Design, table: &[u8]) -> Result<Vec<Expected>, Fault>
    requires { length table.now ≤ input_limit }
    ensures expected { IfOk result (λ rows. AreExpected design.now table.now rows.items) }
    ensures within { IfOk result (λ rows. All (IsWithin design.now) rows.items) }
    ensures few { IfOk result (λ rows. length rows.items ≤ MAX_TEXT) }
    ensures fault { IfErr result (AreUnexpected design.now table.now) }
{
    let rows = read_stimuli(alloc, table)?;
    let expected = expected_rows(alloc, design, &rows)?;
    Ok(expected)
}
