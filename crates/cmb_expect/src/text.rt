//! The rows that differ, as a table of comma-separated values.

ghost use Rattle.std.specs.Prelude.{◌≡◌, ◌^◌, ◌<◌, ◌++◌, length, map, not, All, IfOk, OnOk, count_by, decimal};
ghost use Rattle.cmb_wave.specs.Waveform.{same_level};
ghost use Rattle.cmb_wave.specs.declared.level.Level.{Level};
ghost use Rattle.cmb_design_model.specs.Exact.{nets_of};
ghost use Rattle.cmb_design_model.specs.Expected.{IsWithin};
ghost use Rattle.cmb_design_model.specs.declared.expected.Expected.{Expected};
ghost use Rattle.cmb_expect.specs.Expectations.{differs, level_found};
ghost use Rattle.cmb_expect.specs.Texts.{difference_table, level_field, line, line_of};

use cmb_activity::push_field;
use cmb_design_model::{Design, Expected};
use cmb_run_text::lines::byte_of;
use cmb_wave::Level;
use itoa::Buffer;
use std::alloc::{AllocError, Global};

/// The rows of a table of expectations that differ from a run.
#[derive(Drop)]
pub struct Differences {
    /// A line for each, under a header.
    pub text: Vec<u8>,
    /// How many they are.
    pub count: u32,
}

// A level behind a comma.
fn push_level(text: &mut Vec<u8>, level: Level) -> Result<(), AllocError>
    ensures { OnOk result (text.new.items ≡ text.old.items ++ level_field level) }
{
    text.push(b',')?;
    text.push(byte_of(level))?;
    Ok(())
}

// A tick.
fn push_tick(text: &mut Vec<u8>, tick: u32) -> Result<(), AllocError>
    ensures { OnOk result (text.new.items ≡ text.old.items ++ decimal tick) }
{
    let mut digits = Buffer::new();
    text.extend_from_slice(digits.format(tick).as_bytes())
}

// The line of a row that differs.
fn push_line(
    text: &mut Vec<u8>,
    tick: u32,
    name: &[u8],
    expected: Level,
    found: Level,
) -> Result<(), AllocError>
    ensures { OnOk result (text.new.items ≡ text.old.items ++ line tick name.now expected found) }
{
    push_tick(text, tick)?;
    text.push(b',')?;
    push_field(text, name)?;
    push_level(text, expected)?;
    push_level(text, found)?;
    text.push(b'\n')?;
    Ok(())
}

// Whether two levels aren't one.
fn is_other(expected: Level, found: Level) -> bool
    ensures { result ≡ not (same_level expected found) }
{
    expected != found
}

// The line of a row, if it differs, where this level was found.
fn push_row(
    text: &mut Vec<u8>,
    design: &Design,
    row: Expected,
    found: Level,
) -> Result<(), AllocError>
    requires net { row.net < nets_of design.now }
    requires found { found ≡ level_found design.now row }
    ensures { OnOk result (text.new.items ≡ text.old.items ++ line_of design.now row) }
{
    if !is_other(row.level, found) {
        return Ok(());
    }
    push_line(
        text,
        row.tick,
        design.netlist().name(row.net as usize),
        row.level,
        found,
    )
}

// How many rows differ, where these levels were found.
fn count_others(rows: &[Expected], found: &[Level]) -> u32
    requires few { length rows.now < 2 ^ 32 }
    requires all { length found.now ≡ length rows.now }
    ensures { (level : Expected → Level) → found.now ≡ map level rows.now
        → result ≡ count_by (λ row. not (same_level row.level (level row))) rows.now }
{
    let mut count = 0;
    for i in 0..rows.len() {
        count += u32::from(is_other(rows[i].level, found[i]));
    }
    count
}

// The table of the rows that differ, where these levels were found.
fn table_of(
    alloc: Global,
    design: &Design,
    rows: &[Expected],
    found: &[Level],
) -> Result<Vec<u8>, AllocError>
    requires rows { All (IsWithin design.now) rows.now }
    requires found { found.now ≡ map (level_found design.now) rows.now }
    ensures { IfOk result (λ text. text.items ≡ difference_table design.now rows.now) }
{
    let mut text = b"tick,net,expected,value\n".to_vec(alloc)?;
    for i in 0..rows.len() {
        push_row(&mut text, design, rows[i], found[i])?;
    }
    Ok(text)
}

/// The rows that differ from a design's run, where these levels were found: how many they are, and a table with the
/// header `tick,net,expected,value` and a line for each, in their order. Errors: memory was refused.
pub fn differing_rows(
    alloc: Global,
    design: &Design,
    rows: &[Expected],
    found: &[Level],
) -> Result<Differences, AllocError>
    requires rows { All (IsWithin design.now) rows.now }
    requires few { length rows.now < 2 ^ 32 }
    requires found { found.now ≡ map (level_found design.now) rows.now }
    ensures text { IfOk result (λ told. told.text.items ≡ difference_table design.now rows.now) }
    ensures count { IfOk result (λ told. told.count ≡ count_by (differs design.now) rows.now) }
{
    let text = table_of(alloc, design, rows, found)?;
    let count = count_others(rows, found);
    Ok(Differences { text, count })
}
