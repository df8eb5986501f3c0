//! The text of a collector's waves.

ghost use Rattle.std.specs.Prelude.{◌≡◌, ◌++◌, ◌<◌, ◌≤◌, ℕ, length, IfOk, OnOk};
ghost use Rattle.std.specs.List.{All};
ghost use Rattle.cmb_wave.specs.Waveform.{level_at};
ghost use Rattle.cmb_run_text.specs.Collector.{IsComplete, IsExactFor, IsFor, collected_level};
ghost use Rattle.cmb_run_text.specs.Inner.ValueChanges.{value_changes_in, ticks_told};
ghost use Rattle.cmb_run_text.specs.Between.{end_line};
ghost use Rattle.cmb_run_text.specs.Inner.Ticks.{IsWithin, span_lines};
ghost use Rattle.cmb_run_text.specs.Vcd.{level_lines, text_of, tick_text, vcd};

use crate::collector::Collector;
use crate::lines::{push_header, push_tick};
use crate::ready_codes::Codes;
use crate::ticks::{by_ticks, count_of, push_by_ticks};
use crate::value_changes::{
    NetChanges, gather, net_changes_within, push_value_changes, sort_value_changes,
};
use cmb_design_model::Design;
use cmb_netlist::MAX_NETS;
use cmb_wave::{Level, Wave};
use std::alloc::{AllocError, Global};

// The bytes of a level, a code of three digits, and the line's end.
const LONGEST_LINE: usize = 5;

// A count clears a place for each tick of a span, so it pays from one change in so many ticks on.
const TICKS_A_CHANGE: u32 = 8;

// The level of a wave at tick 0.
fn first_level(wave: &Wave) -> Level
    ensures { result ≡ level_at wave.now.kept wave.now.changes 0 }
{
    match wave.changes().first() {
        Some(change) if change.tick == 0 => change.level,
        _ => wave.kept(),
    }
}

fn push_levels(out: &mut Vec<u8>, codes: &Codes, waves: &[Wave]) -> Result<(), AllocError>
    requires few { length waves.now ≤ MAX_NETS }
    ensures { OnOk result (out.new.items
        ≡ out.old.items ++ level_lines (collected_level waves.now) 0 0 (length waves.now)) }
{
    for net in 0..waves.len() {
        codes.push(out, first_level(&waves[net]), net as u16)?;
    }
    Ok(())
}

// The lines of tick 0.
#[tactic(auto, unfolding(crate::specs::Vcd::tick_text))]
fn push_first(out: &mut Vec<u8>, codes: &Codes, waves: &[Wave]) -> Result<(), AllocError>
    requires few { length waves.now ≤ MAX_NETS }
    ensures { OnOk result (out.new.items
        ≡ out.old.items ++ tick_text (length waves.now) (collected_level waves.now) 0) }
{
    push_tick(out, 0)?;
    out.extend_from_slice(b"$dumpvars\n")?;
    push_levels(out, codes, waves)?;
    out.extend_from_slice(b"$end\n")
}

// The lines of changes, which are sorted by comparison: for few changes in a long span of ticks.
fn push_compared(out: &mut Vec<u8>, codes: &Codes, parts: &[NetChanges]) -> Result<(), AllocError>
    ensures { (from to : ℕ) → 0 < from → from ≤ to → All (IsWithin from to) (value_changes_in parts.now)
        → OnOk result (out.new.items ≡ out.old.items ++ span_lines (value_changes_in parts.now) from to) }
{
    let mut events = gather(*out.allocator(), parts)?;
    sort_value_changes(&mut events)?;
    push_value_changes(out, codes, 0, events.as_slice())
}

// The lines of changes at the ticks of [from, to), of which there are so many: a count of each tick sorts them.
fn push_counted(
    out: &mut Vec<u8>,
    codes: &Codes,
    parts: &[NetChanges],
    from: u32,
    to: u32,
    count: u32,
) -> Result<(), AllocError>
    requires order { from ≤ to }
    requires inside { All (IsWithin from to) (value_changes_in parts.now) }
    requires count { count ≡ length (value_changes_in parts.now) }
    ensures { OnOk result (out.new.items ≡ out.old.items ++ span_lines (value_changes_in parts.now) from to) }
{
    out.reserve(count as usize * LONGEST_LINE)?;
    let sorted = by_ticks(*out.allocator(), parts, from, to, count)?;
    push_by_ticks(out, codes, from, &sorted.ends, &sorted.marks)
}

// The lines of the ticks of [from, to), of which none is tick 0. Work goes by changes, not by ticks.
fn push_later(
    out: &mut Vec<u8>,
    codes: &Codes,
    waves: &[Wave],
    from: u32,
    to: u32,
) -> Result<(), AllocError>
    requires late { 0 < from }
    requires order { from ≤ to }
    requires few { length waves.now ≤ MAX_NETS }
    ensures { OnOk result (out.new.items ≡ out.old.items ++ ticks_told waves.now from to) }
{
    let parts = net_changes_within(*out.allocator(), waves, from, to)?;
    match count_of(&parts) {
        Some(count) if count >= (to - from) / TICKS_A_CHANGE => push_counted(
            out, codes, &parts, from, to, count,
        ),
        _ => push_compared(out, codes, &parts),
    }
}

// The lines of the ticks of [from, to).
fn push_ticks(
    out: &mut Vec<u8>,
    codes: &Codes,
    waves: &[Wave],
    from: u32,
    to: u32,
) -> Result<(), AllocError>
    requires order { from ≤ to }
    requires few { length waves.now ≤ MAX_NETS }
    ensures { OnOk result (out.new.items ≡ out.old.items ++ ticks_told waves.now from to) }
{
    if from == to {
        return Ok(());
    }
    if from != 0 {
        return push_later(out, codes, waves, from, to);
    }
    push_first(out, codes, waves)?;
    push_later(out, codes, waves, 1, to)
}

/// The last line, where it comes after the tick `from` and by the tick `upto`.
pub fn push_end(out: &mut Vec<u8>, horizon: u32, from: u32, upto: u32) -> Result<(), AllocError>
    ensures { OnOk result (out.new.items ≡ out.old.items ++ end_line horizon from upto) }
{
    if from < horizon && upto >= horizon {
        return push_tick(out, horizon);
    }
    Ok(())
}

/// What the text gains when the levels are known up to `upto`, where they were known up to `from`.
pub(crate) fn push_part(
    out: &mut Vec<u8>,
    codes: &Codes,
    waves: &[Wave],
    horizon: u32,
    from: u32,
    upto: u32,
) -> Result<(), AllocError>
    requires order { from ≤ upto }
    requires few { length waves.now ≤ MAX_NETS }
    ensures { OnOk result (out.new.items
        ≡ out.old.items ++ (ticks_told waves.now from upto ++ end_line horizon from upto)) }
{
    push_ticks(out, codes, waves, from, upto)?;
    push_end(out, horizon, from, upto)
}

/// The text of a complete collector: that of the levels which its waves tell.
pub fn vcd_text(
    alloc: Global,
    design: &Design,
    collector: &Collector,
) -> Result<Vec<u8>, AllocError>
    requires opened { IsFor design.now collector.now }
    requires complete { IsComplete collector.now }
    ensures text { IfOk result (λ text.
        text.items ≡ text_of design.now.netlist.names design.now.horizon (collected_level collector.now.waves)) }
    ensures exact { IsExactFor design.now collector.now → IfOk result (λ text. text.items ≡ vcd design.now) }
{
    let horizon = design.horizon();
    let codes = Codes::new(alloc, design.netlist().len() as u16)?;
    let mut text = Vec::new(alloc);
    push_header(&mut text, design.netlist())?;
    push_part(&mut text, &codes, collector.waves(), horizon, 0, horizon)?;
    Ok(text)
}
