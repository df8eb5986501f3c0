//! The gate functions: Verilog's tables, restricted to 0, 1 and x.

ghost use Rattle.std.specs.Prelude.{◌≡◌, ◌%◌, ◌==◌, length, count_by};
ghost use Rattle.std.specs.List.{list_any, list_all};
ghost use Rattle.cmb_wave.specs.Waveform.{same_level};
ghost use Rattle.cmb_netlist.specs.Netlist.{MayTake};
ghost use Rattle.cmb_design_model.specs.Gate.{gate as gate_level, conjunction, disjunction, parity, inverse_of};

use cmb_netlist::Kind;
use cmb_wave::Level;

fn any_is(level: Level, levels: &[Level]) -> bool
    ensures { result ≡ list_any (same_level level) levels.now }
{
    levels.iter().any(|other| level == *other)
}

fn all_are(level: Level, levels: &[Level]) -> bool
    ensures { result ≡ list_all (same_level level) levels.now }
{
    levels.iter().all(|other| level == *other)
}

fn has_odd(level: Level, levels: &[Level]) -> bool
    ensures { result ≡ (count_by (same_level level) levels.now % 2 == 1) }
{
    levels.iter().filter(|other| level == **other).count() % 2 == 1
}

fn and(levels: &[Level]) -> Level
    ensures { result ≡ conjunction levels.now }
{
    if any_is(Level::Zero, levels) {
        Level::Zero
    } else if all_are(Level::One, levels) {
        Level::One
    } else {
        Level::X
    }
}

fn or(levels: &[Level]) -> Level
    ensures { result ≡ disjunction levels.now }
{
    if any_is(Level::One, levels) {
        Level::One
    } else if all_are(Level::Zero, levels) {
        Level::Zero
    } else {
        Level::X
    }
}

fn xor(levels: &[Level]) -> Level
    ensures { result ≡ parity levels.now }
{
    if any_is(Level::X, levels) {
        Level::X
    } else if has_odd(Level::One, levels) {
        Level::One
    } else {
        Level::Zero
    }
}

fn not(level: Level) -> Level
    ensures { result ≡ inverse_of level }
{
    match level {
        Level::Zero => Level::One,
        Level::One => Level::Zero,
        Level::X => Level::X,
    }
}

/// The level that a gate gives for the levels of its operands, of which NOT and BUFF have one and the others one or
/// more. The tables are those of IEEE 1364-2005, 7.2 and 7.3.
pub fn gate(kind: Kind, levels: &[Level]) -> Level
    requires { MayTake kind (length levels.now) }
    ensures { result ≡ gate_level kind levels.now }
{
    match kind {
        Kind::And => and(levels),
        Kind::Nand => not(and(levels)),
        Kind::Or => or(levels),
        Kind::Nor => not(or(levels)),
        Kind::Xor => xor(levels),
        Kind::Xnor => not(xor(levels)),
        Kind::Not => not(levels[0]),
        Kind::Buff => levels[0],
    }
}
