//! The gate functions on worked examples.

use crate::checks::same;
use cmb_design_model::gate;
use cmb_netlist::Kind;
use cmb_wave::Level;

// The gate's level, where the kind may have so many operands.
fn level_of(kind: Kind, levels: &[Level]) -> Option<Level> {
    if levels.is_empty() {
        return None;
    }
    match kind {
        Kind::And => Some(gate(Kind::And, levels)),
        Kind::Nand => Some(gate(Kind::Nand, levels)),
        Kind::Or => Some(gate(Kind::Or, levels)),
        Kind::Nor => Some(gate(Kind::Nor, levels)),
        Kind::Xor => Some(gate(Kind::Xor, levels)),
        Kind::Xnor => Some(gate(Kind::Xnor, levels)),
        Kind::Not if levels.len() == 1 => Some(gate(Kind::Not, levels)),
        Kind::Buff if levels.len() == 1 => Some(gate(Kind::Buff, levels)),
        Kind::Not | Kind::Buff => None,
    }
}

#[test]
fn gate_tables(rt: HostRuntime) {
    let (zero, one, x) = (Level::Zero, Level::One, Level::X);
    for (kind, levels, want) in [
        (Kind::And, [x, zero].as_slice(), zero),
        (Kind::Nand, [x, one].as_slice(), x),
        (Kind::Or, [x, one].as_slice(), one),
        (Kind::Nor, [zero, zero].as_slice(), one),
        (Kind::Xor, [one, one, one].as_slice(), one),
        (Kind::Xnor, [one, zero].as_slice(), zero),
        (Kind::Not, [x].as_slice(), x),
        (Kind::Buff, [zero].as_slice(), zero),
        (Kind::And, [one].as_slice(), one),
    ] {
        same(&rt, level_of(kind, levels), Some(want));
    }
}
