//! The clocks by which flip-flops sample.

ghost use Rattle.std.specs.Prelude.{◌≡◌, ◌||◌, ◌+◌, if◌then◌else◌, IfOk, OnOk};
ghost use Rattle.std.specs.BTreeSet.{btree_set_len};
ghost use Rattle.cmb_design_model.specs.declared.rows.Clock.{Clock as AnyClock};
ghost use Rattle.cmb_count.specs.Clocks.{clock_count, same_clock};
ghost use Rattle.cmb_count.specs.Inner.ClockSets.{has_clock};

use crate::drivers::{DriverKind, has_kind};
use cmb_design_model::{Clock, Design};
use std::alloc::{AllocError, Global};
use std::collections::BTreeSet;

/// Whether two clocks have the same ticks.
pub(crate) fn is_same(one: Clock, other: Clock) -> bool
    ensures { result ≡ same_clock one other }
{
    one.first == other.first && one.period == other.period
}

// Adds a clock, unless it is there.
fn note_clock(clocks: &mut BTreeSet<(u32, u32)>, clock: Clock) -> Result<(), AllocError>
    ensures found { OnOk result ((other : AnyClock) → has_clock clocks.new other
        ≡ (has_clock clocks.old other || same_clock other clock)) }
    ensures long { OnOk result (btree_set_len clocks.new
        ≡ btree_set_len clocks.old + (if has_clock clocks.old clock then 0 else 1)) }
{
    clocks.insert((clock.first, clock.period))?;
    Ok(())
}

/// By how many different clocks the flip-flops sample.
pub fn count_clocks(alloc: Global, design: &Design) -> Result<usize, AllocError>
    ensures { IfOk result (λ count. count ≡ clock_count design.now) }
{
    let mut clocks = BTreeSet::new(alloc);
    for net in 0..design.netlist().len() {
        if has_kind(&DriverKind::Flops, design.netlist().driver(net)) {
            note_clock(&mut clocks, design.clock(net))?;
        }
    }
    Ok(clocks.len())
}
