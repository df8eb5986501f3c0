//! The rows in the order of their ticks.

ghost use Rattle.std.specs.Prelude.{◌<◌, ◌^◌, IfOk, length};
ghost use Rattle.cmb_expect.specs.Inner.Probes.{AreProbes};

use cmb_design_model::Expected;
use std::alloc::{AllocError, Global};

/// A row's tick and net, and its place in the table.
#[derive(Clone, Copy)]
pub(crate) struct Probe {
    pub tick: u32,
    pub net: u32,
    pub place: u32,
}

/// The probes of the rows, by rising tick.
pub(crate) fn probes_of(alloc: Global, rows: &[Expected]) -> Result<Vec<Probe>, AllocError>
    requires { length rows.now < 2 ^ 32 }
    ensures { IfOk result (λ probes. AreProbes rows.now probes.items) }
{
    let mut probes = Vec::with_capacity(alloc, rows.len())?;
    for (place, row) in rows.iter().enumerate() {
        probes.push(Probe {
            tick: row.tick,
            net: row.net,
            place: place as u32,
        })?;
    }
    probes.sort_by_key(|probe| probe.tick)?;
    Ok(probes)
}
