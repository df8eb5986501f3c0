//! The rows of a design that another netlist can use.

ghost use Rattle.std.specs.Prelude.{◌≡◌, Bool, IfOk};
ghost use Rattle.std.specs.List.{filter};
ghost use Rattle.cmb_design_model.specs.Part.{has_delayed, has_net};

use crate::rows::{ClockRow, DelayRow, Delayed, InitialRow, Row, Rows, StimulusRow};
use cmb_netlist::{Name, Netlist};
use std::alloc::{AllocError, Global};

fn knows(netlist: &Netlist, name: &Name) -> bool
    ensures { result ≡ has_net netlist.now name.now }
{
    netlist.number(name.as_bytes()).is_some()
}

fn knows_delayed(netlist: &Netlist, what: &Delayed) -> bool
    ensures { result ≡ has_delayed netlist.now what.now }
{
    match what {
        Delayed::Pin(name, _) => knows(netlist, name),
        Delayed::Net(name) => knows(netlist, name),
        Delayed::Kind(_) => true,
    }
}

fn copy_name(alloc: Global, name: &Name) -> Result<Name, AllocError>
    ensures { IfOk result (λ copy. copy ≡ name.now) }
{
    Name::new(alloc, name.as_bytes())
}

fn copy_delayed(alloc: Global, what: &Delayed) -> Result<Delayed, AllocError>
    ensures { IfOk result (λ copy. copy ≡ what.now) }
{
    match what {
        Delayed::Pin(name, pin) => {
            let copy = copy_name(alloc, name)?;
            Ok(Delayed::Pin(copy, *pin))
        }
        Delayed::Net(name) => {
            let copy = copy_name(alloc, name)?;
            Ok(Delayed::Net(copy))
        }
        Delayed::Kind(cell) => Ok(Delayed::Kind(*cell)),
    }
}

/// A row of which a part of a netlist may have no use.
pub(crate) trait PartRow: Row {
    ghost use Rattle.cmb_netlist.specs.Netlist.{Netlist};

    ghost is_of: { Netlist → Self → Bool };

    /// Whether the row is about no net that the netlist lacks.
    fn is_of(&self, netlist: &Netlist) -> bool
        ensures { result ≡ is_of netlist.now self.now };

    fn copy(&self, alloc: Global) -> Result<Self, AllocError>
        ensures { IfOk result (λ copy. copy ≡ self.now) };
}

impl PartRow for DelayRow {
    ghost is_of = { λ netlist row. has_delayed netlist row.what };

    fn is_of(&self, netlist: &Netlist) -> bool {
        knows_delayed(netlist, &self.what)
    }

    fn copy(&self, alloc: Global) -> Result<Self, AllocError> {
        Ok(DelayRow {
            what: copy_delayed(alloc, &self.what)?,
            delay: self.delay,
        })
    }
}

impl PartRow for StimulusRow {
    ghost is_of = { λ netlist row. has_net netlist row.net };

    fn is_of(&self, netlist: &Netlist) -> bool {
        knows(netlist, &self.net)
    }

    fn copy(&self, alloc: Global) -> Result<Self, AllocError> {
        Ok(StimulusRow {
            tick: self.tick,
            net: copy_name(alloc, &self.net)?,
            level: self.level,
        })
    }
}

impl PartRow for ClockRow {
    ghost is_of = { λ netlist row. has_net netlist row.net };

    fn is_of(&self, netlist: &Netlist) -> bool {
        knows(netlist, &self.net)
    }

    fn copy(&self, alloc: Global) -> Result<Self, AllocError> {
        Ok(ClockRow {
            net: copy_name(alloc, &self.net)?,
            first: self.first,
            period: self.period,
        })
    }
}

impl PartRow for InitialRow {
    ghost is_of = { λ netlist row. has_net netlist row.net };

    fn is_of(&self, netlist: &Netlist) -> bool {
        knows(netlist, &self.net)
    }

    fn copy(&self, alloc: Global) -> Result<Self, AllocError> {
        Ok(InitialRow {
            net: copy_name(alloc, &self.net)?,
            level: self.level,
        })
    }
}

/// The rows of a table that are about no net which the netlist lacks.
pub(crate) fn rows_on<R: PartRow>(
    alloc: Global,
    netlist: &Netlist,
    rows: &Rows<R>,
) -> Result<Rows<R>, AllocError>
    ensures { IfOk result (λ kept. kept ≡ filter (R.is_of netlist.now) rows.now) }
{
    let mut kept = Vec::new(alloc);
    let all = rows.as_slice();
    for row in all {
        if row.is_of(netlist) {
            kept.push(row.copy(alloc)?)?;
        }
    }
    Ok(Rows::new(kept))
}
