//! The plan of a design: a cell for each net, and lines for pins with long delays.

ghost use Rattle.std.specs.Prelude.{◌≡◌, ◌+◌, ◌^◌, ◌<◌, ◌≤◌, [], All, IfOk, OnOk, length};
ghost use Rattle.std.specs.List.{AllZip};
ghost use Rattle.cmb_netlist.specs.Netlist.{driver_of, pins_of, IsNetlist};
ghost use Rattle.cmb_netlist.specs.declared.netlist.Driver.TheVariants as driver;
ghost use Rattle.cmb_design_model.specs.Exact.{nets_of};
ghost use Rattle.cmb_design_model.specs.Ranges.{IsDelay};
ghost use Rattle.cmb_engine.specs.Inner.Plans.{cell_as, cell_in, pins_from};
ghost use Rattle.cmb_engine.specs.Inner.Plans.{AreCells, AreLines, Grows, Pushes, StandsFor};
ghost use Rattle.cmb_engine.specs.Inner.Roles.{role_of, AreRoles};
ghost use Rattle.cmb_engine.specs.Inner.Traces.{IsPlan};

use crate::cell::Pin;
use crate::cells::Cells;
use crate::role::{Role, is_driven};
use cmb_design_model::{Clock, Design};
use cmb_netlist::{Driver, MAX_NETS};
use std::alloc::{AllocError, Global};

/// The longest delay with which a pin looks back in words.
const LONGEST_SHORT: u32 = 31;

/// The cells of a design's slots. Lines are slots behind the nets.
#[derive(Drop)]
pub(crate) struct CellPlan {
    pub cells: Cells,
    /// The net that each line shows, and how many ticks later.
    pub lines: Vec<Pin>,
    /// No pin of a cell looks back further.
    pub most: u32,
    /// How long a window is. No line is sooner.
    pub width: u32,
}

/// The lines of a plan while it is made.
#[derive(Drop)]
struct Lines {
    nets: usize,
    list: Vec<Pin>,
    // The longest delay of all other pins.
    most: u32,
    ghost lawful: { AreLines nets list.items most },
}

impl Lines {
    // No lines.
    fn new(alloc: Global, nets: usize) -> Lines
        requires { nets ≤ MAX_NETS }
        ensures nets { result.nets ≡ nets }
        ensures none { result.list.items ≡ [] }
    {
        Lines {
            nets,
            list: Vec::new(alloc),
            most: 1,
        }
    }

    // A pin that reads a new line.
    fn line(&mut self, wanted: Pin) -> Result<Pin, AllocError>
        requires net { wanted.net < self.old.nets }
        requires long { 32 ≤ wanted.delay }
        requires delay { wanted.delay ≤ 1000000 }
        ensures nets { self.new.nets ≡ self.old.nets }
        ensures grows { OnOk result (Grows self.old.list.items self.new.list.items self.old.most self.new.most) }
        ensures pin { IfOk result (StandsFor self.new.nets self.new.list.items self.new.most wanted) }
    {
        let slot = self.nets + self.list.len();
        if slot >= u32::MAX as usize {
            return Err(AllocError);
        }
        self.list.push(wanted)?;
        Ok(Pin {
            net: slot as u32,
            delay: 0,
        })
    }

    // A pin that sees what is wanted.
    fn pin(&mut self, wanted: Pin) -> Result<Pin, AllocError>
        requires net { wanted.net < self.old.nets }
        requires delay { IsDelay wanted.delay }
        ensures nets { self.new.nets ≡ self.old.nets }
        ensures grows { OnOk result (Grows self.old.list.items self.new.list.items self.old.most self.new.most) }
        ensures pin { IfOk result (StandsFor self.new.nets self.new.list.items self.new.most wanted) }
    {
        if wanted.delay > LONGEST_SHORT {
            return self.line(wanted);
        }
        self.most = self.most.max(wanted.delay);
        Ok(wanted)
    }
}

// The pins of a gate, in place of what `pins` had.
fn collect_pins(
    design: &Design,
    net: usize,
    operands: &[u32],
    lines: &mut Lines,
    pins: &mut Vec<Pin>,
) -> Result<(), AllocError>
    requires net { net < nets_of design.now }
    requires operands { operands.now ≡ pins_of (driver_of design.now.netlist net) }
    requires within { All (λ operand. operand < lines.old.nets) operands.now }
    ensures nets { lines.new.nets ≡ lines.old.nets }
    ensures grows { OnOk result (Grows lines.old.list.items lines.new.list.items lines.old.most lines.new.most) }
    ensures pins { OnOk result (AllZip
        (StandsFor lines.new.nets lines.new.list.items lines.new.most)
        (pins_from design.now net 1 operands.now)
        pins.new.items) }
{
    pins.clear();
    for (i, operand) in operands.iter().enumerate() {
        let pin = lines.pin(Pin {
            net: *operand,
            delay: design.delay(net, i + 1),
        })?;
        pins.push(pin)?;
    }
    Ok(())
}

// Adds the cell of a flip-flop. Where it reads a line, its samples are as many ticks later as the line is.
fn push_flop(
    design: &Design,
    net: usize,
    source: u32,
    lines: &mut Lines,
    cells: &mut Cells,
) -> Result<(), AllocError>
    requires net { net < nets_of design.now }
    requires driver { driver_of design.now.netlist net ≡ driver.Flop source }
    requires within { source < lines.old.nets }
    ensures nets { lines.new.nets ≡ lines.old.nets }
    ensures grows { OnOk result (Grows lines.old.list.items lines.new.list.items lines.old.most lines.new.most) }
    ensures cell { OnOk result (Pushes cells.old cells.new
        lines.new.nets lines.new.list.items lines.new.most
        (cell_in design.now net)) }
{
    let clock = design.clock(net);
    let delay = design.delay(net, 1);
    let pin = lines.pin(Pin { net: source, delay })?;
    let first = clock.first + (delay - pin.delay);
    cells.push_flop(Clock { first, ..clock }, pin)
}

// Adds the cell of a net; `pins` is room for its pins.
fn push_net(
    design: &Design,
    roles: &[Role],
    net: usize,
    lines: &mut Lines,
    pins: &mut Vec<Pin>,
    cells: &mut Cells,
) -> Result<(), AllocError>
    requires netlist { IsNetlist design.now.netlist }
    requires net { net < nets_of design.now }
    requires nets { lines.old.nets ≡ nets_of design.now }
    ensures nets { lines.new.nets ≡ lines.old.nets }
    ensures grows { OnOk result (Grows lines.old.list.items lines.new.list.items lines.old.most lines.new.most) }
    ensures cell { OnOk result (Pushes cells.old cells.new
        lines.new.nets lines.new.list.items lines.new.most
        (cell_as design.now net (role_of roles.now net))) }
{
    if !is_driven(roles, net) {
        return cells.push_told();
    }
    match design.netlist().driver(net) {
        Driver::Input => cells.push_told(),
        Driver::Gate(kind, operands) => {
            collect_pins(design, net, operands.as_slice(), lines, pins)?;
            cells.push_gate(*kind, pins.as_slice())
        }
        Driver::Flop(source) => push_flop(design, net, *source, lines, cells),
    }
}

// The cells of all nets.
fn net_cells(
    alloc: Global,
    design: &Design,
    roles: &[Role],
    lines: &mut Lines,
) -> Result<Cells, AllocError>
    requires { lines.old.nets ≡ nets_of design.now }
    ensures nets { lines.new.nets ≡ lines.old.nets }
    ensures cells { IfOk result (λ cells. AreCells design.now roles.now (nets_of design.now) cells
        lines.new.list.items lines.new.most) }
{
    let mut cells = Cells::with_capacity(alloc, design.netlist().len())?;
    let mut pins = Vec::new(alloc);
    for net in 0..design.netlist().len() {
        push_net(design, roles, net, lines, &mut pins, &mut cells)?;
    }
    Ok(cells)
}

// How long a window may be.
fn width_of(lines: &[Pin], most: u32) -> u32
    requires most { most ≤ 31 }
    requires lines { All (λ line. 32 ≤ line.delay) lines.now }
    ensures fits { result + most ≤ 63 }
    ensures wide { 32 ≤ result }
    ensures lines { All (λ line. result ≤ line.delay) lines.now }
{
    if lines.is_empty() { 63 - most } else { 32 }
}

/// The plan of a design.
pub(crate) fn plan_of(
    alloc: Global,
    design: &Design,
    roles: &[Role],
) -> Result<CellPlan, AllocError>
    requires { AreRoles design.now roles.now }
    ensures plan { IfOk result (λ plan. IsPlan design.now roles.now plan.lines.items plan.most plan.width plan.cells) }
    ensures few { IfOk result (λ plan. length plan.cells < 2 ^ 32) }
{
    let mut lines = Lines::new(alloc, design.netlist().len());
    let mut cells = net_cells(alloc, design, roles, &mut lines)?;
    cells.push_told_ones(lines.list.len())?;
    Ok(CellPlan {
        cells,
        width: width_of(&lines.list, lines.most),
        most: lines.most,
        lines: lines.list,
    })
}
