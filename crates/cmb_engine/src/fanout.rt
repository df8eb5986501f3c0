//! The fanout of slots: who is to be visited where a slot has another word.

ghost use Rattle.std.specs.Prelude.{◌≡◌, ℕ, ◌^◌, ◌<◌, All, IfOk, length, map, slice_index_or};
ghost use Rattle.cmb_engine.specs.Inner.Cells.{Told, cell_at, is_flop, is_gate, pins_of, readers_at};
ghost use Rattle.cmb_engine.specs.Inner.Cells.{AreFanout, AreLists};
ghost use Rattle.cmb_engine.specs.Inner.Orders.{IsOrder, rank_in};

use crate::cells::Cells;
use crate::nodes::Nodes;
use crate::order::{Order, order_of};
use crate::readers::{Numbers, Readers, flop_readers, gate_readers};
use std::alloc::{AllocError, Global};

/// In which order slots are visited, what visits read, and for each slot the ranks of the gates and those of the
/// flip-flops that read it. All stand in the order of visits: so what is visited one after another stands side by side.
#[derive(Drop)]
pub(crate) struct Fanout {
    pub order: Order,
    pub nodes: Nodes,
    pub gates: Readers,
    pub flops: Readers,
}

impl Fanout {
    /// The ranks of the gates that read a slot.
    #[inline]
    pub(crate) fn gates_of(&self, slot: usize) -> &[u32]
        requires { rank_in self.now.order slot < length self.now.gates }
        ensures { result.now ≡ readers_at self.now.order self.now.gates slot }
    {
        self.gates.of(self.order.rank(slot) as usize)
    }
}

// The fanout of the slots of cells, of which the gates and the flip-flops that read each slot are listed.
fn fanout_by(
    alloc: Global,
    cells: &Cells,
    gates: &[Numbers],
    flops: &[Numbers],
) -> Result<Fanout, AllocError>
    requires few { length cells.now < 2 ^ 32 }
    requires gates { AreLists is_gate cells.now (map (λ list. list.items) gates.now) }
    requires flops { AreLists is_flop cells.now (map (λ list. list.items) flops.now) }
    ensures ordered { IfOk result (λ fanout. IsOrder fanout.order) }
    ensures ranked { IfOk result (λ fanout. length fanout.order.ranks ≡ length cells.now) }
    ensures slots { IfOk result (λ fanout. fanout.nodes.slots ≡ fanout.order.slots) }
    ensures nodes { IfOk result (λ fanout. fanout.nodes.cells ≡ map (cell_at cells.now) fanout.order.slots) }
    ensures gates { IfOk result (λ fanout. AreFanout is_gate cells.now fanout.order fanout.gates) }
    ensures flops { IfOk result (λ fanout. AreFanout is_flop cells.now fanout.order fanout.flops) }
{
    let order = order_of(alloc, cells, gates, flops)?;
    let Ok(nodes) = Nodes::of(alloc, cells, order.slots()) else {
        drop(order);
        return Err(AllocError);
    };
    let Ok(gates) = Readers::ranked(alloc, gates, &order) else {
        drop((order, nodes));
        return Err(AllocError);
    };
    let Ok(flops) = Readers::ranked(alloc, flops, &order) else {
        drop((order, nodes, gates));
        return Err(AllocError);
    };
    Ok(Fanout {
        order,
        nodes,
        gates,
        flops,
    })
}

/// The fanout of the slots of cells.
pub(crate) fn fanout_of(alloc: Global, cells: &Cells) -> Result<Fanout, AllocError>
    requires few { length cells.now < 2 ^ 32 }
    requires pins { (net : ℕ) → net < length cells.now
        → All (λ pin. pin.net < length cells.now) (pins_of (slice_index_or cells.now net Told)) }
    ensures ordered { IfOk result (λ fanout. IsOrder fanout.order) }
    ensures ranked { IfOk result (λ fanout. length fanout.order.ranks ≡ length cells.now) }
    ensures slots { IfOk result (λ fanout. fanout.nodes.slots ≡ fanout.order.slots) }
    ensures nodes { IfOk result (λ fanout. fanout.nodes.cells ≡ map (cell_at cells.now) fanout.order.slots) }
    ensures gates { IfOk result (λ fanout. AreFanout is_gate cells.now fanout.order fanout.gates) }
    ensures flops { IfOk result (λ fanout. AreFanout is_flop cells.now fanout.order fanout.flops) }
{
    let gates = gate_readers(alloc, cells)?;
    let Ok(flops) = flop_readers(alloc, cells) else {
        drop(gates);
        return Err(AllocError);
    };
    let fanout = fanout_by(alloc, cells, &gates, &flops);
    drop((gates, flops));
    fanout
}
