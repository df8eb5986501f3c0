//! The cells of a design's nets: a rule of each, and a list of the pins of all gates.

ghost use Rattle.std.specs.Prelude.{◌≡◌, ℕ, ◌+◌, ◌^◌, ◌<◌, ◌++◌, ◌∷◌, [], true, false, All, IfOk, OnOk};
ghost use Rattle.std.specs.Prelude.{MatchOption, length, map, replicate, slice_index_or};
ghost use Rattle.cmb_engine.specs.Inner.Cells.{Told, Gate, Flop};
ghost use Rattle.cmb_engine.specs.Inner.Cells.{cell_at, is_flop, is_gate, pins_of as pins_of_cell, reads, with_node};
ghost use Rattle.cmb_engine.specs.Inner.Cells.{AreBelow, IsListed};
ghost use Rattle.cmb_engine.specs.Inner.Tables.{IsInside, cell_of};

use crate::cell::Pin;
use crate::nodes::Nodes;
use crate::readers::{Numbers, push_pins};
use cmb_design_model::Clock;
use cmb_netlist::Kind;
use std::alloc::{AllocError, Global};
use std::marker::Model;

/// Where the pins of a gate stand among those of all.
#[derive(Clone, Copy)]
pub(crate) struct PinRange {
    pub first: u32,
    pub count: u32,
}

impl PinRange {
    /// The part at the end of a list to which so many items are about to be added.
    pub(crate) fn behind(length: usize, count: usize) -> Result<PinRange, AllocError>
        ensures { IfOk result (λ part. (part.first ≡ length) × (part.count ≡ count)) }
    {
        match (u32::try_from(length), u32::try_from(count)) {
            (Ok(first), Ok(count)) => Ok(PinRange { first, count }),
            _ => Err(AllocError),
        }
    }
}

/// How the word of a net comes about. Of a gate it says where the pins stand.
#[derive(Clone, Copy)]
pub(crate) enum Rule {
    Told,
    Gate(Kind, PinRange),
    Flop(Clock, Pin),
}

/// The cells of nets, by their numbers.
#[derive(Drop)]
pub(crate) struct Cells {
    rules: Vec<Rule>,
    pins: Vec<Pin>,
}

impl Model for Cells {
    ghost use Rattle.std.specs.Prelude.{List};
    ghost use Rattle.cmb_engine.specs.Inner.Cells.{Cell};
    ghost use Rattle.cmb_engine.specs.Inner.Tables.{cells_of, AreInside};

    ghost Value = { List Cell };

    ghost view = { λ cells. cells_of cells.pins.items cells.rules.items };

    ghost invariant = { λ cells. AreInside cells.pins.items cells.rules.items };
}

impl Cells {
    /// No cells, with room for so many.
    pub(crate) fn with_capacity(alloc: Global, count: usize) -> Result<Cells, AllocError>
        ensures { IfOk result (λ cells. cells ≡ []) }
    {
        Ok(Cells {
            rules: Vec::with_capacity(alloc, count)?,
            pins: Vec::new(alloc),
        })
    }

    // Adds a net with a rule that has all its pins in itself.
    #[tactic(auto, using(crate::proofs::TableFacts::own_inside, crate::proofs::TableFacts::own_cells))]
    fn push(&mut self, rule: Rule) -> Result<(), AllocError>
        requires { IsInside [] rule }
        ensures { OnOk result (self.new ≡ self.old ++ cell_of [] rule ∷ []) }
    {
        self.rules.push(rule)?;
        Ok(())
    }

    /// Adds a net whose word comes of events.
    pub(crate) fn push_told(&mut self) -> Result<(), AllocError>
        ensures { OnOk result (self.new ≡ self.old ++ Told ∷ []) }
    {
        self.push(Rule::Told)
    }

    /// Adds a flip-flop.
    pub(crate) fn push_flop(&mut self, clock: Clock, pin: Pin) -> Result<(), AllocError>
        ensures { OnOk result (self.new ≡ self.old ++ Flop clock pin ∷ []) }
    {
        self.push(Rule::Flop(clock, pin))
    }

    /// Adds a gate.
    pub(crate) fn push_gate(&mut self, kind: Kind, pins: &[Pin]) -> Result<(), AllocError>
        ensures { OnOk result (self.new ≡ self.old ++ Gate kind pins.now ∷ []) }
    {
        let part = PinRange::behind(self.pins.len(), pins.len())?;
        self.pins.extend_from_slice(pins)?;
        self.rules.push(Rule::Gate(kind, part))?;
        Ok(())
    }

    /// Adds so many nets whose words come of events.
    pub(crate) fn push_told_ones(&mut self, count: usize) -> Result<(), AllocError>
        ensures { OnOk result (self.new ≡ self.old ++ replicate count Told) }
    {
        for _ in 0..count {
            self.push_told()?;
        }
        Ok(())
    }

    /// How many nets there are.
    pub(crate) fn len(&self) -> usize
        ensures { result ≡ length self.now }
    {
        self.rules.len()
    }

    /// The clock and the data pin of a slot's flip-flop, where its cell is one.
    pub(crate) fn flop(&self, slot: usize) -> Option<(Clock, Pin)>
        requires { slot < length self.now }
        ensures { MatchOption result
            (is_flop (cell_at self.now slot) ≡ false)
            (λ flop. cell_at self.now slot ≡ Flop flop.0 flop.1) }
    {
        match self.rules[slot] {
            Rule::Flop(clock, pin) => Some((clock, pin)),
            _ => None,
        }
    }

    /// Whether a slot's word waits for no other slot of its window: it comes of events, or is a flip-flop's whose clock
    /// has such a period at least.
    pub(crate) fn is_source(&self, slot: usize, shortest: u32) -> bool
        requires { slot < length self.now }
    {
        match self.rules[slot] {
            Rule::Told => true,
            Rule::Flop(clock, _) => shortest <= clock.period,
            _ => false,
        }
    }

    /// Puts a slot into the list of the slot that it reads, where it is a flip-flop.
    pub(crate) fn list_flop(&self, net: usize, readers: &mut [Numbers]) -> Result<(), AllocError>
        requires net { net < length self.now }
        requires small { net < 2 ^ 32 }
        requires pins { All (λ pin. pin.net < length readers.old) (pins_of_cell (slice_index_or self.now net Told)) }
        ensures len { length readers.new ≡ length readers.old }
        ensures within { OnOk result (AreBelow (length self.now) (map (λ list. list.items) readers.old)
            → AreBelow (length self.now) (map (λ list. list.items) readers.new)) }
        ensures kept { OnOk result ((place number : ℕ)
            → IsListed (map (λ list. list.items) readers.old) place number
            → IsListed (map (λ list. list.items) readers.new) place number) }
        ensures listed { OnOk result ((place : ℕ)
            → is_flop (slice_index_or self.now net Told) ≡ true
            → reads (slice_index_or self.now net Told) place ≡ true
            → IsListed (map (λ list. list.items) readers.new) place net) }
    {
        match self.rules[net] {
            Rule::Flop(_, pin) => push_pins(readers, &[pin], net as u32),
            _ => Ok(()),
        }
    }

    /// Puts a slot into the lists of the slots that it reads, where it is a gate.
    pub(crate) fn list_gate(&self, net: usize, readers: &mut [Numbers]) -> Result<(), AllocError>
        requires net { net < length self.now }
        requires small { net < 2 ^ 32 }
        requires pins { All (λ pin. pin.net < length readers.old) (pins_of_cell (slice_index_or self.now net Told)) }
        ensures len { length readers.new ≡ length readers.old }
        ensures within { OnOk result (AreBelow (length self.now) (map (λ list. list.items) readers.old)
            → AreBelow (length self.now) (map (λ list. list.items) readers.new)) }
        ensures kept { OnOk result ((place number : ℕ)
            → IsListed (map (λ list. list.items) readers.old) place number
            → IsListed (map (λ list. list.items) readers.new) place number) }
        ensures listed { OnOk result ((place : ℕ)
            → is_gate (slice_index_or self.now net Told) ≡ true
            → reads (slice_index_or self.now net Told) place ≡ true
            → IsListed (map (λ list. list.items) readers.new) place net) }
    {
        match self.rules[net] {
            Rule::Told | Rule::Flop(..) => Ok(()),
            Rule::Gate(_, part) => {
                let begin = part.first as usize;
                push_pins(
                    readers,
                    &self.pins[begin..begin + part.count as usize],
                    net as u32,
                )
            }
        }
    }

    /// Adds a slot and its cell to what visits read.
    pub(crate) fn add_node(&self, slot: u32, nodes: &mut Nodes) -> Result<(), AllocError>
        requires { slot < length self.now }
        ensures { OnOk result (nodes.new ≡ with_node nodes.old slot (cell_at self.now slot)) }
    {
        match self.rules[slot as usize] {
            Rule::Told => nodes.push_told(slot),
            Rule::Gate(kind, part) => {
                let begin = part.first as usize;
                let pins = &self.pins[begin..begin + part.count as usize];
                nodes.push_gate(slot, kind, pins)
            }
            Rule::Flop(clock, pin) => nodes.push_flop(slot, clock, pin),
        }
    }
}
