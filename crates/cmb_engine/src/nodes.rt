//! What a visit of a slot reads: the slot and its cell, by rank, side by side in a record of 16 bytes.

ghost use Rattle.std.specs.Prelude.{◌≡◌, ℕ, ◌<◌, ◌≤◌, [], ◌∷◌, false, All, IfOk, IfSome, MatchOption, OnOk, length};
ghost use Rattle.std.specs.Prelude.{map, slice_index, slice_index_or};
ghost use Rattle.cmb_words.specs.Bits.{level_in};
ghost use Rattle.cmb_words.specs.Word.{level_at_place};
ghost use Rattle.cmb_engine.specs.Inner.Arrivals.{IsArrival};
ghost use Rattle.cmb_engine.specs.Inner.Cells.{Told, Gate, Flop, cell_at, is_made, IsLawful, IsMade, with_node};
ghost use Rattle.cmb_engine.specs.Inner.Known.{known_levels};
ghost use Rattle.cmb_engine.specs.Inner.Nodes.{node_cell, pin_of, IsInside};
ghost use Rattle.cmb_engine.specs.Inner.Windows.{HasWindow};
ghost use Rattle.cmb_engine.specs.Inner.Words.{levels_of};

use crate::arrivals::Arrival;
use crate::cell::Pin;
use crate::cells::{Cells, PinRange};
use crate::known::{known_double, known_flop, known_gate, known_single, spliced_ones};
use crate::visit::{double_word, flop_word, gate_word, single_word};
use crate::words::Words;
use cmb_design_model::Clock;
use cmb_netlist::{Cell, Kind, takes_one};
use cmb_words::{Word, spliced};
use std::alloc::{AllocError, Global};
use std::marker::Model;

/// How the word of a slot comes about, in 12 bytes. Most gates have one or two pins of few ticks: their delays and nets
/// stand in the rule itself, first the delays. Of the others it says where their pins stand, and of a flip-flop which
/// one of all it is.
#[derive(Clone, Copy)]
pub(crate) enum NodeRule {
    Told,
    Single(Kind, u8, u32),
    Double(Kind, u8, u8, u32, u32),
    Gate(Kind, PinRange),
    Flop(u32),
}

/// The slot of a rank, and how its word comes about.
#[derive(Clone, Copy)]
pub(crate) struct Node {
    pub slot: u32,
    pub rule: NodeRule,
}

/// A flip-flop.
#[derive(Clone, Copy)]
pub(crate) struct Sampler {
    pub clock: Clock,
    pub pin: Pin,
}

// The pin of a net.
#[inline]
fn pin_at(net: u32, delay: u8) -> Pin
    ensures { result ≡ pin_of net delay }
{
    let delay = delay as u32;
    Pin { net, delay }
}

// The delay of a pin, where it fits into a byte.
fn short(pin: Pin) -> Option<u8>
    ensures { IfSome result (λ delay. delay ≡ pin.delay) }
{
    match u8::try_from(pin.delay) {
        Ok(delay) => Some(delay),
        Err(_) => None,
    }
}

// The rule of a gate that has its one pin in itself, where that is of few ticks. If no gate of its kind has two pins it
// has it twice: so visits seldom meet another rule than that of two pins.
fn rule_of_one(kind: Kind, pin: Pin) -> Option<NodeRule>
    ensures inside { IfSome result (IsInside [] []) }
    ensures cell { IfSome result (λ rule. node_cell [] [] rule ≡ Gate kind (pin ∷ [])) }
{
    let delay = short(pin)?;
    if takes_one(Cell::Gate(kind)) {
        Some(NodeRule::Double(kind, delay, delay, pin.net, pin.net))
    } else {
        Some(NodeRule::Single(kind, delay, pin.net))
    }
}

// The rule of a gate that has its two pins in itself, where they are of few ticks.
fn rule_of_two(kind: Kind, pin: Pin, other: Pin) -> Option<NodeRule>
    ensures inside { IfSome result (IsInside [] []) }
    ensures cell { IfSome result (λ rule. node_cell [] [] rule ≡ Gate kind (pin ∷ other ∷ [])) }
{
    if takes_one(Cell::Gate(kind)) {
        return None;
    }
    let (delay, later) = (short(pin)?, short(other)?);
    Some(NodeRule::Double(kind, delay, later, pin.net, other.net))
}

// The rule of a gate that has its pins in itself, where there are one or two, of few ticks.
fn own_rule(kind: Kind, pins: &[Pin]) -> Option<NodeRule>
    ensures inside { IfSome result (IsInside [] []) }
    ensures cell { IfSome result (λ rule. node_cell [] [] rule ≡ Gate kind pins.now) }
{
    match pins {
        [pin] => rule_of_one(kind, *pin),
        [pin, other] => rule_of_two(kind, *pin, *other),
        _ => None,
    }
}

/// The slots by rank, and the cell of each.
#[derive(Drop)]
pub(crate) struct Nodes {
    nodes: Vec<Node>,
    // The pins of the gates whose rules don't have them in themselves.
    pins: Vec<Pin>,
    samplers: Vec<Sampler>,
}

impl Model for Nodes {
    ghost use Rattle.cmb_engine.specs.Inner.Cells.{Nodes};

    ghost Value = { Nodes };

    ghost use Rattle.cmb_engine.specs.Inner.Nodes.{nodes_of, AreInside};

    ghost view = { λ nodes. nodes_of nodes.pins.items nodes.samplers.items nodes.nodes.items };

    ghost invariant = { λ nodes. AreInside nodes.pins.items nodes.samplers.items nodes.nodes.items };
}

impl Nodes {
    // No nodes, with room for so many.
    fn with_capacity(alloc: Global, count: usize) -> Result<Nodes, AllocError>
        ensures { IfOk result (λ nodes. nodes ≡ record { slots = []; cells = [] }) }
    {
        Ok(Nodes {
            nodes: Vec::with_capacity(alloc, count)?,
            pins: Vec::new(alloc),
            samplers: Vec::new(alloc),
        })
    }

    /// Some slots, one after another, and the cell of each.
    pub(crate) fn of(alloc: Global, cells: &Cells, slots: &[u32]) -> Result<Nodes, AllocError>
        requires { All (λ slot. slot < length cells.now) slots.now }
        ensures slots { IfOk result (λ nodes. nodes.slots ≡ slots.now) }
        ensures cells { IfOk result (λ nodes. nodes.cells ≡ map (cell_at cells.now) slots.now) }
    {
        let mut nodes = Nodes::with_capacity(alloc, slots.len())?;
        for slot in slots {
            cells.add_node(*slot, &mut nodes)?;
        }
        Ok(nodes)
    }

    // Adds a slot with a rule that has all its pins in itself.
    fn push(&mut self, slot: u32, rule: NodeRule) -> Result<(), AllocError>
        requires { IsInside [] [] rule }
        ensures { OnOk result (self.new ≡ with_node self.old slot (node_cell [] [] rule)) }
    {
        self.nodes.push(Node { slot, rule })?;
        Ok(())
    }

    /// Adds a slot whose word comes of events.
    pub(crate) fn push_told(&mut self, slot: u32) -> Result<(), AllocError>
        ensures { OnOk result (self.new ≡ with_node self.old slot Told) }
    {
        self.push(slot, NodeRule::Told)
    }

    /// Adds a slot that is a flip-flop's.
    pub(crate) fn push_flop(&mut self, slot: u32, clock: Clock, pin: Pin) -> Result<(), AllocError>
        ensures { OnOk result (self.new ≡ with_node self.old slot (Flop clock pin)) }
    {
        let Ok(number) = u32::try_from(self.samplers.len()) else {
            return Err(AllocError);
        };
        self.samplers.push(Sampler { clock, pin })?;
        let rule = NodeRule::Flop(number);
        self.nodes.push(Node { slot, rule })?;
        Ok(())
    }

    // Adds a slot that is a gate's whose pins stand in the list.
    fn push_listed(&mut self, slot: u32, kind: Kind, pins: &[Pin]) -> Result<(), AllocError>
        ensures { OnOk result (self.new ≡ with_node self.old slot (Gate kind pins.now)) }
    {
        let part = PinRange::behind(self.pins.len(), pins.len())?;
        self.pins.extend_from_slice(pins)?;
        let rule = NodeRule::Gate(kind, part);
        self.nodes.push(Node { slot, rule })?;
        Ok(())
    }

    /// Adds a slot that is a gate's.
    pub(crate) fn push_gate(
        &mut self,
        slot: u32,
        kind: Kind,
        pins: &[Pin],
    ) -> Result<(), AllocError>
        ensures { OnOk result (self.new ≡ with_node self.old slot (Gate kind pins.now)) }
    {
        match own_rule(kind, pins) {
            Some(rule) => self.push(slot, rule),
            None => self.push_listed(slot, kind, pins),
        }
    }

    /// The slot of a rank, where there is one.
    #[inline]
    pub(crate) fn slot(&self, rank: usize) -> Option<usize>
        ensures { MatchOption result (length self.now.slots ≤ rank)
            (λ slot. (rank < length self.now.slots) × (slot ≡ slice_index self.now.slots rank)) }
    {
        match self.nodes.get(rank) {
            Some(node) => Some(node.slot as usize),
            None => None,
        }
    }

    /// What the cell of a rank makes of the words from a place on, with what stands below it in a slot's word.
    #[inline]
    pub(crate) fn word(
        &self,
        rank: usize,
        slot: usize,
        words: &Words,
        last: &mut Arrival,
        to: u32,
        first: u32,
    ) -> Word
        requires rank { rank < length self.now.slots }
        requires slot { slot < length words.now }
        requires last { IsArrival last.old to first }
        requires cell { IsLawful (length words.now) first (slice_index_or self.now.cells rank Told) }
        requires window { HasWindow to first }
        ensures last { IsArrival last.new to first }
        ensures below { (place : ℕ) → place < first → level_at_place result place ≡ levels_of words.now slot place }
        ensures made { IsMade (levels_of words.now) (level_at_place result) to first
            (slice_index_or self.now.cells rank Told) }
        ensures told { is_made (slice_index_or self.now.cells rank Told) ≡ false
            → (place : ℕ) → level_at_place result place ≡ levels_of words.now slot place }
    {
        let own = words.get(slot);
        match self.nodes[rank].rule {
            NodeRule::Told => own,
            NodeRule::Single(kind, delay, net) => {
                spliced(own, single_word(kind, pin_at(net, delay), words), first)
            }
            NodeRule::Double(kind, delay, later, net, other) => {
                let made = double_word(kind, pin_at(net, delay), pin_at(other, later), words);
                spliced(own, made, first)
            }
            NodeRule::Gate(kind, part) => {
                let begin = part.first as usize;
                let pins = &self.pins[begin..begin + part.count as usize];
                spliced(own, gate_word(kind, pins, words, first), first)
            }
            NodeRule::Flop(number) => {
                let Sampler { clock, pin } = self.samplers[number as usize];
                flop_word(clock, pin, own, words, last, to, first)
            }
        }
    }

    /// As `word`, where no level is x: of words, the places that are 1.
    ///
    /// Mostly it is a gate with two pins.
    #[inline]
    pub(crate) fn known_word(
        &self,
        rank: usize,
        own: u64,
        ones: &[u64],
        last: &mut Arrival,
        to: u32,
        first: u32,
    ) -> u64
        requires rank { rank < length self.now.slots }
        requires last { IsArrival last.old to first }
        requires cell { IsLawful (length ones.now) first (slice_index_or self.now.cells rank Told) }
        requires window { HasWindow to first }
        ensures last { IsArrival last.new to first }
        ensures below { (place : ℕ) → place < first → level_in result 0 place ≡ level_in own 0 place }
        ensures made { IsMade (known_levels ones.now) (level_in result 0) to first
            (slice_index_or self.now.cells rank Told) }
        ensures told { is_made (slice_index_or self.now.cells rank Told) ≡ false
            → (place : ℕ) → level_in result 0 place ≡ level_in own 0 place }
    {
        if let NodeRule::Double(kind, delay, later, net, other) = self.nodes[rank].rule {
            let made = known_double(kind, pin_at(net, delay), pin_at(other, later), ones);
            spliced_ones(own, made, first)
        } else {
            self.any_known_word(rank, own, ones, last, to, first)
        }
    }

    // The same for any cell, out of line, so that the other way keeps its values in registers.
    #[cold]
    #[inline(never)]
    fn any_known_word(
        &self,
        rank: usize,
        own: u64,
        ones: &[u64],
        last: &mut Arrival,
        to: u32,
        first: u32,
    ) -> u64
        requires rank { rank < length self.now.slots }
        requires last { IsArrival last.old to first }
        requires cell { IsLawful (length ones.now) first (slice_index_or self.now.cells rank Told) }
        requires window { HasWindow to first }
        ensures last { IsArrival last.new to first }
        ensures below { (place : ℕ) → place < first → level_in result 0 place ≡ level_in own 0 place }
        ensures made { IsMade (known_levels ones.now) (level_in result 0) to first
            (slice_index_or self.now.cells rank Told) }
        ensures told { is_made (slice_index_or self.now.cells rank Told) ≡ false
            → (place : ℕ) → level_in result 0 place ≡ level_in own 0 place }
    {
        match self.nodes[rank].rule {
            NodeRule::Told => own,
            NodeRule::Single(kind, delay, net) => {
                spliced_ones(own, known_single(kind, pin_at(net, delay), ones), first)
            }
            NodeRule::Double(kind, delay, later, net, other) => {
                let made = known_double(kind, pin_at(net, delay), pin_at(other, later), ones);
                spliced_ones(own, made, first)
            }
            NodeRule::Gate(kind, part) => {
                let begin = part.first as usize;
                let pins = &self.pins[begin..begin + part.count as usize];
                spliced_ones(own, known_gate(kind, pins, ones, first), first)
            }
            NodeRule::Flop(number) => {
                let Sampler { clock, pin } = self.samplers[number as usize];
                known_flop(clock, pin, own, ones, last, to, first)
            }
        }
    }
}
