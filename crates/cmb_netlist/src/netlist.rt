//! What a netlist is.

ghost use Rattle.std.specs.Prelude.{◌≡◌, ◌<◌, ◌≤◌, ◌==◌, ℕ, List, length, IfOk, MatchOption};

use crate::limits::MAX_NETS;
use crate::name::{Name, Spelled};
use indexmap::IndexSet;
use smallvec::SmallVec;
use std::alloc::{AllocError, Global};
use std::marker::Model;
use std::slice;

/// A gate's function.
#[derive(Clone, Copy, Debug, PartialEq, Eq)]
pub enum Kind {
    And,
    Nand,
    Or,
    Nor,
    Xor,
    Xnor,
    Not,
    Buff,
}

/// What the word in the place of a kind names: one of the gates, or the flip-flop.
#[derive(Clone, Copy, Debug, PartialEq, Eq)]
pub enum Cell {
    Gate(Kind),
    Flop,
}

/// Numbers of nets. Up to four of them need no memory of their own.
pub type Pins = SmallVec<u32, 4>;

/// The nets on a gate's pins, in order.
#[derive(Drop)]
pub struct Operands {
    nets: Pins,
}

impl Model for Operands {
    ghost use Rattle.std.specs.Prelude.{List, ℕ};

    ghost Value = { List ℕ };

    ghost view = { λ a. a.nets.items };
}

impl Operands {
    /// Operands by the numbers of their nets.
    pub fn new(nets: Pins) -> Operands
        ensures { result ≡ nets.items }
    {
        Operands { nets }
    }

    /// Operands by the numbers of their nets. They are refused only where memory runs out.
    pub fn from_slice(alloc: Global, nets: &[u32]) -> Result<Operands, AllocError>
        ensures { IfOk result (λ operands. operands ≡ nets.now) }
    {
        Ok(Operands {
            nets: SmallVec::from_slice(alloc, nets)?,
        })
    }

    /// The numbers of the nets, in the order of the pins.
    pub fn as_slice(&self) -> &[u32]
        ensures { result.now ≡ self.now }
    {
        self.nets.as_slice()
    }
}

/// What drives a net: an input statement, a gate on its operands, or a flip-flop on its data.
#[derive(Drop)]
pub enum Driver {
    Input,
    Gate(Kind, Operands),
    Flop(u32),
}

impl Driver {
    ghost use Rattle.cmb_netlist.specs.Netlist.{pins_of};

    /// The nets that the driver reads, in the order of its pins: none of an input, the operands of a gate, the data of
    /// a flip-flop.
    pub fn pins(&self) -> &[u32]
        ensures { result.now ≡ pins_of self.now }
    {
        match self {
            Driver::Input => &[],
            Driver::Gate(_, operands) => operands.as_slice(),
            Driver::Flop(data) => slice::from_ref(data),
        }
    }
}

/// Nets, numbered from 0 in the order of their driving statements, and the outputs in the order of
/// first mention.
#[derive(Drop)]
pub struct Netlist {
    names: IndexSet<Name>,
    drivers: Vec<Driver>,
    outputs: IndexSet<u32>,
}

impl Model for Netlist {
    ghost use Rattle.cmb_netlist.specs.Netlist.{Netlist, IsNetlist};

    ghost Value = { Netlist };

    ghost view = { λ a. record { names = a.names.keys; drivers = a.drivers.items; outputs = a.outputs.keys } };

    ghost invariant = { λ a. IsNetlist (record {
      names = a.names.keys;
      drivers = a.drivers.items;
      outputs = a.outputs.keys;
    }) };
}

impl Netlist {
    ghost use Rattle.cmb_netlist.specs.Netlist.{driver_of, name_of, number_of, IsNetlist};

    /// A netlist of its parts: the nets' names and drivers, by number, and its outputs.
    pub fn new(names: IndexSet<Name>, drivers: Vec<Driver>, outputs: IndexSet<u32>) -> Netlist
        requires { IsNetlist (record { names = names.keys; drivers = drivers.items; outputs = outputs.keys }) }
        ensures { result ≡ record { names = names.keys; drivers = drivers.items; outputs = outputs.keys } }
    {
        Netlist {
            names,
            drivers,
            outputs,
        }
    }

    /// How many nets there are: at most 65,535.
    pub fn len(&self) -> usize
        ensures value { result ≡ length self.now.names }
        ensures few { length self.now.names ≤ MAX_NETS }
        // What every netlist keeps.
        ensures sound { IsNetlist self.now }
    {
        self.drivers.len()
    }

    /// Whether there are no nets.
    pub fn is_empty(&self) -> bool
        ensures { result ≡ (length self.now.names == 0) }
    {
        self.drivers.is_empty()
    }

    /// The number of the net with a name, compared byte by byte; `None` where no net has it.
    #[tactic(auto, unfolding(crate::specs::Netlist::number_of))]
    pub fn number(&self, name: &[u8]) -> Option<usize>
        ensures value { result ≡ number_of self.now name.now }
        ensures below { MatchOption result (Unit {0}) (λ net. (net < length self.now.names) × (net < MAX_NETS)) }
    {
        self.names.get_index_of(Spelled { bytes: name })
    }

    /// The name of a net.
    pub fn name(&self, net: usize) -> &[u8]
        requires { net < length self.now.names }
        ensures { result.now ≡ name_of self.now net }
    {
        self.names[net].as_bytes()
    }

    /// What drives a net.
    pub fn driver(&self, net: usize) -> &Driver
        requires { net < length self.now.names }
        ensures { result.now ≡ driver_of self.now net }
    {
        &self.drivers[net]
    }

    /// The numbers of the outputs, each once, in the order of first mention.
    pub fn outputs(&self) -> &[u32]
        ensures { result.now ≡ self.now.outputs }
    {
        self.outputs.as_slice()
    }
}
