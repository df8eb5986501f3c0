//! The engine of a share of a design's nets.

ghost use Rattle.std.specs.Prelude.{◌≡◌, ℕ, ◌+◌, ◌<◌, ◌≤◌, ◌↔◌, All, Contains, IfOk, OnOk, [], false};
ghost use Rattle.std.specs.Prelude.{true, length, slice_index_or};
ghost use Rattle.cmb_design_model.specs.Exact.{nets_of};
ghost use Rattle.cmb_design_model.specs.Timing.{delay};
ghost use Rattle.cmb_design_model.specs.Value.{value};
ghost use Rattle.cmb_engine.specs.Crossings.{IsCrossing, IsWithinLookahead};
ghost use Rattle.cmb_engine.specs.Inner.Roles.{driven_of, AreOf};
ghost use Rattle.cmb_engine.specs.Shares.{IsDriven, IsGiven, IsOwed, EachChanges, TellsAll, TellsThose, is_told};
ghost use Rattle.cmb_engine.specs.Inner.States.{IsCircuit};
ghost use Rattle.cmb_words.specs.Changes.{IsWindow};

use crate::ahead::tell_groups;
use crate::circuit::Circuit;
use crate::engine::LONGEST_WINDOW;
use crate::exports::exports_of;
use crate::group::Group;
use crate::open::{open_circuit, open_state};
use crate::sharing::roles_of;
use crate::state::State;
use cmb_design_model::Design;
use cmb_words::Changed;
use std::alloc::{AllocError, Global};
use std::marker::Model;

/// Simulates some of a design's nets, window by window of ticks: it drives them, and of each window it is given what
/// they read of other nets. Engines that drive all nets among them simulate the design, a logical process each.
///
/// Nets have the design's numbers. An engine does nothing for nets that it neither drives nor is given.
///
/// What its flip-flops do in a window is known before it, where the window lies in their lookahead: the ticks up to the
/// first arrival of a sample that isn't taken yet. So shares that are given flip-flops alone can read one another.
#[derive(Drop)]
pub struct ShareEngine<'d> {
    design: &'d Design,
    circuit: Circuit,
    state: State,
    // The flip-flops that are told ahead.
    exports: Vec<Group>,
}

impl<'d> Model for ShareEngine<'d> {
    ghost use Rattle.std.specs.Prelude.{All};
    ghost use Rattle.cmb_engine.specs.Inner.Circuits.{IsGroup};
    ghost use Rattle.cmb_engine.specs.Inner.Exports.{slots_of};
    ghost use Rattle.cmb_engine.specs.Inner.Roles.{driven_of, AreOf};
    ghost use Rattle.cmb_engine.specs.Shares.{ShareEngine};
    ghost use Rattle.cmb_engine.specs.Inner.States.{IsCircuit, IsState};

    ghost Value = { ShareEngine };

    ghost view = { λ engine. record {
      design = engine.design.now;
      driven = driven_of engine.circuit.wiring.roles.items;
      exports = slots_of engine.exports.items;
      told = engine.circuit.wanted;
      width = engine.circuit.width;
      clock = engine.state.clock;
    } };

    ghost invariant = { λ engine. IsCircuit engine.design.now engine.circuit
        × IsState engine.design.now engine.circuit engine.state
        × AreOf engine.design.now (driven_of engine.circuit.wiring.roles.items) engine.circuit.wiring.roles.items
        × All (IsGroup engine.circuit.wiring.cells) engine.exports.items };
}

impl<'d> ShareEngine<'d> {
    // The engine of a circuit, of which tick 0 is known.
    fn begin(
        alloc: Global,
        design: &'d Design,
        circuit: Circuit,
    ) -> Result<ShareEngine<'d>, AllocError>
        requires circuit { IsCircuit design.now circuit }
        requires roles { AreOf design.now (driven_of circuit.wiring.roles.items) circuit.wiring.roles.items }
        ensures design { IfOk result (λ engine. engine.design ≡ design.entry.now) }
        ensures driven { IfOk result (λ engine. engine.driven ≡ driven_of circuit.wiring.roles.items) }
        ensures exports { IfOk result (λ engine. engine.exports ≡ []) }
        ensures told { IfOk result (λ engine. engine.told ≡ circuit.wanted) }
        ensures width { IfOk result (λ engine. engine.width ≡ circuit.width) }
        ensures clock { IfOk result (λ engine. engine.clock ≡ 1) }
    {
        match open_state(alloc, design, &circuit) {
            Ok(state) => Ok(ShareEngine {
                design,
                circuit,
                state,
                exports: Vec::new(alloc),
            }),
            Err(error) => {
                drop(circuit);
                Err(error)
            }
        }
    }

    /// The engine of the nets that `driven` marks, of which tick 0 is known. Inputs among them have their stimuli. It
    /// tells changes of the nets that `told` marks.
    pub fn open(
        alloc: Global,
        design: &'d Design,
        driven: &[bool],
        told: &[bool],
    ) -> Result<ShareEngine<'d>, AllocError>
        requires driven { length driven.now ≡ nets_of design.now }
        requires told { length told.now ≡ nets_of design.now }
        ensures design { IfOk result (λ engine. engine.design ≡ design.entry.now) }
        ensures driven { IfOk result (λ engine. engine.driven ≡ driven.now) }
        ensures exports { IfOk result (λ engine. engine.exports ≡ []) }
        ensures told { IfOk result (λ engine. (net : ℕ) → slice_index_or told.now net false ≡ true
            → is_told engine.told net ≡ true) }
        ensures clock { IfOk result (λ engine. engine.clock ≡ 1) }
    {
        let roles = roles_of(alloc, design, driven)?;
        let circuit = open_circuit(alloc, design, roles, told)?;
        ShareEngine::begin(alloc, design, circuit)
    }

    /// The same engine, which gives the changes of its crossing flip-flops ahead.
    pub fn exporting(self, alloc: Global, crossing: &[bool]) -> Result<ShareEngine<'d>, AllocError>
        ensures design { IfOk result (λ engine. engine.design ≡ self.entry.design) }
        ensures driven { IfOk result (λ engine. engine.driven ≡ self.entry.driven) }
        ensures told { IfOk result (λ engine. engine.told ≡ self.entry.told) }
        ensures width { IfOk result (λ engine. engine.width ≡ self.entry.width) }
        ensures clock { IfOk result (λ engine. engine.clock ≡ self.entry.clock) }
        ensures exports { IfOk result (λ engine. (net : ℕ) → Contains engine.exports net
            ↔ (IsDriven self.entry.driven net × IsCrossing self.entry.design crossing.now net)) }
    {
        let ShareEngine {
            design,
            circuit,
            state,
            exports,
        } = self;
        drop(exports);
        match exports_of(alloc, circuit.wiring.flops.as_slice(), crossing) {
            Ok(exports) => Ok(ShareEngine {
                design,
                circuit,
                state,
                exports,
            }),
            Err(error) => {
                drop((circuit, state));
                Err(error)
            }
        }
    }

    /// The most ticks of a window.
    pub fn width(&self) -> u32
        ensures value { result ≡ self.now.width }
        ensures some { 2 ≤ result }
        ensures most { result < LONGEST_WINDOW }
    {
        self.circuit.width
    }

    /// The tick below which the driven nets are known, in ticks.
    pub fn clock(&self) -> u32
        ensures value { result ≡ self.now.clock }
        ensures begun { 1 ≤ result }
        ensures within { result ≤ self.now.design.horizon }
    {
        self.state.clock
    }

    /// Tells ahead which of the flip-flops in question change in the window from the clock up to the tick `upto`,
    /// before it is made. `told` gets them in no order, each with its levels up to the window's end, in place of what
    /// it had.
    ///
    /// Work is by the flip-flops that get a sample in the window. Errors: memory was refused.
    pub fn tell_ahead(&self, upto: u32, told: &mut Vec<Changed>) -> Result<(), AllocError>
        requires later { self.now.clock < upto }
        requires short { upto ≤ self.now.clock + self.now.width }
        requires within { upto ≤ self.now.design.horizon }
        requires ahead { (net : ℕ) → Contains self.now.exports net
            → IsWithinLookahead self.now.design self.now.clock upto net }
        requires soon { (net : ℕ) → Contains self.now.exports net
            → delay self.now.design net 1 < self.now.width }
        ensures only { OnOk result (All (λ one. Contains self.now.exports one.net) told.new.items) }
        ensures tells { OnOk result (TellsThose (Contains self.now.exports) (value self.now.design)
            self.now.clock upto told.new.items) }
    {
        // The proof learns here how late the horizon is at most, and how many nets there are.
        let _horizon = self.design.horizon();
        let _nets = self.design.netlist().len();
        tell_groups(
            self.exports.as_slice(),
            &self.state.words,
            told,
            upto - self.state.clock,
            upto,
        )
    }

    /// Goes on by a window up to the tick `upto`. `given` has the changes in it of the nets that driven nets read and
    /// this engine doesn't drive, in any order; what else it has is passed over. `changed` gets the driven nets that
    /// changed and are to be told, by rising number, each with its levels up to the window's end, in place of what it
    /// had. Other nets may stand among them, as they are.
    pub fn advance(
        self,
        upto: u32,
        given: &[Changed],
        changed: &mut Vec<Changed>,
    ) -> Result<ShareEngine<'d>, AllocError>
        requires later { self.clock < upto }
        requires short { upto ≤ self.clock + self.width }
        requires within { upto ≤ self.design.horizon }
        requires given { TellsThose (IsGiven self.design self.driven) (value self.design)
            self.clock upto given.now }
        ensures design { IfOk result (λ engine. engine.design ≡ self.entry.design) }
        ensures driven { IfOk result (λ engine. engine.driven ≡ self.entry.driven) }
        ensures exports { IfOk result (λ engine. engine.exports ≡ self.entry.exports) }
        ensures told { IfOk result (λ engine. engine.told ≡ self.entry.told) }
        ensures width { IfOk result (λ engine. engine.width ≡ self.entry.width) }
        ensures clock { IfOk result (λ engine. engine.clock ≡ upto) }
        ensures window { IfOk result (λ engine. IsWindow (nets_of self.entry.design) self.entry.design.horizon
            self.entry.clock engine.clock changed.new.items) }
        ensures tells { IfOk result (λ engine. TellsAll (IsOwed self.entry) (value self.entry.design)
            self.entry.clock engine.clock changed.new.items) }
        ensures changes { IfOk result (λ engine. EachChanges self.entry.clock engine.clock changed.new.items) }
    {
        let ShareEngine {
            design,
            circuit,
            mut state,
            exports,
        } = self;
        match state.advance(design, &circuit, upto, given, changed) {
            Ok(()) => Ok(ShareEngine {
                design,
                circuit,
                state,
                exports,
            }),
            Err(error) => {
                drop((circuit, state, exports));
                Err(error)
            }
        }
    }
}
