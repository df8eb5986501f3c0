//! A process of a cluster: how a net is driven, what it reads, and what it makes of the cluster's waves.

ghost use Rattle.std.specs.Prelude.{◌≡◌};

use crate::advance::{flop_changes, gate_changes, input_changes, reach_of_flop, reach_of_gate};
use crate::pins::operand_wave;
use crate::process::{ProcessPin, ProcessRule};
use crate::span::Span;
use cmb_wave::{Change, Wave};
use std::alloc::AllocError;
use std::marker::Model;

/// How a net is driven, what it reads, and the changes of an input.
#[derive(Drop)]
pub(crate) struct Node {
    rule: ProcessRule,
    operands: Vec<ProcessPin>,
    stimulus: Vec<Change>,
}

impl Model for Node {
    ghost use Rattle.cmb_core_cluster.specs.Rows.{Process};

    ghost Value = { Process };

    ghost view = { λ n. record { rule = n.rule; operands = n.operands.items; stimulus = n.stimulus.items } };
}

impl Node {
    ghost use Rattle.std.specs.Prelude.{◌≡◌, ◌≤◌, ◌-◌, ◌++◌, ℕ, OnOk};
    ghost use Rattle.cmb_core_cluster.specs.Rows.{IsReadyFor, is_given};
    ghost use Rattle.cmb_core_cluster.specs.Inner.Processes.{process_level, process_reach};
    ghost use Rattle.cmb_core_cluster.specs.Inner.Spans.{changes_over};

    pub(crate) fn new(rule: ProcessRule, operands: Vec<ProcessPin>, stimulus: Vec<Change>) -> Node
        ensures { result ≡ record { rule = rule; operands = operands.items; stimulus = stimulus.items } }
    {
        Node {
            rule,
            operands,
            stimulus,
        }
    }

    /// How the process makes its level.
    pub(crate) fn rule(&self) -> ProcessRule
        ensures { result ≡ self.now.rule }
    {
        self.rule
    }

    /// What the process reads.
    pub(crate) fn operands(&self) -> &[ProcessPin]
        ensures { result.now ≡ self.now.operands }
    {
        self.operands.as_slice()
    }

    /// Whether the net is not driven here.
    pub(crate) fn is_given(&self) -> bool
        ensures { result ≡ is_given self.now.rule }
    {
        match self.rule {
            ProcessRule::Given => true,
            _ => false,
        }
    }

    /// The tick up to which the output can go on.
    pub(crate) fn reach(&self, horizon: u32, waves: &[Wave]) -> u32
        requires { (clock : ℕ) × IsReadyFor waves.now clock self.now.rule self.now.operands self.now.stimulus }
        ensures { result ≡ process_reach horizon waves.now self.now.rule self.now.operands }
    {
        match self.rule {
            ProcessRule::Given => 0,
            ProcessRule::Input => horizon,
            ProcessRule::Gate(_) => reach_of_gate(horizon, &self.operands, waves),
            ProcessRule::Flop { first, period, .. } => {
                let source = self.operands[0];
                let known = operand_wave(waves, source).clock();
                reach_of_flop(horizon, first, period, source.delay, known)
            }
        }
    }

    /// Adds the changes of the output in a span to a list.
    pub(crate) fn changes(
        &self,
        room: &mut Vec<Change>,
        waves: &[Wave],
        span: Span,
    ) -> Result<(), AllocError>
        requires { IsReadyFor waves.now span.from self.now.rule self.now.operands self.now.stimulus }
        ensures { OnOk result (room.new.items ≡ room.old.items
            ++ changes_over (process_level waves.now self.now.rule self.now.operands self.now.stimulus) span) }
    {
        match self.rule {
            ProcessRule::Given => input_changes(room, &[], span),
            ProcessRule::Input => input_changes(room, &self.stimulus, span),
            ProcessRule::Gate(kind) => gate_changes(room, kind, &self.operands, waves, span),
            ProcessRule::Flop {
                first,
                period,
                init,
            } => flop_changes(room, waves, self.operands[0], first, period, init, span),
        }
    }
}
