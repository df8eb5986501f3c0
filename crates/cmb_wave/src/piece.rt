//! Pieces: parts of a net's waveform, as they travel from the cluster that drives the net to those that read it.

ghost use Rattle.std.specs.Prelude.{◌≡◌, ◌<◌, IfOk};
ghost use Rattle.cmb_wave.specs.Waveform.{IsPart};
ghost use Rattle.cmb_wave.specs.Calls.{rises, inside, differs, checked_piece};

use crate::level::{Change, Level};
use std::alloc::{AllocError, Global};
use std::marker::Model;
use thiserror::Error;

/// Why a list of changes is no piece, in the order in which it is tested.
#[derive(Clone, Copy, Debug, PartialEq, Eq, Error)]
pub enum PieceFault {
    /// 10: the span ends by the tick at which it begins.
    #[error("the span is empty")]
    EmptySpan,
    /// 11: a tick isn't above the one before it.
    #[error("the ticks don't rise")]
    Order,
    /// 12: a tick stands outside the span.
    #[error("a tick stands outside the span")]
    Outside,
    /// 13: a change is to the level of the one before it.
    #[error("neighbours have one level")]
    SameLevel,
    /// 70: out of memory. No call on pieces answers it.
    #[error("out of memory")]
    Memory,
}

impl PieceFault {
    ghost use Rattle.cmb_wave.specs.Faults.{number_of_piece_fault};

    /// The fault's number: 10 to 13, or 70.
    pub fn number(&self) -> u32
        ensures { result ≡ number_of_piece_fault self.now }
    {
        match self {
            PieceFault::EmptySpan => 10,
            PieceFault::Order => 11,
            PieceFault::Outside => 12,
            PieceFault::SameLevel => 13,
            PieceFault::Memory => 70,
        }
    }
}

/// The changes of a net at the ticks from `from` to below `to`, and the word that it has no others there.
///
/// The span isn't empty, the ticks rise strictly in it, and each change is to another level than
/// the one before it. The level before the first change isn't part of it.
#[derive(Debug, Drop)]
pub struct Piece {
    net: u32,
    from: u32,
    to: u32,
    changes: Vec<Change>,
}

impl Model for Piece {
    ghost use Rattle.cmb_wave.specs.Waveform.{IsPart};
    ghost use Rattle.cmb_wave.specs.Wave.{Piece};

    ghost Value = { Piece };

    ghost view = { λ p. record { net = p.net; from = p.from; to = p.to; changes = p.changes.items } };

    ghost invariant = { λ p. IsPart p.from p.changes.items p.to };
}

// Whether the ticks rise from each change to the next.
fn ticks_rise(changes: &[Change]) -> bool
    ensures { result ≡ rises changes.now }
{
    let mut rest = changes;
    while let Some((first, others)) = rest.split_first() {
        if let Some(second) = others.first() {
            if second.tick <= first.tick {
                return false;
            }
        }
        rest = others;
    }
    true
}

// Whether each tick stands in the span.
fn ticks_inside(changes: &[Change], from: u32, to: u32) -> bool
    ensures { result ≡ inside from to changes.now }
{
    let mut rest = changes;
    while let Some((first, others)) = rest.split_first() {
        if first.tick < from || to <= first.tick {
            return false;
        }
        rest = others;
    }
    true
}

// Whether no change has the level of the one before it.
fn levels_differ(changes: &[Change]) -> bool
    ensures { result ≡ differs changes.now }
{
    let mut rest = changes;
    while let Some((first, others)) = rest.split_first() {
        if let Some(second) = others.first() {
            if second.level == first.level {
                return false;
            }
        }
        rest = others;
    }
    true
}

impl Piece {
    /// The piece of a net's changes in the span from `from` to below `to`, or the first fault: 10 `EmptySpan`,
    /// 11 `Order`, 12 `Outside`, 13 `SameLevel`. The list is taken over, and given up on a refusal.
    /// Takes no memory.
    #[tactic(auto, using(crate::proofs::Lists::part_of_tests))]
    pub fn new(net: u32, from: u32, to: u32, changes: Vec<Change>) -> Result<Piece, PieceFault>
        ensures { result ≡ checked_piece net from to changes.items }
    {
        if to <= from {
            return Err(PieceFault::EmptySpan);
        }
        if !ticks_rise(&changes) {
            return Err(PieceFault::Order);
        }
        if !ticks_inside(&changes, from, to) {
            return Err(PieceFault::Outside);
        }
        if !levels_differ(&changes) {
            return Err(PieceFault::SameLevel);
        }
        Ok(Piece {
            net,
            from,
            to,
            changes,
        })
    }

    // A piece of changes that are known to be one.
    pub(crate) fn of_trace(net: u32, from: u32, to: u32, changes: Vec<Change>) -> Piece
        requires { IsPart from changes.items to }
        ensures { result ≡ record { net = net; from = from; to = to; changes = changes.items } }
    {
        Piece {
            net,
            from,
            to,
            changes,
        }
    }

    /// The number of the net.
    pub fn net(&self) -> u32
        ensures { result ≡ self.now.net }
    {
        self.net
    }

    /// The first tick of the span.
    pub fn from(&self) -> u32
        ensures { result ≡ self.now.from }
    {
        self.from
    }

    /// The tick after the last one of the span.
    pub fn to(&self) -> u32
        ensures { result ≡ self.now.to }
    {
        self.to
    }

    /// The changes in the span, by rising tick.
    pub fn changes(&self) -> &[Change]
        ensures changes { result.now ≡ self.now.changes }
        ensures part { IsPart self.now.from result.now self.now.to }
    {
        &self.changes
    }

    /// A second piece of the same net, span and changes, refused only for want of memory.
    pub fn try_copy(&self) -> Result<Piece, AllocError>
        ensures { IfOk result (λ copy. copy ≡ self.now) }
    {
        let changes = self.changes.clone()?;
        Ok(Piece {
            net: self.net,
            from: self.from,
            to: self.to,
            changes,
        })
    }
}
