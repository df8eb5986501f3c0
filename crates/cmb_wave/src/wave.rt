//! Waves: the waveform of a net as far as it is known.

ghost use Rattle.std.specs.Prelude.{◌≡◌, ◌+◌, ◌≤◌, ◌<◌, IfOk, IfErr, OnOk, OnErr, Ok, None, length, ◌++◌};
ghost use Rattle.cmb_wave.specs.Waveform.{level_at, level_before, last_level, clash, IsTrace, Rises};
ghost use Rattle.cmb_wave.specs.declared.level.Level.TheVariants.{X};
ghost use Rattle.cmb_wave.specs.Wave.{new_wave, grown, wave_from, wave_up_to};
ghost use Rattle.cmb_wave.specs.Calls.{taken, hears, heard_wave, cut, promised, RefusesAs};
ghost use Rattle.cmb_wave.specs.Faults.{number_of_wave_fault};

use crate::level::{Change, Heard, Level, Promise};
use crate::piece::Piece;
use crate::search::{count_below, level_after, since};
use std::alloc::{AllocError, Global};
use std::marker::Model;
use thiserror::Error;

/// Why a wave doesn't take a piece, in the order in which it is tested.
#[derive(Clone, Copy, Debug, PartialEq, Eq, Error)]
pub enum WaveFault {
    /// 14: the piece begins after the wave's clock, so the changes between them are missing.
    #[error("the piece begins after {clock}")]
    Gap { clock: u32 },
    /// 15: the piece ends by the wave's clock, so it has nothing new.
    #[error("the piece ends by {clock}")]
    Old { clock: u32 },
    /// 16: the first new change, at this tick, is to the level that the wave ends with.
    #[error("no change at {tick}")]
    Clash { tick: u32 },
    /// 70: out of memory.
    #[error("out of memory")]
    Memory,
}

impl WaveFault {
    /// The fault's number: 14 to 16, or 70.
    pub fn number(&self) -> u32
        ensures { result ≡ number_of_wave_fault self.now }
    {
        match self {
            WaveFault::Gap { .. } => 14,
            WaveFault::Old { .. } => 15,
            WaveFault::Clash { .. } => 16,
            WaveFault::Memory => 70,
        }
    }
}

/// What is known of a net: all that happens at the ticks below `clock`, and nothing from there on.
///
/// It keeps the changes from `base` on, the level one tick before `base` (x at base 0), and `count`,
/// the number of all changes below `clock`, forgotten ones too. The kept ticks rise strictly,
/// neighbours are different levels, and the first change isn't to the level before it.
#[derive(Debug, Drop)]
pub struct Wave {
    net: u32,
    base: u32,
    clock: u32,
    count: u32,
    kept: Level,
    // How many changes at the head of the list are forgotten, and wait to be dropped together.
    forgotten: usize,
    changes: Vec<Change>,
}

impl Model for Wave {
    ghost use Rattle.std.specs.Prelude.{◌≡◌, ◌<◌, ◌≤◌, ◌^◌, length, drop};
    ghost use Rattle.cmb_wave.specs.declared.level.Level.TheVariants.{X};
    ghost use Rattle.cmb_wave.specs.Waveform.{IsTrace};
    ghost use Rattle.cmb_wave.specs.Wave.{Wave};

    ghost Value = { Wave };

    ghost view = { λ w. record {
      net = w.net;
      base = w.base;
      clock = w.clock;
      count = w.count;
      kept = w.kept;
      changes = drop w.forgotten w.changes.items;
    } };

    ghost invariant = { λ w. record {
      trace : IsTrace w.kept w.base (drop w.forgotten w.changes.items) w.clock;
      head : w.forgotten ≤ length w.changes.items;
      few : w.count ≤ w.clock;
      first : w.base ≡ 0 → w.kept ≡ X;
      small : w.clock < 2 ^ 32;
    } };
}

// The tick of the first change, where it is none after the level `before`.
fn first_clash(before: Level, changes: &[Change]) -> Option<u32>
    ensures { result ≡ clash before changes.now }
{
    match changes.split_first() {
        Some((first, _)) if first.level == before => Some(first.tick),
        _ => None,
    }
}

// Adds changes to a list. Mostly there is none, or one, which needs no copy of a stretch of memory.
fn append(list: &mut Vec<Change>, more: &[Change]) -> Result<(), AllocError>
    ensures ok { OnOk result (list.new.items ≡ list.old.items ++ more.now) }
    ensures unchanged { OnErr result (list.new.items ≡ list.old.items) }
{
    match more.len() {
        0 => {}
        1 => list.push(more[0])?,
        _ => list.extend_from_slice(more)?,
    }
    Ok(())
}

impl Wave {
    /// A wave of which nothing is known: base and clock 0, no changes. Takes no memory.
    pub fn new(alloc: Global, net: u32) -> Wave
        ensures { result ≡ new_wave net }
    {
        Wave {
            net,
            base: 0,
            clock: 0,
            count: 0,
            kept: Level::X,
            forgotten: 0,
            changes: Vec::new(alloc),
        }
    }

    /// The number of the net.
    pub fn net(&self) -> u32
        ensures { result ≡ self.now.net }
    {
        self.net
    }

    /// The tick up to which the wave is known, itself left out.
    pub fn clock(&self) -> u32
        ensures { result ≡ self.now.clock }
    {
        self.clock
    }

    /// The tick from which on the wave's changes are kept.
    pub fn base(&self) -> u32
        ensures { result ≡ self.now.base }
    {
        self.base
    }

    /// The level one tick before the base, x at base 0.
    pub fn kept(&self) -> Level
        ensures kept { result ≡ self.now.kept }
        ensures first { self.now.base ≡ 0 → result ≡ X }
    {
        self.kept
    }

    /// The changes at the ticks from the base to below the clock, by rising tick.
    #[tactic(auto, using(crate::proofs::Lists::rises_of_wave, crate::proofs::Lists::rest_of_list))]
    pub fn changes(&self) -> &[Change]
        ensures changes { result.now ≡ self.now.changes }
        ensures trace { IsTrace self.now.kept self.now.base result.now self.now.clock }
        ensures rises { Rises 0 result.now }
    {
        &self.changes[self.forgotten..]
    }

    /// How many changes the net has below the clock, forgotten ones too.
    pub fn count(&self) -> u32
        ensures { result ≡ self.now.count }
    {
        self.count
    }

    /// The level at a tick that is known and kept, found by binary search.
    #[tactic(auto, using(crate::proofs::Lists::level_at_below))]
    pub fn level_at(&self, tick: u32) -> Level
        requires known { tick < self.now.clock }
        requires kept { self.now.base ≤ tick }
        ensures { result ≡ level_at self.now.kept self.now.changes tick }
    {
        let changes = self.changes();
        level_after(self.kept, changes, count_below(changes, tick + 1))
    }

    /// The level one tick below the clock, x at clock 0.
    #[tactic(auto, using(crate::proofs::Lists::last_before))]
    pub fn last_level(&self) -> Level
        ensures last { result ≡ last_level self.now.kept self.now.changes }
        ensures before { result ≡ level_before (level_at self.now.kept self.now.changes) self.now.clock }
    {
        let changes = self.changes();
        level_after(self.kept, changes, changes.len())
    }

    /// Goes on by a piece of this net, of which the changes at or after the clock are added, and gives
    /// the new clock, the piece's end. Refused by 14 `Gap`, 15 `Old`, 16 `Clash`, in this order, or 70.
    ///
    /// The piece may begin before the clock, and before the base too. Where it does, what it says of
    /// the ticks below the clock isn't compared with what is known of them.
    #[tactic(auto, using(crate::proofs::Lists::rises_of_part, crate::proofs::Lists::trace_of_part))]
    pub fn take(&mut self, piece: &Piece) -> Result<u32, WaveFault>
        ensures ok { OnOk result (taken self.old piece.now ≡ Ok self.new) }
        ensures clock { IfOk result (λ clock. clock ≡ self.new.clock) }
        ensures fault { IfErr result (λ fault. RefusesAs fault (taken self.old piece.now)) }
        ensures unchanged { OnErr result (self.new ≡ self.old) }
        ensures net { self.new.net ≡ self.old.net }
        ensures base { self.new.base ≡ self.old.base }
        ensures later { self.old.clock ≤ self.new.clock }
    {
        if piece.from() > self.clock {
            return Err(WaveFault::Gap { clock: self.clock });
        }
        if piece.to() <= self.clock {
            return Err(WaveFault::Old { clock: self.clock });
        }
        let more = since(piece.changes(), self.clock);
        match first_clash(self.last_level(), more) {
            Some(tick) => Err(WaveFault::Clash { tick }),
            None => match self.extend(piece.to(), more) {
                Ok(()) => Ok(self.clock),
                Err(_) => Err(WaveFault::Memory),
            },
        }
    }

    /// Goes on to the tick `to` by the changes between the clock and there, which continue the wave:
    /// their ticks rise, and the first is to another level than the wave's last. Makes no piece.
    #[tactic(auto, using(crate::proofs::Lists::trace_low, crate::proofs::Lists::length_span))]
    pub fn extend(&mut self, to: u32, changes: &[Change]) -> Result<(), AllocError>
        requires { IsTrace (last_level self.old.kept self.old.changes) self.old.clock changes.now to }
        ensures ok { OnOk result (self.new ≡ grown self.old to changes.now) }
        ensures unchanged { OnErr result (self.new ≡ self.old) }
    {
        append(&mut self.changes, changes)?;
        self.count += changes.len() as u32;
        self.clock = to;
        Ok(())
    }

    /// Goes on as `extend` does, and gives the new part as a piece, which takes the list over.
    #[tactic(auto, using(crate::proofs::Lists::part_of_trace))]
    pub fn grow(&mut self, to: u32, changes: Vec<Change>) -> Result<Piece, AllocError>
        requires later { self.old.clock < to }
        requires trace { IsTrace (last_level self.old.kept self.old.changes) self.old.clock changes.items to }
        ensures ok { OnOk result (self.new ≡ grown self.old to changes.items) }
        ensures piece { IfOk result (λ p. p
            ≡ record { net = self.old.net; from = self.old.clock; to = to; changes = changes.items }) }
        ensures unchanged { OnErr result (self.new ≡ self.old) }
    {
        let net = self.net;
        let from = self.clock;
        self.extend(to, &changes)?;
        Ok(Piece::of_trace(net, from, to, changes))
    }

    /// Goes on to the promise's tick where the wave has as many changes as the net has below it, so
    /// that none is missing. The promise is of this net. Takes no memory.
    #[tactic(auto, using(crate::proofs::Lists::trace_widen))]
    pub fn hear(&mut self, promise: Promise) -> Heard
        ensures answer { result ≡ hears self.old promise }
        ensures wave { self.new ≡ heard_wave self.old promise }
        ensures net { self.new.net ≡ self.old.net }
        ensures base { self.new.base ≡ self.old.base }
        ensures later { self.old.clock ≤ self.new.clock }
    {
        if promise.upto <= self.clock {
            return Heard::Old;
        }
        if promise.count != self.count {
            return Heard::Ahead;
        }
        self.clock = promise.upto;
        Heard::Extended
    }

    /// What the wave itself can promise: its count and its clock.
    pub fn promise(&self) -> Promise
        ensures { result ≡ promised self.now }
    {
        Promise {
            net: self.net,
            count: self.count,
            upto: self.clock,
        }
    }

    /// The piece from the tick `from` up to the clock, None where they are one, also where there is no
    /// memory.
    pub fn cut(&self, from: u32) -> Result<Option<Piece>, AllocError>
        requires known { from ≤ self.now.clock }
        requires kept { self.now.base ≤ from }
        ensures cut { IfOk result (λ piece. piece ≡ cut self.now from) }
        ensures idle { from ≡ self.now.clock → result ≡ Ok None }
    {
        self.cut_up_to(from, self.clock)
    }

    /// The piece from the tick `from` up to the tick `upto`, None where they are one, of a wave that is
    /// known to go on without a change from its clock up to `upto`.
    #[tactic(auto, using(crate::proofs::Lists::trace_widen, crate::proofs::Lists::part_of_trace))]
    pub fn cut_up_to(&self, from: u32, upto: u32) -> Result<Option<Piece>, AllocError>
        requires later { self.now.clock ≤ upto }
        requires known { from ≤ upto }
        requires kept { self.now.base ≤ from }
        ensures cut { IfOk result (λ piece. piece ≡ cut (wave_up_to self.now upto) from) }
        ensures idle { from ≡ upto → result ≡ Ok None }
    {
        if from == upto {
            return Ok(None);
        }
        let changes = Vec::from_slice(*self.changes.allocator(), since(self.changes(), from))?;
        Ok(Some(Piece::of_trace(self.net, from, upto, changes)))
    }

    /// Forgets the changes below the tick `upto`, which is then the base, and keeps the level that
    /// they leave and the count. Takes no memory.
    #[tactic(auto, using(crate::proofs::Lists::forgotten_head, crate::proofs::Lists::take_below))]
    pub fn forget(&mut self, upto: u32)
        requires known { upto ≤ self.old.clock }
        requires kept { self.old.base ≤ upto }
        ensures { self.new ≡ wave_from self.old upto }
    {
        let changes = self.changes();
        let below = count_below(changes, upto);
        let level = level_after(self.kept, changes, below);
        self.kept = level;
        self.base = upto;
        self.forgotten += below;
        self.compact();
    }

    // Drops the forgotten changes once they are half of the list or more: a drop moves all that is
    // kept, and so costs no more than what was forgotten since the last one.
    fn compact(&mut self)
        ensures { self.new ≡ self.old }
    {
        if self.forgotten >= self.changes.len() - self.forgotten {
            drop(self.changes.drain(..self.forgotten));
            self.forgotten = 0;
        }
    }
}
