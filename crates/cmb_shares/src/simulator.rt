//! A share's engine, and what it sends.

ghost use Rattle.std.specs.Prelude.{◌≡◌, ℕ, ◌<◌, length, filter, IfOk, OnOk};
ghost use Rattle.cmb_design_model.specs.Value.{value};
ghost use Rattle.cmb_engine.specs.Shares.{IsGiven, TellsThose};
ghost use Rattle.cmb_shares.specs.Inner.Messages.{AreTold};
ghost use Rattle.cmb_shares.specs.Inner.Runs.{IsTurn, Run, driven_by};
ghost use Rattle.cmb_shares.specs.Inner.Simulators.{IsSimulator, IsToldAhead, is_fed, is_owned};

use crate::message::Envelope;
use crate::share_run::ShareRun;
use cmb_engine::{ShareEngine, Windows};
use cmb_words::Changed;
use std::alloc::AllocError;

/// A share's engine and number, the number of shares, and each net's owner.
#[derive(Drop)]
pub struct Simulator<'a> {
    pub number: u32,
    pub shares: u32,
    pub owners: &'a [u32],
    pub engine: ShareEngine<'a>,
    pub windows: Windows,
}

// Whether the share of a number owns a net.
fn owns(owners: &[u32], number: u32, one: Changed) -> bool
    ensures { result ≡ is_owned owners.now number one }
{
    match owners.get(one.net as usize) {
        Some(owner) => *owner == number,
        None => false,
    }
}

// Whether the share of a number owns a net that the reader, which drives these nets, doesn't drive.
fn feeds(owners: &[u32], number: u32, driven: &[bool], one: Changed) -> bool
    ensures { result ≡ is_fed owners.now number driven.now one }
{
    match driven.get(one.net as usize) {
        Some(true) => false,
        _ => owns(owners, number, one),
    }
}

/// Those of some changes that a share owns and another one, which drives these nets, doesn't drive, in place of what
/// `fed` had.
pub(crate) fn feed_of(
    told: &[Changed],
    owners: &[u32],
    number: u32,
    driven: &[bool],
    fed: &mut Vec<Changed>,
) -> Result<(), AllocError>
    ensures { OnOk result (fed.new.items ≡ filter (is_fed owners.now number driven.now) told.now) }
{
    fed.clear();
    for one in told {
        if feeds(owners, number, driven, *one) {
            fed.push(*one)?;
        }
    }
    Ok(())
}

impl<'a> Simulator<'a> {
    /// The tick up to which windows were made.
    pub(crate) fn clock(&self) -> u32
        ensures { result ≡ self.now.engine.clock }
    {
        self.engine.clock()
    }

    /// Where the next window ends.
    pub(crate) fn next_end<T: ShareRun>(&self) -> u32
        requires simulates { IsSimulator T.run self.now }
        requires open { self.now.engine.clock < T.run.windows.horizon }
        ensures { IsTurn T.run self.now.engine.clock result }
    {
        self.windows.end(self.engine.clock())
    }

    /// The envelope of what the share tells a reader of the ticks from `from` on below `upto`.
    pub(crate) fn envelope(&self, reader: u32, from: u32, upto: u32) -> Envelope
        ensures { result ≡ record { sender = self.now.number; reader = reader; from = from; upto = upto } }
    {
        Envelope {
            sender: self.number,
            reader,
            from,
            upto,
        }
    }

    /// Says ahead which of the share's crossing flip-flops change in the next window, in place of what `told` had.
    pub(crate) fn tell_ahead<T: ShareRun>(
        &self,
        upto: u32,
        told: &mut Vec<Changed>,
    ) -> Result<(), AllocError>
        requires simulates { IsSimulator T.run self.now }
        requires turn { IsTurn T.run self.now.engine.clock upto }
        ensures { OnOk result (IsToldAhead T.run self.now.number self.now.engine.clock upto told.new.items) }
    {
        self.engine.tell_ahead(upto, told)
    }

    /// Goes on by the next window. `given` has what the share is given of it, and `changes` gets what it owns of what
    /// changed there, and maybe others' changes, in place of what it had. Errors: memory was refused.
    pub(crate) fn advance<T: ShareRun>(
        self,
        upto: u32,
        given: &[Changed],
        changes: &mut Vec<Changed>,
    ) -> Result<Simulator<'a>, AllocError>
        requires simulates { IsSimulator T.run self }
        requires turn { IsTurn T.run self.engine.clock upto }
        requires given { TellsThose (IsGiven T.run.design (driven_by T.run self.number)) (value T.run.design)
            self.engine.clock upto given.now }
        ensures simulates { IfOk result (IsSimulator T.run) }
        ensures number { IfOk result (λ next. next.number ≡ self.entry.number) }
        ensures clock { IfOk result (λ next. next.engine.clock ≡ upto) }
        ensures told { OnOk result (AreTold T.run self.entry.number (length T.run.driven)
            self.entry.engine.clock upto changes.new.items) }
    {
        let Simulator {
            number,
            shares,
            owners,
            engine,
            windows,
        } = self;
        let Ok(engine) = engine.advance(upto, given, changes) else {
            drop(windows);
            return Err(AllocError);
        };
        Ok(Simulator {
            number,
            shares,
            owners,
            engine,
            windows,
        })
    }
}
