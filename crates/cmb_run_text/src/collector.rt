//! The waves of all nets, put together from pieces.

ghost use Rattle.std.specs.Prelude.{◌≡◌, ◌≤◌, ◌<◌, ◌↔◌, ℕ, length, map, IsTrue, IfOk, IfErr, OnOk, OnErr, Ok};
ghost use Rattle.cmb_wave.specs.Wave.{wave_from};
ghost use Rattle.cmb_run_text.specs.Collector.{AreCollected, AreInPlace, AreKeptFrom, IsComplete, RefusesAs, adopted};
ghost use Rattle.cmb_run_text.specs.Collector.{collected};
ghost use Rattle.cmb_run_text.specs.Collector.{forgot, least, least_clock, new_collector, new_waves, wave_of};

use crate::fault::CollectFault;
use cmb_design_model::Design;
use cmb_wave::{Piece, Wave};
use std::alloc::{AllocError, Global};
use std::marker::Model;

/// A wave for each net of a design, from tick 0 on, less what was forgotten on request.
#[derive(Debug, Drop)]
pub struct Collector {
    waves: Vec<Wave>,
    horizon: u32,
}

impl Model for Collector {
    ghost use Rattle.cmb_run_text.specs.Collector.{AreInPlace, Collector};

    ghost Value = { Collector };

    ghost view = { λ c. record { waves = c.waves.items; horizon = c.horizon } };

    ghost invariant = { λ c. AreInPlace c.horizon c.waves.items };
}

// The waves of so many nets, of which nothing is known.
fn make_waves(alloc: Global, nets: u32) -> Result<Vec<Wave>, AllocError>
    ensures { IfOk result (λ waves. waves.items ≡ new_waves nets) }
{
    let mut waves = Vec::with_capacity(alloc, nets as usize)?;
    for net in 0..nets {
        waves.push(Wave::new(alloc, net))?;
    }
    Ok(waves)
}

#[tactic(auto, using(crate::proofs::CollectorFacts::least_clock_bound))]
// The least clock of some waves, and no more than the horizon.
fn least_of(waves: &[Wave], horizon: u32) -> u32
    ensures { result ≡ least_clock horizon waves.now }
{
    let mut least = horizon;
    for wave in waves {
        least = least.min(wave.clock());
    }
    least
}

// Lets waves forget their changes below a tick.
fn forget_all(waves: &mut [Wave], upto: u32)
    requires known { (net : ℕ) → net < length waves.old → upto ≤ (wave_of waves.old net).clock }
    requires kept { AreKeptFrom upto waves.old }
    ensures { waves.new ≡ map (λ wave. wave_from wave upto) waves.old }
{
    for wave in waves.iter_mut() {
        wave.forget(upto);
    }
}

impl Collector {
    /// A collector of which nothing is known, for the nets of a design and up to its horizon.
    pub fn open(alloc: Global, design: &Design) -> Result<Collector, AllocError>
        ensures { IfOk result (λ collector. collector ≡ new_collector design.now) }
    {
        let waves = make_waves(alloc, design.netlist().len() as u32)?;
        Ok(Collector {
            waves,
            horizon: design.horizon(),
        })
    }

    /// Takes over the waves of a design's nets, one a net in the order of their numbers. Each goes from tick 0 to the
    /// horizon at most.
    pub fn of_waves(waves: Vec<Wave>, horizon: u32) -> Collector
        requires { AreCollected horizon waves.items }
        ensures { result ≡ record { waves = waves.items; horizon = horizon } }
    {
        Collector { waves, horizon }
    }

    /// Goes on by a piece of a net, and gives the net's new clock. Of an overlapping piece the changes from the clock
    /// on are added. A refused piece changes nothing. Faults: 52, 50, 51, 49, tested in this order, and 70.
    pub fn take(&mut self, piece: &Piece) -> Result<u32, CollectFault>
        requires { piece.now.to ≤ self.old.horizon }
        ensures ok { OnOk result (collected self.old piece.now ≡ Ok self.new) }
        ensures clock { IfOk result (λ clock. clock ≡ piece.now.to) }
        ensures fault { IfErr result (λ fault. RefusesAs fault (collected self.old piece.now)) }
        ensures unchanged { OnErr result (self.new ≡ self.old) }
        ensures nets { length self.new.waves ≡ length self.old.waves }
        ensures horizon { self.new.horizon ≡ self.old.horizon }
    {
        let net = piece.net() as usize;
        if net >= self.waves.len() {
            return Err(CollectFault::Stranger);
        }
        let clock = self.waves[net].take(piece)?;
        Ok(clock)
    }

    /// Takes a wave over in the place of its net's, where it is known further. Copies no change and takes no memory.
    /// It isn't checked that both waves tell the same as far as both are known; exact ones do.
    pub fn adopt(&mut self, wave: Wave)
        requires net { wave.net < length self.old.waves }
        requires whole { wave.base ≡ 0 }
        requires within { wave.clock ≤ self.old.horizon }
        ensures { self.new ≡ adopted self.old wave }
    {
        let net = wave.net() as usize;
        if self.waves[net].clock() < wave.clock() {
            self.waves[net] = wave;
        }
    }

    /// Forgets the changes below a tick, up to which all waves are known and beyond which none has forgotten anything,
    /// and keeps the levels that they leave. Takes no memory.
    pub fn forget(&mut self, upto: u32)
        requires known { upto ≤ least self.old }
        requires kept { AreKeptFrom upto self.old.waves }
        ensures { self.new ≡ forgot self.old upto }
    {
        forget_all(&mut self.waves, upto);
    }

    /// The waves of the nets, in the order of their numbers.
    pub fn waves(&self) -> &[Wave]
        ensures waves { result.now ≡ self.now.waves }
        ensures placed { AreInPlace self.now.horizon result.now }
    {
        &self.waves
    }

    /// The same waves, for one who goes on with them.
    pub(crate) fn into_waves(self) -> Vec<Wave>
        ensures { result.items ≡ self.waves }
    {
        self.waves
    }

    /// The tick up to which the waves can be known.
    pub fn horizon(&self) -> u32
        ensures { result ≡ self.now.horizon }
    {
        self.horizon
    }

    /// The least clock: below it all levels are known. It is the horizon where there are no nets.
    pub fn least(&self) -> u32
        ensures { result ≡ least self.now }
    {
        least_of(&self.waves, self.horizon)
    }

    /// Whether all levels below the horizon are known.
    pub fn complete(&self) -> bool
        ensures { IsTrue result ↔ IsComplete self.now }
    {
        self.least() == self.horizon
    }
}
