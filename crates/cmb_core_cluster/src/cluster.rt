//! A part of a design that is simulated by itself.

ghost use Rattle.std.specs.Prelude.{◌≡◌, ◌≢◌, ◌<◌, ◌≤◌, ℕ, IfOk, OnOk, OnErr, IfErr, IfSome, MatchOption, Ok, Err};
ghost use Rattle.std.specs.Prelude.{None, slice_set, length, map};

use crate::clustering::Clustering;
use crate::delivery::{DeliverFault, Stranger, refusal};
use crate::directory::{Directory, place_of};
use crate::node::Node;
use crate::open::{nets_held, nodes_of, places_among, sides_of, waves_of};
use crate::readers::readers_among;
use crate::span::Span;
use cmb_design_model::Design;
use cmb_wave::{Heard, Piece, Promise, Wave, WaveFault};
use std::alloc::{AllocError, Global};
use std::marker::Model;

/// Processes with their waves, and the waves that they are given.
#[derive(Drop)]
pub struct Cluster {
    pub(crate) horizon: u32,
    pub(crate) processes: Vec<Node>,
    pub(crate) waves: Vec<Wave>,
    pub(crate) directory: Directory,
}

impl Model for Cluster {
    ghost use Rattle.cmb_core_cluster.specs.Clusters.{Cluster, IsSound, wave_nets};
    ghost use Rattle.cmb_core_cluster.specs.Directory.{IsDirectory};

    ghost Value = { Cluster };

    ghost view = { λ c. record { horizon = c.horizon; processes = c.processes.items; waves = c.waves.items } };

    ghost invariant = { λ c. record {
      sound : IsSound
          (record { horizon = c.horizon; processes = c.processes.items; waves = c.waves.items });
      directory : IsDirectory c.processes.items (wave_nets c.waves.items) c.directory;
    } };
}

impl Cluster {
    ghost use Rattle.cmb_wave.specs.Waveform.{last_level, level_at, level_before};
    ghost use Rattle.cmb_design_model.specs.Design.{Design};
    ghost use Rattle.cmb_design_model.specs.Exact.{nets_of, IsExactIn, IsRightIn};
    ghost use Rattle.cmb_wave.specs.Wave.{new_wave};
    ghost use Rattle.cmb_core_cluster.specs.Clustering.{Clustering as Clusters};
    ghost use Rattle.cmb_core_cluster.specs.Exactness.{IsExactCluster};
    ghost use Rattle.cmb_core_cluster.specs.Opened.{IsClusterOf, IsOwnNet, held_nets};
    ghost use Rattle.cmb_core_cluster.specs.Step.{wave_at, with_wave};
    ghost use Rattle.cmb_core_cluster.specs.Rows.{slot_of};
    ghost use Rattle.cmb_core_cluster.specs.Clusters.{slot_wave, process_at, step_answer, step_waves};
    ghost use Rattle.cmb_core_cluster.specs.Inner.Spans.{new_part, new_waves_at};
    ghost use Rattle.cmb_core_cluster.specs.Clusters.{IsSound, input_slot, output_slot, delivered, RefusesDelivery};
    ghost use Rattle.cmb_core_cluster.specs.Clusters.{heard_at};
    ghost use Rattle.cmb_core_cluster.specs.Clusters.{IsSameButWaves};
    ghost use Rattle.cmb_core_cluster.specs.Inner.Spans.{IsNextSpan, reach_at, row_at};
    ghost use Rattle.cmb_wave.specs.Calls.{taken, RefusesAs, hears, heard_wave};
    ghost use Rattle.cmb_core_cluster.specs.declared.delivery.DeliverFault.TheVariants.{Clash};

    /// The cluster with this number, of which nothing is known yet.
    pub fn open(
        alloc: Global,
        design: &Design,
        clustering: &Clustering,
        cluster: u32,
    ) -> Result<Cluster, AllocError>
        requires nets { length clustering.now.assign ≡ nets_of design.now }
        requires cluster { cluster < clustering.now.clusters }
        ensures of { IfOk result (λ s. IsClusterOf design.now clustering.now cluster s) }
        ensures new { IfOk result (λ s. s.waves ≡ map new_wave (held_nets design.now clustering.now cluster)) }
        ensures exact { IfOk result (λ s. IsExactCluster design.now clustering.now cluster s) }
    {
        let nets = nets_held(alloc, design, clustering, cluster)?;
        let places = places_among(alloc, &nets, design.netlist().len())?;
        let processes = nodes_of(alloc, design, clustering, cluster, &nets, &places)?;
        let (driven, inputs) = sides_of(alloc, &processes, &nets)?;
        let readers = readers_among(alloc, &processes)?;
        let waves = waves_of(alloc, &nets)?;
        Ok(Cluster {
            horizon: design.horizon(),
            processes,
            waves,
            directory: Directory {
                places,
                driven,
                inputs,
                readers,
            },
        })
    }

    /// Lets a net of the cluster's own go on as far as its operands are known, and answers what is new
    /// of it, None where nothing is, also where there is no memory. Of exact waves the new part is exact,
    /// and they stay so. Of a net that isn't driven here nothing is new.
    pub fn step(&mut self, net: u32) -> Result<Option<Piece>, AllocError>
        ensures piece { (design : Design) (clustering : Clusters) (cluster : ℕ)
            → IsClusterOf design clustering cluster self.old → IsOwnNet design clustering cluster net
            → IfOk result (λ part. part ≡ step_answer design self.old.waves (wave_at self.old.waves net)) }
        ensures waves { (design : Design) (clustering : Clusters) (cluster : ℕ)
            → IsClusterOf design clustering cluster self.old → IsOwnNet design clustering cluster net
            → OnOk result (self.new.waves ≡ step_waves design self.old.waves (wave_at self.old.waves net)) }
        ensures still { (design : Design) (clustering : Clusters) (cluster : ℕ)
            → IsClusterOf design clustering cluster self.old → IsOwnNet design clustering cluster net
            → step_answer design self.old.waves (wave_at self.old.waves net) ≡ None → result ≡ Ok None }
        ensures exact { (design : Design) (clustering : Clusters) (cluster : ℕ)
            → IsExactCluster design clustering cluster self.old → IsExactCluster design clustering cluster self.new }
        ensures sent { (design : Design) (clustering : Clusters) (cluster : ℕ)
            → IsExactCluster design clustering cluster self.old → IsOwnNet design clustering cluster net
            → IfOk result (λ part. IfSome part (IsExactIn design)) }
        ensures other { output_slot self.old net ≡ None → result ≡ Ok None }
        ensures idle { output_slot self.old net ≡ None → self.new ≡ self.old }
        ensures unchanged { OnErr result (self.new ≡ self.old) }
        ensures same { IsSameButWaves self.old self.new }
    {
        match self.place(net) {
            Some(slot) => self.step_at(slot),
            None => Ok(None),
        }
    }

    // The place of the wave of a net.
    fn place(&self, net: u32) -> Option<usize>
        ensures place { result ≡ slot_of self.now.waves net }
        ensures there { IfSome result (λ slot. slot < length self.now.waves) }
    {
        match place_of(&self.directory.places, net) {
            Some(slot) => Some(slot as usize),
            None => None,
        }
    }

    // The wave in a place.
    pub(crate) fn wave(&self, slot: usize) -> &Wave
        requires { slot < length self.now.waves }
        ensures wave { result.now ≡ slot_wave self.now slot }
        ensures sound { IsSound self.now }
    {
        &self.waves[slot]
    }

    // The process of the wave in a place.
    pub(crate) fn process(&self, slot: usize) -> &Node
        requires { slot < length self.now.waves }
        ensures { result.now ≡ process_at self.now slot }
    {
        &self.processes[slot]
    }

    // The span of a wave's new ticks, None where its process can't go on.
    pub(crate) fn next_span(&self, slot: usize) -> Option<Span>
        requires { slot < length self.now.waves }
        ensures span { MatchOption result (reach_at self.now slot ≤ (slot_wave self.now slot).clock)
            (IsNextSpan self.now slot) }
        ensures sound { IsSound self.now }
    {
        let wave = self.wave(slot);
        let from = wave.clock();
        let until = self.process(slot).reach(self.horizon, &self.waves);
        if until <= from {
            return None;
        }
        Some(Span {
            before: wave.last_level(),
            from,
            until,
        })
    }

    // The same by the place of the net's wave.
    pub(crate) fn step_at(&mut self, slot: usize) -> Result<Option<Piece>, AllocError>
        requires { slot < length self.old.waves }
        ensures sound { IsSound self.old }
        ensures part { IfOk result (λ part. part ≡ new_part self.old slot) }
        ensures waves { OnOk result (self.new.waves ≡ new_waves_at self.old slot) }
        ensures before { (slot_wave self.old slot).clock < reach_at self.old slot
            → last_level (slot_wave self.old slot).kept (slot_wave self.old slot).changes
            ≡ level_before (level_at (slot_wave self.old slot).kept (slot_wave self.old slot).changes)
            (slot_wave self.old slot).clock }
        ensures none { reach_at self.old slot ≤ (slot_wave self.old slot).clock → result ≡ Ok None }
        ensures idle { reach_at self.old slot ≤ (slot_wave self.old slot).clock → self.new ≡ self.old }
        ensures unchanged { OnErr result (self.new ≡ self.old) }
        ensures same { IsSameButWaves self.old self.new }
    {
        let Some(span) = self.next_span(slot) else {
            return Ok(None);
        };
        let mut changes = Vec::new(*self.waves.allocator());
        self.process(slot).changes(&mut changes, &self.waves, span)?;
        let piece = self.waves[slot].grow(span.until, changes)?;
        Ok(Some(piece))
    }

    // The place of an input wave of a net.
    pub(crate) fn input_place(&self, net: u32) -> Option<usize>
        ensures place { result ≡ input_slot self.now net }
        ensures there { IfSome result (λ slot. slot < length self.now.waves) }
    {
        match self.place(net) {
            Some(slot) => {
                if self.process(slot).is_given() {
                    Some(slot)
                } else {
                    None
                }
            }
            None => None,
        }
    }

    // The place of the wave of a net that is driven here.
    pub(crate) fn output_place(&self, net: u32) -> Option<usize>
        ensures place { result ≡ output_slot self.now net }
        ensures there { IfSome result (λ slot. slot < length self.now.waves) }
    {
        match self.place(net) {
            Some(slot) => {
                if self.process(slot).is_given() {
                    None
                } else {
                    Some(slot)
                }
            }
            None => None,
        }
    }

    /// Gives a piece to the input wave of its net, and answers the new clock. Refused by 44 `Stranger`
    /// where the cluster has no such wave, then as by the wave: 42 `Gap`, 43 `Old`, 47 `Clash`, or 70.
    /// Exact waves stay exact by exact pieces, which never clash with them.
    pub fn deliver(&mut self, piece: &Piece) -> Result<u32, DeliverFault>
        ensures ok { OnOk result (delivered self.old piece.now ≡ Ok (wave_at self.new.waves piece.now.net)) }
        ensures waves { OnOk result (self.new.waves ≡ with_wave self.old.waves (wave_at self.new.waves piece.now.net)) }
        ensures clock { IfOk result (λ clock. clock ≡ (wave_at self.new.waves piece.now.net).clock) }
        ensures fault { IfErr result (λ fault. RefusesDelivery fault (delivered self.old piece.now)) }
        ensures unchanged { OnErr result (self.new ≡ self.old) }
        ensures same { IsSameButWaves self.old self.new }
        ensures exact { (design : Design) (clustering : Clusters) (cluster : ℕ)
            → IsExactCluster design clustering cluster self.old → IsExactIn design piece.now
            → IsExactCluster design clustering cluster self.new }
        ensures calm { (design : Design) (clustering : Clusters) (cluster tick : ℕ)
            → IsExactCluster design clustering cluster self.old → IsExactIn design piece.now
            → result ≢ Err (Clash tick) }
    {
        match self.input_place(piece.net()) {
            Some(slot) => match self.deliver_at(slot, piece) {
                Ok(clock) => Ok(clock),
                Err(fault) => Err(refusal(fault)),
            },
            None => Err(DeliverFault::Stranger),
        }
    }

    // The same by the wave's place.
    fn deliver_at(&mut self, slot: usize, piece: &Piece) -> Result<u32, WaveFault>
        requires { slot < length self.old.waves }
        ensures ok { OnOk result (taken (slot_wave self.old slot) piece.now ≡ Ok (slot_wave self.new slot)) }
        ensures waves { self.new.waves ≡ slice_set self.old.waves slot (slot_wave self.new slot) }
        ensures clock { IfOk result (λ clock. clock ≡ (slot_wave self.new slot).clock) }
        ensures net { (slot_wave self.new slot).net ≡ (slot_wave self.old slot).net }
        ensures fault { IfErr result (λ fault. RefusesAs fault (taken (slot_wave self.old slot) piece.now)) }
        ensures unchanged { OnErr result (self.new ≡ self.old) }
        ensures same { IsSameButWaves self.old self.new }
    {
        self.waves[slot].take(piece)
    }

    /// Tells a promise to the input wave of its net. Refused by 44 where the cluster has no such wave, and
    /// then nothing changes. Exact waves stay exact by right promises.
    pub fn hear(&mut self, promise: Promise) -> Result<Heard, Stranger>
        ensures answer { result ≡ heard_at self.old promise (input_slot self.old promise.net) }
        ensures waves { OnOk result (self.new.waves
            ≡ with_wave self.old.waves (heard_wave (wave_at self.old.waves promise.net) promise)) }
        ensures unchanged { OnErr result (self.new ≡ self.old) }
        ensures same { IsSameButWaves self.old self.new }
        ensures exact { (design : Design) (clustering : Clusters) (cluster : ℕ)
            → IsExactCluster design clustering cluster self.old → IsRightIn design promise
            → IsExactCluster design clustering cluster self.new }
    {
        match self.input_place(promise.net) {
            Some(slot) => Ok(self.hear_at(slot, promise)),
            None => Err(Stranger),
        }
    }

    // The same by the wave's place.
    fn hear_at(&mut self, slot: usize, promise: Promise) -> Heard
        requires { slot < length self.old.waves }
        ensures answer { result ≡ hears (slot_wave self.old slot) promise }
        ensures waves { self.new.waves ≡ slice_set self.old.waves slot (heard_wave (slot_wave self.old slot) promise) }
        ensures same { IsSameButWaves self.old self.new }
    {
        self.waves[slot].hear(promise)
    }
}
