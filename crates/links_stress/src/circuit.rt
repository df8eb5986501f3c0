//! A circuit that threads work on, and the plain program's waves of it, with which everything is compared.

ghost use Rattle.std.specs.Prelude.{◌≡◌, ◌≤◌, IfOk, length};
ghost use Rattle.cmb_design_model.specs.Exact.{nets_of};

use crate::trouble::Trouble;
use cmb_bench::read_bench;
use cmb_core_cluster::Clustering;
use cmb_design_model::{Design, Settings, plain_waves};
use cmb_design_tables::{read_clocks, read_delays, read_initial, read_stimuli};
use cmb_netlist::MAX_TEXT;
use cmb_wave::{Change, Level, Piece, Promise, Wave};
use std::alloc::Global;

/// A design, a clustering of it, and every net's wave up to the horizon.
#[derive(Drop)]
pub struct Circuit {
    pub design: Design,
    pub clustering: Clustering,
    pub waves: Vec<Wave>,
    ghost each: { length clustering.assign ≡ nets_of design },
    ghost two: { clustering.clusters ≡ 2 },
}

/// Flip-flops that sample at ticks 2, 6, 10 and so on, and hold 0 before.
fn settings(horizon: u32) -> Settings {
    Settings {
        horizon,
        clock: Some((2, 4)),
        init: Level::Zero,
    }
}

/// The design of a netlist's text without rows, if it is one.
fn design_of(alloc: Global, netlist: &[u8], horizon: u32) -> Option<Design>
    requires { length netlist.now ≤ MAX_TEXT }
{
    let delays = read_delays(alloc, b"").ok()?;
    let stimuli = read_stimuli(alloc, b"").ok()?;
    let clocks = read_clocks(alloc, b"").ok()?;
    let initial = read_initial(alloc, b"").ok()?;
    let netlist = read_bench(alloc, netlist).ok()?;
    let settings = settings(horizon);
    Design::new(alloc, netlist, delays, stimuli, clocks, initial, settings).ok()
}

/// The same, or the trouble that it is none.
fn read_design(alloc: Global, netlist: &[u8], horizon: u32) -> Result<Design, Trouble>
    requires { length netlist.now ≤ MAX_TEXT }
{
    design_of(alloc, netlist, horizon).ok_or(Trouble::Circuit)
}

/// A clustering of the design. `clusters` has the cluster of each net.
fn clustering_of(alloc: Global, design: &Design, clusters: &[u32]) -> Result<Clustering, Trouble>
    ensures each { IfOk result (λ clustering. length clustering.assign ≡ nets_of design.now) }
    ensures two { IfOk result (λ clustering. clustering.clusters ≡ 2) }
{
    let assign = clusters.to_vec(alloc)?;
    let Ok(clustering) = Clustering::new(design.netlist().len() as u32, 2, assign) else {
        return Err(Trouble::Circuit);
    };
    if clustering.nets() != design.netlist().len() || clustering.clusters() != 2 {
        return Err(Trouble::Circuit);
    }
    Ok(clustering)
}

/// The plain program's waves of the design.
fn waves_of(alloc: Global, design: &Design) -> Result<Vec<Wave>, Trouble> {
    match plain_waves(alloc, design) {
        Ok(waves) => Ok(waves),
        Err(_) => Err(Trouble::Circuit),
    }
}

/// The plain program's waves of the design, and a clustering of it.
fn parts_of(
    alloc: Global,
    design: &Design,
    clusters: &[u32],
) -> Result<(Vec<Wave>, Clustering), Trouble>
    ensures each { IfOk result (λ parts. length parts.1.assign ≡ nets_of design.now) }
    ensures two { IfOk result (λ parts. parts.1.clusters ≡ 2) }
{
    let waves = waves_of(alloc, design)?;
    let clustering = clustering_of(alloc, design, clusters)?;
    Ok((waves, clustering))
}

/// How many of the changes are below a tick.
fn below(changes: &[Change], tick: u32) -> usize
    ensures { result ≤ length changes.now }
{
    changes.partition_point(|change| change.tick < tick)
}

impl Circuit {
    /// A circuit of two clusters. `clusters` has the cluster of each net.
    pub fn read(
        alloc: Global,
        netlist: &[u8],
        clusters: &[u32],
        horizon: u32,
    ) -> Result<Circuit, Trouble>
        requires { length netlist.now ≤ MAX_TEXT }
    {
        let design = read_design(alloc, netlist, horizon)?;
        match parts_of(alloc, &design, clusters) {
            Ok((waves, clustering)) => Ok(Circuit {
                design,
                clustering,
                waves,
            }),
            Err(trouble) => {
                drop(design);
                Err(trouble)
            }
        }
    }

    /// Whether the net has as many changes below the promise's tick as it says.
    pub fn is_right(&self, promise: Promise) -> bool {
        match self.waves.get(promise.net as usize) {
            Some(wave) => below(wave.changes(), promise.upto) == promise.count as usize,
            None => false,
        }
    }

    /// Whether the piece has the net's changes in its span, and no others.
    pub fn is_exact(&self, piece: &Piece) -> bool {
        let Some(wave) = self.waves.get(piece.net() as usize) else {
            return false;
        };
        let first = below(wave.changes(), piece.from());
        let last = below(wave.changes(), piece.to());
        first <= last && &wave.changes()[first..last] == piece.changes()
    }
}
