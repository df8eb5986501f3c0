//! The logical processes of a run as it begins, and the channels among them.

ghost use Rattle.std.specs.Prelude.{◌≡◌, ◌≢◌, ℕ, ◌+◌, ◌<◌, ◌≤◌, ◌++◌, ◌∷◌, [], ◌^◌, Contains, length, map};
ghost use Rattle.std.specs.Prelude.{slice_index_or, false, true, IfOk, OnOk};
ghost use Rattle.cmb_shares.specs.Inner.Channels.{greeting};
ghost use Rattle.cmb_shares.specs.Inner.Flows.{AreSources};
ghost use Rattle.cmb_shares.specs.Inner.Opened.{AreCovered, AreOpened, AreStations, IsEngineOf};
ghost use Rattle.cmb_shares.specs.Inner.Processes.{AreJoined, AreLone, AreMembers};
ghost use Rattle.cmb_shares.specs.Inner.Runs.{IsRun, driven_by, subject_in};
ghost use Rattle.cmb_shares.specs.Inner.Stations.{Standing};

use crate::channel::channel;
use crate::desk::Inflow;
use crate::feeders::feeders_of;
use crate::share_run::ShareRun;
use crate::simulator::Simulator;
use crate::station::{Feed, Station};
use cmb_design_model::Design;
use cmb_engine::{ShareEngine, Windows};
use cmb_graph_partition::Partition;
use rtrb::RingBuffer;
use std::alloc::{AllocError, Global};

// How many messages a channel between shares holds: one more would never be needed, since no share is two windows
// ahead.
const ROOM: usize = 2;

// How many windows a share may be ahead of the text: an estimate.
const AHEAD: usize = 16;

// The station of the share of a number, of so many, and the channel by which it sends to the text.
fn station_of<'a, T: ShareRun>(
    alloc: Global,
    engine: ShareEngine<'a>,
    number: u32,
    shares: u32,
    owners: &'a [u32],
    windows: &Windows,
) -> Result<(Station<'a, T>, Inflow<T>), AllocError>
    requires lawful { IsRun T.run }
    requires engine { IsEngineOf (subject_in T.run) T.run.crossing T.run.owners number (driven_by T.run number) engine }
    requires short { T.run.windows.width ≤ engine.width }
    requires number { number < length T.run.driven }
    requires shares { shares ≡ length T.run.driven }
    requires owners { owners.now ≡ T.run.owners }
    requires windows { windows.now ≡ T.run.windows }
    ensures number { IfOk result (λ both. both.0.number ≡ number) }
    ensures clock { IfOk result (λ both. both.0.clock ≡ 1) }
    ensures source { IfOk result (λ both. both.1 ≡ greeting number shares) }
    ensures inlets { IfOk result (λ both. both.0.inlets ≡ []) }
    ensures feeds { IfOk result (λ both. both.0.feeds ≡ []) }
    ensures text { IfOk result (λ both. both.0.text ≡ greeting number (length T.run.driven)) }
{
    let Ok(windows) = windows.copy() else {
        drop(engine);
        return Err(AllocError);
    };
    let simulator = Simulator {
        number,
        shares,
        owners,
        engine,
        windows,
    };
    let Ok((text, inlet)) = channel::<T>(alloc, number, shares, AHEAD) else {
        drop(simulator);
        return Err(AllocError);
    };
    let Ok((giver, back)) = RingBuffer::new(alloc, AHEAD) else {
        drop((simulator, text, inlet));
        return Err(AllocError);
    };
    let source = Inflow { inlet, back: giver };
    Ok((Station::new(alloc, simulator, text, back), source))
}

/// The stations of all shares, which receive from no share yet, and their channels to the text. Errors: memory
/// was refused.
pub(crate) fn stations_of<'a, T: ShareRun>(
    alloc: Global,
    engines: Vec<ShareEngine<'a>>,
    owners: &'a [u32],
    windows: &Windows,
) -> Result<(Vec<Station<'a, T>>, Vec<Inflow<T>>), AllocError>
    requires opened { AreOpened T.run engines.items }
    requires owners { owners.now ≡ T.run.owners }
    requires windows { windows.now ≡ T.run.windows }
    ensures count { IfOk result (λ both. length both.0.items ≡ length T.run.driven) }
    ensures stations { IfOk result (λ both. AreStations both.0.items) }
    ensures told { IfOk result (λ both. length both.1.items ≡ length T.run.driven) }
    ensures sources { IfOk result (λ both. AreSources T.run 1 both.1.items) }
    ensures lone { IfOk result (λ both. AreLone (length T.run.driven) both.0.items) }
{
    let mut engines = engines;
    let shares = engines.len();
    let mut stations = Vec::new(alloc);
    let mut sources = Vec::new(alloc);
    for number in 0..shares {
        let engine = engines.remove(0);
        let (station, source) = station_of::<T>(
            alloc,
            engine,
            number as u32,
            shares as u32,
            owners,
            windows,
        )?;
        stations.push(station)?;
        sources.push(source)?;
    }
    Ok((stations, sources))
}

// Lays a channel from a share to another one, which drives these nets.
fn connect<'a, T: ShareRun>(
    alloc: Global,
    stations: &mut [Station<'a, T>],
    sender: usize,
    reader: usize,
    driven: &'a [bool],
) -> Result<(), AllocError>
    requires stations { AreStations stations.old }
    requires count { length stations.old ≡ length T.run.driven }
    requires few { length T.run.driven < 2 ^ 32 }
    requires sender { sender < length stations.old }
    requires reader { reader < length stations.old }
    requires driven { driven.now ≡ driven_by T.run reader }
    ensures len { length stations.new ≡ length stations.old }
    ensures stations { OnOk result (AreStations stations.new) }
    ensures others { OnOk result ((k : ℕ) (d : Standing) → k < length stations.old → k ≢ reader
        → (slice_index_or stations.new k d).senders ≡ (slice_index_or stations.old k d).senders) }
    ensures heard { OnOk result ((d : Standing) → (slice_index_or stations.new reader d).senders
        ≡ (slice_index_or stations.old reader d).senders ++ sender ∷ []) }
    ensures joined { OnOk result (AreJoined (length T.run.driven) stations.old
        → AreJoined (length T.run.driven) stations.new) }
{
    let (outlet, inlet) = channel::<T>(alloc, sender as u32, reader as u32, ROOM)?;
    stations[sender].add_feed(Feed::new(outlet, reader as u32, driven))?;
    stations[reader].add_inlet(inlet)
}

// The same, where the first share feeds the second.
fn connect_feeder<'a, T: ShareRun>(
    alloc: Global,
    stations: &mut [Station<'a, T>],
    feeds: bool,
    sender: usize,
    reader: usize,
    driven: &'a [bool],
) -> Result<(), AllocError>
    requires stations { AreStations stations.old }
    requires count { length stations.old ≡ length T.run.driven }
    requires few { length T.run.driven < 2 ^ 32 }
    requires sender { sender < length stations.old }
    requires reader { reader < length stations.old }
    requires driven { driven.now ≡ driven_by T.run reader }
    ensures len { length stations.new ≡ length stations.old }
    ensures stations { OnOk result (AreStations stations.new) }
    ensures others { OnOk result ((k : ℕ) (d : Standing) → k < length stations.old → k ≢ reader
        → (slice_index_or stations.new k d).senders ≡ (slice_index_or stations.old k d).senders) }
    ensures kept { OnOk result ((one : ℕ) (d : Standing) → Contains (slice_index_or stations.old reader d).senders one
        → Contains (slice_index_or stations.new reader d).senders one) }
    ensures heard { OnOk result (feeds ≡ true
        → (d : Standing) → Contains (slice_index_or stations.new reader d).senders sender) }
    ensures joined { OnOk result (AreJoined (length T.run.driven) stations.old
        → AreJoined (length T.run.driven) stations.new) }
{
    if !feeds {
        return Ok(());
    }
    connect(alloc, stations, sender, reader, driven)
}

// Lays a channel to a share, which drives these nets, from each share that is marked as one that feeds it.
fn connect_reader<'a, T: ShareRun>(
    alloc: Global,
    stations: &mut [Station<'a, T>],
    feeders: &[bool],
    reader: usize,
    driven: &'a [bool],
) -> Result<(), AllocError>
    requires stations { AreStations stations.old }
    requires count { length stations.old ≡ length T.run.driven }
    requires few { length T.run.driven < 2 ^ 32 }
    requires feeders { length feeders.now ≡ length stations.old }
    requires reader { reader < length stations.old }
    requires driven { driven.now ≡ driven_by T.run reader }
    ensures len { length stations.new ≡ length stations.old }
    ensures stations { OnOk result (AreStations stations.new) }
    ensures others { OnOk result ((k : ℕ) (d : Standing) → k < length stations.old → k ≢ reader
        → (slice_index_or stations.new k d).senders ≡ (slice_index_or stations.old k d).senders) }
    ensures heard { OnOk result ((sender : ℕ) (d : Standing) → sender < length feeders.now
        → slice_index_or feeders.now sender false ≡ true
        → Contains (slice_index_or stations.new reader d).senders sender) }
    ensures joined { OnOk result (AreJoined (length T.run.driven) stations.old
        → AreJoined (length T.run.driven) stations.new) }
{
    for sender in 0..feeders.len() {
        connect_feeder(alloc, stations, feeders[sender], sender, reader, driven)?;
    }
    Ok(())
}

/// Lays a channel from each share to each that it feeds, which makes a network of them. Errors: memory was refused.
pub(crate) fn connect_all<'a, T: ShareRun>(
    alloc: Global,
    design: &Design,
    partition: &'a Partition,
    stations: &mut [Station<'a, T>],
) -> Result<(), AllocError>
    requires lawful { IsRun T.run }
    requires few { length T.run.driven < 2 ^ 32 }
    requires design { design.now ≡ T.run.design }
    requires owners { partition.now.owners.items ≡ T.run.owners }
    requires driven { map (λ s. s.driven.items) partition.now.shares.items ≡ T.run.driven }
    requires stations { AreStations stations.old }
    requires count { length stations.old ≡ length T.run.driven }
    requires lone { AreLone (length T.run.driven) stations.old }
    ensures len { length stations.new ≡ length stations.old }
    ensures stations { OnOk result (AreStations stations.new) }
    ensures covered { OnOk result (AreCovered T.run (length stations.old) stations.new) }
    ensures members { OnOk result (AreMembers T.run stations.new) }
{
    // Its contract tells that there is a tick.
    let _horizon = design.horizon();
    for reader in 0..stations.len() {
        let driven = &partition.shares[reader].driven;
        let shares = stations.len();
        let feeders = feeders_of(alloc, design, &partition.owners, driven, shares)?;
        connect_reader(alloc, stations, &feeders, reader, driven)?;
    }
    Ok(())
}
