//! A logical process: a share's engine, and the channels from and to it.

ghost use Rattle.std.specs.Prelude.{◌≡◌, ◌<◌, ◌++◌, ◌∷◌, [], true, false, length, IfSome, OnOk};
ghost use Rattle.cmb_design_model.specs.Value.{value};
ghost use Rattle.cmb_engine.specs.Shares.{IsGiven, TellsThose};
ghost use Rattle.cmb_shares.specs.Inner.Channels.{greeting};
ghost use Rattle.cmb_shares.specs.Inner.Processes.{Turns, member_of};
ghost use Rattle.cmb_shares.specs.Inner.Runs.{IsTurn, driven_by};
ghost use Rattle.cmb_shares.specs.Inner.Simulators.{IsSimulator, IsToldAhead};
ghost use Rattle.cmb_shares.specs.Inner.Stations.{AreFed, AreHeard, AreHeardOf, Covers, HasTold, Standing};
ghost use Rattle.cmb_shares.specs.Inner.Stations.{readers_of, senders_of};

use crate::channel::{Inlet, Next, Outlet, Watched, look_at};
use crate::message::Message;
use crate::share_run::ShareRun;
use crate::simulator::{Simulator, feed_of};
use cmb_graph_partition::MOST_SHARES;
use cmb_words::Changed;
use rtrb::Consumer;
use std::alloc::{AllocError, Global};
use std::marker::Model;

/// A channel to a share that drives these nets.
#[derive(Drop)]
pub struct Feed<'a, T: ShareRun> {
    pub outlet: Outlet<T>,
    pub reader: u32,
    pub driven: &'a [bool],
}

impl<'a, T: ShareRun> Model for Feed<'a, T> {
    ghost use Rattle.std.specs.Prelude.{◌≡◌};
    ghost use Rattle.cmb_shares.specs.declared.message.Envelope.{Envelope};
    ghost use Rattle.cmb_shares.specs.Inner.Stations.{LeadsTo};

    // That of the last message that went.
    ghost Value = { Envelope };

    ghost view = { λ feed. feed.outlet };

    ghost invariant = { λ feed. (feed.outlet.reader ≡ feed.reader) × LeadsTo T.run feed.outlet feed.driven.now };
}

/// Room for what is told and given of a window.
#[derive(Drop)]
pub struct Rooms {
    pub told: Vec<Changed>,
    pub given: Vec<Changed>,
    /// What came with messages that were taken, for others to go with.
    pub spare: Vec<Vec<Changed>>,
}

/// A share's engine, the channels by which it receives changes of others' nets and sends those of its own, and the
/// channel to the text, from which room comes back.
#[derive(Drop)]
pub struct Station<'a, T: ShareRun> {
    pub alloc: Global,
    pub simulator: Simulator<'a>,
    pub inlets: Vec<Inlet<T>>,
    pub feeds: Vec<Feed<'a, T>>,
    pub text: Outlet<T>,
    pub back: Consumer<Vec<Changed>>,
    pub rooms: Rooms,
}

impl<'a, T: ShareRun> Model for Station<'a, T> {
    ghost use Rattle.cmb_shares.specs.Inner.Stations.{IsStation, Standing, senders_of};

    ghost Value = { Standing };

    ghost view = { λ station. record {
      number = station.simulator.number;
      clock = station.simulator.engine.clock;
      senders = senders_of station.inlets.items;
      inlets = station.inlets.items;
      feeds = station.feeds.items;
      text = station.text;
    } };

    ghost invariant = { λ station. IsStation T.run station.simulator station.inlets.items
        station.feeds.items station.text };
}

/// A station in the midst of a window: it told others what crosses there, and has still to receive what they tell.
#[derive(Drop)]
pub struct Told<'a, T: ShareRun> {
    alloc: Global,
    simulator: Simulator<'a>,
    upto: u32,
    inlets: Vec<Inlet<T>>,
    feeds: Vec<Feed<'a, T>>,
    text: Outlet<T>,
    back: Consumer<Vec<Changed>>,
    rooms: Rooms,
}

impl<'a, T: ShareRun> Model for Told<'a, T> {
    ghost use Rattle.cmb_shares.specs.Inner.Stations.{HasTold, IsTold, Standing, senders_of};

    ghost Value = { Standing };

    ghost view = { λ told. record {
      number = told.simulator.number;
      clock = told.simulator.engine.clock;
      senders = senders_of told.inlets.items;
      inlets = told.inlets.items;
      feeds = told.feeds.items;
      text = told.text;
    } };

    ghost invariant = { λ told. IsTold T.run told.simulator told.upto told.inlets.items told.feeds.items told.text };
}

impl<'a, T: ShareRun> Feed<'a, T> {
    /// The channel to the share of a number, which drives these nets.
    pub(crate) fn new(outlet: Outlet<T>, reader: u32, driven: &'a [bool]) -> Feed<'a, T>
        requires reader { outlet.reader ≡ reader }
        requires below { reader < length T.run.driven }
        requires driven { driven.now ≡ driven_by T.run reader }
        ensures { result ≡ outlet }
    {
        Feed {
            outlet,
            reader,
            driven,
        }
    }

    // Sends the share what was told ahead of a window. Says whether it did so.
    fn send_to(
        &mut self,
        alloc: Global,
        simulator: &Simulator<'_>,
        upto: u32,
        told: &[Changed],
        spare: &mut Vec<Vec<Changed>>,
    ) -> bool
        requires simulates { IsSimulator T.run simulator.now }
        requires turn { IsTurn T.run simulator.now.engine.clock upto }
        requires sender { self.old.sender ≡ simulator.now.number }
        requires begins { self.old.upto ≡ simulator.now.engine.clock }
        requires told { IsToldAhead T.run simulator.now.number simulator.now.engine.clock upto told.now }
        ensures told { result ≡ true → (self.new.sender ≡ simulator.now.number) × (self.new.upto ≡ upto) }
        ensures reader { result ≡ true → self.new.reader ≡ self.old.reader }
    {
        let mut changes = spare_room(alloc, spare);
        let owners = simulator.owners;
        if feed_of(told, owners, simulator.number, self.driven, &mut changes).is_err() {
            return false;
        }
        let envelope = simulator.envelope(self.reader, simulator.clock(), upto);
        self.outlet.send(Message::new(envelope, changes))
    }
}

impl<'a, T: ShareRun> Watched for Feed<'a, T> {
    fn look(&mut self) -> Next {
        self.outlet.look()
    }
}

// Room that is left, or new room.
fn spare_room(alloc: Global, spare: &mut Vec<Vec<Changed>>) -> Vec<Changed> {
    match spare.pop() {
        Some(room) => room,
        None => Vec::new(alloc),
    }
}

// Keeps room for later, unless there is enough.
fn keep_room(spare: &mut Vec<Vec<Changed>>, room: Vec<Changed>) {
    if spare.len() < MOST_SHARES {
        // Where memory is refused it is given up.
        drop(spare.push(room));
    }
}

// Room that came back, or new room.
fn room_of(alloc: Global, back: &mut Consumer<Vec<Changed>>) -> Vec<Changed> {
    match back.pop() {
        Ok(room) => room,
        Err(_) => Vec::new(alloc),
    }
}

// Sends all shares what was told ahead of a window. Says whether it did so.
fn send_all<'a, T: ShareRun>(
    alloc: Global,
    simulator: &Simulator<'_>,
    upto: u32,
    told: &[Changed],
    feeds: &mut [Feed<'a, T>],
    spare: &mut Vec<Vec<Changed>>,
) -> bool
    requires simulates { IsSimulator T.run simulator.now }
    requires turn { IsTurn T.run simulator.now.engine.clock upto }
    requires told { IsToldAhead T.run simulator.now.number simulator.now.engine.clock upto told.now }
    requires fed { AreFed simulator.now.number simulator.now.engine.clock feeds.old }
    ensures fed { result ≡ true → AreFed simulator.now.number upto feeds.new }
    ensures readers { result ≡ true → readers_of feeds.new ≡ readers_of feeds.old }
{
    for place in 0..feeds.len() {
        if !feeds[place].send_to(alloc, simulator, upto, told, spare) {
            return false;
        }
    }
    true
}

// Receives what others sent of a window, in place of what `given` had. Says whether it had come. The share has sent
// before: shares that receive before they send wait for one another.
fn receive_all<'a, T: ShareRun>(
    simulator: &Simulator<'_>,
    upto: u32,
    feeds: &[Feed<'a, T>],
    inlets: &mut [Inlet<T>],
    given: &mut Vec<Changed>,
    spare: &mut Vec<Vec<Changed>>,
) -> bool
    requires turn { IsTurn T.run simulator.now.engine.clock upto }
    requires fed { AreFed simulator.now.number upto feeds.now }
    requires heard { AreHeard simulator.now.number simulator.now.engine.clock inlets.old }
    ensures heard { result ≡ true → AreHeard simulator.now.number upto inlets.new }
    ensures senders { result ≡ true → senders_of inlets.new ≡ senders_of inlets.old }
    ensures given { result ≡ true → AreHeardOf T.run simulator.now.number simulator.now.engine.clock upto
        (senders_of inlets.old) given.new.items }
{
    given.clear();
    for place in 0..inlets.len() {
        let Some(message) = inlets[place].take() else {
            return false;
        };
        let changes = message.changes;
        let Ok(()) = given.extend_from_slice(&changes) else {
            return false;
        };
        keep_room(spare, changes);
    }
    true
}

impl<'a, T: ShareRun> Station<'a, T> {
    /// The station of a share that made nothing yet. It receives from no share.
    pub(crate) fn new(
        alloc: Global,
        simulator: Simulator<'a>,
        text: Outlet<T>,
        back: Consumer<Vec<Changed>>,
    ) -> Station<'a, T>
        requires simulates { IsSimulator T.run simulator }
        requires begun { simulator.engine.clock ≡ 1 }
        requires text { text ≡ greeting simulator.number (length T.run.driven) }
        ensures number { result.number ≡ simulator.entry.number }
        ensures clock { result.clock ≡ 1 }
        ensures inlets { result.inlets ≡ [] }
        ensures feeds { result.feeds ≡ [] }
        ensures text { result.text ≡ greeting result.number (length T.run.driven) }
    {
        Station {
            alloc,
            simulator,
            inlets: Vec::new(alloc),
            feeds: Vec::new(alloc),
            text,
            back,
            rooms: Rooms {
                told: Vec::new(alloc),
                given: Vec::new(alloc),
                spare: Vec::new(alloc),
            },
        }
    }

    /// Adds a channel by which it receives changes of another share's nets. Errors: memory was refused.
    pub(crate) fn add_inlet(&mut self, inlet: Inlet<T>) -> Result<(), AllocError>
        requires reader { inlet.reader ≡ self.old.number }
        requires begins { inlet.upto ≡ self.old.clock }
        ensures number { self.new.number ≡ self.old.number }
        ensures clock { self.new.clock ≡ self.old.clock }
        ensures senders { OnOk result (self.new.senders ≡ self.old.senders ++ inlet.sender ∷ []) }
        ensures inlets { OnOk result (self.new.inlets ≡ self.old.inlets ++ inlet ∷ []) }
        ensures feeds { self.new.feeds ≡ self.old.feeds }
        ensures text { self.new.text ≡ self.old.text }
    {
        self.inlets.push(inlet)?;
        Ok(())
    }

    /// Adds a channel by which it sends to another share. Errors: memory was refused.
    pub(crate) fn add_feed(&mut self, feed: Feed<'a, T>) -> Result<(), AllocError>
        requires sender { feed.sender ≡ self.old.number }
        requires begins { feed.upto ≡ self.old.clock }
        ensures number { self.new.number ≡ self.old.number }
        ensures clock { self.new.clock ≡ self.old.clock }
        ensures senders { self.new.senders ≡ self.old.senders }
        ensures inlets { self.new.inlets ≡ self.old.inlets }
        ensures feeds { OnOk result (self.new.feeds ≡ self.old.feeds ++ feed.entry ∷ []) }
        ensures text { self.new.text ≡ self.old.text }
    {
        self.feeds.push(feed)?;
        Ok(())
    }

    /// Tells others ahead what crosses in the next window: the first half of a turn of its process. There is no station
    /// any more where memory was refused or there was no room.
    pub(crate) fn tell(self) -> Option<Told<'a, T>>
        requires covers { Covers T.run self.number self.senders }
        requires early { self.clock < T.run.windows.horizon }
        ensures { IfSome result (λ told. HasTold self.entry told) }
    {
        let Station {
            alloc,
            simulator,
            inlets,
            mut feeds,
            text,
            back,
            mut rooms,
        } = self;
        let upto = simulator.next_end::<T>();
        let Ok(()) = simulator.tell_ahead::<T>(upto, &mut rooms.told) else {
            drop((simulator, inlets, feeds, text, back, rooms));
            return None;
        };
        let Rooms { told, spare, .. } = &mut rooms;
        if !send_all(alloc, &simulator, upto, told, &mut feeds, spare) {
            drop((simulator, inlets, feeds, text, back, rooms));
            return None;
        }
        Some(Told {
            alloc,
            simulator,
            upto,
            inlets,
            feeds,
            text,
            back,
            rooms,
        })
    }

    /// Whether all windows were made.
    pub(crate) fn is_done(&self) -> bool
        ensures { result ≡ false → self.now.clock < T.run.windows.horizon }
    {
        self.simulator.clock() >= self.simulator.windows.horizon()
    }
}

impl<'a, T: ShareRun> Told<'a, T> {
    /// Receives what others tell, and makes the window: the second half of a turn. There is no station any more where
    /// a message hasn't come or memory was refused.
    pub(crate) fn hear(self) -> Option<Station<'a, T>>
        ensures covers { IfSome result (λ next. Covers T.run next.number next.senders) }
        ensures turns { (before : Standing) → HasTold before self.entry
            → IfSome result (λ next. Turns T.run (member_of before) (member_of next)) }
    {
        let Told {
            alloc,
            simulator,
            upto,
            mut inlets,
            feeds,
            mut text,
            mut back,
            mut rooms,
        } = self;
        let from = simulator.clock();
        let Rooms { given, spare, .. } = &mut rooms;
        if !receive_all(&simulator, upto, &feeds, &mut inlets, given, spare) {
            drop((simulator, inlets, feeds, text, back, rooms));
            return None;
        }
        let mut changes = room_of(alloc, &mut back);
        let Ok(simulator) = simulator.advance::<T>(upto, &rooms.given, &mut changes) else {
            drop((inlets, feeds, text, back, rooms, changes));
            return None;
        };
        let envelope = simulator.envelope(simulator.shares, from, upto);
        if !text.send(Message::new(envelope, changes)) {
            drop((simulator, inlets, feeds, text, back, rooms));
            return None;
        }
        Some(Station {
            alloc,
            simulator,
            inlets,
            feeds,
            text,
            back,
            rooms,
        })
    }
}

impl<'a, T: ShareRun> Watched for Station<'a, T> {
    // Whether there is room for what it tells others next.
    fn look(&mut self) -> Next {
        look_at(&mut self.feeds)
    }
}

impl<'a, T: ShareRun> Watched for Told<'a, T> {
    // Whether all messages have come that it receives next, and there is room for what it sends to the text.
    fn look(&mut self) -> Next {
        match self.text.look() {
            Next::Come => look_at(&mut self.inlets),
            other => other,
        }
    }
}
