//! The five events of a world.

ghost use Rattle.std.specs.Prelude.{◌≡◌, ◌≢◌, Err, IfOk, OnErr};
ghost use Rattle.cmb_core_protocol.specs.declared.event.PlayFault.TheVariants.{Memory};
ghost use Rattle.cmb_core_world.specs.Inner.Faults.{fault_of_event};

use crate::world::World;
use cmb_core_cluster::{DeliverFault, Stranger};
use cmb_core_protocol::{Event, PlayFault, Reply};
use cmb_wave::{Heard, Piece, Promise};
use std::alloc::AllocError;

// A reply to be listed with others, unless memory was wanted.
pub(crate) fn listed(
    reply: Result<Reply, PlayFault>,
) -> Result<Result<Reply, PlayFault>, AllocError>
    ensures ok { IfOk result (λ same. (same ≡ reply) × (reply ≢ Err Memory)) }
    ensures memory { OnErr result (reply ≡ Err Memory) }
{
    match reply {
        Err(PlayFault::Memory) => Err(AllocError),
        other => Ok(other),
    }
}

// A cluster's fault as that of an event.
pub(crate) fn play_fault(fault: DeliverFault) -> PlayFault
    ensures { result ≡ fault_of_event fault }
{
    match fault {
        DeliverFault::Stranger => PlayFault::Stranger,
        DeliverFault::Gap { clock } => PlayFault::Gap { clock },
        DeliverFault::Old { clock } => PlayFault::Old { clock },
        DeliverFault::Clash { tick } => PlayFault::Clash { tick },
        DeliverFault::Memory => PlayFault::Memory,
    }
}

impl World {
    ghost use Rattle.std.specs.Prelude.{◌≡◌, ◌<◌, ◌≤◌, ℕ, List, [], ◌∷◌, ◌++◌, length, take, nat_lt, Some, None, Ok};
    ghost use Rattle.std.specs.Prelude.{OnOk, OnErr, IfOk, IfErr, if◌then◌else◌};
    ghost use Rattle.cmb_wave.specs.Calls.{cut, promised, heard_wave};
    ghost use Rattle.cmb_design_model.specs.Design.{Design};
    ghost use Rattle.cmb_core_protocol.specs.declared.event.Event.{Event};
    ghost use Rattle.cmb_core_protocol.specs.declared.event.Event.TheVariants.{Step, Post, Deliver, Look};
    ghost use Rattle.cmb_core_protocol.specs.declared.event.Event.TheVariants.{Promise as Promises};
    ghost use Rattle.cmb_core_cluster.specs.Clustering.{Clustering};
    ghost use Rattle.cmb_core_cluster.specs.Clusters.{step_answer, step_waves, delivered, RefusesDelivery, heard_at};
    ghost use Rattle.cmb_core_cluster.specs.Clusters.{input_slot};
    ghost use Rattle.cmb_core_cluster.specs.Opened.{IsClusterOf, IsOwnNet};
    ghost use Rattle.cmb_core_world.specs.Play.{IsAnswer, IsReached, IsWorldOf, IsSameBut, IsSameSize, Plays};
    ghost use Rattle.cmb_core_world.specs.Play.{cluster_at};
    ghost use Rattle.cmb_core_world.specs.Play.{home_wave, post_at, shown};
    ghost use Rattle.cmb_core_protocol.specs.Clocks.{start, play as play_clocks};
    ghost use Rattle.cmb_core_protocol.specs.Run.{clocks_after, replies_to};
    ghost use Rattle.cmb_core_cluster.specs.Step.{wave_at, with_wave};
    ghost use Rattle.cmb_core_world.specs.World.{Shows, play_world, world_after, world_replies};

    // Makes an event happen.
    fn answer(&mut self, event: Event) -> Result<Reply, PlayFault>
        ensures { IsAnswer event self.old self.new result }
    {
        match event {
            Event::Step(net) => self.step(net),
            Event::Post(net, from) => self.post(net, from),
            Event::Deliver(cluster, number) => self.deliver(cluster, number),
            Event::Promise(net) => self.promise(net),
            Event::Look(cluster, number) => self.look(cluster, number),
        }
    }

    /// What an event does: the call on its cluster, over that cluster's own waves as they stand. 45 where the net, the
    /// cluster or the number isn't there, 46 where a piece would begin beyond the clock, and then as the cluster
    /// refuses: 44, 42, 43, and 47, which doesn't come over exact waves. 70 where there is no memory for what a reply
    /// keeps, and never in the place of another refusal. A refusal changes nothing. Over a world that came about from
    /// newly opened clusters, the reply and the clocks after the event are those of the machine of clocks, and every
    /// wave is exact.
    pub fn play(&mut self, event: Event) -> Result<Reply, PlayFault>
        ensures played { (design : Design) (clustering : Clustering) → IsWorldOf design clustering self.old
            → Plays (play_world design clustering (shown self.old) event) (shown self.old) (shown self.new) result }
        ensures kept { (design : Design) (clustering : Clustering) → IsWorldOf design clustering self.old
            → IsWorldOf design clustering self.new }
        ensures unchanged { OnErr result (self.new ≡ self.old) }
        ensures size { IsSameSize self.old self.new }
        ensures sequential { (design : Design) (clustering : Clustering) (past : List Event)
            → IsWorldOf design clustering self.old → IsReached design clustering (shown self.old) past
            → result ≢ Err Memory → result ≡ (play_clocks design clustering
            (clocks_after design clustering (start design clustering) past) event).reply }
        ensures exact { (design : Design) (clustering : Clustering) (past : List Event)
            → IsWorldOf design clustering self.old → IsReached design clustering (shown self.old) past
            → result ≢ Err Memory → Shows design clustering (shown self.new)
            (play_clocks design clustering (clocks_after design clustering (start design clustering) past)
            event).clocks }
    {
        self.answer(event)
    }

    /// Each event in turn, refused ones too, with all their replies. The room for these is made first. Where
    /// memory is wanted it stops, and the world is then the one after some number of the first events.
    pub fn play_all(
        &mut self,
        events: &[Event],
    ) -> Result<Vec<Result<Reply, PlayFault>>, AllocError>
        ensures replies { (design : Design) (clustering : Clustering) → IsWorldOf design clustering self.old
            → IfOk result (λ replies. replies.items ≡ world_replies design clustering (shown self.old) events.now) }
        ensures world { (design : Design) (clustering : Clustering) → IsWorldOf design clustering self.old
            → OnOk result (shown self.new ≡ world_after design clustering (shown self.old) events.now) }
        ensures memory { (design : Design) (clustering : Clustering) → IsWorldOf design clustering self.old
            → OnErr result ((first : ℕ) × (shown self.new
            ≡ world_after design clustering (shown self.old) (take first events.now))) }
        ensures kept { (design : Design) (clustering : Clustering) → IsWorldOf design clustering self.old
            → IsWorldOf design clustering self.new }
        ensures sequential { (design : Design) (clustering : Clustering) (past : List Event)
            → IsWorldOf design clustering self.old → IsReached design clustering (shown self.old) past
            → IfOk result (λ replies. replies.items
            ≡ replies_to design clustering (clocks_after design clustering (start design clustering) past) events.now) }
        ensures exact { (design : Design) (clustering : Clustering) (past : List Event)
            → IsWorldOf design clustering self.old → IsReached design clustering (shown self.old) past
            → OnOk result (Shows design clustering (shown self.new)
            (clocks_after design clustering (clocks_after design clustering (start design clustering) past)
            events.now)) }
    {
        let mut replies = Vec::with_capacity(*self.clusters.allocator(), events.len())?;
        for event in events {
            replies.push(listed(self.play(*event))?)?;
        }
        Ok(replies)
    }

    // Steps a net in a cluster.
    fn step_in(&mut self, cluster: usize, net: u32) -> Result<Option<Piece>, AllocError>
        requires { cluster < length self.old.clusters }
        ensures part { (design : Design) (clustering : Clustering) (number : ℕ)
            → IsClusterOf design clustering number (cluster_at self.old cluster) → IsOwnNet design clustering number net
            → IfOk result (λ part. part ≡ step_answer design (cluster_at self.old cluster).waves
            (wave_at (cluster_at self.old cluster).waves net)) }
        ensures waves { (design : Design) (clustering : Clustering) (number : ℕ)
            → IsClusterOf design clustering number (cluster_at self.old cluster) → IsOwnNet design clustering number net
            → OnOk result ((cluster_at self.new cluster).waves
            ≡ step_waves design (cluster_at self.old cluster).waves (wave_at (cluster_at self.old cluster).waves net)) }
        ensures still { (design : Design) (clustering : Clustering) (number : ℕ)
            → IsClusterOf design clustering number (cluster_at self.old cluster) → IsOwnNet design clustering number net
            → step_answer design (cluster_at self.old cluster).waves (wave_at (cluster_at self.old cluster).waves net)
            ≡ None → result ≡ Ok None }
        ensures unchanged { OnErr result (self.new ≡ self.old) }
        ensures same { IsSameBut cluster self.old self.new }
    {
        self.clusters[cluster].step(net)
    }

    fn step(&mut self, net: u32) -> Result<Reply, PlayFault>
        ensures { IsAnswer (Step net) self.old self.new result }
    {
        let Some(cluster) = self.home(net) else {
            return Err(PlayFault::NoSuch);
        };
        match self.step_in(cluster, net) {
            Ok(part) => Ok(Reply::Stepped(part)),
            Err(_) => Err(PlayFault::Memory),
        }
    }

    // The piece of a net from a tick up to its clock.
    fn part_from(&self, net: u32, from: u32) -> Result<Option<Piece>, AllocError>
        requires there { net < length self.now.assign }
        requires known { from ≤ (home_wave self.now net).clock }
        ensures cut { IfOk result (λ piece. piece ≡ cut (home_wave self.now net) from) }
        ensures idle { from ≡ (home_wave self.now net).clock → result ≡ Ok None }
    {
        match self.home(net) {
            Some(cluster) => self.clusters[cluster].post(net, from),
            None => unreachable!(),
        }
    }

    // Keeps a piece among those that were posted, and answers its number.
    fn add_post(&mut self, piece: Piece) -> Result<usize, AllocError>
        ensures number { IfOk result (λ number. number ≡ length self.old.posts) }
        ensures added { OnOk result (self.new ≡ record self.old { posts = self.old.posts ++ piece ∷ [] }) }
        ensures unchanged { OnErr result (self.new ≡ self.old) }
    {
        let number = self.posts.len();
        self.posts.push(piece)?;
        Ok(number)
    }

    fn post(&mut self, net: u32, from: u32) -> Result<Reply, PlayFault>
        ensures { IsAnswer (Post net from) self.old self.new result }
    {
        let Some(clock) = self.out_clock(net) else {
            return Err(PlayFault::NoSuch);
        };
        if from > clock {
            return Err(PlayFault::Beyond);
        }
        match self.part_from(net, from) {
            Ok(Some(piece)) => match self.add_post(piece) {
                Ok(number) => Ok(Reply::Posted(Some(number))),
                Err(_) => Err(PlayFault::Memory),
            },
            Ok(None) => Ok(Reply::Posted(None)),
            Err(_) => Err(PlayFault::Memory),
        }
    }

    // Gives a piece that was posted to a cluster.
    fn deliver_in(&mut self, cluster: usize, number: usize) -> Result<u32, DeliverFault>
        requires cluster { cluster < length self.old.clusters }
        requires number { number < length self.old.posts }
        ensures ok { OnOk result (delivered (cluster_at self.old cluster) (post_at self.old number)
            ≡ Ok (wave_at (cluster_at self.new cluster).waves (post_at self.old number).net)) }
        ensures waves { OnOk result ((cluster_at self.new cluster).waves
            ≡ with_wave (cluster_at self.old cluster).waves
            (wave_at (cluster_at self.new cluster).waves (post_at self.old number).net)) }
        ensures clock { IfOk result (λ clock.
            clock ≡ (wave_at (cluster_at self.new cluster).waves (post_at self.old number).net).clock) }
        ensures fault { IfErr result (λ fault.
            RefusesDelivery fault (delivered (cluster_at self.old cluster) (post_at self.old number))) }
        ensures unchanged { OnErr result (self.new ≡ self.old) }
        ensures same { IsSameBut cluster self.old self.new }
    {
        self.clusters[cluster].deliver(&self.posts[number])
    }

    fn deliver(&mut self, cluster: u32, number: usize) -> Result<Reply, PlayFault>
        ensures { IsAnswer (Deliver cluster number) self.old self.new result }
    {
        let place = cluster as usize;
        if place >= self.clusters.len() || number >= self.posts.len() {
            return Err(PlayFault::NoSuch);
        }
        match self.deliver_in(place, number) {
            Ok(clock) => Ok(Reply::Delivered(clock)),
            Err(fault) => Err(play_fault(fault)),
        }
    }

    // What a net can promise, None where there is no such net.
    fn promise_of(&self, net: u32) -> Option<Promise>
        ensures { result ≡ (if nat_lt net (length self.now.assign) then Some (promised (home_wave self.now net)) else
            None) }
    {
        match self.home(net) {
            Some(cluster) => Some(self.clusters[cluster].promise(net)),
            None => None,
        }
    }

    // Keeps a promise among those that were made, and answers its number.
    fn add_promise(&mut self, promise: Promise) -> Result<usize, AllocError>
        ensures number { IfOk result (λ number. number ≡ length self.old.promises) }
        ensures added { OnOk result (self.new ≡ record self.old { promises = self.old.promises ++ promise ∷ [] }) }
        ensures unchanged { OnErr result (self.new ≡ self.old) }
    {
        let number = self.promises.len();
        self.promises.push(promise)?;
        Ok(number)
    }

    fn promise(&mut self, net: u32) -> Result<Reply, PlayFault>
        ensures { IsAnswer (Promises net) self.old self.new result }
    {
        let Some(promise) = self.promise_of(net) else {
            return Err(PlayFault::NoSuch);
        };
        match self.add_promise(promise) {
            Ok(number) => Ok(Reply::Promised(number, promise)),
            Err(_) => Err(PlayFault::Memory),
        }
    }

    // Tells a promise to a cluster.
    fn hear_in(&mut self, cluster: usize, promise: Promise) -> Result<Heard, Stranger>
        requires { cluster < length self.old.clusters }
        ensures answer { result ≡ heard_at (cluster_at self.old cluster) promise
            (input_slot (cluster_at self.old cluster) promise.net) }
        ensures waves { OnOk result ((cluster_at self.new cluster).waves
            ≡ with_wave (cluster_at self.old cluster).waves
            (heard_wave (wave_at (cluster_at self.old cluster).waves promise.net) promise)) }
        ensures unchanged { OnErr result (self.new ≡ self.old) }
        ensures same { IsSameBut cluster self.old self.new }
    {
        self.clusters[cluster].hear(promise)
    }

    fn look(&mut self, cluster: u32, number: usize) -> Result<Reply, PlayFault>
        ensures { IsAnswer (Look cluster number) self.old self.new result }
    {
        let place = cluster as usize;
        if place >= self.clusters.len() {
            return Err(PlayFault::NoSuch);
        }
        let Some(promise) = self.promised(number) else {
            return Err(PlayFault::NoSuch);
        };
        match self.hear_in(place, promise) {
            Ok(heard) => Ok(Reply::Looked(heard)),
            Err(_) => Err(PlayFault::Stranger),
        }
    }
}
