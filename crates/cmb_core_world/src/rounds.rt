//! When a world is complete or quiet, and rounds of all its nets.

use crate::play::listed;
use crate::world::World;
use cmb_core_protocol::Event;
use std::alloc::AllocError;

impl World {
    ghost use Rattle.std.specs.Prelude.{◌≡◌, ◌==◌, ◌<◌, ℕ, List, ◌++◌, true, ◌&&◌, not, IsTrue, ◌↔◌, length, nat_lt};
    ghost use Rattle.std.specs.Prelude.{Some, None, OnOk, OnErr, IfOk, if◌then◌else◌};
    ghost use Rattle.cmb_design_model.specs.Design.{Design};
    ghost use Rattle.cmb_core_protocol.specs.declared.event.Event.{Event};
    ghost use Rattle.cmb_core_cluster.specs.Clustering.{Clustering, cluster_of, has_input};
    ghost use Rattle.cmb_core_protocol.specs.Clocks.{start};
    ghost use Rattle.cmb_core_protocol.specs.Run.{clocks_after, round};
    ghost use Rattle.cmb_core_world.specs.Play.{IsReached, IsSameSize, IsWorldOf, shown};
    ghost use Rattle.cmb_core_world.specs.Rounds.{ArePlayed, IsBegun, IsCompleteWorld, IsQuietWorld, net_events};
    ghost use Rattle.cmb_core_world.specs.Rounds.{pass_on_events, passing_events, round_events, step_events};
    ghost use Rattle.cmb_core_cluster.specs.Step.{step_reach};
    ghost use Rattle.cmb_core_world.specs.World.{Shows, in_wave, out_wave, play_world, waves_of, world_after};

    // How many nets there are.
    fn nets(&self) -> u32
        ensures { result ≡ length self.now.assign }
    {
        self.assign.len() as u32
    }

    // How many clusters there are.
    fn count(&self) -> u32
        ensures { result ≡ length self.now.clusters }
    {
        self.clusters.len() as u32
    }

    // Whether a net is known up to the horizon in the cluster that drives it.
    fn is_known(&self, net: u32) -> bool
        requires { net < length self.now.assign }
        ensures { (design : Design) (clustering : Clustering) → IsWorldOf design clustering self.now
            → result ≡ ((out_wave clustering (shown self.now) net).clock == design.horizon) }
    {
        match self.home(net) {
            Some(cluster) => self.clusters[cluster].is_done(net),
            None => unreachable!(),
        }
    }

    /// Whether every net is known up to the horizon in the cluster that drives it.
    pub fn complete(&self) -> bool
        ensures { (design : Design) (clustering : Clustering) → IsWorldOf design clustering self.now
            → IsTrue result ↔ IsCompleteWorld design clustering (shown self.now) }
    {
        for net in 0..self.nets() {
            if !self.is_known(net) {
                return false;
            }
        }
        true
    }

    // Whether a net can go on in the cluster that drives it.
    fn can_step(&self, net: u32) -> bool
        requires { net < length self.now.assign }
        ensures { (design : Design) (clustering : Clustering) → IsWorldOf design clustering self.now
            → result ≡ nat_lt (out_wave clustering (shown self.now) net).clock
            (step_reach design (waves_of (shown self.now) (cluster_of clustering net)) net) }
    {
        match self.home(net) {
            Some(cluster) => self.clusters[cluster].goes_on(net),
            None => unreachable!(),
        }
    }

    // Whether a cluster reads a net and knows it otherwise than the cluster that drives it.
    fn differs(&self, cluster: u32, net: u32) -> bool
        requires cluster { cluster < length self.now.clusters }
        requires net { net < length self.now.assign }
        ensures { (design : Design) (clustering : Clustering) → IsWorldOf design clustering self.now
            → result ≡ (has_input design clustering cluster net && not
            ((in_wave (shown self.now) cluster net).clock == (out_wave clustering (shown self.now) net).clock)) }
    {
        match (self.in_clock(cluster, net), self.out_clock(net)) {
            (Some(known), Some(clock)) => known != clock,
            _ => false,
        }
    }

    // Whether each cluster that reads a net knows it as far as the one that drives it.
    fn is_passed_on(&self, net: u32) -> bool
        requires { net < length self.now.assign }
        ensures { (design : Design) (clustering : Clustering) → IsWorldOf design clustering self.now
            → IsTrue result ↔ ((cluster : ℕ) → cluster < clustering.clusters
            → has_input design clustering cluster net ≡ true
            → (in_wave (shown self.now) cluster net).clock ≡ (out_wave clustering (shown self.now) net).clock) }
    {
        for cluster in 0..self.count() {
            if self.differs(cluster, net) {
                return false;
            }
        }
        true
    }

    /// Whether no step would raise an output clock, and every input clock equals its net's output clock. A world that
    /// came about from newly opened clusters is then complete.
    pub fn quiet(&self) -> bool
        ensures quiet { (design : Design) (clustering : Clustering) → IsWorldOf design clustering self.now
            → IsTrue result ↔ IsQuietWorld design clustering (shown self.now) }
        ensures complete { (design : Design) (clustering : Clustering) (past : List Event)
            → IsWorldOf design clustering self.now → IsReached design clustering (shown self.now) past → IsTrue result
            → IsCompleteWorld design clustering (shown self.now) }
    {
        for net in 0..self.nets() {
            if self.can_step(net) || !self.is_passed_on(net) {
                return false;
            }
        }
        true
    }

    // Plays an event, whatever is replied, unless memory is wanted.
    fn make(&mut self, event: Event) -> Result<(), AllocError>
        ensures kept { (design : Design) (clustering : Clustering) → IsWorldOf design clustering self.old
            → IsWorldOf design clustering self.new }
        ensures played { (design : Design) (clustering : Clustering) → IsWorldOf design clustering self.old
            → OnOk result (shown self.new ≡ (play_world design clustering (shown self.old) event).world) }
        ensures unchanged { OnErr result (self.new ≡ self.old) }
        ensures same { IsSameSize self.old self.new }
    {
        let reply = self.play(event);
        let _ = listed(reply)?;
        Ok(())
    }

    // Steps each net once, in order.
    fn step_each(&mut self) -> Result<(), AllocError>
        ensures { ArePlayed step_events self.old self.new result }
    {
        for net in 0..self.nets() {
            self.make(Event::Step(net))?;
        }
        Ok(())
    }

    // The input clock of a cluster that reads a net, where that is below the output clock.
    fn behind(&self, cluster: u32, net: u32) -> Option<u32>
        requires cluster { cluster < length self.now.clusters }
        requires net { net < length self.now.assign }
        ensures { (design : Design) (clustering : Clustering) → IsWorldOf design clustering self.now
            → result ≡ (if has_input design clustering cluster net && nat_lt
            (in_wave (shown self.now) cluster net).clock (out_wave clustering (shown self.now) net).clock then Some
            (in_wave (shown self.now) cluster net).clock else None) }
    {
        match (self.in_clock(cluster, net), self.out_clock(net)) {
            (Some(known), Some(clock)) => { if known < clock { Some(known) } else { None } }
            _ => None,
        }
    }

    // Passes a net's new piece on to a cluster, where it knows less than the one that drives the net.
    fn pass_on_to(&mut self, net: u32, cluster: u32) -> Result<(), AllocError>
        requires cluster { cluster < length self.old.clusters }
        requires net { net < length self.old.assign }
        ensures events { ArePlayed (λ design clustering. pass_on_events design clustering net cluster) self.old
            self.new result }
        ensures same { IsSameSize self.old self.new }
    {
        let Some(from) = self.behind(cluster, net) else {
            return Ok(());
        };
        let number = self.posts.len();
        self.make(Event::Post(net, from))?;
        self.make(Event::Deliver(cluster, number))
    }

    // Passes a net's new piece on to each cluster that reads it, in order.
    fn pass_on(&mut self, net: u32) -> Result<(), AllocError>
        requires { net < length self.old.assign }
        ensures events { ArePlayed (λ design clustering. net_events design clustering net) self.old self.new result }
        ensures same { IsSameSize self.old self.new }
    {
        for cluster in 0..self.count() {
            self.pass_on_to(net, cluster)?;
        }
        Ok(())
    }

    // Passes on what is new of each net, in order.
    fn pass_on_each(&mut self) -> Result<(), AllocError>
        ensures { ArePlayed passing_events self.old self.new result }
    {
        for net in 0..self.nets() {
            self.pass_on(net)?;
        }
        Ok(())
    }

    /// Steps each net once, in order; then, for each net in order and each cluster, in order, that reads it and knows
    /// less of it than the one that drives it, posts what is new and delivers it. True where the world is complete
    /// afterwards. Where memory is wanted, the world is the one after some number of the first of these events.
    pub fn round(&mut self) -> Result<bool, AllocError>
        ensures played { (design : Design) (clustering : Clustering) → IsWorldOf design clustering self.old
            → OnOk result (shown self.new ≡ world_after design clustering (shown self.old)
            (round_events design clustering (shown self.old))) }
        ensures complete { (design : Design) (clustering : Clustering) → IsWorldOf design clustering self.old
            → IfOk result (λ done. IsTrue done ↔ IsCompleteWorld design clustering (shown self.new)) }
        ensures memory { (design : Design) (clustering : Clustering) → IsWorldOf design clustering self.old
            → OnErr result (IsBegun design clustering (shown self.old) (round_events design clustering (shown self.old))
            (shown self.new)) }
        ensures kept { (design : Design) (clustering : Clustering) → IsWorldOf design clustering self.old
            → IsWorldOf design clustering self.new }
        ensures reached { (design : Design) (clustering : Clustering) (past : List Event)
            → IsWorldOf design clustering self.old → IsReached design clustering (shown self.old) past
            → OnOk result (IsReached design clustering (shown self.new)
            (past ++ round_events design clustering (shown self.old))) }
        ensures sequential { (design : Design) (clustering : Clustering) (past : List Event)
            → IsWorldOf design clustering self.old → IsReached design clustering (shown self.old) past
            → OnOk result (clocks_after design clustering (start design clustering)
            (past ++ round_events design clustering (shown self.old))
            ≡ round design clustering (clocks_after design clustering (start design clustering) past)) }
        ensures exact { (design : Design) (clustering : Clustering) (past : List Event)
            → IsWorldOf design clustering self.old → IsReached design clustering (shown self.old) past
            → OnOk result (Shows design clustering (shown self.new)
            (round design clustering (clocks_after design clustering (start design clustering) past))) }
    {
        self.step_each()?;
        self.pass_on_each()?;
        Ok(self.complete())
    }
}
