//! All clusters of a design, in one thread.

ghost use Rattle.std.specs.Prelude.{◌≡◌, ◌<◌, ℕ, List, min, [], length, map, slice_get, slice_index_or, nat_lt, IfOk};
ghost use Rattle.std.specs.Prelude.{IfSome, MatchOption, Some, None, if◌then◌else◌};
ghost use Rattle.cmb_design_model.specs.Design.{Design};
ghost use Rattle.cmb_design_model.specs.Exact.{nets_of};
ghost use Rattle.cmb_netlist.specs.Netlist.{IsNetlist};
ghost use Rattle.cmb_core_protocol.specs.declared.event.Event.{Event};
ghost use Rattle.cmb_core_cluster.specs.Clustering.{Clustering, IsClustering};
ghost use Rattle.cmb_core_world.specs.Play.{IsReached};
ghost use Rattle.cmb_core_world.specs.Rounds.{IsKnownTo, world_rounds};
ghost use Rattle.cmb_core_cluster.specs.Clusters.{IsDrivenHere};
ghost use Rattle.cmb_core_cluster.specs.Opened.{IsClusterOf};
ghost use Rattle.cmb_core_world.specs.World.{WorldWaves, new_clusters};

use cmb_core_cluster::{Cluster, Clustering};
use cmb_design_model::Design;
use cmb_wave::{Piece, Promise};
use std::alloc::{AllocError, Global};
use std::marker::Model;

/// Clusters, with the pieces that were posted and the promises that were made.
#[derive(Drop)]
pub struct World {
    pub(crate) assign: Vec<u32>,
    pub(crate) clusters: Vec<Cluster>,
    pub(crate) posts: Vec<Piece>,
    pub(crate) promises: Vec<Promise>,
}

impl Model for World {
    ghost use Rattle.cmb_core_world.specs.Play.{World, HasDesign};

    ghost Value = { World };

    ghost view = { λ w. record {
      assign = w.assign.items;
      clusters = w.clusters.items;
      posts = w.posts.items;
      promises = w.promises.items;
    } };

    ghost invariant = { λ w. HasDesign (record {
      assign = w.assign.items;
      clusters = w.clusters.items;
      posts = w.posts.items;
      promises = w.promises.items;
    }) };
}

// A new cluster of each number.
fn opened_clusters(
    alloc: Global,
    design: &Design,
    clustering: &Clustering,
) -> Result<Vec<Cluster>, AllocError>
    requires { length clustering.now.assign ≡ nets_of design.now }
    ensures count { IfOk result (λ clusters. length clusters.items ≡ clustering.now.clusters) }
    ensures each { IfOk result (λ clusters. (c : ℕ) → c < clustering.now.clusters
        → IsClusterOf design.now clustering.now c
        (slice_index_or clusters.items c (record { horizon = 0; processes = []; waves = [] }))) }
    ensures waves { IfOk result (λ clusters.
        map (λ cluster. cluster.waves) clusters.items
        ≡ new_clusters design.now clustering.now 0 clustering.now.clusters) }
{
    let count = clustering.clusters();
    let mut clusters = Vec::with_capacity(alloc, count as usize)?;
    for number in 0..count {
        clusters.push(Cluster::open(alloc, design, clustering, number)?)?;
    }
    Ok(clusters)
}

impl World {
    ghost use Rattle.cmb_core_world.specs.Play.{IsWorldOf, cluster_at, home_wave, known_in, known_out, shown};
    ghost use Rattle.cmb_core_world.specs.World.{new_world};

    /// Newly opened clusters of a design, by a clustering of its nets.
    pub fn open(
        alloc: Global,
        design: &Design,
        clustering: &Clustering,
    ) -> Result<World, AllocError>
        requires { length clustering.now.assign ≡ nets_of design.now }
        ensures of { IfOk result (λ world. IsWorldOf design.now clustering.now world) }
        ensures new { IfOk result (λ world. shown world ≡ new_world design.now clustering.now) }
    {
        let clusters = opened_clusters(alloc, design, clustering)?;
        World::of(alloc, design, clustering, clusters)
    }

    /// These clusters as they stand, whatever was delivered to them. Nothing is posted or promised yet.
    /// They are given up where there is no memory.
    pub fn of(
        alloc: Global,
        design: &Design,
        clustering: &Clustering,
        clusters: Vec<Cluster>,
    ) -> Result<World, AllocError>
        requires nets { length clustering.now.assign ≡ nets_of design.now }
        requires count { length clusters.items ≡ clustering.now.clusters }
        requires each { (c : ℕ) → c < clustering.now.clusters
            → IsClusterOf design.now clustering.now c
            (slice_index_or clusters.items c (record { horizon = 0; processes = []; waves = [] })) }
        ensures of { IfOk result (λ world. IsWorldOf design.now clustering.now world) }
        ensures these { IfOk result (λ world.
            world ≡ record { assign = clustering.now.assign; clusters = clusters.items; posts = []; promises = [] }) }
    {
        // What every netlist keeps is told by the contract of its length.
        let _nets = design.netlist().len();
        let assign = Vec::from_slice(alloc, clustering.assigned())?;
        Ok(World {
            assign,
            clusters,
            posts: Vec::new(alloc),
            promises: Vec::new(alloc),
        })
    }

    // The place of the cluster that drives a net.
    pub(crate) fn home(&self, net: u32) -> Option<usize>
        ensures place { result ≡ slice_get self.now.assign net }
        ensures there { IfSome result (λ cluster. cluster < length self.now.clusters) }
        ensures drives { IfSome result (λ cluster. IsDrivenHere (cluster_at self.now cluster) net) }
    {
        let place = net as usize;
        if place < self.assign.len() {
            Some(self.assign[place] as usize)
        } else {
            None
        }
    }

    /// A piece that was posted, by its number.
    pub fn posted(&self, number: usize) -> Option<&Piece>
        ensures { MatchOption result (slice_get self.now.posts number ≡ None)
            (λ piece. slice_get self.now.posts number ≡ Some piece.now) }
    {
        if number < self.posts.len() {
            Some(&self.posts[number])
        } else {
            None
        }
    }

    /// A promise that was made, by its number.
    pub fn promised(&self, number: usize) -> Option<Promise>
        ensures { result ≡ slice_get self.now.promises number }
    {
        if number < self.promises.len() {
            Some(self.promises[number])
        } else {
            None
        }
    }

    /// How far a net is known to the cluster that drives it, None where there is no such net.
    pub fn out_clock(&self, net: u32) -> Option<u32>
        ensures home { result ≡ (if nat_lt net (length self.now.assign) then Some (home_wave self.now net).clock else
            None) }
        ensures known { (design : Design) (clustering : Clustering) → IsWorldOf design clustering self.now
            → result ≡ known_out design clustering (shown self.now) net }
    {
        match self.home(net) {
            Some(cluster) => self.clusters[cluster].out_clock(net),
            None => None,
        }
    }

    /// How far a net is known to a cluster that reads it, None where the cluster has no input wave of it.
    pub fn in_clock(&self, cluster: u32, net: u32) -> Option<u32>
        ensures known { (design : Design) (clustering : Clustering) → IsWorldOf design clustering self.now
            → result ≡ known_in design clustering (shown self.now) cluster net }
    {
        let place = cluster as usize;
        if place < self.clusters.len() {
            self.clusters[place].in_clock(net)
        } else {
            None
        }
    }
}

/// So many rounds bring every clock of a world that came about from newly opened clusters to the lesser of that number
/// and the horizon at least.
pub fn rounds_of_worlds_go_on()
    ensures { (design : Design) (clustering : Clustering) (world : WorldWaves) (past : List Event) (many : ℕ)
        → IsNetlist design.netlist → IsClustering (nets_of design) clustering → IsReached design clustering world past
        → IsKnownTo design clustering (min design.horizon many) (world_rounds design clustering many world) }
{}
