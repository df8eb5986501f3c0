//! Which cluster has the process of each net.

ghost use Rattle.std.specs.Prelude.{◌≡◌, ◌<◌, ◌%◌, ◌||◌, nat_lt, map, IfOk};
ghost use Rattle.std.specs.List.{range_with_len};
ghost use Rattle.cmb_core_cluster.specs.Faults.{number_of_clustering_fault};

use crate::below::all_below;
use cmb_netlist::PartCount;
use std::alloc::{AllocError, Global};
use std::marker::Model;
use thiserror::Error;

/// Why an assignment of nets to clusters is refused.
#[derive(Clone, Copy, Debug, PartialEq, Eq, Error)]
pub enum ClusteringFault {
    /// 40: there are fewer than 1 or more than 64 clusters.
    #[error("the number of clusters is not from 1 to 64")]
    Clusters,
    /// 41: there is not one number for each net, or one that no cluster has.
    #[error("not one cluster for each net")]
    Assign,
    /// 70: out of memory.
    #[error("out of memory")]
    Memory,
}

impl ClusteringFault {
    /// The fault's number: 40, 41 or 70.
    pub fn number(&self) -> u32
        ensures { result ≡ number_of_clustering_fault self.now }
    {
        match self {
            ClusteringFault::Clusters => 40,
            ClusteringFault::Assign => 41,
            ClusteringFault::Memory => 70,
        }
    }
}

// Whether there can't be so many clusters.
fn is_unlawful(clusters: u32) -> bool
    ensures { result ≡ (nat_lt clusters 1 || nat_lt 64 clusters) }
{
    PartCount::new(clusters).is_none()
}

// The clusters in turn, net by net.
fn in_turn(alloc: Global, nets: u32, clusters: u32) -> Result<Vec<u32>, AllocError>
    requires { 0 < clusters }
    ensures { IfOk result (λ assign. assign.items ≡ map (λ net. net % clusters) (range_with_len 0 nets)) }
{
    let mut assign = Vec::with_capacity(alloc, nets as usize)?;
    for net in 0..nets {
        assign.push(net % clusters)?;
    }
    Ok(assign)
}

// What is left of each number when it is divided.
fn remainders(alloc: Global, numbers: &[u32], by: u32) -> Result<Vec<u32>, AllocError>
    requires { 0 < by }
    ensures { IfOk result (λ left. left.items ≡ map (λ number. number % by) numbers.now) }
{
    let mut left = Vec::with_capacity(alloc, numbers.len())?;
    for number in numbers {
        left.push(number % by)?;
    }
    Ok(left)
}

/// The cluster of each net.
#[derive(Debug, Drop)]
pub struct Clustering {
    clusters: u32,
    assign: Vec<u32>,
}

impl Model for Clustering {
    ghost use Rattle.std.specs.Prelude.{length};
    ghost use Rattle.cmb_core_cluster.specs.Clustering.{Clustering, IsClustering};

    ghost Value = { Clustering };

    ghost view = { λ a. record { clusters = a.clusters; assign = a.assign.items } };

    ghost invariant = { λ a. IsClustering (length a.assign.items)
        (record { clusters = a.clusters; assign = a.assign.items }) };
}

impl Clustering {
    ghost use Rattle.std.specs.Prelude.{◌≡◌, ◌<◌, ◌≤◌, Ok, IfOk, IfErr, length};
    ghost use Rattle.cmb_core_cluster.specs.Assigns.{checked_clustering, merged_clustering, spread_clustering};
    ghost use Rattle.cmb_core_cluster.specs.Assigns.{RefusesClustering, round_robin};
    ghost use Rattle.cmb_core_cluster.specs.Clustering.{cluster_of, IsClustering};

    /// The clustering of so many nets in which net n goes to cluster `assign[n]`. 40 where the number of
    /// clusters is not from 1 to 64, and else 41 where there is not one number below it for each net.
    pub fn new(nets: u32, clusters: u32, assign: Vec<u32>) -> Result<Clustering, ClusteringFault>
        ensures { result ≡ checked_clustering nets clusters assign.items }
    {
        if is_unlawful(clusters) {
            return Err(ClusteringFault::Clusters);
        }
        if assign.len() != nets as usize || !all_below(&assign, clusters) {
            return Err(ClusteringFault::Assign);
        }
        Ok(Clustering { clusters, assign })
    }

    /// Net n goes to cluster `n mod clusters`.
    pub fn round_robin(
        alloc: Global,
        nets: u32,
        clusters: PartCount,
    ) -> Result<Clustering, AllocError>
        ensures { IfOk result (λ spread. spread ≡ round_robin nets clusters.count) }
    {
        let clusters = clusters.count;
        Ok(Clustering {
            clusters,
            assign: in_turn(alloc, nets, clusters)?,
        })
    }

    /// The same of a number that may be none of clusters. 40 where it is not from 1 to 64, and 70 where there is no
    /// memory.
    pub fn spread(alloc: Global, nets: u32, clusters: u32) -> Result<Clustering, ClusteringFault>
        ensures ok { IfOk result (λ spread. spread_clustering nets clusters ≡ Ok spread) }
        ensures fault { IfErr result (λ fault. RefusesClustering fault (spread_clustering nets clusters)) }
    {
        let Some(clusters) = PartCount::new(clusters) else {
            return Err(ClusteringFault::Clusters);
        };
        match Clustering::round_robin(alloc, nets, clusters) {
            Ok(clustering) => Ok(clustering),
            Err(_) => Err(ClusteringFault::Memory),
        }
    }

    /// So many clusters, from 1 to 64, of which cluster `c mod clusters` has what cluster c of this clustering has.
    pub fn merged(&self, alloc: Global, clusters: u32) -> Result<Clustering, AllocError>
        requires some { 1 ≤ clusters }
        requires few { clusters ≤ 64 }
        ensures { IfOk result (λ merged. merged ≡ merged_clustering self.now clusters) }
    {
        Ok(Clustering {
            clusters,
            assign: remainders(alloc, &self.assign, clusters)?,
        })
    }

    /// How many nets it is for.
    pub fn nets(&self) -> usize
        ensures { result ≡ length self.now.assign }
    {
        self.assign.len()
    }

    /// How many clusters there are.
    pub fn clusters(&self) -> u32
        ensures count { result ≡ self.now.clusters }
        ensures some { 1 ≤ self.now.clusters }
        ensures few { self.now.clusters ≤ 64 }
        ensures lawful { IsClustering (length self.now.assign) self.now }
    {
        self.clusters
    }

    /// The cluster of each net, by its number.
    pub fn assigned(&self) -> &[u32]
        ensures value { result.now ≡ self.now.assign }
        ensures lawful { IsClustering (length self.now.assign) self.now }
    {
        self.assign.as_slice()
    }

    /// The cluster of a net.
    pub fn of(&self, net: u32) -> u32
        requires { net < length self.now.assign }
        ensures { result ≡ cluster_of self.now net }
    {
        self.assign[net as usize]
    }
}
