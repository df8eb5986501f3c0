//! Stepping every net of a cluster, in place.

ghost use Rattle.std.specs.Prelude.{◌≡◌, ℕ, ◌||◌, length, take, IfOk, OnOk, OnErr};
ghost use Rattle.cmb_design_model.specs.Design.{Design};
ghost use Rattle.cmb_core_cluster.specs.Clustering.{Clustering as Clusters};
ghost use Rattle.cmb_core_cluster.specs.Clusters.{IsSameButWaves};
ghost use Rattle.cmb_core_cluster.specs.Exactness.{IsExactCluster};
ghost use Rattle.cmb_core_cluster.specs.Opened.{IsClusterOf, own_nets};
ghost use Rattle.cmb_core_cluster.specs.Sweep.{some_rises, stepped_waves};

use crate::cluster::Cluster;
use std::alloc::AllocError;

fn either(a: bool, b: bool) -> bool
    ensures { result ≡ (a || b) }
{
    a || b
}

impl Cluster {
    // How many waves there are.
    pub(crate) fn slots(&self) -> usize
        ensures { result ≡ length self.now.waves }
    {
        self.waves.len()
    }

    /// Steps each net that is driven here once, in order, and says whether a clock rose. Where there
    /// is no memory the cluster stands as after the first few of these steps.
    pub fn step_all(&mut self) -> Result<bool, AllocError>
        ensures rose { (design : Design) (clustering : Clusters) (cluster : ℕ)
            → IsClusterOf design clustering cluster self.old
            → IfOk result (λ rose. rose ≡ some_rises design self.old.waves (own_nets design clustering cluster)) }
        ensures waves { (design : Design) (clustering : Clusters) (cluster : ℕ)
            → IsClusterOf design clustering cluster self.old
            → OnOk result (self.new.waves ≡ stepped_waves design self.old.waves (own_nets design clustering cluster)) }
        ensures memory { (design : Design) (clustering : Clusters) (cluster : ℕ)
            → IsClusterOf design clustering cluster self.old
            → OnErr result ((first : ℕ) × (self.new.waves
            ≡ stepped_waves design self.old.waves (take first (own_nets design clustering cluster)))) }
        ensures same { IsSameButWaves self.old self.new }
        ensures exact { (design : Design) (clustering : Clusters) (cluster : ℕ)
            → IsExactCluster design clustering cluster self.old → IsExactCluster design clustering cluster self.new }
    {
        let mut rose = false;
        for slot in 0..self.slots() {
            let moved = self.step_at(slot)?.is_some();
            rose = either(rose, moved);
        }
        Ok(rose)
    }
}
