//! Whether a net is done, or can go on.

use crate::cluster::Cluster;

impl Cluster {
    ghost use Rattle.std.specs.Prelude.{◌≡◌, ◌==◌, nat_lt, ℕ};
    ghost use Rattle.cmb_design_model.specs.Design.{Design};
    ghost use Rattle.cmb_core_cluster.specs.Clustering.{Clustering as Clusters};
    ghost use Rattle.cmb_core_cluster.specs.Clusters.{IsDrivenHere};
    ghost use Rattle.cmb_core_cluster.specs.Opened.{IsClusterOf, IsOwnNet};
    ghost use Rattle.cmb_core_cluster.specs.Step.{wave_at, step_reach};

    /// Whether a net that is driven here is known up to the horizon.
    pub fn is_done(&self, net: u32) -> bool
        requires { IsDrivenHere self.now net }
        ensures { result ≡ ((wave_at self.now.waves net).clock == self.now.horizon) }
    {
        match self.output_place(net) {
            Some(slot) => self.wave(slot).clock() == self.horizon,
            None => unreachable!(),
        }
    }

    /// Whether a net that is driven here can go on, by what the cluster holds.
    pub fn goes_on(&self, net: u32) -> bool
        requires { IsDrivenHere self.now net }
        ensures { (design : Design) (clustering : Clusters) (cluster : ℕ)
            → IsClusterOf design clustering cluster self.now → IsOwnNet design clustering cluster net
            → result ≡ nat_lt (wave_at self.now.waves net).clock (step_reach design self.now.waves net) }
    {
        match self.output_place(net) {
            Some(slot) => self.next_span(slot).is_some(),
            None => unreachable!(),
        }
    }
}
