//! About how much a worker has to do in a round.

use cmb_run_exact::{ClusterRun, ExactCluster};
use std::alloc::{AllocError, Global};

// So many nets of a cluster, or twice as many, stand for all of them.
const SAMPLES: usize = 64;

/// Some of a cluster's nets, spread evenly over all of them.
#[derive(Drop)]
pub struct Gauge {
    nets: Vec<u32>,
    // Each of them stands for so many.
    each: usize,
    // How many changes they had together when they were last read.
    changes: usize,
}

impl Gauge {
    /// The nets of a newly opened cluster that stand for all of them.
    pub(crate) fn open<T: ClusterRun>(
        alloc: Global,
        cluster: &ExactCluster<T>,
    ) -> Result<Gauge, AllocError> {
        let driven = cluster.driven();
        let each = (driven.len() / SAMPLES).max(1);
        let mut nets = Vec::new(alloc);
        for net in driven.iter().step_by(each) {
            nets.push(*net)?;
        }
        Ok(Gauge {
            nets,
            each,
            changes: 0,
        })
    }

    /// About how many looks at a net the next round takes, if it is like the one before it: one for each
    /// net that isn't known to its end, and one for each change that came since the gauge was last read.
    pub(crate) fn read<T: ClusterRun>(&mut self, cluster: &ExactCluster<T>) -> usize {
        let mut looks = 0_usize;
        let mut changes = 0_usize;
        for net in &self.nets {
            if let Some(promise) = cluster.promise(*net) {
                looks = looks.saturating_add(usize::from(promise.upto < cluster.horizon()));
                changes = changes.saturating_add(promise.count as usize);
            }
        }
        looks = looks.saturating_add(changes.saturating_sub(self.changes));
        self.changes = changes;
        looks.saturating_mul(self.each)
    }
}
