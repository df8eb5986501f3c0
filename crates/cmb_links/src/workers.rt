//! How many workers a run has, and which of them has a cluster.

use crate::fault::WorkersFault;
use cmb_netlist::PartCount;
use std::marker::Model;

/// A number of workers, from 1 to 64. Contracts see the number.
#[derive(Clone, Copy, Debug, PartialEq, Eq)]
pub struct Workers {
    count: u32,
}

impl Model for Workers {
    ghost use Rattle.std.specs.Prelude.{ℕ, ◌≤◌};

    ghost Value = { ℕ };

    ghost view = { λ w. w.count };

    ghost invariant = { λ w. (1 ≤ w.count) × (w.count ≤ 64) };

    ghost inverse = { λ n. record { count = n } };
}

impl From<PartCount> for Workers {
    ghost use Rattle.std.specs.Prelude.{◌≡◌};

    ghost from_gives = { λ parts workers. workers ≡ parts.count };

    fn from(parts: PartCount) -> Workers {
        Workers { count: parts.count }
    }
}

impl Workers {
    ghost use Rattle.std.specs.Prelude.{◌≡◌, ◌≤◌, ◌<◌, ◌↔◌, IsOk, IfOk, IfErr, min};
    ghost use Rattle.cmb_links.specs.Workers.{worker_of};

    /// So many workers, or fault 54 where the number isn't from 1 to 64.
    pub fn new(n: u32) -> Result<Workers, WorkersFault>
        ensures ok { IsOk result ↔ ((1 ≤ n) × (n ≤ 64)) }
        ensures count { IfOk result (λ workers. workers ≡ n) }
        ensures fault { IfErr result (λ fault. fault ≡ WorkersFault.Workers) }
    {
        match PartCount::new(n) {
            Some(parts) => Ok(Workers::from(parts)),
            None => Err(WorkersFault::Workers),
        }
    }

    /// How many there are.
    pub fn count(self) -> u32
        ensures count { result ≡ self }
        ensures some { 1 ≤ self }
        ensures few { self ≤ 64 }
    {
        self.count
    }

    /// No more workers than `most`, which is at least 1.
    pub fn at_most(self, most: u32) -> Workers
        requires { 1 ≤ most }
        ensures { result ≡ min self most }
    {
        Workers {
            count: self.count.min(most),
        }
    }

    /// The worker that a cluster belongs to.
    pub fn of(self, cluster: u32) -> u32
        ensures worker { result ≡ worker_of self cluster }
        ensures below { result < self }
    {
        cluster % self.count
    }
}
