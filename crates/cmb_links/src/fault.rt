//! Why a number of workers or a link is refused.

use std::alloc::AllocError;
use thiserror::Error;

/// Why a number of workers is refused.
#[derive(Clone, Copy, Debug, PartialEq, Eq, Error)]
pub enum WorkersFault {
    #[error("the number of workers is not from 1 to 64")]
    Workers,
}

impl WorkersFault {
    ghost use Rattle.std.specs.Prelude.{◌≡◌};
    ghost use Rattle.cmb_links.specs.Faults.{number_of_workers_fault};

    /// The fault's number: 54.
    pub fn number(&self) -> u32
        ensures { result ≡ number_of_workers_fault self.now }
    {
        match self {
            WorkersFault::Workers => 54,
        }
    }
}

/// Why a link is refused.
#[derive(Clone, Copy, Debug, PartialEq, Eq, Error)]
pub enum LinkFault {
    #[error("the capacity is not from 1 to 65536")]
    Capacity,
    #[error("out of memory")]
    Memory,
}

impl LinkFault {
    ghost use Rattle.std.specs.Prelude.{◌≡◌};
    ghost use Rattle.cmb_links.specs.Faults.{number_of_link_fault};

    /// The fault's number: 48, and 70 for want of memory.
    pub fn number(&self) -> u32
        ensures { result ≡ number_of_link_fault self.now }
    {
        match self {
            LinkFault::Capacity => 48,
            LinkFault::Memory => 70,
        }
    }
}

impl From<AllocError> for LinkFault {
    ghost use Rattle.std.specs.Prelude.{◌≡◌};
    ghost use Rattle.cmb_links.specs.declared.fault.LinkFault.TheVariants.{Memory};

    ghost from_gives = { λ e r. r ≡ Memory };

    fn from(_: AllocError) -> LinkFault {
        LinkFault::Memory
    }
}
