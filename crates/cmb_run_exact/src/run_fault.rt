//! Why a run answers no complete collector.

use cmb_run_text::Collector;
use std::alloc::AllocError;
use thiserror::Error;

/// Why a run by workers fails.
#[derive(Debug, Drop, Error)]
pub enum RunFault {
    /// The run was stopped. The collector is exact as far as it goes: `net` is the least net that
    /// isn't known up to the horizon, and is known only below the tick `upto`.
    #[error("net {net} is known only below {upto}")]
    Incomplete {
        net: u32,
        upto: u32,
        collector: Collector,
    },
    /// The sink failed after it took so many bytes.
    #[error("a write failed after {written} bytes")]
    Write {
        written: u64,
    },
    /// Memory, or a worker's thread, was refused.
    #[error("out of memory")]
    Memory,
}

impl RunFault {
    ghost use Rattle.std.specs.Prelude.{◌≡◌};
    ghost use Rattle.cmb_run_exact.specs.RunFaults.{number_of_run_fault};

    /// The fault's number: 53, 62 or 70.
    pub fn number(&self) -> u32
        ensures { result ≡ number_of_run_fault self.now }
    {
        match self {
            RunFault::Incomplete { .. } => 53,
            RunFault::Write { .. } => 62,
            RunFault::Memory => 70,
        }
    }
}

impl From<AllocError> for RunFault {
    ghost use Rattle.std.specs.Prelude.{◌≡◌};
    ghost use Rattle.cmb_run_exact.specs.declared.run_fault.RunFault.TheVariants.{Memory};

    ghost from_gives = { λ e r. r ≡ Memory };

    fn from(_: AllocError) -> RunFault {
        RunFault::Memory
    }
}
