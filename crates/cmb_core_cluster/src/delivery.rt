//! Why a cluster refuses a piece.

ghost use Rattle.std.specs.Prelude.{◌≡◌};
ghost use Rattle.cmb_core_cluster.specs.Deliveries.{delivery_fault};
ghost use Rattle.cmb_core_cluster.specs.Faults.{number_of_deliver_fault};

use cmb_wave::WaveFault;
use std::fmt;
use thiserror::Error;

/// Why a cluster refuses a piece.
#[derive(Clone, Copy, PartialEq, Eq, Error)]
pub enum DeliverFault {
    /// 44: the cluster has no input wave of the net.
    #[error("the cluster has no input wave of the net")]
    Stranger,
    /// 42: the piece begins above the wave's clock, so the changes between them are missing.
    #[error("the piece begins after {clock}")]
    Gap { clock: u32 },
    /// 43: the piece ends at or below the wave's clock, so it has nothing new.
    #[error("the piece ends by {clock}")]
    Old { clock: u32 },
    /// 47: the first new change, at this tick, is to the level that the wave ends with.
    #[error("no change at {tick}")]
    Clash { tick: u32 },
    /// 70: out of memory.
    #[error("out of memory")]
    Memory,
}

impl DeliverFault {
    /// The fault's number: 42 to 44, 47 or 70.
    pub fn number(&self) -> u32
        ensures { result ≡ number_of_deliver_fault self.now }
    {
        match self {
            DeliverFault::Stranger => 44,
            DeliverFault::Gap { .. } => 42,
            DeliverFault::Old { .. } => 43,
            DeliverFault::Clash { .. } => 47,
            DeliverFault::Memory => 70,
        }
    }
}

// In the words of `Display`: a derived one prints in each of five arms.
impl fmt::Debug for DeliverFault {
    fn fmt<W: fmt::Write>(&self, f: &mut fmt::Formatter<W>) -> fmt::Result {
        fmt::Display::fmt(self, f)
    }
}

/// The cluster has no input wave of the net.
#[derive(Clone, Copy, Debug, PartialEq, Eq, Error)]
#[error("the cluster has no input wave of the net")]
pub struct Stranger;

/// A wave's fault as that of its cluster.
pub(crate) fn refusal(fault: WaveFault) -> DeliverFault
    ensures { result ≡ delivery_fault fault }
{
    match fault {
        WaveFault::Gap { clock } => DeliverFault::Gap { clock },
        WaveFault::Old { clock } => DeliverFault::Old { clock },
        WaveFault::Clash { tick } => DeliverFault::Clash { tick },
        WaveFault::Memory => DeliverFault::Memory,
    }
}
