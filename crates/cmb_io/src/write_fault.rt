//! Why a text wasn't written whole.

use std::alloc::AllocError;
use thiserror::Error;

/// Why a design's text wasn't written whole.
#[derive(Clone, Copy, Debug, PartialEq, Eq, Error)]
pub enum WriteFault {
    /// The sink failed after it took so many bytes.
    #[error("a write failed after {written} bytes")]
    Write { written: u64 },
    /// Memory was refused.
    #[error("out of memory")]
    Memory,
}

impl From<AllocError> for WriteFault {
    ghost use Rattle.std.specs.Prelude.{◌≡◌};
    ghost use Rattle.cmb_io.specs.declared.write_fault.WriteFault.TheVariants.{Memory};

    ghost from_gives = { λ _ fault. fault ≡ Memory };

    fn from(_: AllocError) -> WriteFault {
        WriteFault::Memory
    }
}
