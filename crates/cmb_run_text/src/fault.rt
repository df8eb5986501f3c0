//! Why a collector takes no piece.

use cmb_wave::WaveFault;
use std::error::Error;
use std::fmt;

/// Why a collector takes no piece. They are tested in the order 52, 50, 51, 49.
#[derive(Clone, Copy, PartialEq, Eq)]
pub enum CollectFault {
    /// 49: the first new change, at this tick, is to the level that the net's wave ends with.
    Clash { tick: u32 },
    /// 50: the piece begins after the clock of the net's wave, so the changes between them are missing.
    Gap { clock: u32 },
    /// 51: the piece ends by the clock of the net's wave, so all of it was taken before.
    Double { clock: u32 },
    /// 52: the piece is of no net of the design.
    Stranger,
    /// 70: out of memory.
    Memory,
}

impl CollectFault {
    ghost use Rattle.std.specs.Prelude.{◌≡◌};
    ghost use Rattle.cmb_run_text.specs.Faults.{number_of_collect_fault};

    /// The fault's number: 49 to 52, or 70.
    pub fn number(&self) -> u32
        ensures { result ≡ number_of_collect_fault self.now }
    {
        match self {
            CollectFault::Clash { .. } => 49,
            CollectFault::Gap { .. } => 50,
            CollectFault::Double { .. } => 51,
            CollectFault::Stranger => 52,
            CollectFault::Memory => 70,
        }
    }

    // What is wrong, up to the tick at which it is.
    fn words(&self) -> &'static str {
        match self {
            CollectFault::Clash { .. } => "no change at",
            CollectFault::Gap { .. } => "the piece begins after",
            CollectFault::Double { .. } => "the piece ends by",
            CollectFault::Stranger => "there is no such net",
            CollectFault::Memory => "out of memory",
        }
    }
}

impl fmt::Display for CollectFault {
    fn fmt<W: fmt::Write>(&self, f: &mut fmt::Formatter<W>) -> fmt::Result {
        match self {
            CollectFault::Clash { tick }
            | CollectFault::Gap { clock: tick }
            | CollectFault::Double { clock: tick } => write!(f, "{} {tick}", self.words()),
            CollectFault::Stranger | CollectFault::Memory => f.write_str(self.words()),
        }
    }
}

// In the words of `Display`: a derived one prints in each of five arms.
impl fmt::Debug for CollectFault {
    fn fmt<W: fmt::Write>(&self, f: &mut fmt::Formatter<W>) -> fmt::Result {
        fmt::Display::fmt(self, f)
    }
}

impl Error for CollectFault {}

impl From<WaveFault> for CollectFault {
    ghost use Rattle.std.specs.Prelude.{◌≡◌};
    ghost use Rattle.cmb_run_text.specs.Faults.{collect_fault};

    ghost from_gives = { λ fault e. e ≡ collect_fault fault };

    fn from(fault: WaveFault) -> CollectFault {
        match fault {
            WaveFault::Gap { clock } => CollectFault::Gap { clock },
            WaveFault::Old { clock } => CollectFault::Double { clock },
            WaveFault::Clash { tick } => CollectFault::Clash { tick },
            WaveFault::Memory => CollectFault::Memory,
        }
    }
}
