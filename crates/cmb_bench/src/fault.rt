//! Why a text has no netlist.
ghost use Rattle.std.specs.Prelude.{◌≡◌};
ghost use Rattle.cmb_bench.specs.FirstFault.{number_of_fault};

use std::alloc::{AllocError, AllocFailed};
use std::fmt;
use thiserror::Error;

/// What is wrong with a text, at one of its tokens.
#[derive(Clone, Copy, PartialEq, Eq)]
pub enum FaultKind {
    /// 1: a byte that stands in no token, outside a comment.
    Byte,
    /// 2: the tokens up to this one, with it, begin no list of statements.
    Statement,
    /// 3: the name in the place of a kind is none.
    Kind,
    /// 4: a comma among the operands of NOT, BUFF or DFF.
    Operands,
    /// 5: the net has a driver already.
    Driven,
    /// 6: a name is used that no statement drives.
    Undriven,
    /// 7: this would be the net numbered 65,535.
    TooMany,
    /// 8: a name of more than 255 bytes.
    Name,
    /// 70: memory ran out. This is no fault of the text.
    Memory,
}

impl FaultKind {
    /// The fault's number: 1 to 8, or 70 where memory ran out.
    pub fn number(self) -> u32
        ensures { result ≡ number_of_fault self }
    {
        match self {
            FaultKind::Byte => 1,
            FaultKind::Statement => 2,
            FaultKind::Kind => 3,
            FaultKind::Operands => 4,
            FaultKind::Driven => 5,
            FaultKind::Undriven => 6,
            FaultKind::TooMany => 7,
            FaultKind::Name => 8,
            FaultKind::Memory => 70,
        }
    }

    fn words(self) -> &'static str {
        match self {
            FaultKind::Byte => "a byte that no netlist has",
            FaultKind::Statement => "not a statement",
            FaultKind::Kind => "not a kind",
            FaultKind::Operands => "too many operands",
            FaultKind::Driven => "driven twice",
            FaultKind::Undriven => "not driven",
            FaultKind::TooMany => "too many nets",
            FaultKind::Name => "a name that is too long",
            FaultKind::Memory => "out of memory",
        }
    }
}

// By one table of words and in one place, since a derived one prints in each of nine arms.
impl fmt::Display for FaultKind {
    fn fmt<W: fmt::Write>(&self, f: &mut fmt::Formatter<W>) -> fmt::Result {
        f.write_str(self.words())
    }
}

// In the words of `Display`, for the same reason.
impl fmt::Debug for FaultKind {
    fn fmt<W: fmt::Write>(&self, f: &mut fmt::Formatter<W>) -> fmt::Result {
        fmt::Display::fmt(self, f)
    }
}

impl std::error::Error for FaultKind {}

/// Why a text has no netlist, and on which line, counted from 1; line 0 where memory ran out.
#[derive(Clone, Copy, Debug, PartialEq, Eq, Error)]
#[error("line {line}: {kind}")]
pub struct BenchFault {
    pub line: u32,
    pub kind: FaultKind,
}

impl BenchFault {
    /// The number of the fault's kind.
    pub fn number(self) -> u32
        ensures { result ≡ number_of_fault self.kind }
    {
        self.kind.number()
    }
}

/// Why the reader stops: memory ran out, or the text has a fault.
#[derive(Clone, Copy)]
pub(crate) enum ReadError {
    Memory,
    Fault(BenchFault),
}

impl From<AllocError> for ReadError {
    ghost use Rattle.std.specs.Prelude.{◌≡◌};
    ghost use Rattle.cmb_bench.specs.declared.fault.ReadError.TheVariants.{Memory};

    ghost from_gives = { λ _ e. e ≡ Memory };

    fn from(_error: AllocError) -> Self {
        ReadError::Memory
    }
}

impl<T: Drop> From<AllocFailed<T>> for ReadError {
    ghost use Rattle.std.specs.Prelude.{◌≡◌};
    ghost use Rattle.cmb_bench.specs.declared.fault.ReadError.TheVariants.{Memory};

    ghost from_gives = { λ _ e. e ≡ Memory };

    fn from(_error: AllocFailed<T>) -> Self {
        ReadError::Memory
    }
}
