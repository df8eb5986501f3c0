//! Why a simulation didn't write its text.

ghost use Rattle.std.specs.Prelude.{◌≡◌, IfOk};
ghost use Rattle.cmb_faults.specs.Numbers.{bench_as_fault, design_as_fault, line_of, list_as_fault, number_of};
ghost use Rattle.cmb_faults.specs.Numbers.{place_of};
ghost use Rattle.cmb_faults.specs.Numbers.{run_as_fault, write_as_fault};

use cmb_bench::{BenchFault, FaultKind, ListFault};
use cmb_design_model::DesignFault;
use cmb_explain::explanation_of;
use cmb_io::WriteFault;
use cmb_run_exact::RunFault;
use std::alloc::{AllocError, Global};
use std::error::Error;
use std::fmt;

/// Why a simulation didn't write its text. Inputs are 1 the netlist, 2 the delays, 3 the stimuli, 4 the clocks, 5 the
/// list of nets, 6 the first levels and 7 the table of what is expected.
#[derive(Drop)]
pub enum Fault {
    /// 1 to 8: the netlist is wrong, on a line.
    Bench(BenchFault),
    /// 20 to 37 and 39: a table, the settings or the rows make no design, the design is too large for its mode, or what
    /// is expected of its run can't be.
    Design(DesignFault),
    /// 38: what stands on this line of the list of nets, counted from 1, is no net's name.
    Unknown { line: u32 },
    /// 40: the number of clusters isn't from 1 to 64.
    Clusters,
    /// 53: the run was stopped, and this net is known only below a tick.
    Incomplete { net: u32, upto: u32 },
    /// 54: the number of workers isn't from 1 to 64.
    Workers,
    /// 60: an input has more than 16,777,216 bytes.
    TooLong { input: u32 },
    /// 61: an input couldn't be read.
    Read { input: u32 },
    /// 62: the output failed after it took so many bytes.
    Write { written: u64 },
    /// 70: memory or a worker's thread was refused.
    Memory,
}

impl From<BenchFault> for Fault {
    ghost from_gives = { λ fault wider. wider ≡ bench_as_fault fault };

    fn from(fault: BenchFault) -> Fault {
        match fault.kind {
            FaultKind::Memory => Fault::Memory,
            _ => Fault::Bench(fault),
        }
    }
}

impl From<DesignFault> for Fault {
    ghost from_gives = { λ fault wider. wider ≡ design_as_fault fault };

    fn from(fault: DesignFault) -> Fault {
        match fault {
            DesignFault::Memory => Fault::Memory,
            _ => Fault::Design(fault),
        }
    }
}

impl From<ListFault> for Fault {
    ghost from_gives = { λ fault wider. wider ≡ list_as_fault fault };

    fn from(fault: ListFault) -> Fault {
        match fault {
            ListFault::Unknown { line } => Fault::Unknown { line },
            ListFault::Memory => Fault::Memory,
        }
    }
}

impl From<AllocError> for Fault {
    ghost use Rattle.cmb_faults.specs.declared.fault.Fault.TheVariants.{Memory};

    ghost from_gives = { λ _ wider. wider ≡ Memory };

    fn from(_: AllocError) -> Fault {
        Fault::Memory
    }
}

impl From<RunFault> for Fault {
    ghost from_gives = { λ fault wider. wider ≡ run_as_fault fault };

    fn from(fault: RunFault) -> Fault {
        match fault {
            RunFault::Incomplete { net, upto, .. } => Fault::Incomplete { net, upto },
            RunFault::Write { written } => Fault::Write { written },
            RunFault::Memory => Fault::Memory,
        }
    }
}

impl From<WriteFault> for Fault {
    ghost from_gives = { λ fault wider. wider ≡ write_as_fault fault };

    fn from(fault: WriteFault) -> Fault {
        match fault {
            WriteFault::Write { written } => Fault::Write { written },
            WriteFault::Memory => Fault::Memory,
        }
    }
}

impl Fault {
    /// The fault's number: 1 to 8, 20 to 40, 53, 54, 60 to 62, and 70 for want of memory.
    pub fn number(&self) -> u32
        ensures { result ≡ number_of self.now }
    {
        match self {
            Fault::Bench(fault) => fault.number(),
            Fault::Design(fault) => fault.number(),
            Fault::Unknown { .. } => 38,
            Fault::Clusters => 40,
            Fault::Incomplete { .. } => 53,
            Fault::Workers => 54,
            Fault::TooLong { .. } => 60,
            Fault::Read { .. } => 61,
            Fault::Write { .. } => 62,
            Fault::Memory => 70,
        }
    }

    /// Where the fault stands: the line of a netlist or of a list, or the record of a table, all counted from 1,
    /// the number of a net or of an input, or how many bytes were written; else 0.
    pub fn place(&self) -> u64
        ensures { result ≡ place_of self.now }
    {
        match self {
            Fault::Bench(fault) => u64::from(fault.line),
            Fault::Design(fault) => u64::from(fault.record()),
            Fault::Unknown { line } => u64::from(*line),
            Fault::Incomplete { net, .. } => u64::from(*net),
            Fault::TooLong { input } | Fault::Read { input } => u64::from(*input),
            Fault::Write { written } => *written,
            Fault::Clusters | Fault::Workers | Fault::Memory => 0,
        }
    }

    // What is wrong, in the words of its explanation.
    fn meaning(&self) -> &'static str {
        match explanation_of(self.number()) {
            Some(entry) => entry.meaning,
            None => "",
        }
    }

    // Where the fault stands.
    fn write_place<W: fmt::Write>(&self, f: &mut fmt::Formatter<W>) -> fmt::Result {
        match self {
            Fault::Unknown { line } => write!(f, "the list, line {line}: "),
            Fault::Incomplete { net, upto } => write!(f, "net {net} is known only below {upto}: "),
            Fault::TooLong { input } | Fault::Read { input } => write!(f, "input {input}: "),
            Fault::Write { written } => write!(f, "after {written} bytes: "),
            _ => Ok(()),
        }
    }
}

impl fmt::Display for Fault {
    fn fmt<W: fmt::Write>(&self, f: &mut fmt::Formatter<W>) -> fmt::Result {
        match self {
            Fault::Bench(fault) => write!(f, "netlist, {fault}"),
            Fault::Design(fault) => fmt::Display::fmt(fault, f),
            _ => {
                self.write_place(f)?;
                f.write_str(self.meaning())
            }
        }
    }
}

// In the words of `Display`: a derived one prints in each of ten arms.
impl fmt::Debug for Fault {
    fn fmt<W: fmt::Write>(&self, f: &mut fmt::Formatter<W>) -> fmt::Result {
        fmt::Display::fmt(self, f)
    }
}

impl Error for Fault {}

/// The line that the program prints of a fault: `cmbsim: fault N at P`, with its line feed.
pub fn fault_line(alloc: Global, fault: &Fault) -> Result<Vec<u8>, AllocError>
    ensures { IfOk result (λ line. line.items ≡ line_of fault.now) }
{
    let number = fault.number();
    let place = fault.place();
    let text = format!(in alloc; "cmbsim: fault {number} at {place}\n")?;
    Ok(text.into_bytes())
}
