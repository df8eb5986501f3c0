//! The reader of a text.
ghost use Rattle.std.specs.Prelude.{◌≡◌, ◌≤◌, length, IfOk, IfErr, MatchResult, ◌⊎◌};
ghost use Rattle.cmb_bench.specs.declared.fault.BenchFault.{BenchFault};
ghost use Rattle.cmb_bench.specs.FirstFault.{IsFirstFault, out_of_memory};
ghost use Rattle.cmb_netlist.specs.Netlist.{Netlist};
ghost use Rattle.cmb_bench.specs.Meaning.{Reads};
ghost use Rattle.cmb_bench.specs.Inner.Faulty.{IsFaulty, AnswersOnly};

use crate::build::build;
use crate::fault::{BenchFault, FaultKind, ReadError};
use crate::parser::{Parsed, parse};
use cmb_netlist::{MAX_TEXT, Netlist};
use std::alloc::Global;

// Statement by statement, and then what the statements mean.
fn read(alloc: Global, bytes: &[u8]) -> Result<Netlist, ReadError>
    requires { length bytes.now ≤ MAX_TEXT }
    ensures found { IfOk result (λ n. Reads bytes.now n) }
    ensures only { (c : Netlist) → Reads bytes.now c → AnswersOnly result c }
    ensures fault { IfErr result (λ e. IsFaulty bytes.now e) }
{
    let Parsed { items, names } = parse(alloc, bytes)?;
    build(alloc, names, &items)
}

/// Reads the netlist that a `.bench` text of at most 16,777,216 bytes spells. Nets are numbered
/// from 0 in the order of their driving statements; a name may be used before it is driven.
///
/// Any other text is refused with its first fault. It is the least of 1 `Byte`, 2 `Statement`,
/// 3 `Kind`, 4 `Operands`, 5 `Driven`, 7 `TooMany` and 8 `Name` at the first token at which one of
/// them stands, with the line of that token; or 6 `Undriven`, at the first name that is used and
/// not driven, where none of these stands anywhere. 70 `Memory`, at line 0, says that memory ran
/// out.
///
/// The time taken grows with the number of bytes, unless the names were chosen to collide:
/// `indexmap`'s hasher has a fixed seed.
pub fn read_bench(alloc: Global, bytes: &[u8]) -> Result<Netlist, BenchFault>
    requires { length bytes.now ≤ MAX_TEXT }
    // What is read is what the text spells.
    ensures found { IfOk result (λ n. Reads bytes.now n) }
    // A text that spells a netlist is read, as that one, unless memory runs out.
    ensures only { (c : Netlist) → Reads bytes.now c → MatchResult result (λ n. n ≡ c) (λ f. f ≡ out_of_memory) }
    // Any other text is refused with its first fault, unless memory runs out.
    ensures fault { IfErr result (λ f. (f ≡ out_of_memory) ⊎ IsFirstFault bytes.now f) }
{
    match read(alloc, bytes) {
        Ok(netlist) => Ok(netlist),
        Err(ReadError::Memory) => Err(BenchFault {
            line: 0,
            kind: FaultKind::Memory,
        }),
        Err(ReadError::Fault(fault)) => Err(fault),
    }
}
