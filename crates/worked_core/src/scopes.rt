//! Declarations with scopes: modules, the bits of a bus, a name with an empty part, and a number with a leading zero.

use crate::checks::{holds, same};
use cmb_bench::read_bench;
use cmb_io::Room;
use cmb_run_scopes::{Headers, headers_of, write_scoped};
use std::alloc::Global;
use std::process::Abort;
use std::test::Fail;
use worked_designs::or_fail;

const NETLIST: &[u8] = b"INPUT(a)\nINPUT(cpu.led[0])\nINPUT(cpu.alu.x)\nINPUT(b..c)\n\
    OUTPUT(cpu.led[1])\ncpu.led[1] = NOT(a)\nrom.q[01] = BUFF(a)\n";

// By hand: in a scope its nets by number, and then its scopes in the order of their first nets.
const DECLARATIONS: &str = "\
$version cmbsim 1 $end
$timescale 1 ns $end
$scope module top $end
$var wire 1 ! a $end
$var wire 1 $ \\b..c $end
$scope module cpu $end
$var wire 1 \" led [0] $end
$var wire 1 % led [1] $end
$scope module alu $end
$var wire 1 # x $end
$upscope $end
$upscope $end
$scope module rom $end
$var wire 1 & \\q[01] $end
$upscope $end
$upscope $end
$enddefinitions $end
";

// The headers of a text of all nets of the netlist.
fn headers(rt: &impl Abort, alloc: Global) -> Result<Headers, Fail> {
    let netlist = read_bench(alloc, NETLIST)?;
    holds(rt, netlist.len() == 6);
    let headers = headers_of(alloc, &netlist, &[0, 1, 2, 3, 4, 5]);
    drop(netlist);
    or_fail(headers)
}

// The header of a text is replaced, and what follows it stays.
#[test]
fn scopes(rt: HostRuntime) -> Result<(), Fail> {
    let alloc = rt.alloc();
    let headers = headers(&rt, alloc)?;
    holds(&rt, headers.scoped.as_slice() == DECLARATIONS.as_bytes());
    let text = Vec::from_elem(alloc, b'x', headers.plain.saturating_add(3))?;
    holds(&rt, headers.plain <= text.len());
    let mut out = Room::new(alloc, 1000)?;
    let written = write_scoped(&mut out, &headers, &text);
    same(&rt, written, Ok(DECLARATIONS.len() as u64 + 3));
    holds(
        &rt,
        out.bytes.as_slice().get(DECLARATIONS.len()..) == Some(b"xxx".as_slice()),
    );
    Ok(())
}
