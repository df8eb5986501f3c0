//! The ends of the nets' lines, made once.

ghost use Rattle.std.specs.Prelude.{◌≡◌, ◌≤◌, length, IfOk};
ghost use Rattle.cmb_run_text.specs.Vcd.{code, line};
ghost use Rattle.cmb_dump.specs.Inner.Tails.{AreTails, tail_bytes};

use crate::tail::Tail;
use cmb_netlist::MAX_NETS;
use cmb_run_text::ready_codes::{Code, code_of};
use std::alloc::{AllocError, Global};

fn tail_of(net: u16) -> Tail
    ensures { tail_bytes result ≡ line (code net) }
{
    match code_of(net) {
        Code::One(a) => Tail {
            bytes: [a, b'\n', 0, 0],
            len: 2,
        },
        Code::Two(a, b) => Tail {
            bytes: [a, b, b'\n', 0],
            len: 3,
        },
        Code::Three(a, b, c) => Tail {
            bytes: [a, b, c, b'\n'],
            len: 4,
        },
    }
}

/// The tails of so many nets, by their numbers.
pub fn tails_of(alloc: Global, nets: u16) -> Result<Vec<Tail>, AllocError>
    ensures count { IfOk result (λ tails. length tails.items ≡ nets) }
    ensures few { IfOk result (λ tails. length tails.items ≤ MAX_NETS) }
    ensures right { IfOk result (λ tails. AreTails tails.items) }
{
    let mut tails = Vec::with_capacity(alloc, nets as usize)?;
    for net in 0..nets {
        tails.push(tail_of(net))?;
    }
    Ok(tails)
}
