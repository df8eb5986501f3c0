//! How a dump refers to nets: their codes, and names as Verilog writes them.

ghost use Rattle.std.specs.Prelude.{◌≡◌, ◌++◌, OnOk};
ghost use Rattle.std.specs.List.{list_all};
ghost use Rattle.cmb_run_text.specs.Vcd.{begins_identifier, code, continues_identifier, is_identifier, reference};

use std::alloc::AllocError;

/// The identifier code of a net.
pub fn push_code(out: &mut Vec<u8>, net: u32) -> Result<(), AllocError>
    ensures { OnOk result (out.new.items ≡ out.old.items ++ code net) }
{
    let mut rest = net;
    while rest >= 94 {
        out.push(33 + (rest % 94) as u8)?;
        rest = rest / 94 - 1;
    }
    out.push(33 + rest as u8)?;
    Ok(())
}

fn begins(byte: u8) -> bool
    ensures { result ≡ begins_identifier byte }
{
    byte.is_ascii_alphabetic() || byte == b'_'
}

fn continues(byte: u8) -> bool
    ensures { result ≡ continues_identifier byte }
{
    byte.is_ascii_alphanumeric() || byte == b'_' || byte == b'$'
}

fn all_continue(bytes: &[u8]) -> bool
    ensures { result ≡ list_all continues_identifier bytes.now }
{
    bytes.iter().all(|byte| continues(*byte))
}

fn is_simple(name: &[u8]) -> bool
    ensures { result ≡ is_identifier name.now }
{
    match name.split_first() {
        Some((first, rest)) => begins(*first) && all_continue(rest),
        None => false,
    }
}

/// A name as Verilog writes it: escaped, where it is no simple identifier.
#[tactic(auto, unfolding(cmb_run_text::specs::Vcd::reference))]
pub fn push_reference(out: &mut Vec<u8>, name: &[u8]) -> Result<(), AllocError>
    ensures { OnOk result (out.new.items ≡ out.old.items ++ reference name.now) }
{
    if !is_simple(name) {
        out.push(b'\\')?;
    }
    out.extend_from_slice(name)
}
