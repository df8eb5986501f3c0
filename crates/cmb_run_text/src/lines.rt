//! The lines of the text.

ghost use Rattle.std.specs.Prelude.{◌≡◌, ◌<◌, ◌≤◌, ◌++◌, length, All, OnOk};
ghost use Rattle.std.specs.List.{list_all};
ghost use Rattle.cmb_run_text.specs.Chosen.{names_of};
ghost use Rattle.cmb_run_text.specs.Vcd.{begins_identifier, code, continues_identifier, header, is_identifier};
ghost use Rattle.cmb_run_text.specs.Vcd.{level_byte};
ghost use Rattle.cmb_run_text.specs.Vcd.{reference, tick_line, var_line, var_lines};

use cmb_netlist::{MAX_NETS, Netlist};
use cmb_wave::Level;
use itoa::Buffer;
use std::alloc::AllocError;

fn push_code(out: &mut Vec<u8>, net: u32) -> Result<(), AllocError>
    ensures { OnOk result (out.new.items ≡ out.old.items ++ code net) }
{
    let mut rest = net;
    while rest >= 94 {
        out.push(33 + (rest % 94) as u8)?;
        rest = rest / 94 - 1;
    }
    out.push(33 + rest as u8)?;
    Ok(())
}

/// The byte of a level.
pub fn byte_of(level: Level) -> u8
    ensures { result ≡ level_byte level }
{
    match level {
        Level::Zero => b'0',
        Level::One => b'1',
        Level::X => b'x',
    }
}

/// The line of a tick.
#[tactic(auto, unfolding(crate::specs::Vcd::tick_line))]
pub fn push_tick(out: &mut Vec<u8>, tick: u32) -> Result<(), AllocError>
    ensures { OnOk result (out.new.items ≡ out.old.items ++ tick_line tick) }
{
    let mut digits = Buffer::new();
    out.push(b'#')?;
    out.extend_from_slice(digits.format(tick).as_bytes())?;
    out.push(b'\n')?;
    Ok(())
}

fn begins(byte: u8) -> bool
    ensures { result ≡ begins_identifier byte }
{
    byte.is_ascii_alphabetic() || byte == b'_'
}

fn continues(byte: u8) -> bool
    ensures { result ≡ continues_identifier byte }
{
    byte.is_ascii_alphanumeric() || byte == b'_' || byte == b'$'
}

fn all_continue(bytes: &[u8]) -> bool
    ensures { result ≡ list_all continues_identifier bytes.now }
{
    bytes.iter().all(|byte| continues(*byte))
}

fn is_simple(name: &[u8]) -> bool
    ensures { result ≡ is_identifier name.now }
{
    match name.split_first() {
        Some((first, rest)) => begins(*first) && all_continue(rest),
        None => false,
    }
}

#[tactic(auto, unfolding(crate::specs::Vcd::reference))]
fn push_reference(out: &mut Vec<u8>, name: &[u8]) -> Result<(), AllocError>
    ensures { OnOk result (out.new.items ≡ out.old.items ++ reference name.now) }
{
    if !is_simple(name) {
        out.push(b'\\')?;
    }
    out.extend_from_slice(name)
}

/// The declaration of a net.
fn push_var(out: &mut Vec<u8>, net: u32, name: &[u8]) -> Result<(), AllocError>
    ensures { OnOk result (out.new.items ≡ out.old.items ++ var_line net name.now) }
{
    out.extend_from_slice(b"$var wire 1 ")?;
    push_code(out, net)?;
    out.extend_from_slice(b" ")?;
    push_reference(out, name)?;
    out.extend_from_slice(b" $end\n")
}

fn push_vars(out: &mut Vec<u8>, netlist: &Netlist) -> Result<(), AllocError>
    ensures { OnOk result (out.new.items ≡ out.old.items ++ var_lines 0 netlist.now.names) }
{
    for net in 0..netlist.len() {
        push_var(out, net as u32, netlist.name(net))?;
    }
    Ok(())
}

// What stands above the declarations of nets, and what below them.
const HEAD: &[u8] = b"$version cmbsim 1 $end\n$timescale 1 ns $end\n$scope module top $end\n";

const FOOT: &[u8] = b"$upscope $end\n$enddefinitions $end\n";

/// The lines up to the end of the declarations.
pub fn push_header(out: &mut Vec<u8>, netlist: &Netlist) -> Result<(), AllocError>
    ensures { OnOk result (out.new.items ≡ out.old.items ++ header netlist.now.names) }
{
    out.extend_from_slice(HEAD)?;
    push_vars(out, netlist)?;
    out.extend_from_slice(FOOT)
}

/// The declarations of chosen nets, each with the code of its place in the list.
fn push_chosen_vars(out: &mut Vec<u8>, netlist: &Netlist, nets: &[u32]) -> Result<(), AllocError>
    requires nets { All (λ net. net < length netlist.now.names) nets.now }
    requires few { length nets.now ≤ MAX_NETS }
    ensures { OnOk result (out.new.items ≡ out.old.items ++ var_lines 0 (names_of netlist.now nets.now)) }
{
    for (place, net) in nets.iter().enumerate() {
        push_var(out, place as u32, netlist.name(*net as usize))?;
    }
    Ok(())
}

/// The same lines where some nets are chosen.
pub fn push_chosen_header(
    out: &mut Vec<u8>,
    netlist: &Netlist,
    nets: &[u32],
) -> Result<(), AllocError>
    requires nets { All (λ net. net < length netlist.now.names) nets.now }
    requires few { length nets.now ≤ MAX_NETS }
    ensures { OnOk result (out.new.items ≡ out.old.items ++ header (names_of netlist.now nets.now)) }
{
    out.extend_from_slice(HEAD)?;
    push_chosen_vars(out, netlist, nets)?;
    out.extend_from_slice(FOOT)
}
