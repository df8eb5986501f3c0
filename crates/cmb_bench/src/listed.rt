//! The reader of a list of names.

ghost use Rattle.std.specs.Prelude.{◌≡◌, ◌<◌, ◌≤◌, ℕ, List, [], Some, false, length, All, IfErr, IfOk, IfSome, OnOk};
ghost use Rattle.std.specs.Prelude.{is_none};
ghost use Rattle.cmb_bench.specs.Inner.Said.{AreSaid};
ghost use Rattle.cmb_bench.specs.Inner.Scan.{lexeme};
ghost use Rattle.cmb_bench.specs.Inner.Word.{is_end, name_in};
ghost use Rattle.cmb_bench.specs.Listed.{IsRefused, Lists, is_bus, is_meant, is_unknown, meant_nets};
ghost use Rattle.cmb_bench.specs.Statement.{is_member};

use crate::buses::{bus_of, buses_of};
use crate::parser::insert_name;
use crate::text::{Class, Cursor, Token};
use cmb_netlist::{MAX_TEXT, Name, Netlist, Spelled};
use indexmap::IndexSet;
use std::alloc::Global;
use thiserror::Error;

/// Why a list names no nets.
#[derive(Clone, Copy, Debug, PartialEq, Eq, Error)]
pub enum ListFault {
    /// 38: what stands on this line, counted from 1, is the name of no net and of no bus.
    #[error("line {line}: no net has this name")]
    Unknown { line: u32 },
    /// 70: memory ran out.
    #[error("out of memory")]
    Memory,
}

// The name that a token is, if a net has it, or a bus, and these are all buses.
fn known_name<'a>(netlist: &Netlist, buses: &IndexSet<Name>, token: Token<'a>) -> Option<&'a [u8]>
    requires { (name : List ℕ) → is_member name buses.now.keys ≡ is_bus netlist.now name }
    ensures name { IfSome result (λ name. name_in (lexeme token.entry).word ≡ Some name.now) }
    ensures unknown { is_end (lexeme token.entry).word ≡ false
        → is_unknown netlist.now (lexeme token.entry).word ≡ is_none result }
{
    let name = token.name()?;
    if netlist.number(name).is_some() || buses.contains(Spelled { bytes: name }) {
        Some(name)
    } else {
        None
    }
}

// Takes the names that a list has, each once, where these are all buses.
fn read_names(
    netlist: &Netlist,
    buses: &IndexSet<Name>,
    text: &[u8],
    said: &mut IndexSet<Name>,
) -> Result<(), ListFault>
    requires short { length text.now ≤ MAX_TEXT }
    requires buses { (name : List ℕ) → is_member name buses.now.keys ≡ is_bus netlist.now name }
    requires none { said.old.keys ≡ [] }
    ensures said { OnOk result (AreSaid netlist.now text.now said.new.keys) }
    ensures fault { IfErr result (IsRefused netlist.now text.now) }
{
    let mut cursor = Cursor::new(text);
    loop {
        let token = cursor.next();
        if token.is(Class::End) {
            return Ok(());
        }
        let Some(name) = known_name(netlist, buses, token) else {
            return Err(ListFault::Unknown { line: token.line });
        };
        let Ok(_) = insert_name(said, name) else {
            return Err(ListFault::Memory);
        };
    }
}

fn is_meant(netlist: &Netlist, said: &IndexSet<Name>, net: usize) -> bool
    requires { net < length netlist.now.names }
    ensures { result ≡ is_meant netlist.now (λ name. is_member name said.now.keys) net }
{
    let name = netlist.name(net);
    if said.contains(Spelled { bytes: name }) {
        return true;
    }
    match bus_of(name) {
        Some(bus) => netlist.number(bus).is_none() && said.contains(Spelled { bytes: bus }),
        None => false,
    }
}

// The nets that are meant where these names are said.
fn meant_nets(
    alloc: Global,
    netlist: &Netlist,
    said: &IndexSet<Name>,
) -> Result<Vec<u32>, ListFault>
    ensures meant { IfOk result (λ nets. nets.items ≡ meant_nets netlist.now (λ name. is_member name said.now.keys)) }
    ensures fault { IfErr result (λ fault. fault ≡ ListFault.Memory) }
{
    let mut nets = Vec::new(alloc);
    for net in 0..netlist.len() {
        if is_meant(netlist, said, net) {
            let Ok(()) = nets.push(net as u32) else {
                return Err(ListFault::Memory);
            };
        }
    }
    Ok(nets)
}

/// The numbers of the nets that a list means, each once and by rising number. A list is a text of at most 16,777,216
/// bytes with names, each followed by a blank, the end of its line or a comment, as in a netlist. A name stands for the
/// net that has it; one that no net has stands for all bits of the bus that has it, as `led` for `led[0]` and `led[1]`.
/// Errors: 38 `Unknown` at the first token that is neither, with its line, and 70 `Memory`.
pub fn read_list(alloc: Global, netlist: &Netlist, text: &[u8]) -> Result<Vec<u32>, ListFault>
    requires { length text.now ≤ MAX_TEXT }
    ensures listed { IfOk result (λ numbers. Lists netlist.now text.now numbers.items) }
    ensures nets { IfOk result (λ numbers. All (λ net. net < length netlist.now.names) numbers.items) }
    ensures fault { IfErr result (IsRefused netlist.now text.now) }
{
    let Ok(buses) = buses_of(alloc, netlist) else {
        return Err(ListFault::Memory);
    };
    let mut said = IndexSet::new(alloc);
    let nets = match read_names(netlist, &buses, text, &mut said) {
        Ok(()) => meant_nets(alloc, netlist, &said),
        Err(fault) => Err(fault),
    };
    drop((buses, said));
    nets
}
