//! Buses: nets whose names are one name with an index behind it.

ghost use Rattle.std.specs.Prelude.{◌≡◌, ◌&&◌, ◌+◌, ◌<◌, ℕ, List, MatchOption, None, Some, IfOk, drop, length, nat_eq};
ghost use Rattle.std.specs.Prelude.{slice_index_or};
ghost use Rattle.std.specs.List.{list_all};
ghost use Rattle.cmb_bench.specs.Buses.{bus_of, is_digit, is_index};
ghost use Rattle.cmb_bench.specs.Listed.{is_bus};
ghost use Rattle.cmb_bench.specs.Statement.{is_member};

use crate::fault::ReadError;
use crate::parser::insert_name;
use cmb_netlist::{Name, Netlist};
use indexmap::IndexSet;
use std::alloc::Global;

fn is_digit(byte: u8) -> bool
    ensures { result ≡ is_digit byte }
{
    byte >= b'0' && byte <= b'9'
}

fn are_digits(bytes: &[u8]) -> bool
    ensures { result ≡ list_all is_digit bytes.now }
{
    bytes.iter().all(|byte| is_digit(*byte))
}

// Whether this is what stands behind the opening bracket of an index.
fn is_index(bytes: &[u8]) -> bool
    ensures { result ≡ is_index bytes.now }
{
    let len = bytes.len();
    len >= 2 && bytes[len - 1] == b']' && are_digits(&bytes[..len - 1])
}

// Whether an index begins at this place, and ends the name.
fn has_index_at(name: &[u8], place: usize) -> bool
    requires { place < length name.now }
    ensures { result ≡ (nat_eq (slice_index_or name.now place 0) 91 && is_index (drop (place + 1) name.now)) }
{
    name[place] == b'[' && is_index(&name[place + 1..])
}

/// The bus of which a net with this name is a bit.
pub(crate) fn bus_of(name: &[u8]) -> Option<&[u8]>
    ensures { MatchOption result (bus_of name.now ≡ None) (λ bus. bus_of name.now ≡ Some bus.now) }
{
    for place in 0..name.len() {
        if has_index_at(name, place) {
            return Some(&name[..place]);
        }
    }
    None
}

/// The names of all buses of which a net is a bit.
pub(crate) fn buses_of(alloc: Global, netlist: &Netlist) -> Result<IndexSet<Name>, ReadError>
    ensures { IfOk result (λ buses. (name : List ℕ) → is_member name buses.keys ≡ is_bus netlist.now name) }
{
    let mut buses = IndexSet::new(alloc);
    for net in 0..netlist.len() {
        if let Some(bus) = bus_of(netlist.name(net)) {
            insert_name(&mut buses, bus)?;
        }
    }
    Ok(buses)
}
