//! The lines up to the end of the declarations.

ghost use Rattle.std.specs.Prelude.{◌≡◌, ◌+◌, ◌<◌, ◌≤◌, ◌++◌, length, map, filter, All, IfOk, OnOk};
ghost use Rattle.std.specs.List.{range_with_len};
ghost use Rattle.cmb_run_text.specs.Chosen.{names_of};
ghost use Rattle.cmb_run_text.specs.Vcd.{header};
ghost use Rattle.cmb_run_scopes.specs.Scopes.{declaration_line, declaration_lines, declarations, is_here, part_at};
ghost use Rattle.cmb_run_scopes.specs.Scopes.{parts, scoped_header};
ghost use Rattle.cmb_run_scopes.specs.Scopes.Declaration.{net, scope};

use crate::bits::push_declared_name;
use crate::grouping::{Scope, scopes_of};
use crate::parts::Path;
use crate::references::{push_code, push_reference};
use cmb_netlist::{MAX_NETS, Netlist};
use cmb_run_text::lines::push_chosen_header;
use std::alloc::{AllocError, Global};

// Scopes lie in one another to this depth at most, since a name has at most 255 bytes.
const DEPTH: usize = 256;

// What stands above the declarations of nets, and what below them.
const HEAD: &[u8] = b"$version cmbsim 1 $end\n$timescale 1 ns $end\n$scope module top $end\n";

const FOOT: &[u8] = b"$upscope $end\n$enddefinitions $end\n";

// The declaration of a net.
fn push_net(out: &mut Vec<u8>, place: u32, part: &[u8]) -> Result<(), AllocError>
    ensures { OnOk result (out.new.items ≡ out.old.items ++ declaration_line (net place part.now)) }
{
    out.extend_from_slice(b"$var wire 1 ")?;
    push_code(out, place)?;
    out.extend_from_slice(b" ")?;
    push_declared_name(out, part)?;
    out.extend_from_slice(b" $end\n")?;
    Ok(())
}

// The line that opens a scope.
fn push_scope(out: &mut Vec<u8>, part: &[u8]) -> Result<(), AllocError>
    ensures { OnOk result (out.new.items ≡ out.old.items ++ declaration_line (scope part.now)) }
{
    out.extend_from_slice(b"$scope module ")?;
    push_reference(out, part)?;
    out.extend_from_slice(b" $end\n")?;
    Ok(())
}

// The declarations of the nets that stand in no scope further inside.
fn push_nets(
    out: &mut Vec<u8>,
    paths: &[Path],
    level: usize,
    places: &[u32],
) -> Result<(), AllocError>
    requires places { All (λ place. place < length paths.now) places.now }
    requires level { level < 256 }
    ensures { OnOk result (out.new.items ≡ out.old.items ++ declaration_lines
        (map (λ place. net place (part_at paths.now level place)) (filter (is_here paths.now level) places.now))) }
{
    for place in places {
        let path = &paths[*place as usize];
        if path.len() == level + 1 {
            push_net(out, *place, path.part(level))?;
        }
    }
    Ok(())
}

// The declarations of a scope.
fn push_declarations(
    alloc: Global,
    out: &mut Vec<u8>,
    paths: &[Path],
    depth: usize,
    level: usize,
    places: &[u32],
) -> Result<(), AllocError>
    requires places { All (λ place. place < length paths.now) places.now }
    requires level { level + depth ≤ 256 }
    ensures { OnOk result (out.new.items
        ≡ out.old.items ++ declaration_lines (declarations depth paths.now level places.now)) }
{
    if depth == 0 {
        return Ok(());
    }
    push_nets(out, paths, level, places)?;
    let scopes = scopes_of(alloc, paths, level, places)?;
    for scope in &scopes {
        push_scope(out, scope.name())?;
        push_declarations(alloc, out, paths, depth - 1, level + 1, scope.places())?;
        out.extend_from_slice(b"$upscope $end\n")?;
    }
    Ok(())
}

// The parts of the names of nets.
fn paths_of(alloc: Global, netlist: &Netlist, nets: &[u32]) -> Result<Vec<Path>, AllocError>
    requires { All (λ net. net < length netlist.now.names) nets.now }
    ensures { IfOk result (λ paths. paths.items ≡ map parts (names_of netlist.now nets.now)) }
{
    let mut paths = Vec::with_capacity(alloc, nets.len())?;
    for net in nets {
        paths.push(Path::new(alloc, netlist.name(*net as usize))?)?;
    }
    Ok(paths)
}

// The numbers below this one.
fn places_below(alloc: Global, count: u32) -> Result<Vec<u32>, AllocError>
    ensures { IfOk result (λ places. places.items ≡ range_with_len 0 count) }
{
    let mut places = Vec::with_capacity(alloc, count as usize)?;
    for place in 0..count {
        places.push(place)?;
    }
    Ok(places)
}

// The lines with scopes.
fn scoped_header(alloc: Global, netlist: &Netlist, nets: &[u32]) -> Result<Vec<u8>, AllocError>
    requires nets { All (λ net. net < length netlist.now.names) nets.now }
    requires few { length nets.now ≤ MAX_NETS }
    ensures { IfOk result (λ lines. lines.items ≡ scoped_header (names_of netlist.now nets.now)) }
{
    let paths = paths_of(alloc, netlist, nets)?;
    let places = places_below(alloc, nets.len() as u32)?;
    let mut out = Vec::new(alloc);
    out.extend_from_slice(HEAD)?;
    push_declarations(alloc, &mut out, &paths, DEPTH, 0, &places)?;
    out.extend_from_slice(FOOT)?;
    Ok(out)
}

/// The lines with scopes, and how long those are in whose place they stand.
#[derive(Drop)]
pub struct Headers {
    pub scoped: Vec<u8>,
    pub plain: usize,
}

/// The lines up to the end of the declarations of nets, each with the code of its place in the list, in time that grows
/// with the length of their names. Errors: memory was refused.
pub fn headers_of(alloc: Global, netlist: &Netlist, nets: &[u32]) -> Result<Headers, AllocError>
    requires nets { All (λ net. net < length netlist.now.names) nets.now }
    requires few { length nets.now ≤ MAX_NETS }
    ensures scoped { IfOk result (λ headers. headers.scoped.items ≡ scoped_header (names_of netlist.now nets.now)) }
    ensures plain { IfOk result (λ headers. headers.plain ≡ length (header (names_of netlist.now nets.now))) }
{
    let scoped = scoped_header(alloc, netlist, nets)?;
    let mut plain = Vec::new(alloc);
    push_chosen_header(&mut plain, netlist, nets)?;
    let plain = plain.len();
    Ok(Headers { scoped, plain })
}
