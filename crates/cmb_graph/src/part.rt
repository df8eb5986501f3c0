//! Parts of a path: where they begin, become one, and are done.

ghost use Rattle.std.specs.Prelude.{◌≡◌, ◌≢◌, ◌++◌, ◌-◌, ℕ, ◌<◌, ◌≤◌, List, true, false, length, slice_index};
ghost use Rattle.std.specs.Prelude.{All, AllPairs};
ghost use Rattle.cmb_graph.specs.Loops.{targets};
ghost use Rattle.cmb_graph.specs.Inner.Search.{AreSet, HasEdge, IsLooped};

use crate::steps::{Steps, targets_from};
use cmb_netlist::Netlist;

// Whether the last part begins behind a place.
fn ends_behind(starts: &[usize], place: usize) -> bool
    ensures yes { result ≡ true → (0 < length starts.now) }
    ensures behind { result ≡ true → place < slice_index starts.now (length starts.now - 1) }
    ensures no { result ≡ false → 0 < length starts.now → slice_index starts.now (length starts.now - 1) ≤ place }
{
    match starts.last() {
        Some(start) => place < *start,
        None => false,
    }
}

/// Whether the last part begins at a place.
pub(crate) fn ends_at(starts: &[usize], place: usize) -> bool
    ensures yes { result ≡ true → (0 < length starts.now) }
    ensures there { result ≡ true → slice_index starts.now (length starts.now - 1) ≡ place }
    ensures no { result ≡ false → 0 < length starts.now → slice_index starts.now (length starts.now - 1) ≢ place }
{
    match starts.last() {
        Some(start) => *start == place,
        None => false,
    }
}

/// Makes one part of those that begin behind a place and the one that has it.
pub(crate) fn merge(starts: &mut Vec<usize>, place: usize)
    ensures split { (gone : List ℕ) × (starts.old.items ≡ starts.new.items ++ gone)
        × All (λ start. place < start) gone }
    ensures low { AllPairs (λ one other. one < other) starts.old.items → All (λ start. start ≤ place) starts.new.items }
{
    while ends_behind(starts.as_slice(), place) {
        let _ = starts.pop();
    }
}

/// Sets each of these places to one value.
pub(crate) fn set_all<T: Copy>(values: &mut [T], places: &[u32], value: T)
    requires { All (λ place. place < length values.old) places.now }
    ensures { AreSet value values.old places.now values.new }
{
    for place in places {
        values[*place as usize] = value;
    }
}

// Whether a part has an edge inside.
fn has_edge(netlist: &Netlist, steps: Steps, part: &[u32]) -> bool
    requires some { 0 < length part.now }
    requires inside { All (λ net. net < length netlist.now.names) part.now }
    ensures yes { result ≡ true → HasEdge (targets netlist.now steps) part.now }
    ensures no { HasEdge (targets netlist.now steps) part.now → result ≡ true }
{
    if part.len() > 1 {
        return true;
    }
    let net = part[0];
    targets_from(netlist, steps, net as usize).contains(&net)
}

/// Marks the nets of a part, where it has an edge inside.
pub(crate) fn mark_loops(marks: &mut [bool], netlist: &Netlist, steps: Steps, part: &[u32])
    requires some { 0 < length part.now }
    requires inside { All (λ net. net < length netlist.now.names) part.now }
    requires long { length marks.old ≡ length netlist.now.names }
    ensures { IsLooped (targets netlist.now steps) marks.old part.now marks.new }
{
    if has_edge(netlist, steps, part) {
        set_all(marks, part, true);
    }
}
