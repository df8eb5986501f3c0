//! A search along a path: nets are put at its end as they are found, and taken off it by whole parts, as they are done.

ghost use Rattle.std.specs.Prelude.{◌≡◌, ◌++◌, ◌∷◌, [], ◌+◌, ◌-◌, ◌<◌, ◌≤◌, ◌≢◌, length, slice_index, count_by};
ghost use Rattle.std.specs.Prelude.{OnOk};
ghost use Rattle.cmb_graph.specs.Loops.{AreLoops, AreStrongComponents};
ghost use Rattle.cmb_graph.specs.Inner.Search.{IsEntered, IsScanned, IsStill, IsUnderWay, is_new, seen_of};
ghost use Rattle.cmb_graph.specs.declared.search.Seen.TheVariants.{New};

use crate::part::{ends_at, mark_loops, merge, set_all};
use crate::search::{Frame, Search, Seen};
use crate::steps::{Steps, targets_from};
use cmb_netlist::Netlist;
use std::alloc::AllocError;

/// Puts a new net at the end of the path.
fn enter(search: &mut Search, net: u32) -> Result<(), AllocError>
    requires { net < length search.old.seen.items }
    ensures { OnOk result (IsEntered search.old net search.new) }
{
    let place = search.path.len();
    search.seen[net as usize] = Seen::On(place);
    search.path.push(net)?;
    search.starts.push(place)?;
    search.frames.push(Frame { place, next: 0 })?;
    Ok(())
}

/// Follows steps from a net of the path, up to one that leads to a new net: its number.
fn scan(search: &mut Search, netlist: &Netlist, steps: Steps, frame: Frame) -> Option<usize>
    requires { IsUnderWay netlist.now steps search.old (search.old.frames.items ++ frame ∷ []) }
    ensures scanned { IsScanned netlist.now steps search.new search.old.frames.items frame.place result }
    ensures seen { search.new.seen.items ≡ search.old.seen.items }
    ensures path { search.new.path.items ≡ search.old.path.items }
    ensures frames { search.new.frames.items ≡ search.old.frames.items }
{
    let targets = targets_from(netlist, steps, search.path[frame.place] as usize);
    for next in frame.next..targets.len() {
        match search.seen[targets[next] as usize] {
            Seen::New => return Some(next),
            Seen::On(place) => merge(&mut search.starts, place),
            Seen::Done => {}
        }
    }
    None
}

/// Takes the last part off the path, its nets done.
fn finish(search: &mut Search, netlist: &Netlist, steps: Steps, place: usize)
    requires scanned { IsScanned netlist.now steps search.old search.old.frames.items place None }
    requires some { 0 < length search.old.starts.items }
    requires last { slice_index search.old.starts.items (length search.old.starts.items - 1) ≡ place }
    ensures under { IsUnderWay netlist.now steps search.new search.old.frames.items }
    ensures frames { search.new.frames.items ≡ search.old.frames.items }
    ensures fresh { count_by is_new search.new.seen.items ≤ count_by is_new search.old.seen.items }
    ensures still { IsStill search.old.seen.items search.new.seen.items }
{
    let _ = search.starts.pop();
    let part = &search.path.as_slice()[place..];
    mark_loops(search.marks.as_mut_slice(), netlist, steps, part);
    set_all(search.numbers.as_mut_slice(), part, search.done);
    set_all(search.seen.as_mut_slice(), part, Seen::Done);
    search.done += part.len();
    search.path.truncate(place);
}

/// Leaves a net from which all steps were followed, and its part with it, if that begins there.
fn leave(search: &mut Search, netlist: &Netlist, steps: Steps, place: usize)
    requires { IsScanned netlist.now steps search.old search.old.frames.items place None }
    ensures under { IsUnderWay netlist.now steps search.new search.old.frames.items }
    ensures frames { search.new.frames.items ≡ search.old.frames.items }
    ensures fresh { count_by is_new search.new.seen.items ≤ count_by is_new search.old.seen.items }
    ensures still { IsStill search.old.seen.items search.new.seen.items }
{
    if ends_at(search.starts.as_slice(), place) {
        finish(search, netlist, steps, place);
    }
}

/// Goes on from a net of the path to the new net to which a step leads, and keeps the steps after it for later.
fn descend(
    search: &mut Search,
    netlist: &Netlist,
    steps: Steps,
    place: usize,
    next: usize,
) -> Result<(), AllocError>
    requires { IsScanned netlist.now steps search.old search.old.frames.items place (Some next) }
    ensures under { OnOk result (IsUnderWay netlist.now steps search.new search.new.frames.items) }
    ensures frames { OnOk result (length search.new.frames.items ≡ length search.old.frames.items + 2) }
    ensures fresh { OnOk result (count_by is_new search.new.seen.items + 1 ≡ count_by is_new search.old.seen.items) }
    ensures still { OnOk result (IsStill search.old.seen.items search.new.seen.items) }
{
    let targets = targets_from(netlist, steps, search.path[place] as usize);
    let net = targets[next];
    search.frames.push(Frame { place, next })?;
    enter(search, net)
}

/// Follows all steps from the nets of the path, until it is empty.
fn follow(search: &mut Search, netlist: &Netlist, steps: Steps) -> Result<(), AllocError>
    requires { IsUnderWay netlist.now steps search.old search.old.frames.items }
    ensures under { OnOk result (IsUnderWay netlist.now steps search.new []) }
    ensures frames { OnOk result (search.new.frames.items ≡ []) }
    ensures still { OnOk result (IsStill search.old.seen.items search.new.seen.items) }
{
    while let Some(frame) = search.frames.pop() {
        match scan(search, netlist, steps, frame) {
            Some(next) => descend(search, netlist, steps, frame.place, next)?,
            None => leave(search, netlist, steps, frame.place),
        }
    }
    Ok(())
}

/// Searches from a net, unless it was found.
fn visit(search: &mut Search, netlist: &Netlist, steps: Steps, net: u32) -> Result<(), AllocError>
    requires net { net < length netlist.now.names }
    requires under { IsUnderWay netlist.now steps search.old [] }
    requires frames { search.old.frames.items ≡ [] }
    ensures under { OnOk result (IsUnderWay netlist.now steps search.new []) }
    ensures frames { OnOk result (search.new.frames.items ≡ []) }
    ensures still { OnOk result (IsStill search.old.seen.items search.new.seen.items) }
    ensures found { OnOk result (seen_of search.new.seen.items net ≢ New) }
{
    match search.seen[net as usize] {
        Seen::New => {
            enter(search, net)?;
            follow(search, netlist, steps)
        }
        Seen::On(_) | Seen::Done => Ok(()),
    }
}

/// Searches from each net.
pub(crate) fn search_all(
    search: &mut Search,
    netlist: &Netlist,
    steps: Steps,
) -> Result<(), AllocError>
    requires under { IsUnderWay netlist.now steps search.old [] }
    requires frames { search.old.frames.items ≡ [] }
    ensures loops { OnOk result (AreLoops netlist.now steps search.new.marks.items) }
    ensures parts { OnOk result (AreStrongComponents netlist.now steps search.new.numbers.items) }
{
    for net in 0..netlist.len() {
        visit(search, netlist, steps, net as u32)?;
    }
    Ok(())
}
