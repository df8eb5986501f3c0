//! The least set of nets that has the wanted ones and, with each net, those that its value rule asks for.

ghost use Rattle.std.specs.Prelude.{◌≡◌, [], ℕ, ◌<◌, ◌≤◌, ◌^◌, false};
ghost use Rattle.std.specs.Prelude.{length, filter, slice_index_or, All, IfOk, OnOk};
ghost use Rattle.std.specs.List.{range_with_len};
ghost use Rattle.std.specs.List.Sorted.{IsStrictlyIncreasing};
ghost use Rattle.cmb_netlist.specs.Netlist.{IsNetlist};
ghost use Rattle.cmb_cone.specs.Chosen.{each_once};
ghost use Rattle.cmb_cone.specs.Closed.{IsClosure, asked_by};
ghost use Rattle.cmb_cone.specs.Inner.Found.{IsFound, Gains, Follows};

use cmb_netlist::{MAX_NETS, Netlist};
use std::alloc::{AllocError, Global};

/// Nets in the order in which they were found, and for each net of the netlist whether it was.
#[derive(Drop)]
pub(crate) struct Found {
    marks: Vec<bool>,
    list: Vec<u32>,
}

/// Nothing found among so many nets.
fn nothing(alloc: Global, count: usize) -> Result<Found, AllocError>
    ensures { IfOk result (λ found. IsFound found × (length found.marks.items ≡ count) × (found.list.items ≡ [])) }
{
    Ok(Found {
        marks: vec![in alloc; false; count]?,
        list: Vec::new(alloc),
    })
}

impl Found {
    ghost use Rattle.cmb_cone.specs.Inner.Found.{IsFound, Gains};

    /// Adds those nets of a list that aren't there.
    fn add_all(&mut self, nets: &[u32]) -> Result<(), AllocError>
        requires found { IsFound self.old }
        requires nets { All (λ net. net < length self.old.marks.items) nets.now }
        ensures found { OnOk result (IsFound self.new) }
        ensures marks { length self.new.marks.items ≡ length self.old.marks.items }
        ensures gains { OnOk result (Gains self.old.list.items nets.now self.new.list.items) }
    {
        for net in nets {
            if !self.marks[*net as usize] {
                self.list.push(*net)?;
                self.marks[*net as usize] = true;
            }
        }
        Ok(())
    }
}

/// Adds the nets that a net's value rule asks for.
fn add_asked(netlist: &Netlist, net: usize, found: &mut Found) -> Result<(), AllocError>
    requires found { IsFound found.old }
    requires sound { IsNetlist netlist.now }
    requires marks { length found.old.marks.items ≡ length netlist.now.names }
    requires net { net < length netlist.now.names }
    ensures found { OnOk result (IsFound found.new) }
    ensures marks { length found.new.marks.items ≡ length found.old.marks.items }
    ensures gains { OnOk result (Gains found.old.list.items (asked_by netlist.now net) found.new.list.items) }
{
    found.add_all(netlist.driver(net).pins())
}

/// Adds all nets that those found ask for, and that these ask for in turn.
fn follow(netlist: &Netlist, found: &mut Found) -> Result<(), AllocError>
    requires found { IsFound found.old }
    requires sound { IsNetlist netlist.now }
    requires marks { length found.old.marks.items ≡ length netlist.now.names }
    ensures found { OnOk result (IsFound found.new) }
    ensures marks { length found.new.marks.items ≡ length found.old.marks.items }
    ensures follows { OnOk result (Follows netlist.now found.old.list.items found.new.list.items) }
{
    let mut done: usize = 0;
    while done < found.list.len() {
        let net = found.list[done];
        add_asked(netlist, net as usize, found)?;
        done += 1;
    }
    Ok(())
}

/// The numbers of the marks that are set, rising.
fn marked(alloc: Global, marks: &[bool]) -> Result<Vec<u32>, AllocError>
    requires { length marks.now ≤ MAX_NETS }
    ensures { IfOk result (λ v. v.items
        ≡ filter (λ net. slice_index_or marks.now net false) (range_with_len 0 (length marks.now))) }
{
    let mut nets = Vec::new(alloc);
    for net in 0..marks.len() {
        if marks[net] {
            nets.push(net as u32)?;
        }
    }
    Ok(nets)
}

/// The least closed set of nets that has all wanted ones: these, the nets that their value rules ask for, what those
/// ask for, and so on; by rising number. Work and room are linear in the nets and pins.
pub fn closure(alloc: Global, netlist: &Netlist, wanted: &[u32]) -> Result<Vec<u32>, AllocError>
    requires { All (λ net. net < length netlist.now.names) wanted.now }
    ensures { IfOk result (λ nets. IsClosure netlist.now wanted.now nets.items) }
{
    let mut found = nothing(alloc, netlist.len())?;
    found.add_all(wanted)?;
    follow(netlist, &mut found)?;
    marked(alloc, found.marks.as_slice())
}

/// The nets of a list, each once, by rising number, of `count` nets in all.
pub fn rising(alloc: Global, count: usize, nets: &[u32]) -> Result<Vec<u32>, AllocError>
    requires nets { All (λ net. net < count) nets.now }
    requires few { count ≤ MAX_NETS }
    ensures once { IfOk result (λ chosen. chosen.items ≡ each_once count nets.now) }
    ensures rising { IfOk result (λ chosen. IsStrictlyIncreasing chosen.items) }
    ensures within { IfOk result (λ chosen. All (λ net. net < count) chosen.items) }
    ensures few { IfOk result (λ chosen. length chosen.items ≤ MAX_NETS) }
{
    let mut found = nothing(alloc, count)?;
    found.add_all(nets)?;
    marked(alloc, found.marks.as_slice())
}
