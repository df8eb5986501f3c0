//! What every netlist keeps, as theorems.

ghost use Rattle.std.specs.Prelude.{◌≡◌, ◌<◌, ℕ, List, length, Some};
ghost use Rattle.cmb_netlist.specs.Netlist.{Netlist, IsNetlist, name_of, number_of};

/// In a netlist the number of a net's name is the net, and a name that has a number is that net's.
pub fn numbers_and_names()
    ensures number { (netlist : Netlist) (net : ℕ) → IsNetlist netlist → net < length netlist.names
        → number_of netlist (name_of netlist net) ≡ Some net }
    ensures name { (netlist : Netlist) (name : List ℕ) (net : ℕ) → number_of netlist name ≡ Some net
        → (net < length netlist.names) × (name_of netlist net ≡ name) }
{}
