//! The law of parts: that one has the levels of the whole.

ghost use Rattle.std.specs.Prelude.{◌≡◌, ℕ, ◌<◌, List, length, slice_index};
ghost use Rattle.cmb_netlist.specs.Netlist.{IsNetlist};
ghost use Rattle.cmb_design_model.specs.Design.{Design};
ghost use Rattle.cmb_design_model.specs.Value.{value};
ghost use Rattle.cmb_cone.specs.Restriction.{IsRestriction};

/// Each net of a restriction has, at each tick, the level that it has in the whole design.
pub fn restrictions_keep_values()
    ensures { (design part : Design) (nets : List ℕ) → IsRestriction design nets part → IsNetlist part.netlist
        → (i tick : ℕ) → i < length nets → value part i tick ≡ value design (slice_index nets i) tick }
{}
