//! Worked examples: the text computed on small designs.

ghost use Rattle.std.specs.Prelude.{◌≡◌, codes, length};
ghost use Rattle.cmb_design_model.specs.Examples.{inverter, latch, toggle};
ghost use Rattle.cmb_design_model.specs.Value.{value};
ghost use Rattle.cmb_run_text.specs.Examples.{inverter_text, latch_text, nothing, nothing_text, toggle_text};
ghost use Rattle.cmb_run_text.specs.Examples.{two_inputs};
ghost use Rattle.cmb_run_text.specs.Examples.{two_inputs_text};
ghost use Rattle.cmb_run_text.specs.Vcd.{code, part_text, vcd};

/// No nets, up to tick 1.
pub fn empty()
    ensures text { vcd nothing ≡ nothing_text }
    ensures size { length nothing_text ≡ 123 }
{}

/// An inverter of delay 1, up to tick 10.
pub fn inverter()
    ensures text { vcd inverter ≡ inverter_text }
    ensures size { length inverter_text ≡ 190 }
{}

/// A flip-flop that samples its own inverse, up to tick 12, and how much of its text is known below some ticks.
pub fn toggle()
    ensures text { vcd toggle ≡ toggle_text }
    ensures below_0 { length (part_text toggle.netlist.names toggle.horizon (value toggle) 0) ≡ 144 }
    ensures below_3 { length (part_text toggle.netlist.names toggle.horizon (value toggle) 3) ≡ 174 }
    ensures below_4 { length (part_text toggle.netlist.names toggle.horizon (value toggle) 4) ≡ 180 }
    ensures below_12 { length (part_text toggle.netlist.names toggle.horizon (value toggle) 12) ≡ 209 }
{}

/// Two gates that hold each other.
pub fn latch()
    ensures { vcd latch ≡ latch_text }
{}

/// A name that is no simple identifier, and one that is.
pub fn references()
    ensures { vcd two_inputs ≡ two_inputs_text }
{}

/// The codes of the first and of the last net, and those where a byte is added.
pub fn codes_of_nets()
    ensures net_0 { code 0 ≡ codes "!" }
    ensures net_1 { code 1 ≡ codes "\"" }
    ensures net_93 { code 93 ≡ codes "~" }
    ensures net_94 { code 94 ≡ codes "!!" }
    ensures net_95 { code 95 ≡ codes "\"!" }
    ensures net_188 { code 188 ≡ codes "!\"" }
    ensures net_65534 { code 65534 ≡ codes "1G'" }
{}
