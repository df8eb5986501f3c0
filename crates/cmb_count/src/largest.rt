//! The largest delay.

ghost use Rattle.std.specs.Prelude.{◌⊎◌, ℕ, ◌<◌, ◌≤◌, length};
ghost use Rattle.cmb_design_model.specs.Nets.{pins_at};
ghost use Rattle.cmb_design_model.specs.Timing.{delay};
ghost use Rattle.cmb_count.specs.Largest.{BoundsBelow, IsDelayOfPin, IsLargestDelay};

use cmb_design_model::Design;

// The greatest of a number and the delays of a net's pins.
fn largest_of(design: &Design, net: usize, least: u32) -> u32
    requires { net < length design.now.netlist.names }
    ensures least { least ≤ result }
    ensures bounds { (pin : ℕ) → 1 ≤ pin → pin ≤ pins_at design.now.netlist net → delay design.now net pin ≤ result }
    ensures met { IsDelayOfPin design.now least → IsDelayOfPin design.now result }
{
    let mut most = least;
    for place in 0..design.netlist().driver(net).pins().len() {
        most = most.max(design.delay(net, place + 1));
    }
    most
}

/// The largest delay of all pins, in ticks; 0 where there are none.
pub fn largest_delay(design: &Design) -> u32
    ensures { IsLargestDelay design.now result }
{
    let mut most = 0;
    for net in 0..design.netlist().len() {
        most = largest_of(design, net, most);
    }
    most
}
