//! The longest paths of signals.

ghost use Rattle.std.specs.Prelude.{◌≡◌, ◌⊎◌, ℕ, ◌<◌, true, false, length, Contains, MatchOption, IfOk};
ghost use Rattle.cmb_netlist.specs.Netlist.{IsNetlist, driver_of};
ghost use Rattle.cmb_netlist.specs.declared.netlist.Driver.TheVariants.{Flop};
ghost use Rattle.cmb_count.specs.Paths.{IsEnd, IsLongest, is_origin};
ghost use Rattle.cmb_count.specs.Inner.LongestPaths.{AreLatest, Bounds, IsLongestSoFar, IsOutput};
ghost use Rattle.cmb_count.specs.Inner.LongestPaths.{is_sampled as is_sampled_by, longest_at as longest_to};

use crate::arrivals::{Arrival, Arrivals, arrivals_of};
use crate::clocks::is_same;
use crate::drivers::{DriverKind, has_kind};
use cmb_design_model::{Clock, Design};
use cmb_netlist::Driver;
use std::alloc::{AllocError, Global};

/// Between what paths lead.
#[derive(Clone, Copy)]
pub enum Between {
    /// From inputs and flip-flops to data of flip-flops and outputs.
    All,
    /// From flip-flops of a clock to data of flip-flops of that clock.
    Clocked(Clock),
    /// From inputs to data of flip-flops of a clock.
    InputsTo(Clock),
    /// From flip-flops of other clocks to data of flip-flops of a clock.
    OthersTo(Clock),
}

/// The longest of some paths.
#[derive(Clone, Copy, Debug, PartialEq, Eq)]
pub enum Longest {
    /// There is no path.
    NoPath,
    /// It ends at this net, and takes so many ticks.
    Path { net: usize, ticks: u64 },
    /// Gates form a loop, so some paths are longer than any number.
    Unbounded,
}

/// Whether paths begin at a net.
pub(crate) fn is_origin(between: Between, design: &Design, net: usize) -> bool
    requires { net < length design.now.netlist.names }
    ensures { result ≡ is_origin between design.now net }
{
    let driver = design.netlist().driver(net);
    match between {
        Between::All => {
            has_kind(&DriverKind::Inputs, driver) || has_kind(&DriverKind::Flops, driver)
        }
        Between::Clocked(clock) => {
            has_kind(&DriverKind::Flops, driver) && is_same(clock, design.clock(net))
        }
        Between::InputsTo(_) => has_kind(&DriverKind::Inputs, driver),
        Between::OthersTo(clock) => {
            has_kind(&DriverKind::Flops, driver) && !is_same(clock, design.clock(net))
        }
    }
}

fn is_sampled(between: Between, design: &Design, net: usize) -> bool
    requires { net < length design.now.netlist.names }
    ensures { result ≡ is_sampled_by between design.now net }
{
    match between {
        Between::All => true,
        Between::Clocked(clock) | Between::InputsTo(clock) | Between::OthersTo(clock) => {
            is_same(clock, design.clock(net))
        }
    }
}

// The net at whose end paths come to a flip-flop, if they do.
fn data_at(between: Between, design: &Design, net: usize) -> Option<usize>
    requires { net < length design.now.netlist.names }
    ensures { MatchOption result
        ((source : ℕ) → driver_of design.now.netlist net ≡ Flop source
        → is_sampled_by between design.now net ≡ true → ⊥)
        (λ source. (driver_of design.now.netlist net ≡ Flop source) × (is_sampled_by between design.now net ≡ true)) }
{
    match design.netlist().driver(net) {
        Driver::Flop(source) => {
            if is_sampled(between, design, net) {
                Some(*source as usize)
            } else {
                None
            }
        }
        Driver::Input | Driver::Gate(..) => None,
    }
}

fn longest_at(net: usize, arrival: Arrival) -> Longest
    ensures { result ≡ longest_to net arrival }
{
    match arrival {
        Arrival::Never => Longest::NoPath,
        Arrival::At(ticks) => Longest::Path { net, ticks },
        Arrival::Unbounded => Longest::Unbounded,
    }
}

fn is_shorter(one: Longest, other: Longest) -> bool
    ensures yes { result ≡ true → (ticks : ℕ) → Bounds one ticks → Bounds other ticks }
    ensures no { result ≡ false → (ticks : ℕ) → Bounds other ticks → Bounds one ticks }
{
    match (one, other) {
        (Longest::Path { ticks: few, .. }, Longest::Path { ticks: many, .. }) => few < many,
        (Longest::NoPath, _) | (Longest::Path { .. }, Longest::Unbounded) => true,
        _ => false,
    }
}

// The longer one of two.
fn longer(one: Longest, other: Longest) -> Longest
    ensures one { (ticks : ℕ) → Bounds one ticks → Bounds result ticks }
    ensures other { (ticks : ℕ) → Bounds other ticks → Bounds result ticks }
    ensures either { (result ≡ one) ⊎ (result ≡ other) }
{
    if is_shorter(one, other) { other } else { one }
}

// The longest path to outputs.
fn longest_to_outputs(design: &Design, arrivals: &Arrivals) -> Longest
    requires sound { IsNetlist design.now.netlist }
    requires arrivals { AreLatest design.now Between.All arrivals.now }
    ensures { IsLongestSoFar design.now Between.All arrivals.now (Contains design.now.netlist.outputs) result }
{
    let mut longest = Longest::NoPath;
    for output in design.netlist().outputs() {
        let net = *output as usize;
        longest = longer(longest, longest_at(net, arrivals.at(net)));
    }
    longest
}

// The longest of a path, and of those to data of flip-flops.
fn longest_to_data(
    design: &Design,
    between: Between,
    arrivals: &Arrivals,
    least: Longest,
) -> Longest
    requires sound { IsNetlist design.now.netlist }
    requires arrivals { AreLatest design.now between arrivals.now }
    requires least { IsLongestSoFar design.now between arrivals.now (IsOutput between design.now) least }
    ensures { IsLongestSoFar design.now between arrivals.now (IsEnd between design.now) result }
{
    let mut longest = least;
    for flop in 0..design.netlist().len() {
        if let Some(net) = data_at(between, design, flop) {
            longest = longer(longest, longest_at(net, arrivals.at(net)));
        }
    }
    longest
}

/// The longest of the paths between inputs, flip-flops and outputs, or of those to the flip-flops of a clock, as static
/// timing analysis has it: by how many ticks a change of an input, or a sample, comes to data of a flip-flop or to an
/// output at the latest. A flip-flop's delay counts at the beginning of a path. Work is linear in the nets and pins,
/// but for a sort of the nets.
pub fn longest_path(alloc: Global, design: &Design, between: Between) -> Result<Longest, AllocError>
    ensures { IfOk result (IsLongest design.now between) }
{
    let _nets = design.netlist().len();
    let arrivals = arrivals_of(alloc, design, between)?;
    let least = match between {
        Between::All => longest_to_outputs(design, &arrivals),
        Between::Clocked(_) | Between::InputsTo(_) | Between::OthersTo(_) => Longest::NoPath,
    };
    Ok(longest_to_data(design, between, &arrivals, least))
}
