//! When changes arrive at nets, at the latest.

ghost use Rattle.std.specs.Prelude.{◌≡◌, ◌⊎◌, ◌+◌, ◌*◌, ℕ, ◌<◌, ◌≤◌, true, false, length, slice_index, slice_index_or};
ghost use Rattle.std.specs.Prelude.{All, IfOk};
ghost use Rattle.cmb_netlist.specs.Netlist.{IsNetlist};
ghost use Rattle.cmb_graph.specs.Loops.{AreStrongComponents};
ghost use Rattle.cmb_graph.specs.declared.steps.Steps.TheVariants.{Gates};
ghost use Rattle.cmb_count.specs.Inner.Arrivals.{AreComponents, AreSettled, Covers, IsArrivalAt, IsWithin};
ghost use Rattle.cmb_count.specs.Inner.Arrivals.{endless as endless_of, closed as closed_by, launched as launched_at};
ghost use Rattle.cmb_count.specs.Inner.Arrivals.{later_by, time_of};
ghost use Rattle.cmb_count.specs.Inner.LongestPaths.{AreLatest};
ghost use Rattle.cmb_count.specs.declared.arrivals.Arrival.TheVariants.{Never};

use crate::components::{Components, components_of};
use crate::paths::{Between, is_origin};
use cmb_design_model::Design;
use cmb_graph::{Steps, targets_from};
use cmb_netlist::Driver;
use std::alloc::{AllocError, Global};

/// After how many ticks a change arrives, at the latest.
#[derive(Clone, Copy)]
pub(crate) enum Arrival {
    /// None does.
    Never,
    /// After so many.
    At(u64),
    /// There is no end of them.
    Unbounded,
}

fn is_before(one: Arrival, other: Arrival) -> bool
    ensures yes { result ≡ true → (ticks : ℕ) → Covers one ticks → Covers other ticks }
    ensures no { result ≡ false → (ticks : ℕ) → Covers other ticks → Covers one ticks }
{
    match (one, other) {
        (Arrival::At(early), Arrival::At(late)) => early < late,
        (Arrival::Never, _) | (Arrival::At(_), Arrival::Unbounded) => true,
        _ => false,
    }
}

// The later one of two.
fn latest(one: Arrival, other: Arrival) -> Arrival
    ensures one { (ticks : ℕ) → Covers one ticks → Covers result ticks }
    ensures other { (ticks : ℕ) → Covers other ticks → Covers result ticks }
    ensures either { (result ≡ one) ⊎ (result ≡ other) }
{
    if is_before(one, other) { other } else { one }
}

fn endless(arrival: Arrival) -> Arrival
    ensures { result ≡ endless_of arrival }
{
    match arrival {
        Arrival::Never => Arrival::Never,
        Arrival::At(_) | Arrival::Unbounded => Arrival::Unbounded,
    }
}

fn put_off(arrival: Arrival, ticks: u32) -> Arrival
    requires { IsWithin 65535000000 arrival }
    ensures { result ≡ later_by arrival ticks }
{
    match arrival {
        Arrival::At(most) => Arrival::At(most + u64::from(ticks)),
        Arrival::Never | Arrival::Unbounded => arrival,
    }
}

// A change that begins at a net.
fn launched(design: &Design, between: Between, net: usize) -> Arrival
    requires { net < length design.now.netlist.names }
    ensures value { result ≡ launched_at between design.now net }
    ensures small { IsWithin 1000000 result }
{
    if !is_origin(between, design, net) {
        return Arrival::Never;
    }
    match design.netlist().driver(net) {
        Driver::Flop(_) => Arrival::At(u64::from(design.delay(net, 1))),
        Driver::Input | Driver::Gate(..) => Arrival::At(0),
    }
}

// What comes by the first operands of a net, or begins there.
fn arrival_at(
    design: &Design,
    between: Between,
    components: &Components,
    times: &[Arrival],
    net: usize,
) -> Arrival
    requires net { net < length design.now.netlist.names }
    requires sound { IsNetlist design.now.netlist }
    requires parts { AreStrongComponents design.now.netlist Gates components.now.numbers.items }
    requires long { length times.now ≡ length design.now.netlist.names }
    requires small { (number : ℕ) → IsWithin ((number + 1) * 1000000) (slice_index_or times.now number Never) }
    ensures { IsArrivalAt design.now between components.now.numbers.items times.now net result }
{
    let mut arrival = launched(design, between, net);
    let operands = targets_from(design.netlist(), Steps::Gates, net);
    for k in 0..operands.len() {
        let before = times[components.numbers[operands[k] as usize]];
        arrival = latest(arrival, put_off(before, design.delay(net, k + 1)));
    }
    arrival
}

// What comes to a net that is in a loop, or isn't.
fn closed(is_in_loop: bool, arrival: Arrival) -> Arrival
    ensures { result ≡ closed_by is_in_loop arrival }
{
    if is_in_loop {
        endless(arrival)
    } else {
        arrival
    }
}

// Settles the net at a place of the order, after those before it.
fn settle(
    times: &mut [Arrival],
    design: &Design,
    between: Between,
    components: &Components,
    place: usize,
)
    requires sound { IsNetlist design.now.netlist }
    requires components { AreComponents design.now.netlist components.now }
    requires within { place < length components.now.order.items }
    requires settled { AreSettled design.now between components.now times.old place }
    ensures { AreSettled design.now between components.now times.new (place + 1) }
{
    let net = components.order[place].net;
    let arrival = arrival_at(design, between, components, times, net);
    let number = components.numbers[net];
    times[number] = latest(times[number], closed(components.loops[net], arrival));
}

/// The latest arrivals at all nets.
#[derive(Drop)]
pub(crate) struct Arrivals {
    components: Components,
    /// For each number of a component the arrival at its nets.
    times: Vec<Arrival>,
}

impl Arrivals {
    /// The latest arrival at a net.
    pub(crate) fn at(&self, net: usize) -> Arrival
        requires net { net < length self.now.components.numbers.items }
        requires below { All (λ number. number < length self.now.times.items) self.now.components.numbers.items }
        ensures { result ≡ time_of self.now.components.numbers.items self.now.times.items net }
    {
        self.times[self.components.numbers[net]]
    }
}

/// The latest arrivals at all nets, in time that is linear in the nets and pins but for a sort of the nets.
pub(crate) fn arrivals_of(
    alloc: Global,
    design: &Design,
    between: Between,
) -> Result<Arrivals, AllocError>
    ensures { IfOk result (AreLatest design.now between) }
{
    let netlist = design.netlist();
    let components = components_of(alloc, netlist)?;
    let mut times = vec![in alloc; Arrival::Never; netlist.len()]?;
    let all = times.as_mut_slice();
    for place in 0..components.order.len() {
        settle(all, design, between, &components, place);
    }
    Ok(Arrivals { components, times })
}
