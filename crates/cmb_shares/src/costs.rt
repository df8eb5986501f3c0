//! What a design's run costs, by its first windows.

ghost use Rattle.std.specs.Prelude.{◌≡◌, length, IfOk};
ghost use Rattle.cmb_design_model.specs.Exact.{nets_of};

use cmb_design_model::Design;
use cmb_engine::Engine;
use cmb_netlist::Driver;
use cmb_words::Changed;
use std::alloc::{AllocError, Global};

// What it costs to look at a net in a window, and what it costs besides that it changed there: estimates.
const VISIT: u32 = 10;

const CHANGE: u32 = 8;

// What a flip-flop costs besides in every window: whether it changes is looked at when samples arrive, and before, when
// it is told ahead. An estimate.
const LOOK: u32 = 3;

// A net that is looked at in every window costs so many times as much, so that little differences are told too.
const SCALE: u32 = 64;

/// In which windows nets changed. There are 64 windows, each with a bit: one of them stands for the first window, the
/// 65th and so on.
#[derive(Drop)]
struct Profile {
    /// For each net the windows in which it changed.
    changes: Vec<u64>,
    /// All windows that there were.
    windows: u64,
}

// Notes what changed in the window with this bit.
fn note(changes: &mut [u64], changed: &[Changed], window: u64)
    ensures { length changes.new ≡ length changes.old }
{
    for one in changed {
        let net = one.net as usize;
        if net < changes.len() {
            changes[net] |= window;
        }
    }
}

// The profile of a design's run up to a tick.
fn profile_of(alloc: Global, design: &Design, upto: u32) -> Result<Profile, AllocError>
    ensures { IfOk result (λ profile. length profile.changes.items ≡ nets_of design.now) }
{
    let mut changes = vec![in alloc; 0u64; design.netlist().len()]?;
    let mut windows = 0_u64;
    let mut window = 1_u64;
    let mut engine = Engine::open(alloc, design)?;
    let mut changed = Vec::new(alloc);
    while engine.clock() < upto.min(design.horizon()) {
        let end = engine.next_end();
        engine = engine.advance(end, &mut changed)?;
        note(&mut changes, &changed, window);
        windows |= window;
        window = window.rotate_left(1);
    }
    Ok(Profile { changes, windows })
}

impl Profile {
    // The windows in which one of these nets changed.
    fn any_change(&self, nets: &[u32]) -> u64 {
        let mut any = 0_u64;
        for net in nets {
            if let Some(changes) = self.changes.get(*net as usize) {
                any |= *changes;
            }
        }
        any
    }

    // What a net costs that is looked at in so many windows, changes in so many, and costs so much besides in each.
    fn cost(&self, visits: u32, changes: u32, every: u32) -> u32 {
        let windows = self.windows.count_ones().max(1);
        let all = visits
            .saturating_mul(VISIT)
            .saturating_add(changes.saturating_mul(CHANGE))
            .saturating_mul(SCALE);
        let besides = every.saturating_mul(SCALE).saturating_add(1);
        (all / windows).saturating_add(besides)
    }

    // What a net with this driver costs, which changes in these windows. A gate is looked at in those in which a net
    // changes that it reads. Each share has its own inputs, wherever they stand.
    fn cost_of(&self, driver: &Driver, changes: u64) -> u32 {
        let changes = changes.count_ones();
        match driver {
            Driver::Input => 0,
            Driver::Gate(..) => {
                let visits = self.any_change(driver.pins()).count_ones();
                self.cost(visits, changes, 0)
            }
            Driver::Flop(_) => self.cost(changes, changes, LOOK),
        }
    }
}

/// What is to be done for each net, by an estimate in any unit, from the windows up to a tick: a gate is looked at in
/// those in which a net changes that it reads. No text depends on it. Errors: memory was refused.
pub fn costs_of(alloc: Global, design: &Design, upto: u32) -> Result<Vec<u32>, AllocError>
    ensures { IfOk result (λ costs. length costs.items ≡ nets_of design.now) }
{
    let profile = profile_of(alloc, design, upto)?;
    let netlist = design.netlist();
    let mut costs = Vec::with_capacity(alloc, netlist.len())?;
    for net in 0..netlist.len() {
        costs.push(profile.cost_of(netlist.driver(net), profile.changes[net]))?;
    }
    Ok(costs)
}
