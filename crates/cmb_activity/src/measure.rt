//! How active the nets of a run are.

ghost use Rattle.std.specs.Prelude.{◌≡◌, length, IfOk, OnOk};
ghost use Rattle.cmb_design_model.specs.Exact.{nets_of};
ghost use Rattle.cmb_design_model.specs.Value.{value};
ghost use Rattle.cmb_words.specs.Changes.{IsWindow, Tells};
ghost use Rattle.cmb_activity.specs.Activities.{AreActivities};
ghost use Rattle.cmb_activity.specs.Inner.Tallies.{AreTallies};

use crate::activity::Activity;
use crate::tally::Tally;
use cmb_design_model::Design;
use cmb_engine::{Engine, start_level};
use cmb_words::Changed;
use std::alloc::{AllocError, Global};

// What is counted of each net at tick 0.
fn first_tallies(alloc: Global, design: &Design) -> Result<Vec<Tally>, AllocError>
    ensures { IfOk result (λ tallies.
        AreTallies (value design.now) (nets_of design.now) 1 design.now.horizon tallies.items) }
{
    let horizon = design.horizon();
    let nets = design.netlist().len();
    let mut tallies = Vec::with_capacity(alloc, nets)?;
    for net in 0..nets {
        tallies.push(Tally::start(start_level(design, net), horizon))?;
    }
    Ok(tallies)
}

// Counts what changed in a window: work goes by the nets that did.
#[inline(never)]
fn count_window(design: &Design, tallies: &mut [Tally], changed: &[Changed], from: u32, upto: u32)
    requires window { IsWindow (nets_of design.now) design.now.horizon from upto changed.now }
    requires tells { Tells (value design.now) (nets_of design.now) from upto changed.now }
    requires before { AreTallies (value design.now) (nets_of design.now) from design.now.horizon tallies.old }
    ensures { AreTallies (value design.now) (nets_of design.now) upto design.now.horizon tallies.new }
{
    let horizon = design.horizon();
    for one in changed {
        let net = one.net as usize;
        tallies[net] = tallies[net].grown(one.word, from, upto, horizon);
    }
}

// Counts what changes in a run up to its horizon.
fn count_all(
    alloc: Global,
    design: &Design,
    engine: Engine<'_>,
    tallies: &mut [Tally],
) -> Result<(), AllocError>
    requires design { engine.design ≡ design.now }
    requires tallies { AreTallies (value design.now) (nets_of design.now) engine.clock design.now.horizon tallies.old }
    ensures { OnOk result (AreTallies (value design.now) (nets_of design.now)
        design.now.horizon design.now.horizon tallies.new) }
{
    let mut engine = engine;
    let mut changed = Vec::new(alloc);
    while engine.clock() < design.horizon() {
        let from = engine.clock();
        let upto = engine.next_end();
        engine = engine.advance(upto, &mut changed)?;
        count_window(design, tallies, &changed, from, upto);
    }
    drop(engine);
    Ok(())
}

// What was counted at the end of a run.
fn all_at(alloc: Global, design: &Design, tallies: &[Tally]) -> Result<Vec<Activity>, AllocError>
    requires { AreTallies (value design.now) (nets_of design.now) design.now.horizon design.now.horizon tallies.now }
    ensures { IfOk result (λ all. AreActivities design.now all.items) }
{
    let horizon = design.horizon();
    let mut all = Vec::with_capacity(alloc, tallies.len())?;
    for tally in tallies {
        all.push(tally.activity(horizon))?;
    }
    Ok(all)
}

/// How active each net of a design's run is, by the nets' numbers. What it needs of memory hardly grows with the
/// horizon. Errors: memory was refused.
pub fn activities(alloc: Global, design: &Design) -> Result<Vec<Activity>, AllocError>
    ensures { IfOk result (λ activities. AreActivities design.now activities.items) }
{
    let mut tallies = first_tallies(alloc, design)?;
    let engine = Engine::open(alloc, design)?;
    count_all(alloc, design, engine, &mut tallies)?;
    all_at(alloc, design, &tallies)
}
