//! The laws of delays, stimuli, sample ticks and levels.

ghost use Rattle.std.specs.Prelude.{◌≡◌, ℕ, ◌+◌, ◌<◌, ◌≤◌, List, Some, None};
ghost use Rattle.cmb_wave.specs.Waveform.{changes_between};
ghost use Rattle.cmb_wave.specs.declared.level.Level.{Level};
ghost use Rattle.cmb_wave.specs.declared.level.Level.TheVariants.{X};
ghost use Rattle.cmb_netlist.specs.declared.netlist.Driver.{Driver};
ghost use Rattle.cmb_netlist.specs.declared.netlist.Driver.TheVariants.{Input, Gate, Flop};
ghost use Rattle.cmb_netlist.specs.declared.netlist.Kind.{Kind};
ghost use Rattle.cmb_netlist.specs.Netlist.{driver_of};
ghost use Rattle.cmb_design_model.specs.declared.rows.Clock.{Clock};
ghost use Rattle.cmb_design_model.specs.Design.{Design};
ghost use Rattle.cmb_design_model.specs.Gate.{gate};
ghost use Rattle.cmb_design_model.specs.Timing.{delay};
ghost use Rattle.cmb_design_model.specs.Timing.{stimulus, row_level, IsSample, last_sample, next_sample};
ghost use Rattle.cmb_design_model.specs.Value.{value, changes, driven_level, pin_levels, flop_level};

/// The level of a net at a tick is what its driver gives.
pub fn levels_by_driver()
    ensures input { (design : Design) (net tick : ℕ) → driver_of design.netlist net ≡ Input
        → value design net tick ≡ stimulus design net tick }
    ensures gate { (design : Design) (net tick : ℕ) (kind : Kind) (operands : List ℕ)
        → driver_of design.netlist net ≡ Gate kind operands
        → value design net tick ≡ gate kind (pin_levels design (value design) net tick 1 operands) }
    ensures flop { (design : Design) (net tick source : ℕ) → driver_of design.netlist net ≡ Flop source
        → value design net tick ≡ flop_level design (value design source) net tick }
{}

/// What a driver gives at a tick depends on the levels at earlier ticks alone, so loops of nets do no harm.
pub fn drivers_look_back()
    ensures { (design : Design) (levels others : ℕ → ℕ → Level) (net tick : ℕ) (driver : Driver)
        → ((other t : ℕ) → t < tick → levels other t ≡ others other t)
        → driven_level design levels net tick driver ≡ driven_level design others net tick driver }
{}

/// No delay is less than one tick.
pub fn delays_are_positive()
    ensures { (design : Design) (net pin : ℕ) → 1 ≤ delay design net pin }
{}

/// The changes of an input's stimulus are the changes of the net.
pub fn stimuli_make_changes()
    ensures { (design : Design) (net from to : ℕ) → driver_of design.netlist net ≡ Input
        → changes_between (stimulus design net) from to ≡ changes design net from to }
{}

/// The last sample tick is the greatest at or before a tick, and the next one the least at or after it.
pub fn samples_are_nearest()
    ensures none { (clock : Clock) (tick : ℕ) → tick < clock.first → last_sample clock tick ≡ None }
    ensures last { (clock : Clock) (tick : ℕ) → 1 ≤ clock.period → clock.first ≤ tick
        → (sample : ℕ) × (last_sample clock tick ≡ Some sample) × IsSample clock sample × (sample ≤ tick)
        × ((other : ℕ) → IsSample clock other → other ≤ tick → other ≤ sample) }
    ensures next { (clock : Clock) (tick : ℕ) → IsSample clock (next_sample clock tick) }
    ensures at_least { (clock : Clock) (tick : ℕ) → 1 ≤ clock.period → tick ≤ next_sample clock tick }
    ensures least { (clock : Clock) (tick other : ℕ) → 1 ≤ clock.period → IsSample clock other → tick ≤ other
        → next_sample clock tick ≤ other }
{}

/// The level of an input is that of its row with the greatest tick so far, x before the first.
pub fn stimuli_last()
    ensures at { (design : Design) (net tick : ℕ) (level : Level)
        → row_level design.netlist design.stimuli net tick ≡ Some level → stimulus design net tick ≡ level }
    ensures since { (design : Design) (net from more : ℕ)
        → ((tick : ℕ) → from < tick → tick ≤ from + more → row_level design.netlist design.stimuli net tick ≡ None)
        → stimulus design net (from + more) ≡ stimulus design net from }
    ensures before { (design : Design) (net tick : ℕ)
        → ((t : ℕ) → t ≤ tick → row_level design.netlist design.stimuli net t ≡ None) → stimulus design net tick ≡ X }
{}
