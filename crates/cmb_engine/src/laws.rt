//! The laws that an engine's exactness stands on.

ghost use Rattle.std.specs.Prelude.{◌≡◌, ℕ, ◌-◌, ◌<◌, ◌≤◌, ◌↔◌, suc, Bool, false, IsTrue};
ghost use Rattle.cmb_wave.specs.declared.level.Level.{Level};
ghost use Rattle.cmb_netlist.specs.Netlist.{driver_of};
ghost use Rattle.cmb_design_model.specs.Design.{Design};
ghost use Rattle.cmb_design_model.specs.Timing.{clock_of, delay, initial_level, IsSample};
ghost use Rattle.cmb_design_model.specs.Value.{flop_level, value};
ghost use Rattle.cmb_engine.specs.Rows.{arrives, row, LooksAt};

/// A sample of a flip-flop arrives its delay after it was taken.
pub fn samples_arrive()
    ensures { (design : Design) (net tick : ℕ)
        → IsTrue (arrives design net tick)
        ↔ (delay design net 1 ≤ tick) × IsSample (clock_of design net) (tick - delay design net 1) }
{}

/// A flip-flop takes its data's level where a sample arrives, and else holds its own: at tick 0 its first level.
pub fn flops_hold()
    ensures start { (design : Design) (level : ℕ → Level) (net : ℕ) → flop_level design level net 0
        ≡ initial_level design net }
    ensures takes { (design : Design) (level : ℕ → Level) (net tick : ℕ)
        → IsTrue (arrives design net tick)
        → flop_level design level net tick ≡ level (tick - delay design net 1) }
    ensures holds { (design : Design) (level : ℕ → Level) (net tick : ℕ)
        → arrives design net (suc tick) ≡ false
        → flop_level design level net (suc tick) ≡ flop_level design level net tick }
{}

/// The levels of a design meet the rows of its nets.
pub fn values_meet_rows()
    ensures { (design : Design) (net tick : ℕ)
        → value design net tick ≡ row design (value design) net tick (driver_of design.netlist net) }
{}

/// And nothing else does: whatever has the values of some nets below one tick, meets their rows from there up to
/// another one, and has the values of all other nets where these rows look, has their values up to the other tick.
pub fn rows_tell_levels()
    ensures { (design : Design) (own : ℕ → Bool) (trace : ℕ → ℕ → Level) (from to : ℕ)
        → ((net tick : ℕ) → IsTrue (own net) → tick < from → trace net tick ≡ value design net tick)
        → ((net tick : ℕ) → IsTrue (own net) → from ≤ tick → tick < to
        → trace net tick ≡ row design trace net tick (driver_of design.netlist net))
        → ((net tick other past : ℕ) → IsTrue (own net) → from ≤ tick → tick < to
        → LooksAt design net tick (driver_of design.netlist net) other past
        → own other ≡ false
        → trace other past ≡ value design other past)
        → (net tick : ℕ) → IsTrue (own net) → tick < to → trace net tick ≡ value design net tick }
{}
