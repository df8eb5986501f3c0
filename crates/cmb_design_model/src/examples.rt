//! Worked examples: the definitions computed on small designs.

ghost use Rattle.std.specs.Prelude.{◌≡◌, [], ◌∷◌, Some, None, codes};
ghost use Rattle.cmb_wave.specs.declared.level.Level.TheVariants.{Zero, One, X};
ghost use Rattle.cmb_design_model.specs.Checks.{first_fault};
ghost use Rattle.cmb_design_model.specs.declared.fault.DesignFault.TheVariants as fault;
ghost use Rattle.cmb_design_model.specs.Examples.{inverter, toggle, pulse, latch, usual_layout, two_flops, to};
ghost use Rattle.cmb_design_model.specs.Examples.{initial_row, stimulus_row};
ghost use Rattle.cmb_design_model.specs.Examples.{net_row, pin_row, clock_row, clock_at, with_horizon, with_clock};
ghost use Rattle.cmb_design_model.specs.Examples.{with_delays, with_stimuli, with_clocks, with_initial};
ghost use Rattle.cmb_design_model.specs.Settings.{design_checks};
ghost use Rattle.cmb_design_model.specs.Value.{changes};

/// An inverter of delay 1.
pub fn inverter()
    ensures { changes inverter 1 0 10 ≡ to One 1 ∷ to Zero 6 ∷ [] }
{}

/// A flip-flop that samples its own inverse at ticks 2, 6 and 10.
pub fn toggle()
    ensures q { changes toggle 0 0 12 ≡ to Zero 0 ∷ to One 3 ∷ to Zero 7 ∷ to One 11 ∷ [] }
    ensures d { changes toggle 1 0 12 ≡ to One 1 ∷ to Zero 4 ∷ to One 8 ∷ [] }
{}

/// A gate lets a pulse of one tick through.
pub fn pulse()
    ensures b { changes pulse 1 0 10 ≡ to One 1 ∷ to Zero 6 ∷ [] }
    ensures y { changes pulse 2 0 10 ≡ to Zero 1 ∷ to One 6 ∷ to Zero 7 ∷ [] }
{}

/// Two gates that hold each other.
pub fn latch()
    ensures nq { changes latch 2 0 12 ≡ to One 2 ∷ to Zero 9 ∷ [] }
    ensures q { changes latch 3 0 12 ≡ to Zero 1 ∷ to One 10 ∷ [] }
{}

/// A flip-flop of delay 2, by its kind, before an inverter of delay 3, by its net.
pub fn usual_layout()
    ensures g1 { changes usual_layout 1 0 12 ≡ to Zero 0 ∷ to One 5 ∷ to Zero 10 ∷ [] }
    ensures g2 { changes usual_layout 2 0 12 ≡ to One 1 ∷ to Zero 6 ∷ to One 11 ∷ [] }
    ensures g3 { changes usual_layout 3 0 12 ≡ to One 3 ∷ to Zero 8 ∷ [] }
{}

/// A delay beyond the horizon.
pub fn delay_rows()
    ensures { changes (with_delays inverter (net_row (codes "y") 20 ∷ [])) 1 0 10 ≡ [] }
{}

/// A change at the last tick.
pub fn stimulus_rows()
    ensures { changes (with_stimuli inverter
        (stimulus_row 0 (codes "a") Zero ∷ stimulus_row 9 (codes "a") One ∷ [])) 0 0 10 ≡ to Zero 0 ∷ to One 9 ∷ [] }
{}

/// Delays of single pins: a gate may be known before its slowest pin.
pub fn pin_delays()
    ensures first { changes (with_delays pulse (pin_row (codes "y") 1 3 ∷ [])) 2 0 10 ≡ to Zero 3 ∷ [] }
    ensures second { changes (with_delays pulse (pin_row (codes "y") 2 3 ∷ [])) 2 0 10
        ≡ to Zero 1 ∷ to One 6 ∷ to Zero 9 ∷ [] }
{}

/// Two flip-flops in a row under the common clock, and the second under a clock of its own.
pub fn clock_rows()
    ensures p { changes two_flops 1 0 12 ≡ to Zero 0 ∷ to One 7 ∷ [] }
    ensures q { changes two_flops 2 0 12 ≡ to Zero 0 ∷ to One 11 ∷ [] }
    ensures own { changes (with_clocks two_flops (clock_row (codes "q") 4 3 ∷ [])) 2 0 12 ≡ to Zero 0 ∷ to One 8 ∷ [] }
{}

/// First levels of a flip-flop's own, in place of the common one.
pub fn first_levels()
    ensures one { changes (with_initial toggle (initial_row (codes "q") One ∷ [])) 0 0 12
        ≡ to One 0 ∷ to Zero 3 ∷ to One 7 ∷ to Zero 11 ∷ [] }
    ensures inverse { changes (with_initial toggle (initial_row (codes "q") One ∷ [])) 1 0 12
        ≡ to Zero 1 ∷ to One 4 ∷ to Zero 8 ∷ [] }
    ensures unknown { changes (with_initial toggle (initial_row (codes "q") X ∷ [])) 0 0 12 ≡ [] }
    ensures own { changes (with_initial two_flops (initial_row (codes "q") One ∷ [])) 2 0 12
        ≡ to One 0 ∷ to Zero 3 ∷ to One 11 ∷ [] }
    ensures other { changes (with_initial two_flops (initial_row (codes "q") One ∷ [])) 1 0 12
        ≡ to Zero 0 ∷ to One 7 ∷ [] }
{}

/// Designs in which no check stands.
pub fn stands()
    ensures inverter { first_fault (design_checks inverter) ≡ None }
    ensures toggle { first_fault (design_checks toggle) ≡ None }
    ensures usual_layout { first_fault (design_checks usual_layout) ≡ None }
{}

/// Settings, and rows of nets that they cannot be about.
pub fn refused_settings()
    ensures no_clock { first_fault (design_checks (with_clock toggle None)) ≡ Some fault.NoClock }
    ensures no_period { first_fault (design_checks (with_clock toggle (clock_at 2 0))) ≡ Some fault.Clock }
    ensures no_horizon { first_fault (design_checks (with_horizon inverter 0)) ≡ Some fault.Horizon }
    ensures far_horizon { first_fault (design_checks (with_horizon inverter 1000001)) ≡ Some fault.Horizon }
    ensures of_gate { first_fault (design_checks (with_stimuli inverter (stimulus_row 0 (codes "y") Zero ∷ [])))
        ≡ Some (fault.NotInput 2) }
    ensures of_none { first_fault (design_checks (with_stimuli inverter (stimulus_row 0 (codes "b") Zero ∷ [])))
        ≡ Some (fault.UnknownNet 2) }
    ensures of_input { first_fault (design_checks (with_delays inverter (net_row (codes "a") 3 ∷ [])))
        ≡ Some (fault.DelayOfInput 2) }
{}

/// Rows about what an earlier row is about.
pub fn repeated_rows()
    ensures stimulus { first_fault (design_checks
        (with_stimuli inverter (stimulus_row 0 (codes "a") Zero ∷ stimulus_row 0 (codes "a") One ∷ [])))
        ≡ Some (fault.RepeatedRow 3) }
    ensures pin { first_fault (design_checks
        (with_delays pulse (pin_row (codes "y") 2 3 ∷ pin_row (codes "y") 2 4 ∷ []))) ≡ Some (fault.RepeatedRow 3) }
    ensures clock { first_fault (design_checks
        (with_clocks two_flops (clock_row (codes "q") 4 3 ∷ clock_row (codes "q") 4 3 ∷ [])))
        ≡ Some (fault.RepeatedRow 3) }
{}

/// Pins that are not there, and flip-flops without a clock.
pub fn refused_rows()
    ensures pin_3 { first_fault (design_checks (with_delays pulse (pin_row (codes "y") 3 3 ∷ [])))
        ≡ Some (fault.NoPin 2) }
    ensures pin_0 { first_fault (design_checks (with_delays pulse (pin_row (codes "y") 0 3 ∷ [])))
        ≡ Some (fault.NoPin 2) }
    ensures pin_of_input { first_fault (design_checks (with_delays pulse (pin_row (codes "a") 1 3 ∷ [])))
        ≡ Some (fault.DelayOfInput 2) }
    ensures pin_of_none { first_fault (design_checks (with_delays pulse (pin_row [] 1 3 ∷ [])))
        ≡ Some (fault.UnknownNet 2) }
    ensures lacks { first_fault (design_checks
        (with_clock (with_clocks two_flops (clock_row (codes "q") 4 3 ∷ [])) None)) ≡ Some fault.NoClock }
    ensures clocked { first_fault (design_checks
        (with_clock (with_clocks two_flops (clock_row (codes "q") 4 3 ∷ clock_row (codes "p") 2 4 ∷ [])) None)) ≡ None }
    ensures clock_of_input { first_fault (design_checks (with_clocks two_flops (clock_row (codes "a") 2 4 ∷ [])))
        ≡ Some (fault.NotFlop 2) }
    ensures clock_of_none { first_fault (design_checks (with_clocks two_flops (clock_row (codes "z") 1 1 ∷ [])))
        ≡ Some (fault.UnknownNet 2) }
{}

/// First levels of what is no flip-flop, and of the same one twice. Rows of clocks come before them.
pub fn refused_first_levels()
    ensures of_input { first_fault (design_checks (with_initial two_flops (initial_row (codes "a") One ∷ [])))
        ≡ Some (fault.NotFlop 2) }
    ensures of_none { first_fault (design_checks (with_initial two_flops (initial_row (codes "z") One ∷ [])))
        ≡ Some (fault.UnknownNet 2) }
    ensures twice { first_fault (design_checks
        (with_initial two_flops (initial_row (codes "q") One ∷ initial_row (codes "q") One ∷ [])))
        ≡ Some (fault.RepeatedRow 3) }
    ensures behind { first_fault (design_checks
        (with_clocks (with_initial two_flops (initial_row (codes "z") One ∷ [])) (clock_row (codes "a") 2 4 ∷ [])))
        ≡ Some (fault.NotFlop 2) }
    ensures stands { first_fault (design_checks
        (with_initial two_flops (initial_row (codes "q") One ∷ initial_row (codes "p") X ∷ []))) ≡ None }
{}
