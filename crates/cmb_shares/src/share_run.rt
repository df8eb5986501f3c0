//! The name of a run: a type parameter, so that values of two runs can't mix.

use std::marker::Brand;

/// Names the design of a run, the nets that are shown, how all nets are partitioned, and where windows end. `Brand`
/// stands for any that a call picks.
pub trait ShareRun {
    ghost use Rattle.cmb_shares.specs.Inner.Runs.{Run};

    ghost run: { Run };
}

impl ShareRun for Brand {
    ghost use Rattle.std.specs.Prelude.{[], None};
    ghost use Rattle.cmb_run_text.specs.Examples.{nothing};

    ghost run = { record {
      design = nothing;
      shown = None;
      owners = [];
      crossing = [];
      driven = [];
      windows = record { width = 1; horizon = 1; paces = [] };
    } };
}
