//! The faults of the settings and of what a mode can run.

ghost use Rattle.std.specs.Prelude.{◌≡◌, ◌↔◌, IsSome, IfSome};
ghost use Rattle.cmb_explain.specs.Known.{IsSettingsFault};

use crate::explanation::{Explanation, Place};

static HORIZON: Explanation = Explanation {
    number: 20,
    place: Place::Nowhere,
    meaning: "the horizon isn't 1 to 1,000,000",
    example: "a call of the library with a horizon of 0",
    advice: "\
Give a horizon from 1 to 1,000,000 ticks. Of the program such a line is wrong, with status 2.",
};

static CLOCK: Explanation = Explanation {
    number: 21,
    place: Place::Nowhere,
    meaning: "the common clock's first tick is above 1,000,000, or its period isn't 1 to 1,000,000",
    example: "--clock 9, or --clock 9:0",
    advice: "\
Write the first tick, a colon and the period, in digits alone: --clock 9:10 samples at the ticks
9, 19, 29 and so on.",
};

static NO_CLOCK: Explanation = Explanation {
    number: 22,
    place: Place::Nowhere,
    meaning: "a flip-flop has no clock row, and there is no common clock",
    example: "a netlist with q = DFF(d), and no --clock",
    advice: "\
Give --clock F:P for all flip-flops, or a row in the table of clocks for each of them.",
};

static TABLE_TOO_LARGE: Explanation = Explanation {
    number: 33,
    place: Place::Nowhere,
    meaning: "the table of all levels would have more than 16,777,216 cells",
    example: "--mode plain --horizon 1000000 with 17 nets",
    advice: "\
Mode plain keeps a cell for each net and tick: leave --mode out, or take a smaller horizon.",
};

static CLUSTERS: Explanation = Explanation {
    number: 40,
    place: Place::Nowhere,
    meaning: "the number of clusters isn't from 1 to 64",
    example: "a call of the library with 65 clusters",
    advice: "\
Give 1 to 64 clusters. Of the program such a line is wrong, with status 2.",
};

static WORKERS: Explanation = Explanation {
    number: 54,
    place: Place::Nowhere,
    meaning: "the number of workers isn't from 1 to 64",
    example: "a call of the library with 65 workers",
    advice: "\
Give 1 to 64 workers. Of the program such a line is wrong, with status 2.",
};

/// The explanation of a fault of the settings or of the mode; `None` of any other number.
pub(crate) fn settings_fault(number: u32) -> Option<&'static Explanation>
    ensures known { IsSome result ↔ IsSettingsFault number }
    ensures number { IfSome result (λ e. e.now.number ≡ number) }
    ensures place { IfSome result (λ e. e.now.place ≡ Place.Nowhere) }
{
    match number {
        20 => Some(&HORIZON),
        21 => Some(&CLOCK),
        22 => Some(&NO_CLOCK),
        33 => Some(&TABLE_TOO_LARGE),
        40 => Some(&CLUSTERS),
        54 => Some(&WORKERS),
        _ => None,
    }
}
