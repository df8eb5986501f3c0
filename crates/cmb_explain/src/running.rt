//! The faults of the list of nets, of a run, its inputs and its output.

ghost use Rattle.std.specs.Prelude.{◌≡◌, ◌↔◌, IsSome, IfSome};
ghost use Rattle.cmb_explain.specs.Known.{IsRunningFault, place_of};

use crate::explanation::{Explanation, Place};

static UNKNOWN: Explanation = Explanation {
    number: 38,
    place: Place::Listed,
    meaning: "no net has this name",
    example: "--only FILE with a line y2, where the netlist has no net y2",
    advice: "\
Mend the name, in capitals or not as the netlist has it. A list has the names of nets alone, one
a line; # begins a comment.",
};

static INCOMPLETE: Explanation = Explanation {
    number: 53,
    place: Place::Net,
    meaning: "the run was stopped",
    example: "a call of the library in which somebody stops a free run",
    advice: "\
The program never stops its runs.",
};

static TOO_LONG: Explanation = Explanation {
    number: 60,
    place: Place::Input,
    meaning: "more than 16,777,216 bytes",
    example: "a table of stimuli with two million rows",
    advice: "\
Leave comments out, or cut the run into parts.",
};

static READ: Explanation = Explanation {
    number: 61,
    place: Place::Input,
    meaning: "couldn't be read",
    example: "--stimuli missing.csv, or --stimuli with a folder",
    advice: "\
Mend the path or the rights. A folder can't be read, and neither can a netlist where standard
input is closed.",
};

static WRITE: Explanation = Explanation {
    number: 62,
    place: Place::Bytes,
    meaning: "the output failed",
    example: "cmbsim run --horizon 10 < netlist.bench > /dev/full",
    advice: "\
Look for a full disk, or for a reader of the pipe that ended. What was written is a beginning of
the waveforms.",
};

static MEMORY: Explanation = Explanation {
    number: 70,
    place: Place::Nowhere,
    meaning: "out of memory",
    example: "(ulimit -v 10000; cmbsim run --mode plain --horizon 900000 < netlist.bench) with 17 nets",
    advice: "\
Memory was refused, or a thread was, as by a limit on a user's processes: take a smaller horizon
or fewer workers. Mode free writes while it runs, and keeps less.",
};

/// The explanation of a fault of the list of nets, of a run, its inputs or its output; `None` of any other number.
pub(crate) fn running_fault(number: u32) -> Option<&'static Explanation>
    ensures known { IsSome result ↔ IsRunningFault number }
    ensures number { IfSome result (λ e. e.now.number ≡ number) }
    ensures place { IfSome result (λ e. e.now.place ≡ place_of number) }
{
    match number {
        38 => Some(&UNKNOWN),
        53 => Some(&INCOMPLETE),
        60 => Some(&TOO_LONG),
        61 => Some(&READ),
        62 => Some(&WRITE),
        70 => Some(&MEMORY),
        _ => None,
    }
}
