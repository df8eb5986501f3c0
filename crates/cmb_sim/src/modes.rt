//! Whether a design can be run as it is asked for.

ghost use Rattle.std.specs.Prelude.{◌≡◌, nat_lt, IfErr, OnOk};
ghost use Rattle.cmb_design_model.specs.Plain.{cells_of};
ghost use Rattle.cmb_sim.specs.Simulation.{CanRun, IsUnrun};

use cmb_cli_line::{Mode, Request};
use cmb_design_model::plain::MOST_CELLS;
use cmb_design_model::{Design, DesignFault};
use cmb_faults::Fault;

// Whether the table of mode plain would have too many cells.
fn is_too_large(design: &Design) -> bool
    ensures { result ≡ nat_lt MOST_CELLS (cells_of design.now) }
{
    design.netlist().len() * design.horizon() as usize > MOST_CELLS
}

/// Refuses a design that can't be run in a mode: 33.
#[tactic(auto, using(crate::proofs::ModeFacts::mode_facts))]
pub(crate) fn check_mode(mode: Mode, design: &Design) -> Result<(), Fault>
    ensures fits { OnOk result (CanRun mode design.now) }
    ensures fault { IfErr result (IsUnrun mode design.now) }
{
    match mode {
        Mode::Plain => {
            if is_too_large(design) {
                return Err(Fault::Design(DesignFault::TableTooLarge));
            }
            Ok(())
        }
        Mode::Rounds { .. } => Ok(()),
        Mode::Free { .. } => Ok(()),
    }
}

/// By how many threads at most the engine makes the text.
pub(crate) fn threads_in(request: Request) -> u32 {
    match (request.threads, request.mode) {
        (Some(threads), _) => threads.count,
        (None, Mode::Plain) => 1,
        (None, Mode::Rounds { workers, clusters } | Mode::Free { workers, clusters }) => {
            workers.count.min(clusters.count)
        }
    }
}
