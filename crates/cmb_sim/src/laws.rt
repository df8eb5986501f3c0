//! A law: a simulation of which each net is chosen is one of all nets.

ghost use Rattle.std.specs.Prelude.{◌≡◌, ℕ, ◌<◌, List, Contains, Ok};
ghost use Rattle.cmb_design_model.specs.Design.{Design};
ghost use Rattle.cmb_design_model.specs.Exact.{nets_of};
ghost use Rattle.cmb_cli_line.specs.declared.choice.Choice.TheVariants.{All, Only};
ghost use Rattle.cmb_cli_line.specs.declared.choice.Pick.{Pick};
ghost use Rattle.cmb_cli_line.specs.declared.line.Request.{Request};
ghost use Rattle.cmb_sim.specs.Simulation.{IsRun};
ghost use Rattle.cmb_faults.specs.declared.answer.Report.{Report};
ghost use Rattle.cmb_inputs.specs.Chosen.{AreChosen};
ghost use Rattle.cmb_inputs.specs.Inputs.{Texts};
ghost use Rattle.cmb_inputs.specs.Outputs.{Output};

/// Where what is chosen has each net of each design, Ok says of texts what it says where all nets are asked for: the
/// text is that of the whole design.
pub fn all_nets_are_the_whole()
    ensures { (request : Request) (pick : Pick) (texts : Texts) (o : Output) (report : Report)
        → ((design : Design) (nets : List ℕ) → AreChosen pick design texts.names nets
        → (net : ℕ) → net < nets_of design → Contains nets net)
        → IsRun (record request { choice = Only pick }) texts o (Ok report)
        → IsRun (record request { choice = All }) texts o (Ok report) }
{}
