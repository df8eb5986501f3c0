//! The nets that a line chooses of a design.

ghost use Rattle.std.specs.Prelude.{◌≤◌, length, IfOk, IfErr};
ghost use Rattle.cmb_design_model.specs.Exact.{nets_of};
ghost use Rattle.cmb_dump.specs.Shown.{AreAmong};
ghost use Rattle.cmb_io.specs.Sources.{input_limit};
ghost use Rattle.cmb_inputs.specs.Chosen.{AreChosen, IsUnchosen};

use cmb_bench::read_list;
use cmb_cli_line::Pick;
use cmb_cone::rising;
use cmb_design_model::Design;
use cmb_faults::Fault;
use std::alloc::Global;

/// The numbers of the nets that are chosen of a design, each once and by rising number: those that the list names, or
/// the outputs. 38 at its line where a token of the list is no net's name, 70 where memory was refused.
pub fn chosen_nets(
    alloc: Global,
    pick: Pick,
    design: &Design,
    names: &[u8],
) -> Result<Vec<u32>, Fault>
    requires { length names.now ≤ input_limit }
    ensures chosen { IfOk result (λ nets. AreChosen pick design.now names.now nets.items) }
    ensures among { IfOk result (λ nets. AreAmong (nets_of design.now) nets.items) }
    ensures fault { IfErr result (IsUnchosen pick design.now.netlist names.now) }
{
    let netlist = design.netlist();
    let nets = match pick {
        Pick::Listed => {
            let numbers = read_list(alloc, netlist, names)?;
            rising(alloc, netlist.len(), numbers.as_slice())?
        }
        Pick::Outputs => rising(alloc, netlist.len(), netlist.outputs())?,
    };
    Ok(nets)
}
