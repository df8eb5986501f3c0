//! The text of chosen nets, where the waves of all nets were collected.

ghost use Rattle.std.specs.Prelude.{◌≡◌, ◌<◌, ◌≤◌, length, map, slice_index, All, IfOk};
ghost use Rattle.std.specs.List.Sorted.{IsStrictlyIncreasing};
ghost use Rattle.cmb_design_model.specs.Exact.{nets_of};
ghost use Rattle.cmb_run_text.specs.Chosen.{names_of, vcd_of};
ghost use Rattle.cmb_run_text.specs.Collector.{IsComplete, IsExactFor, IsFor, collected_level, wave_of};
ghost use Rattle.cmb_run_text.specs.Vcd.{text_of};

use crate::collector::Collector;
use crate::lines::push_chosen_header;
use crate::ready_codes::Codes;
use crate::text::push_part;
use cmb_design_model::Design;
use cmb_netlist::MAX_NETS;
use cmb_wave::Wave;
use std::alloc::{AllocError, Global};
use std::mem::replace;

// Takes the waves of chosen nets out of those of all.
fn taken_out(alloc: Global, mut waves: Vec<Wave>, nets: &[u32]) -> Result<Vec<Wave>, AllocError>
    requires rising { IsStrictlyIncreasing nets.now }
    requires within { All (λ net. net < length waves.items) nets.now }
    ensures { IfOk result (λ chosen. chosen.items ≡ map (wave_of waves.items) nets.now) }
{
    let mut chosen = Vec::with_capacity(alloc, nets.len())?;
    for net in nets {
        let spent = Wave::new(alloc, *net);
        chosen.push(replace(&mut waves[*net as usize], spent))?;
    }
    Ok(chosen)
}

/// The text of chosen nets, by rising number, of a complete collector of all nets: that of the levels which their waves
/// tell. Each has the code of its place among them. Errors: memory was refused.
pub fn vcd_text_of(
    alloc: Global,
    design: &Design,
    collector: Collector,
    nets: &[u32],
) -> Result<Vec<u8>, AllocError>
    requires opened { IsFor design.now collector }
    requires complete { IsComplete collector }
    requires rising { IsStrictlyIncreasing nets.now }
    requires within { All (λ net. net < nets_of design.now) nets.now }
    requires few { length nets.now ≤ MAX_NETS }
    ensures text { IfOk result (λ text. text.items
        ≡ text_of (names_of design.now.netlist nets.now) design.now.horizon
        (λ place. collected_level collector.waves (slice_index nets.now place))) }
    ensures exact { IsExactFor design.now collector
        → IfOk result (λ text. text.items ≡ vcd_of design.now nets.now) }
{
    let horizon = design.horizon();
    let waves = taken_out(alloc, collector.into_waves(), nets)?;
    let codes = Codes::new(alloc, nets.len() as u16)?;
    let mut text = Vec::new(alloc);
    push_chosen_header(&mut text, design.netlist(), nets)?;
    push_part(&mut text, &codes, &waves, horizon, 0, horizon)?;
    Ok(text)
}
