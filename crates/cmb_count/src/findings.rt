//! The nets behind some counts.

ghost use Rattle.std.specs.Prelude.{◌≡◌, ◌<◌, ◌&&◌, ◌++◌, ◌∷◌, [], length, nat_lt, if◌then◌else◌, IfOk, OnOk};
ghost use Rattle.cmb_count.specs.Findings.{AreFindings, IsFound, first_nets};
ghost use Rattle.cmb_count.specs.Inner.Marks.{AreMarks, is_found};

use crate::clock_paths::{ClockPaths, paths_by_clock};
use crate::drivers::{is_silent_input, is_still_flop};
use crate::unused::used_marks;
use cmb_design_model::Design;
use cmb_graph::{Steps, nets_in_loops};
use cmb_netlist::MAX_NETS;
use std::alloc::{AllocError, Global};

/// What is found of nets.
#[derive(Clone, Copy, Debug, PartialEq, Eq)]
pub enum Finding {
    /// Inputs that are x at each tick below the horizon.
    Silent,
    /// Flip-flops with no sample tick below the horizon.
    Still,
    /// Nets in feedback loops through gates alone.
    InGateLoops,
    /// Nets that no pin reads and that are no outputs.
    Unused,
}

/// The nets and clocks behind some counts, as many as were asked for.
#[derive(Drop)]
pub struct Findings {
    pub silent: Vec<u32>,
    pub still: Vec<u32>,
    pub in_gate_loops: Vec<u32>,
    pub unused: Vec<u32>,
    pub clocks: Vec<ClockPaths>,
}

// Marks of nets by which others are found.
fn marks_of(alloc: Global, design: &Design, finding: Finding) -> Result<Vec<bool>, AllocError>
    ensures { IfOk result (λ marks. AreMarks finding design.now marks.items) }
{
    match finding {
        Finding::Silent | Finding::Still => Ok(Vec::new(alloc)),
        Finding::InGateLoops => nets_in_loops(alloc, design.netlist(), Steps::Gates),
        Finding::Unused => used_marks(alloc, design.netlist()),
    }
}

// Whether a net is found where these are the marks.
fn is_found(design: &Design, finding: Finding, marks: &[bool], net: usize) -> bool
    requires net { net < length design.now.netlist.names }
    requires marks { AreMarks finding design.now marks.now }
    ensures { result ≡ is_found finding design.now marks.now net }
{
    match finding {
        Finding::Silent => is_silent_input(design, net),
        Finding::Still => is_still_flop(design, net),
        Finding::InGateLoops => marks[net],
        Finding::Unused => !marks[net],
    }
}

/// Adds a net that passes, unless there are so many.
pub(crate) fn push_first(
    nets: &mut Vec<u32>,
    most: usize,
    net: usize,
    passes: bool,
) -> Result<(), AllocError>
    requires { net < MAX_NETS }
    ensures { OnOk result (nets.new.items
        ≡ (if passes && nat_lt (length nets.old.items) most then nets.old.items ++ net ∷ [] else nets.old.items)) }
{
    if passes && nets.len() < most {
        nets.push(net as u32)?;
    }
    Ok(())
}

// The first nets that are found where these are the marks.
fn found_by(
    alloc: Global,
    design: &Design,
    finding: Finding,
    marks: &[bool],
    most: usize,
) -> Result<Vec<u32>, AllocError>
    requires marks { AreMarks finding design.now marks.now }
    ensures found { IfOk result (λ nets. nets.items
        ≡ first_nets most (is_found finding design.now marks.now) (length design.now.netlist.names)) }
{
    let mut nets = Vec::new(alloc);
    for net in 0..design.netlist().len() {
        push_first(&mut nets, most, net, is_found(design, finding, marks, net))?;
    }
    Ok(nets)
}

/// The nets that are found, by rising number, and of these the first so many.
pub fn found_nets(
    alloc: Global,
    design: &Design,
    finding: Finding,
    most: usize,
) -> Result<Vec<u32>, AllocError>
    ensures found { IfOk result (λ nets. IsFound finding design.now most nets.items) }
{
    let marks = marks_of(alloc, design, finding)?;
    let nets = found_by(alloc, design, finding, marks.as_slice(), most)?;
    Ok(nets)
}

/// The nets and clocks behind some counts, of each the first so many.
pub fn findings_of(alloc: Global, design: &Design, most: usize) -> Result<Findings, AllocError>
    ensures { IfOk result (AreFindings design.now most) }
{
    Ok(Findings {
        silent: found_nets(alloc, design, Finding::Silent, most)?,
        still: found_nets(alloc, design, Finding::Still, most)?,
        in_gate_loops: found_nets(alloc, design, Finding::InGateLoops, most)?,
        unused: found_nets(alloc, design, Finding::Unused, most)?,
        clocks: paths_by_clock(alloc, design, most)?,
    })
}
