//! The counts as a text.

ghost use Rattle.std.specs.Prelude.{◌≡◌, ℕ, ◌++◌, IfOk, OnOk, string_bytes};
ghost use Rattle.std.specs.List.{flat_map};
ghost use Rattle.cmb_netlist.specs.Netlist.{name_of};
ghost use Rattle.cmb_count.specs.Texts.{IsCountsText, clock_rows, counts_rows, delay_rows, flop_rows, gate_rows};
ghost use Rattle.cmb_count.specs.Texts.{input_rows, input_words, longest_row, loop_rows, name_row, name_rows};
ghost use Rattle.cmb_count.specs.Texts.{other_words, own_words, path_rows, row, short_row, short_words, table_rows};
ghost use Rattle.cmb_count.specs.Texts.{unused_rows};

use crate::clock_paths::ClockPaths;
use crate::counts::{Counts, GateCounts};
use crate::findings::{Findings, findings_of};
use crate::paths::Longest;
use cmb_design_model::{Clock, Design};
use cmb_netlist::Netlist;
use std::alloc::{AllocError, Global};

// Rows, each of a number and what it counts.
fn write_rows(text: &mut String, rows: &[(usize, &str)]) -> Result<(), AllocError>
    ensures { OnOk result (string_bytes text.new
        ≡ string_bytes text.old ++ flat_map (λ it. row it.0 it.1.now) rows.now) }
{
    for (number, what) in rows {
        write!(text, "{number:>8}  {what}\n")?;
    }
    Ok(())
}

fn push_rows(text: &mut Vec<u8>, rows: &[(usize, &str)]) -> Result<(), AllocError>
    ensures { OnOk result (text.new.items
        ≡ text.old.items ++ flat_map (λ it. row it.0 it.1.now) rows.now) }
{
    let mut lines = String::new(*text.allocator());
    write_rows(&mut lines, rows)?;
    text.extend_from_slice(lines.as_bytes())
}

// A net's name; a number beyond the nets has none.
fn name_in(netlist: &Netlist, net: usize) -> &[u8]
    ensures { result.now ≡ name_of netlist.now net }
{
    if net < netlist.len() {
        netlist.name(net)
    } else {
        b""
    }
}

// A name, in the place of what is counted.
fn push_name(text: &mut Vec<u8>, netlist: &Netlist, net: usize) -> Result<(), AllocError>
    ensures { OnOk result (text.new.items ≡ text.old.items ++ name_row netlist.now net) }
{
    text.extend_from_slice(b"       -  ")?;
    text.extend_from_slice(name_in(netlist, net))?;
    text.extend_from_slice(b"\n")
}

fn push_names(text: &mut Vec<u8>, netlist: &Netlist, nets: &[u32]) -> Result<(), AllocError>
    ensures { OnOk result (text.new.items ≡ text.old.items ++ name_rows netlist.now nets.now) }
{
    for net in nets {
        push_name(text, netlist, *net as usize)?;
    }
    Ok(())
}

fn push_inputs(
    text: &mut Vec<u8>,
    netlist: &Netlist,
    counts: &Counts,
    findings: &Findings,
) -> Result<(), AllocError>
    ensures { OnOk result (text.new.items ≡ text.old.items ++ input_rows netlist.now counts.now findings.now) }
{
    push_rows(
        text,
        &[
            (counts.nets, "nets"),
            (counts.inputs, "inputs"),
            (counts.silent, "inputs that are x at all ticks"),
        ],
    )?;
    push_names(text, netlist, findings.silent.as_slice())
}

fn push_gates(text: &mut Vec<u8>, gates: &GateCounts) -> Result<(), AllocError>
    ensures { OnOk result (text.new.items ≡ text.old.items ++ gate_rows gates.now) }
{
    push_rows(
        text,
        &[
            (gates.and, "gates AND"),
            (gates.nand, "gates NAND"),
            (gates.or, "gates OR"),
            (gates.nor, "gates NOR"),
            (gates.xor, "gates XOR"),
            (gates.xnor, "gates XNOR"),
            (gates.not, "gates NOT"),
            (gates.buff, "gates BUFF"),
        ],
    )
}

fn push_flops(
    text: &mut Vec<u8>,
    netlist: &Netlist,
    counts: &Counts,
    findings: &Findings,
) -> Result<(), AllocError>
    ensures { OnOk result (text.new.items ≡ text.old.items ++ flop_rows netlist.now counts.now findings.now) }
{
    push_rows(
        text,
        &[
            (counts.flops, "flip-flops"),
            (counts.still, "flip-flops that never sample"),
        ],
    )?;
    push_names(text, netlist, findings.still.as_slice())
}

fn push_loops(
    text: &mut Vec<u8>,
    netlist: &Netlist,
    counts: &Counts,
    findings: &Findings,
) -> Result<(), AllocError>
    ensures { OnOk result (text.new.items ≡ text.old.items ++ loop_rows netlist.now counts.now findings.now) }
{
    push_rows(
        text,
        &[
            (counts.in_loops, "nets in feedback loops"),
            (counts.in_gate_loops, "nets in loops of gates alone"),
        ],
    )?;
    push_names(text, netlist, findings.in_gate_loops.as_slice())
}

fn push_unused(
    text: &mut Vec<u8>,
    netlist: &Netlist,
    counts: &Counts,
    findings: &Findings,
) -> Result<(), AllocError>
    ensures { OnOk result (text.new.items ≡ text.old.items ++ unused_rows netlist.now counts.now findings.now) }
{
    push_rows(
        text,
        &[(counts.unused, "nets that drive nothing and are no outputs")],
    )?;
    push_names(text, netlist, findings.unused.as_slice())
}

// A longest path, and the net where it ends.
fn push_longest(
    text: &mut Vec<u8>,
    netlist: &Netlist,
    what: &str,
    longest: Longest,
) -> Result<(), AllocError>
    ensures { OnOk result (text.new.items ≡ text.old.items ++ longest_row netlist.now what.now longest) }
{
    match longest {
        Longest::NoPath => {
            let line = format!(in *text.allocator(); "       0  {what}: there is none\n")?;
            text.extend_from_slice(line.as_bytes())
        }
        Longest::Path { net, ticks } => {
            push_rows(text, &[(ticks as usize, what)])?;
            push_name(text, netlist, net)
        }
        Longest::Unbounded => {
            let line = format!(in *text.allocator();
                "     inf  {what}: gates form a loop on it\n"
            )?;
            text.extend_from_slice(line.as_bytes())
        }
    }
}

fn push_delays(text: &mut Vec<u8>, netlist: &Netlist, counts: &Counts) -> Result<(), AllocError>
    ensures { OnOk result (text.new.items ≡ text.old.items ++ delay_rows netlist.now counts.now) }
{
    push_rows(
        text,
        &[(counts.largest_delay as usize, "ticks in the largest delay")],
    )?;
    push_longest(text, netlist, "ticks in the longest path", counts.longest)
}

// The paths from a clock's own flip-flops.
fn push_own(
    text: &mut Vec<u8>,
    netlist: &Netlist,
    clock: Clock,
    longest: Longest,
) -> Result<(), AllocError>
    ensures { OnOk result (text.new.items ≡ text.old.items ++ longest_row netlist.now (own_words clock) longest) }
{
    let Clock { first, period } = clock;
    let what = format!(in *text.allocator();
        "ticks in the longest path from clock {first}:{period} to itself"
    )?;
    push_longest(text, netlist, what.as_str(), longest)
}

// How much longer than its period the paths from a clock's own flip-flops are, if they are.
fn push_short(text: &mut Vec<u8>, clock: Clock, longest: Longest) -> Result<(), AllocError>
    ensures { OnOk result (text.new.items ≡ text.old.items ++ short_row clock longest) }
{
    let Longest::Path { ticks, .. } = longest else {
        return Ok(());
    };
    let Clock { first, period } = clock;
    if u64::from(period) >= ticks {
        return Ok(());
    }
    let what = format!(in *text.allocator();
        "ticks that clock {first}:{period} is shorter than that path"
    )?;
    push_rows(
        text,
        &[((ticks - u64::from(period)) as usize, what.as_str())],
    )
}

// The paths from inputs.
fn push_from_inputs(
    text: &mut Vec<u8>,
    netlist: &Netlist,
    clock: Clock,
    longest: Longest,
) -> Result<(), AllocError>
    ensures { OnOk result (text.new.items ≡ text.old.items ++ longest_row netlist.now (input_words clock) longest) }
{
    let Clock { first, period } = clock;
    let what = format!(in *text.allocator();
        "ticks in the longest path from inputs to clock {first}:{period}"
    )?;
    push_longest(text, netlist, what.as_str(), longest)
}

// The paths from flip-flops of other clocks.
fn push_from_others(
    text: &mut Vec<u8>,
    netlist: &Netlist,
    clock: Clock,
    longest: Longest,
) -> Result<(), AllocError>
    ensures { OnOk result (text.new.items ≡ text.old.items ++ longest_row netlist.now (other_words clock) longest) }
{
    let Clock { first, period } = clock;
    let what = format!(in *text.allocator();
        "ticks in the longest path from other clocks to clock {first}:{period}"
    )?;
    push_longest(text, netlist, what.as_str(), longest)
}

fn push_paths(text: &mut Vec<u8>, netlist: &Netlist, paths: ClockPaths) -> Result<(), AllocError>
    ensures { OnOk result (text.new.items ≡ text.old.items ++ path_rows netlist.now paths) }
{
    push_own(text, netlist, paths.clock, paths.own)?;
    push_short(text, paths.clock, paths.own)?;
    push_from_inputs(text, netlist, paths.clock, paths.inputs)?;
    push_from_others(text, netlist, paths.clock, paths.others)
}

fn push_all_paths(
    text: &mut Vec<u8>,
    netlist: &Netlist,
    clocks: &[ClockPaths],
) -> Result<(), AllocError>
    ensures { OnOk result (text.new.items ≡ text.old.items ++ flat_map (path_rows netlist.now) clocks.now) }
{
    for paths in clocks {
        push_paths(text, netlist, *paths)?;
    }
    Ok(())
}

fn push_clocks(
    text: &mut Vec<u8>,
    netlist: &Netlist,
    counts: &Counts,
    findings: &Findings,
) -> Result<(), AllocError>
    ensures { OnOk result (text.new.items ≡ text.old.items ++ clock_rows netlist.now counts.now findings.now) }
{
    push_rows(text, &[(counts.clocks, "different clocks of flip-flops")])?;
    push_all_paths(text, netlist, findings.clocks.as_slice())
}

fn push_tables(text: &mut Vec<u8>, counts: &Counts) -> Result<(), AllocError>
    ensures { OnOk result (text.new.items ≡ text.old.items ++ table_rows counts.now) }
{
    push_rows(
        text,
        &[
            (counts.delay_rows, "rows of delays"),
            (counts.stimulus_rows, "rows of stimuli"),
            (counts.clock_rows, "rows of clocks"),
            (counts.initial_rows, "rows of first levels"),
        ],
    )
}

fn push_counts(
    text: &mut Vec<u8>,
    netlist: &Netlist,
    counts: &Counts,
    findings: &Findings,
) -> Result<(), AllocError>
    ensures { OnOk result (text.new.items ≡ text.old.items ++ counts_rows netlist.now counts.now findings.now) }
{
    push_inputs(text, netlist, counts, findings)?;
    push_gates(text, &counts.gates)?;
    push_flops(text, netlist, counts, findings)?;
    push_loops(text, netlist, counts, findings)?;
    push_unused(text, netlist, counts, findings)?;
    push_delays(text, netlist, counts)?;
    push_clocks(text, netlist, counts, findings)?;
    push_tables(text, counts)
}

/// The counts of a design as a text, each on a line of its own. Below some of them stand the names of the first so many
/// nets that were counted, each on a line with a dash in the number's place; the longest path has the name of the net
/// where it ends. Behind the number of clocks the first so many have rows with their longest paths.
pub fn counts_text(
    alloc: Global,
    design: &Design,
    counts: &Counts,
    most: usize,
) -> Result<Vec<u8>, AllocError>
    ensures { IfOk result (λ text. IsCountsText design.now most counts.now text.items) }
{
    let findings = findings_of(alloc, design, most)?;
    let mut text = Vec::new(alloc);
    push_counts(&mut text, design.netlist(), counts, &findings)?;
    Ok(text)
}
