//! The activities as a table of comma-separated values.

ghost use Rattle.std.specs.Prelude.{◌≡◌, ◌<◌, ◌==◌, ◌++◌, All, IfOk, OnOk, codes, decimal};
ghost use Rattle.std.specs.List.{list_any};
ghost use Rattle.cmb_design_model.specs.Exact.{nets_of};
ghost use Rattle.cmb_design_model.specs.Value.{value};
ghost use Rattle.cmb_activity.specs.Activities.{AreActivities, IsActivity};
ghost use Rattle.cmb_activity.specs.Texts.{activity_table, doubled, field, net_row, quoted, row};

use crate::activity::Activity;
use crate::measure::activities;
use cmb_design_model::Design;
use itoa::Buffer;
use std::alloc::{AllocError, Global};

// A byte of a name in double quotes.
fn push_doubled(text: &mut Vec<u8>, byte: u8) -> Result<(), AllocError>
    ensures { OnOk result (text.new.items ≡ text.old.items ++ doubled byte) }
{
    if byte == b'"' {
        text.push(byte)?;
    }
    text.push(byte)?;
    Ok(())
}

// Whether a name has a double quote.
fn has_quote(name: &[u8]) -> bool
    ensures { result ≡ list_any (λ byte. byte == 34) name.now }
{
    name.iter().any(|byte| *byte == b'"')
}

// A name in double quotes.
fn push_quoted(text: &mut Vec<u8>, name: &[u8]) -> Result<(), AllocError>
    ensures { OnOk result (text.new.items ≡ text.old.items ++ quoted name.now) }
{
    text.push(b'"')?;
    for byte in name {
        push_doubled(text, *byte)?;
    }
    text.push(b'"')?;
    Ok(())
}

/// Appends a name as a field of comma-separated values (RFC 4180): in double quotes where it has one, which is written
/// twice. Errors: memory was refused.
#[tactic(auto, unfolding(crate::specs::Texts::field))]
pub fn push_field(text: &mut Vec<u8>, name: &[u8]) -> Result<(), AllocError>
    ensures { OnOk result (text.new.items ≡ text.old.items ++ field name.now) }
{
    if has_quote(name) {
        push_quoted(text, name)
    } else {
        text.extend_from_slice(name)
    }
}

// A number behind a comma.
fn push_number(text: &mut Vec<u8>, number: u32) -> Result<(), AllocError>
    ensures { OnOk result (text.new.items ≡ text.old.items ++ (codes "," ++ decimal number)) }
{
    let mut digits = Buffer::new();
    text.push(b',')?;
    text.extend_from_slice(digits.format(number).as_bytes())?;
    Ok(())
}

// The row of a net.
fn push_row(text: &mut Vec<u8>, name: &[u8], activity: Activity) -> Result<(), AllocError>
    ensures { OnOk result (text.new.items ≡ text.old.items
        ++ row name.now activity.changes activity.low activity.high activity.unknown) }
{
    push_field(text, name)?;
    push_number(text, activity.changes)?;
    push_number(text, activity.low)?;
    push_number(text, activity.high)?;
    push_number(text, activity.unknown)?;
    text.push(b'\n')?;
    Ok(())
}

// The row of a net of a design, of which this was counted.
fn push_net(
    text: &mut Vec<u8>,
    design: &Design,
    net: usize,
    activity: Activity,
) -> Result<(), AllocError>
    requires net { net < nets_of design.now }
    requires counted { IsActivity (value design.now net) design.now.horizon activity }
    ensures { OnOk result (text.new.items ≡ text.old.items ++ net_row design.now net) }
{
    push_row(text, design.netlist().name(net), activity)
}

// The table of some nets, where this was counted of all.
fn table_of(
    alloc: Global,
    design: &Design,
    nets: &[u32],
    activities: &[Activity],
) -> Result<Vec<u8>, AllocError>
    requires nets { All (λ net. net < nets_of design.now) nets.now }
    requires counted { AreActivities design.now activities.now }
    ensures { IfOk result (λ text. text.items ≡ activity_table design.now nets.now) }
{
    let mut text = b"net,changes,low,high,unknown\n".to_vec(alloc)?;
    for net in nets {
        let net = *net as usize;
        push_net(&mut text, design, net, activities[net])?;
    }
    Ok(text)
}

/// How active some nets of a design's run are, as a table of comma-separated values with the header
/// `net,changes,low,high,unknown`: for each of these nets, in their order, how often it changes after tick 0, and at
/// how many ticks it is 0, 1 and x. Errors: memory was refused.
pub fn activity_text(alloc: Global, design: &Design, nets: &[u32]) -> Result<Vec<u8>, AllocError>
    requires { All (λ net. net < nets_of design.now) nets.now }
    ensures { IfOk result (λ text. text.items ≡ activity_table design.now nets.now) }
{
    let activities = activities(alloc, design)?;
    table_of(alloc, design, nets, &activities)
}
