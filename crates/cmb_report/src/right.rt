//! What should stand in a record of a table.

use crate::kinds::push_kinds;
use crate::record::push_fields;
use crate::table::Table;
use cmb_design_model::DesignFault;
use csv::ByteRecord;
use std::alloc::{AllocError, Global};

fn header_of(table: Table) -> &'static str {
    match table {
        Table::Delays => "by,name,delay",
        Table::Stimuli | Table::Expected => "tick,net,value",
        Table::Clocks => "net,first,period",
        Table::Initial => "net,value",
    }
}

// Which tables have a header.
fn owner_of(header: &str) -> Option<&'static str> {
    match header {
        "by,name,delay" => Some("delays"),
        "tick,net,value" => Some("stimuli"),
        "net,first,period" => Some("clocks"),
        "net,value" => Some("first levels"),
        _ => None,
    }
}

// Says what the header should be, and which table the one belongs to that stands there.
fn push_header(
    alloc: Global,
    text: &mut String,
    table: Table,
    fields: &ByteRecord,
) -> Result<(), AllocError> {
    let mut header = String::new(alloc);
    push_fields(&mut header, fields)?;
    if let Some(owner) = owner_of(header.as_str()) {
        write!(text, ", as {owner} have it")?;
    }
    write!(text, "; it has to be {}", header_of(table))
}

// Says what a row of delays can be by: a kind, or what its first field says.
fn push_by(alloc: Global, text: &mut String, fields: &ByteRecord) -> Result<(), AllocError> {
    if fields.get(0) == Some(b"kind".as_slice()) {
        push_kinds(alloc, text, fields.get(1))
    } else {
        text.push_str("; a row of delays begins with kind, net or pin")
    }
}

/// Says what should stand in the place of what is wrong of a record, where that is one of a few words.
pub(crate) fn push_right(
    alloc: Global,
    text: &mut String,
    table: Table,
    fault: DesignFault,
    fields: &ByteRecord,
) -> Result<(), AllocError> {
    match fault {
        DesignFault::Header(_) => push_header(alloc, text, table, fields),
        DesignFault::UnknownKind(_) => push_by(alloc, text, fields),
        _ => Ok(()),
    }
}
