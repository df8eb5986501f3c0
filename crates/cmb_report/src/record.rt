//! Where a record of a table stands, and what it says.

use crate::shown::push_shown;
use crate::table::Table;
use cmb_design_model::DesignFault;
use csv::{ByteRecord, Reader, ReaderBuilder};
use std::alloc::{AllocError, Global};

/// A record of a table.
#[derive(Drop)]
pub(crate) struct Found {
    /// The line of the file at which it begins, counted from 1.
    pub(crate) line: u64,
    pub(crate) fields: ByteRecord,
}

const MARK: &[u8] = b"\xef\xbb\xbf";

// The text without a byte order mark.
fn unmarked(text: &[u8]) -> &[u8] {
    match text.strip_prefix(MARK) {
        Some(rest) => rest,
        None => text,
    }
}

fn is_line_end(byte: u8) -> bool {
    byte == b'\n' || byte == b'\r'
}

// The number of the line, counted from 1, of the first byte from an offset on that ends no line. A line ends with a
// line feed, a carriage return, or both.
fn line_from(text: &[u8], offset: u64) -> u64 {
    let mut line: u64 = 1;
    let mut place: u64 = 0;
    let mut last = 0;
    for byte in text {
        if place >= offset && !is_line_end(*byte) {
            return line;
        }
        if is_line_end(*byte) && !(*byte == b'\n' && last == b'\r') {
            line = line.saturating_add(1);
        }
        last = *byte;
        place = place.saturating_add(1);
    }
    line
}

/// A reader of a table's records, or of those behind its header.
pub(crate) fn reader_of<'a>(alloc: Global, text: &'a [u8], skips_header: bool) -> Reader<&'a [u8]> {
    ReaderBuilder::new()
        .has_headers(skips_header)
        .flexible(true)
        .from_reader(alloc, text)
}

/// Reads the next record. No: there is none, or no memory.
pub(crate) fn reads_next(reader: &mut Reader<&[u8]>, record: &mut ByteRecord) -> bool {
    matches!(reader.read_byte_record(record), Ok(true))
}

// Reads so many records, and says whether there are as many.
fn reads_to(reader: &mut Reader<&[u8]>, record: &mut ByteRecord, number: u64) -> bool {
    for _ in 0..number {
        if !reads_next(reader, record) {
            return false;
        }
    }
    true
}

// The record with a number, counted from 1.
fn numbered(alloc: Global, text: &[u8], number: u64) -> Option<ByteRecord> {
    let mut record = ByteRecord::new(alloc);
    if reads_to(&mut reader_of(alloc, text, false), &mut record, number) {
        Some(record)
    } else {
        None
    }
}

/// The record with a number, counted from 1; `None` where there is none, or no memory.
pub(crate) fn record_at(alloc: Global, text: &[u8], number: u64) -> Option<Found> {
    let text = unmarked(text);
    let fields = numbered(alloc, text, number)?;
    let offset = fields.position().map(|at| at.byte());
    Some(Found {
        line: line_from(text, offset?),
        fields,
    })
}

// The field that is wrong, counted from 0, where it is one alone.
fn wrong_field(table: Table, fault: DesignFault) -> Option<usize> {
    match (table, fault) {
        (Table::Delays, DesignFault::Number(_) | DesignFault::DelayRange(_)) => Some(2),
        (Table::Delays, DesignFault::UnknownNet(_) | DesignFault::DelayOfInput(_)) => Some(1),
        (Table::Delays, DesignFault::PinName(_) | DesignFault::NoPin(_)) => Some(1),
        (Table::Stimuli, DesignFault::Number(_)) => Some(0),
        (Table::Stimuli, DesignFault::UnknownNet(_) | DesignFault::NotInput(_)) => Some(1),
        (Table::Stimuli, DesignFault::Level(_)) => Some(2),
        (Table::Clocks, DesignFault::UnknownNet(_) | DesignFault::NotFlop(_)) => Some(0),
        (Table::Initial, DesignFault::UnknownNet(_) | DesignFault::NotFlop(_)) => Some(0),
        (Table::Initial, DesignFault::Level(_)) => Some(1),
        (Table::Expected, DesignFault::Number(_) | DesignFault::BeyondHorizon(_)) => Some(0),
        (Table::Expected, DesignFault::UnknownNet(_)) => Some(1),
        (Table::Expected, DesignFault::Level(_)) => Some(2),
        _ => None,
    }
}

/// All fields with commas between them.
pub(crate) fn push_fields(text: &mut String, fields: &ByteRecord) -> Result<(), AllocError> {
    let mut is_first = true;
    for field in fields.iter() {
        if !is_first {
            text.push_str(",")?;
        }
        push_shown(text, field)?;
        is_first = false;
    }
    Ok(())
}

/// What is wrong of a record: the field, or the record where it is no one field.
pub(crate) fn push_wrong(
    text: &mut String,
    table: Table,
    fault: DesignFault,
    fields: &ByteRecord,
) -> Result<(), AllocError> {
    if let Some(number) = wrong_field(table, fault) {
        if let Some(field) = fields.get(number) {
            return push_shown(text, field);
        }
    }
    push_fields(text, fields)
}
