//! A table: a header, and then rows.

ghost use Rattle.std.specs.Prelude.{◌∷◌, ◌≤◌, [], List, ℕ, length, ◌≡◌, ◌==◌, ◌++◌, if◌then◌else◌, IfErr, IfOk};
ghost use Rattle.std.specs.Prelude.{OnOk, None, map};
ghost use Rattle.std.specs.Cmp.Lexicographic.{pointwise};
ghost use Rattle.std.specs.Str.{bytes_eq};
ghost use Rattle.csv.specs.Records.{fields_of};
ghost use Rattle.cmb_design_model.specs.Checks.{IsFaultOf, Check, FollowsChecks, first_fault};
ghost use Rattle.cmb_design_tables.specs.Fields.{fields_in};
ghost use Rattle.cmb_design_tables.specs.Readers.{record_checks, table_checks, table_rows};
ghost use Rattle.cmb_design_tables.specs.Records.{IsReading, records_left, table_records};

use crate::records::{next_record, open_records};
use cmb_design_model::DesignFault;
use cmb_design_model::rows::{Row, Rows};
use cmb_netlist::MAX_TEXT;
use csv::{ByteRecord, Reader};
use std::alloc::Global;

/// A row of a table, by its header, the checks of a record in their order, and what a record says.
pub(crate) trait TableRow: Row {
    ghost header: { List (List ℕ) };

    ghost checks: { ℕ → List (List ℕ) → List Check };

    ghost row_of: { List (List ℕ) → Self };

    /// Whether a record is the header.
    fn is_header(row: &ByteRecord) -> bool
        ensures { result ≡ pointwise bytes_eq (fields_in (fields_of row.now)) header };

    /// The row that the record with a number says.
    fn read_row(alloc: Global, number: u32, row: &ByteRecord) -> Result<Self, DesignFault>
        ensures { FollowsChecks (checks number (fields_in (fields_of row.now))) (row_of (fields_in (fields_of row.now)))
            result };
}

/// Takes the record with a number: checks that the first is the header, and keeps the row that another says.
fn take_record<T: TableRow>(
    alloc: Global,
    number: u32,
    row: &ByteRecord,
    rows: &mut Vec<T>,
) -> Result<(), DesignFault>
    ensures ok { OnOk result ((first_fault (record_checks T.header T.checks number (fields_in (fields_of row.now)))
        ≡ None)
        × (rows.new.items ≡ (if number == 1 then rows.old.items else rows.old.items
        ++ T.row_of (fields_in (fields_of row.now)) ∷ []))) }
    ensures err { IfErr result (IsFaultOf (record_checks T.header T.checks number (fields_in (fields_of row.now)))) }
{
    if number == 1 {
        if T::is_header(row) {
            Ok(())
        } else {
            Err(DesignFault::Header(1))
        }
    } else {
        let read = T::read_row(alloc, number, row)?;
        if rows.push(read).is_err() {
            return Err(DesignFault::Memory);
        }
        Ok(())
    }
}

// About how many rows a text has, at most; 12 bytes are a short row. It is a matter of room alone, and may be wrong.
fn likely_rows(text: &[u8]) -> usize {
    text.len() / 12
}

/// Takes the records that a reader has left.
fn take_records<T: TableRow>(
    alloc: Global,
    reader: &mut Reader<&[u8]>,
    row: &mut ByteRecord,
    rows: &mut Vec<T>,
) -> Result<(), DesignFault>
    requires reading { IsReading reader.old }
    requires few { length (records_left reader.old) ≤ MAX_TEXT }
    requires none { rows.old.items ≡ [] }
    ensures ok { OnOk result ((first_fault (table_checks T.header T.checks (map fields_in (records_left reader.old)))
        ≡ None)
        × (rows.new.items ≡ table_rows T.row_of (map fields_in (records_left reader.old)))) }
    ensures err { IfErr result (IsFaultOf (table_checks T.header T.checks (map fields_in (records_left reader.old)))) }
{
    for number in 1..u32::MAX {
        match next_record(reader, row) {
            Err(_) => return Err(DesignFault::Memory),
            Ok(false) => return Ok(()),
            Ok(true) => take_record(alloc, number, row, rows)?,
        }
    }
    unreachable!()
}

/// Reads a table.
pub(crate) fn read_table<T: TableRow>(alloc: Global, text: &[u8]) -> Result<Rows<T>, DesignFault>
    requires text { length text.now ≤ MAX_TEXT }
    requires lawful { (number : ℕ) (fields : List (List ℕ)) → first_fault (T.checks number fields) ≡ None
        → T.IsLawful (T.row_of fields) }
    ensures { FollowsChecks (table_checks T.header T.checks (table_records text.now))
        (table_rows T.row_of (table_records text.now)) result }
{
    let Ok(mut rows) = Vec::with_capacity(alloc, likely_rows(text)) else {
        return Err(DesignFault::Memory);
    };
    let mut reader = open_records(alloc, text);
    let mut row = ByteRecord::new(alloc);
    let taken = take_records(alloc, &mut reader, &mut row, &mut rows);
    drop((reader, row));
    match taken {
        Ok(()) => Ok(Rows::new(rows)),
        Err(fault) => Err(fault),
    }
}
