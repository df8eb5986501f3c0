//! The readers of the tables of delays, stimuli, clocks and first levels.

ghost use Rattle.std.specs.Prelude.{◌≡◌, ◌∷◌, ◌≤◌, [], length};
ghost use Rattle.std.specs.Cmp.Lexicographic.{pointwise};
ghost use Rattle.std.specs.Str.{bytes_eq};
ghost use Rattle.csv.specs.Records.{fields_of};
ghost use Rattle.cmb_design_model.specs.Checks.{FollowsChecks};
ghost use Rattle.cmb_design_tables.specs.Fields.{fields_in};
ghost use Rattle.cmb_design_tables.specs.Readers.{clock_header, clock_record_checks, clock_row_of, delay_header};
ghost use Rattle.cmb_design_tables.specs.Readers.{delay_record_checks, delay_row_of, delayed_of, delayed_pin, level_of};
ghost use Rattle.cmb_design_tables.specs.Readers.{initial_header, initial_record_checks, initial_row_of};
ghost use Rattle.cmb_design_tables.specs.Readers.{name_checks, pin_checks, pin_of, stimulus_header};
ghost use Rattle.cmb_design_tables.specs.Readers.{stimulus_record_checks};
ghost use Rattle.cmb_design_tables.specs.Readers.{stimulus_row_of, table_checks, table_rows};
ghost use Rattle.cmb_design_tables.specs.Records.{table_records};

use crate::fields::{parse_number, split_at_colon, three_fields, two_fields};
use crate::table::{TableRow, read_table};
use cmb_design_model::DesignFault;
use cmb_design_model::rows::{
    ClockRow, ClockRows, DelayRow, DelayRows, Delayed, InitialRow, InitialRows, StimulusRow,
    StimulusRows,
};
use cmb_netlist::{MAX_TEXT, Name, cell_named};
use cmb_wave::Level;
use csv::ByteRecord;
use std::alloc::Global;

fn are_fields(row: &ByteRecord, first: &[u8], second: &[u8], third: &[u8]) -> bool
    ensures { result ≡ pointwise bytes_eq (fields_in (fields_of row.now)) (first.now ∷ second.now ∷ third.now ∷ []) }
{
    match three_fields(row) {
        Some((a, b, c)) => a == first && b == second && c == third,
        None => false,
    }
}

#[tactic(auto, unfolding(cmb_design_model::specs::Checks::first_fault))]
fn read_name(alloc: Global, bytes: &[u8]) -> Result<Name, DesignFault>
    ensures { FollowsChecks [] bytes.now result }
{
    match Name::new(alloc, bytes) {
        Ok(name) => Ok(name),
        Err(_) => Err(DesignFault::Memory),
    }
}

#[tactic(auto, unfolding(cmb_design_model::specs::Checks::first_fault, crate::specs::Readers::pin_checks))]
fn read_pin(alloc: Global, number: u32, text: &[u8]) -> Result<Delayed, DesignFault>
    ensures { FollowsChecks (pin_checks number text.now) (delayed_pin (pin_of text.now)) result }
{
    let Some((name, pin)) = split_at_colon(text) else {
        return Err(DesignFault::PinName(number));
    };
    let Some(pin) = parse_number(pin) else {
        return Err(DesignFault::PinName(number));
    };
    Ok(Delayed::Pin(read_name(alloc, name)?, pin))
}

#[tactic(auto, unfolding(cmb_design_model::specs::Checks::first_fault, crate::specs::Readers::name_checks))]
fn read_delayed(alloc: Global, number: u32, by: &[u8], name: &[u8]) -> Result<Delayed, DesignFault>
    ensures { FollowsChecks (name_checks number by.now name.now) (delayed_of by.now name.now) result }
{
    if by == b"kind".as_slice() {
        match cell_named(name) {
            Some(cell) => Ok(Delayed::Kind(cell)),
            None => Err(DesignFault::UnknownKind(number)),
        }
    } else if by == b"net".as_slice() {
        Ok(Delayed::Net(read_name(alloc, name)?))
    } else if by == b"pin".as_slice() {
        read_pin(alloc, number, name)
    } else {
        Err(DesignFault::UnknownKind(number))
    }
}

#[tactic(auto, unfolding(cmb_design_model::specs::Checks::first_fault, crate::specs::Readers::delay_record_checks))]
fn read_delay(alloc: Global, number: u32, row: &ByteRecord) -> Result<DelayRow, DesignFault>
    ensures { FollowsChecks (delay_record_checks number (fields_in (fields_of row.now)))
        (delay_row_of (fields_in (fields_of row.now))) result }
{
    let Some((by, name, delay)) = three_fields(row) else {
        return Err(DesignFault::Fields(number));
    };
    let Some(delay) = parse_number(delay) else {
        return Err(DesignFault::Number(number));
    };
    let what = read_delayed(alloc, number, by, name)?;
    if delay < 1 || delay > 1_000_000 {
        return Err(DesignFault::DelayRange(number));
    }
    Ok(DelayRow {
        what,
        delay: delay as u32,
    })
}

impl TableRow for DelayRow {
    ghost header = { delay_header };

    ghost checks = { delay_record_checks };

    ghost row_of = { delay_row_of };

    fn is_header(row: &ByteRecord) -> bool {
        are_fields(row, b"by", b"name", b"delay")
    }

    fn read_row(alloc: Global, number: u32, row: &ByteRecord) -> Result<Self, DesignFault> {
        read_delay(alloc, number, row)
    }
}

/// The rows of a table of delays, or the first fault of its records: the header is tested first (23), then each record
/// in order by 24, 25, 27, 34 and 28. `Memory` comes where a growth was refused.
pub fn read_delays(alloc: Global, text: &[u8]) -> Result<DelayRows, DesignFault>
    requires { length text.now ≤ MAX_TEXT }
    ensures { FollowsChecks (table_checks delay_header delay_record_checks (table_records text.now))
        (table_rows delay_row_of (table_records text.now)) result }
{
    read_table::<DelayRow>(alloc, text)
}

/// The level that a value names.
#[tactic(auto, unfolding(crate::specs::Readers::level_of))]
fn level_named(word: &[u8]) -> Option<Level>
    ensures { result ≡ level_of word.now }
{
    if word == b"0".as_slice() {
        Some(Level::Zero)
    } else if word == b"1".as_slice() {
        Some(Level::One)
    } else if word == b"x".as_slice() || word == b"X".as_slice() {
        Some(Level::X)
    } else {
        None
    }
}

#[tactic(auto, unfolding(cmb_design_model::specs::Checks::first_fault, crate::specs::Readers::stimulus_record_checks))]
fn read_stimulus(alloc: Global, number: u32, row: &ByteRecord) -> Result<StimulusRow, DesignFault>
    ensures { FollowsChecks (stimulus_record_checks number (fields_in (fields_of row.now)))
        (stimulus_row_of (fields_in (fields_of row.now))) result }
{
    let Some((tick, net, value)) = three_fields(row) else {
        return Err(DesignFault::Fields(number));
    };
    let Some(tick) = parse_number(tick) else {
        return Err(DesignFault::Number(number));
    };
    let Some(level) = level_named(value) else {
        return Err(DesignFault::Level(number));
    };
    let net = read_name(alloc, net)?;
    Ok(StimulusRow { tick, net, level })
}

impl TableRow for StimulusRow {
    ghost header = { stimulus_header };

    ghost checks = { stimulus_record_checks };

    ghost row_of = { stimulus_row_of };

    fn is_header(row: &ByteRecord) -> bool {
        are_fields(row, b"tick", b"net", b"value")
    }

    fn read_row(alloc: Global, number: u32, row: &ByteRecord) -> Result<Self, DesignFault> {
        read_stimulus(alloc, number, row)
    }
}

/// The rows of a table of stimuli, or the first fault of its records: the header is tested first (23), then each record
/// in order by 24, 25 and 31. `Memory` comes where a growth was refused.
pub fn read_stimuli(alloc: Global, text: &[u8]) -> Result<StimulusRows, DesignFault>
    requires { length text.now ≤ MAX_TEXT }
    ensures { FollowsChecks (table_checks stimulus_header stimulus_record_checks (table_records text.now))
        (table_rows stimulus_row_of (table_records text.now)) result }
{
    read_table::<StimulusRow>(alloc, text)
}

#[tactic(auto, unfolding(cmb_design_model::specs::Checks::first_fault, crate::specs::Readers::clock_record_checks))]
fn read_clock(alloc: Global, number: u32, row: &ByteRecord) -> Result<ClockRow, DesignFault>
    ensures { FollowsChecks (clock_record_checks number (fields_in (fields_of row.now)))
        (clock_row_of (fields_in (fields_of row.now))) result }
{
    let Some((net, first, period)) = three_fields(row) else {
        return Err(DesignFault::Fields(number));
    };
    let Some(first) = parse_number(first) else {
        return Err(DesignFault::Number(number));
    };
    let Some(period) = parse_number(period) else {
        return Err(DesignFault::Number(number));
    };
    if first > 1_000_000 || period < 1 || period > 1_000_000 {
        return Err(DesignFault::ClockRange(number));
    }
    let net = read_name(alloc, net)?;
    Ok(ClockRow {
        net,
        first: first as u32,
        period: period as u32,
    })
}

impl TableRow for ClockRow {
    ghost header = { clock_header };

    ghost checks = { clock_record_checks };

    ghost row_of = { clock_row_of };

    fn is_header(row: &ByteRecord) -> bool {
        are_fields(row, b"net", b"first", b"period")
    }

    fn read_row(alloc: Global, number: u32, row: &ByteRecord) -> Result<Self, DesignFault> {
        read_clock(alloc, number, row)
    }
}

/// The rows of a table of clocks, or the first fault of its records: the header is tested first (23), then each record
/// in order by 24, 25 and 36. `Memory` comes where a growth was refused.
pub fn read_clocks(alloc: Global, text: &[u8]) -> Result<ClockRows, DesignFault>
    requires { length text.now ≤ MAX_TEXT }
    ensures { FollowsChecks (table_checks clock_header clock_record_checks (table_records text.now))
        (table_rows clock_row_of (table_records text.now)) result }
{
    read_table::<ClockRow>(alloc, text)
}

fn are_two_fields(row: &ByteRecord, first: &[u8], second: &[u8]) -> bool
    ensures { result ≡ pointwise bytes_eq (fields_in (fields_of row.now)) (first.now ∷ second.now ∷ []) }
{
    match two_fields(row) {
        Some((a, b)) => a == first && b == second,
        None => false,
    }
}

#[tactic(auto, unfolding(cmb_design_model::specs::Checks::first_fault, crate::specs::Readers::initial_record_checks))]
fn read_first_level(alloc: Global, number: u32, row: &ByteRecord) -> Result<InitialRow, DesignFault>
    ensures { FollowsChecks (initial_record_checks number (fields_in (fields_of row.now)))
        (initial_row_of (fields_in (fields_of row.now))) result }
{
    let Some((net, value)) = two_fields(row) else {
        return Err(DesignFault::Fields(number));
    };
    let Some(level) = level_named(value) else {
        return Err(DesignFault::Level(number));
    };
    let net = read_name(alloc, net)?;
    Ok(InitialRow { net, level })
}

impl TableRow for InitialRow {
    ghost header = { initial_header };

    ghost checks = { initial_record_checks };

    ghost row_of = { initial_row_of };

    fn is_header(row: &ByteRecord) -> bool {
        are_two_fields(row, b"net", b"value")
    }

    fn read_row(alloc: Global, number: u32, row: &ByteRecord) -> Result<Self, DesignFault> {
        read_first_level(alloc, number, row)
    }
}

/// The rows of a table of first levels, or the first fault of its records: the header is tested first (23), then each
/// record in order by 24 and 31. `Memory` comes where a growth was refused.
pub fn read_initial(alloc: Global, text: &[u8]) -> Result<InitialRows, DesignFault>
    requires { length text.now ≤ MAX_TEXT }
    ensures { FollowsChecks (table_checks initial_header initial_record_checks (table_records text.now))
        (table_rows initial_row_of (table_records text.now)) result }
{
    read_table::<InitialRow>(alloc, text)
}
