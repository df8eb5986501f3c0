//! The fields of a record: blanks at their ends, numbers, and the name and number of a pin.

ghost use Rattle.std.specs.Prelude.{◌≡◌, ◌∷◌, [], ◌≢◌, ◌<◌, length, slice_get, MatchOption, Some, None};
ghost use Rattle.csv.specs.Records.{fields_of};
ghost use Rattle.cmb_design_tables.specs.Fields.{fields_in, is_blank, number, split_pin, trim_back, trim_front};
ghost use Rattle.cmb_design_tables.specs.Fields.{trimmed};

use csv::ByteRecord;

fn is_space_or_tab(byte: u8) -> bool
    ensures { result ≡ is_blank byte }
{
    byte == b' ' || byte == b'\t'
}

fn skip_blanks(field: &[u8]) -> &[u8]
    ensures { result.now ≡ trim_front field.now }
{
    for i in 0..field.len() {
        if !is_space_or_tab(field[i]) {
            return &field[i..];
        }
    }
    &[]
}

fn drop_blanks(field: &[u8]) -> &[u8]
    ensures { result.now ≡ trim_back field.now }
{
    for i in (0..field.len()).rev() {
        if !is_space_or_tab(field[i]) {
            return &field[..i + 1];
        }
    }
    &[]
}

/// A field without the spaces and tabs at its ends.
#[tactic(auto, unfolding(crate::specs::Fields::trimmed))]
pub(crate) fn trim_blanks(field: &[u8]) -> &[u8]
    ensures { result.now ≡ trimmed field.now }
{
    drop_blanks(skip_blanks(field))
}

/// The number that a field spells: 1 to 10 digits.
pub(crate) fn parse_number(field: &[u8]) -> Option<u64>
    ensures { result ≡ number field.now }
{
    if field.is_empty() || field.len() > 10 {
        return None;
    }
    let mut value: u64 = 0;
    for digit in field {
        if !digit.is_ascii_digit() {
            return None;
        }
        value = value * 10 + u64::from(*digit - b'0');
    }
    Some(value)
}

/// The name and the pin that a field names, parted by its last colon.
pub(crate) fn split_at_colon(field: &[u8]) -> Option<(&[u8], &[u8])>
    ensures { MatchOption result (split_pin field.now ≡ None) (λ p. split_pin field.now ≡ Some (p.0.now, p.1.now)) }
{
    for i in (0..field.len()).rev() {
        if field[i] == b':' {
            return Some((&field[..i], &field[i + 1..]));
        }
    }
    None
}

fn trimmed_at(row: &ByteRecord, i: usize) -> &[u8]
    requires { i < length (fields_of row.now) }
    ensures { slice_get (fields_in (fields_of row.now)) i ≡ Some result.now }
{
    match row.get(i) {
        Some(field) => trim_blanks(field),
        None => &[],
    }
}

/// The fields of a record of two, trimmed.
pub(crate) fn two_fields(row: &ByteRecord) -> Option<(&[u8], &[u8])>
    ensures { MatchOption result (length (fields_in (fields_of row.now)) ≢ 2)
        (λ t. fields_in (fields_of row.now) ≡ t.0.now ∷ t.1.now ∷ []) }
{
    if row.len() == 2 {
        Some((trimmed_at(row, 0), trimmed_at(row, 1)))
    } else {
        None
    }
}

/// The fields of a record of three, trimmed.
pub(crate) fn three_fields(row: &ByteRecord) -> Option<(&[u8], &[u8], &[u8])>
    ensures { MatchOption result (length (fields_in (fields_of row.now)) ≢ 3)
        (λ t. fields_in (fields_of row.now) ≡ t.0.now ∷ t.1.now ∷ t.2.now ∷ []) }
{
    if row.len() == 3 {
        Some((trimmed_at(row, 0), trimmed_at(row, 1), trimmed_at(row, 2)))
    } else {
        None
    }
}
