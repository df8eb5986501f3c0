//! What stands at a line of a netlist, and which net or kind it is about.

use cmb_netlist::cell_named;

/// The line with a number, counted from 1, without white space at its ends.
pub(crate) fn line_at(text: &[u8], number: u64) -> &[u8] {
    let mut line: u64 = 0;
    for bytes in text.split(|byte| *byte == b'\n') {
        line = line.saturating_add(1);
        if line == number {
            return bytes.trim_ascii();
        }
    }
    &[]
}

fn is_mark(byte: u8) -> bool {
    matches!(byte, b'(' | b')' | b',' | b'=')
}

fn is_of_name(byte: u8) -> bool {
    !is_mark(byte) && !byte.is_ascii_whitespace() && byte != b'#'
}

// The text behind white space and comments.
fn skipped(text: &[u8]) -> &[u8] {
    let mut in_comment = false;
    for place in 0..text.len() {
        let byte = text[place];
        if byte == b'#' {
            in_comment = true;
        } else if byte == b'\n' {
            in_comment = false;
        } else if !in_comment && !byte.is_ascii_whitespace() {
            return &text[place..];
        }
    }
    &[]
}

// The first word of a text, a mark or a name, and what stands behind it.
fn first_word(text: &[u8]) -> Option<(&[u8], &[u8])> {
    let text = skipped(text);
    let first = text.first()?;
    if is_mark(*first) {
        return Some(text.split_at(1));
    }
    let end = text.iter().position(|byte| !is_of_name(*byte));
    Some(text.split_at(end.unwrap_or(text.len())))
}

// A statement drives the net.
fn is_driven(text: &[u8], name: &[u8]) -> bool {
    let mut rest = text;
    let mut before: &[u8] = &[];
    let mut last: &[u8] = &[];
    for _ in 0..text.len() {
        let Some((word, more)) = first_word(rest) else {
            return false;
        };
        let is_input = before.eq_ignore_ascii_case(b"input")
            && last == b"(".as_slice()
            && word == name;
        if is_input || (last == name && word == b"=".as_slice()) {
            return true;
        }
        before = last;
        last = word;
        rest = more;
    }
    false
}

/// The first name on a line that no statement of the netlist drives.
pub(crate) fn undriven<'a>(text: &[u8], line: &'a [u8]) -> Option<&'a [u8]> {
    let mut rest = line;
    for _ in 0..line.len() {
        let (word, more) = first_word(rest)?;
        let is_name = word.iter().all(|byte| is_of_name(*byte));
        let is_kind = more.trim_ascii_start().starts_with(b"(");
        if is_name && !is_kind && !is_driven(text, word) {
            return Some(word);
        }
        rest = more;
    }
    None
}

/// The first word on a line that stands behind an `=` and is no kind.
pub(crate) fn unknown_kind(line: &[u8]) -> Option<&[u8]> {
    let mut rest = line;
    let mut is_kind = false;
    for _ in 0..line.len() {
        let (word, more) = first_word(rest)?;
        if is_kind && cell_named(word).is_none() {
            return Some(word);
        }
        is_kind = word == b"=".as_slice();
        rest = more;
    }
    None
}
