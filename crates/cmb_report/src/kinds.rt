//! What is said of a word that is no kind: the kinds, and which is nearest.

use crate::shown::push_shown;
use std::alloc::{AllocError, Global};
use strsim::generic_levenshtein;

const KINDS: [&str; 9] = [
    "AND", "NAND", "OR", "NOR", "XOR", "XNOR", "NOT", "BUFF", "DFF",
];

// A word in capitals.
fn in_capitals(alloc: Global, word: &[u8]) -> Result<Vec<u8>, AllocError> {
    let mut capitals = Vec::with_capacity(alloc, word.len())?;
    for byte in word {
        capitals.push(byte.to_ascii_uppercase())?;
    }
    Ok(capitals)
}

// The kind at the least edit distance (Levenshtein) from a word, at most half of the word's length; the first of
// several.
fn nearest(alloc: Global, word: &[u8]) -> Result<Option<&'static str>, AllocError> {
    let capitals = in_capitals(alloc, word)?;
    let mut found = None;
    let mut least = word.len() / 2;
    for kind in KINDS {
        let steps = generic_levenshtein(alloc, capitals.as_slice(), kind.as_bytes())?;
        if steps < least || (steps == least && found.is_none()) {
            least = steps;
            found = Some(kind);
        }
    }
    Ok(found)
}

// Which kind is nearest to a word, where one is near.
fn push_nearest(alloc: Global, text: &mut String, word: &[u8]) -> Result<(), AllocError> {
    match nearest(alloc, word)? {
        Some(kind) => {
            push_shown(text, word)?;
            write!(text, " is nearest to {kind}, and ")
        }
        None => Ok(()),
    }
}

/// Says which kinds there are, and which of them is nearest to a word, where that is known.
pub(crate) fn push_kinds(
    alloc: Global,
    text: &mut String,
    word: Option<&[u8]>,
) -> Result<(), AllocError> {
    text.push_str("; ")?;
    if let Some(word) = word {
        push_nearest(alloc, text, word)?;
    }
    text.push_str("the kinds are AND, NAND, OR, NOR, XOR, XNOR, NOT, BUFF (or BUF) and DFF")
}
