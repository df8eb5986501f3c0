//! Names and lines of an input as they are shown: what a terminal would take for a command is escaped, and no more.

use std::alloc::AllocError;

// A printable character of ASCII, or a letter or a digit of any script.
fn is_shown(character: char) -> bool {
    matches!(character, ' '..='~') || (!character.is_ascii() && character.is_alphanumeric())
}

fn push_char(text: &mut String, character: char) -> Result<(), AllocError> {
    if is_shown(character) {
        text.push(character)
    } else {
        write!(text, "{}", character.escape_default())
    }
}

fn push_chars(text: &mut String, characters: &str) -> Result<(), AllocError> {
    for character in characters.chars() {
        push_char(text, character)?;
    }
    Ok(())
}

/// Shows bytes of an input: characters as they are, but for those that can't be shown, and bytes that aren't UTF-8
/// each by its number.
pub(crate) fn push_shown(text: &mut String, bytes: &[u8]) -> Result<(), AllocError> {
    match std::str::from_utf8(bytes) {
        Ok(characters) => push_chars(text, characters),
        Err(_) => write!(text, "{}", bytes.escape_ascii()),
    }
}
