//! The words that are read without regard to case.
ghost use Rattle.std.specs.Prelude.{◌≡◌};
ghost use Rattle.cmb_netlist.specs.Kinds.{is_word, cell_of, takes_one};

use crate::netlist::{Cell, Kind};

/// Whether a text is this word, in whichever case.
pub fn is_word(text: &[u8], word: &[u8]) -> bool
    ensures { result ≡ is_word text.now word.now }
{
    text.eq_ignore_ascii_case(word)
}

/// What a word names in the place of a kind: one of the eight gates or `DFF`, in any ASCII case,
/// and `BUF` for `BUFF`. Any other word names none.
#[tactic(auto, unfolding(crate::specs::Kinds::cell_of))]
pub fn cell_named(word: &[u8]) -> Option<Cell>
    ensures { result ≡ cell_of word.now }
{
    if is_word(word, b"AND") {
        Some(Cell::Gate(Kind::And))
    } else if is_word(word, b"NAND") {
        Some(Cell::Gate(Kind::Nand))
    } else if is_word(word, b"OR") {
        Some(Cell::Gate(Kind::Or))
    } else if is_word(word, b"NOR") {
        Some(Cell::Gate(Kind::Nor))
    } else if is_word(word, b"XOR") {
        Some(Cell::Gate(Kind::Xor))
    } else if is_word(word, b"XNOR") {
        Some(Cell::Gate(Kind::Xnor))
    } else if is_word(word, b"NOT") {
        Some(Cell::Gate(Kind::Not))
    } else if is_word(word, b"BUFF") || is_word(word, b"BUF") {
        Some(Cell::Gate(Kind::Buff))
    } else if is_word(word, b"DFF") {
        Some(Cell::Flop)
    } else {
        None
    }
}

/// Whether a driver statement with this kind takes exactly one operand.
pub fn takes_one(cell: Cell) -> bool
    ensures { result ≡ takes_one cell }
{
    match cell {
        Cell::Gate(Kind::Not | Kind::Buff) | Cell::Flop => true,
        _ => false,
    }
}
