//! The faults of the netlist.

ghost use Rattle.std.specs.Prelude.{◌≡◌, ◌↔◌, IsSome, IfSome};
ghost use Rattle.cmb_explain.specs.Known.{IsNetlistFault};

use crate::explanation::{Explanation, Place};

static BYTE: Explanation = Explanation {
    number: 1,
    place: Place::Line,
    meaning: "a byte that no netlist has",
    example: "a byte order mark before the first statement, or a letter with an accent in a name",
    advice: "\
Save the file as ASCII without a byte order mark. Names, brackets, commas, = and white space are
all that stands in a netlist; in a comment, from # to the end of its line, any bytes may stand.",
};

static STATEMENT: Explanation = Explanation {
    number: 2,
    place: Place::Line,
    meaning: "not a statement",
    example: "y = NOT(a",
    advice: "\
Look for a missing bracket, comma or =, also at the end of the line before; for a keyword besides
INPUT and OUTPUT; on the last line for a statement that was cut short.",
};

static KIND: Explanation = Explanation {
    number: 3,
    place: Place::Line,
    meaning: "not a kind",
    example: "k = vdd",
    advice: "\
The kinds are AND, NAND, OR, NOR, XOR, XNOR, NOT, BUFF (or BUF) and DFF. In the place of a
constant, k = vdd or k = gnd as ABC writes it, write INPUT(k), and give k its level by a row of
the table of stimuli: 0,k,1 or 0,k,0.",
};

static OPERANDS: Explanation = Explanation {
    number: 4,
    place: Place::Line,
    meaning: "too many operands",
    example: "y = NOT(a, b)",
    advice: "\
NOT, BUFF and DFF take one operand: keep one, or take NAND or AND, or put a gate before it.
A DFF has its data alone; its clock is given by --clock or the table of clocks.",
};

static DRIVEN: Explanation = Explanation {
    number: 5,
    place: Place::Line,
    meaning: "driven twice",
    example: "\
INPUT(a)
a = NOT(b)",
    advice: "\
Look for a repeated line. An INPUT drives its net too, and each net has one driver.",
};

static UNDRIVEN: Explanation = Explanation {
    number: 6,
    place: Place::Line,
    meaning: "not driven",
    example: "\
INPUT(a)
y = NOT(b)",
    advice: "\
Mend the spelling of the operand or output, in capitals or not as where it is driven, or add an
INPUT or the missing gate.",
};

static TOO_MANY: Explanation = Explanation {
    number: 7,
    place: Place::Line,
    meaning: "too many nets",
    example: "a netlist that drives 65,536 nets",
    advice: "\
There are at most 65,535 nets: cut the circuit into parts.",
};

static NAME: Explanation = Explanation {
    number: 8,
    place: Place::Line,
    meaning: "a name that is too long",
    example: "INPUT(a..) with a name of 256 bytes",
    advice: "\
A name has at most 255 bytes: shorten it. Look also for a comma or bracket that was left out.",
};

/// The explanation of a fault of the netlist; `None` of any other number.
pub(crate) fn netlist_fault(number: u32) -> Option<&'static Explanation>
    ensures known { IsSome result ↔ IsNetlistFault number }
    ensures number { IfSome result (λ e. e.now.number ≡ number) }
    ensures place { IfSome result (λ e. e.now.place ≡ Place.Line) }
{
    match number {
        1 => Some(&BYTE),
        2 => Some(&STATEMENT),
        3 => Some(&KIND),
        4 => Some(&OPERANDS),
        5 => Some(&DRIVEN),
        6 => Some(&UNDRIVEN),
        7 => Some(&TOO_MANY),
        8 => Some(&NAME),
        _ => None,
    }
}
