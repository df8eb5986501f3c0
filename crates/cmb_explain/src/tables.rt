//! The faults of the tables.

ghost use Rattle.std.specs.Prelude.{◌≡◌, ◌↔◌, IsSome, IfSome};
ghost use Rattle.cmb_explain.specs.Known.{IsTableFault};

use crate::explanation::{Explanation, Place};

static HEADER: Explanation = Explanation {
    number: 23,
    place: Place::Record,
    meaning: "not the table's header",
    example: "\
kind;NAND;3",
    advice: "\
Begin delays with by,name,delay, clocks with net,first,period, first levels with net,value, and
stimuli and what is expected with tick,net,value, in small letters. Between fields stands a comma:
a spreadsheet that writes ; or tabs has to be told. See also that each table went to its own option.",
};

static FIELDS: Explanation = Explanation {
    number: 24,
    place: Place::Record,
    meaning: "not as many fields as the header",
    example: "\
by,name,delay
kind,NAND",
    advice: "\
Look for a comma that is missing or one too many. A name with a comma stands in double quotes.",
};

static NUMBER: Explanation = Explanation {
    number: 25,
    place: Place::Record,
    meaning: "a number is 1 to 10 digits",
    example: "\
by,name,delay
kind,NAND,3ns",
    advice: "\
Write digits alone: no sign, unit or point. Delays, ticks, first ticks and periods are numbers.",
};

static UNKNOWN_NET: Explanation = Explanation {
    number: 26,
    place: Place::Record,
    meaning: "the netlist hasn't this net",
    example: "\
tick,net,value
5,A,1
with INPUT(a) in the netlist",
    advice: "\
Mend the spelling, in capitals or not as in the netlist, and look for quotes or brackets that were
added to the name.",
};

static UNKNOWN_KIND: Explanation = Explanation {
    number: 27,
    place: Place::Record,
    meaning: "no such kind",
    example: "\
by,name,delay
kind,MUX,3",
    advice: "\
A row of delays begins with kind, net or pin, and behind kind stands AND, NAND, OR, NOR, XOR, XNOR,
NOT, BUFF (or BUF) or DFF.",
};

static DELAY_RANGE: Explanation = Explanation {
    number: 28,
    place: Place::Record,
    meaning: "the delay isn't 1 to 1,000,000",
    example: "\
by,name,delay
kind,NOT,0",
    advice: "\
No delay is 0: give all delays and periods in a finer tick.",
};

static REPEATED_ROW: Explanation = Explanation {
    number: 29,
    place: Place::Record,
    meaning: "an earlier row is about the same",
    example: "\
tick,net,value
5,a,0
5,a,1",
    advice: "\
Keep one row of each kind, net or pin in the delays, of each tick and net in the stimuli and in what
is expected, and of each net in the clocks and in the first levels.",
};

static NOT_INPUT: Explanation = Explanation {
    number: 30,
    place: Place::Record,
    meaning: "the net isn't an input",
    example: "\
tick,net,value
5,y,1
with y = NOT(a) in the netlist",
    advice: "\
A net that a gate or a flip-flop drives can't be given a level: make it an INPUT, or leave the row
out.",
};

static LEVEL: Explanation = Explanation {
    number: 31,
    place: Place::Record,
    meaning: "a value is 0, 1, x or X",
    example: "\
tick,net,value
5,a,z",
    advice: "\
There is no z: write x. A bus gets its bits one by one; tools/stimuli.py makes such rows.",
};

static DELAY_OF_INPUT: Explanation = Explanation {
    number: 32,
    place: Place::Record,
    meaning: "an input has no delay",
    example: "\
by,name,delay
net,a,3
with INPUT(a) in the netlist",
    advice: "\
Move the rows of its stimuli to later ticks instead.",
};

static PIN_NAME: Explanation = Explanation {
    number: 34,
    place: Place::Record,
    meaning: "a pin's name is a net's name, a colon and a number",
    example: "\
by,name,delay
pin,y,3",
    advice: "\
Write y:2 for the second operand of y, or begin the row with net for all operands of y.",
};

static NO_PIN: Explanation = Explanation {
    number: 35,
    place: Place::Record,
    meaning: "the net has no such pin",
    example: "\
by,name,delay
pin,y:3,5
with y = AND(a, b) in the netlist",
    advice: "\
Pins count from 1 in the order of the operands; a flip-flop has pin 1 alone.",
};

static CLOCK_RANGE: Explanation = Explanation {
    number: 36,
    place: Place::Record,
    meaning: "the first tick is above 1,000,000, or the period isn't 1 to 1,000,000",
    example: "\
net,first,period
q,4,0",
    advice: "\
Mend the row. A flip-flop that samples once has a period behind the horizon.",
};

static NOT_FLOP: Explanation = Explanation {
    number: 37,
    place: Place::Record,
    meaning: "the net isn't driven by a flip-flop",
    example: "\
net,first,period
y,4,10
with y = NOT(a) in the netlist",
    advice: "\
Only a net that a DFF drives samples, or has a first level: name the flip-flop's own net, not its data.",
};

static BEYOND_HORIZON: Explanation = Explanation {
    number: 39,
    place: Place::Record,
    meaning: "the tick isn't below the horizon",
    example: "\
tick,net,value
400,y,1
with --horizon 400",
    advice: "\
A run has the ticks 0 to one less than the horizon. Raise --horizon, or leave the row out.",
};

/// The explanation of a fault of a table; `None` of any other number.
pub(crate) fn table_fault(number: u32) -> Option<&'static Explanation>
    ensures known { IsSome result ↔ IsTableFault number }
    ensures number { IfSome result (λ e. e.now.number ≡ number) }
    ensures place { IfSome result (λ e. e.now.place ≡ Place.Record) }
{
    match number {
        23 => Some(&HEADER),
        24 => Some(&FIELDS),
        25 => Some(&NUMBER),
        26 => Some(&UNKNOWN_NET),
        27 => Some(&UNKNOWN_KIND),
        28 => Some(&DELAY_RANGE),
        29 => Some(&REPEATED_ROW),
        30 => Some(&NOT_INPUT),
        31 => Some(&LEVEL),
        32 => Some(&DELAY_OF_INPUT),
        34 => Some(&PIN_NAME),
        35 => Some(&NO_PIN),
        36 => Some(&CLOCK_RANGE),
        37 => Some(&NOT_FLOP),
        39 => Some(&BEYOND_HORIZON),
        _ => None,
    }
}
