//! Why there is no design.

ghost use Rattle.std.specs.Prelude.{◌≡◌, ◌==◌};
ghost use Rattle.std.proofs.Common.{rules};
ghost use Rattle.std.specs.Cmp.Rules.{comparing};
ghost use Rattle.std.specs.Ordering.{eq_of_both, on};
ghost use Rattle.cmb_design_model.specs.Faults.{fault_number, fault_record};

use std::error::Error;
use std::fmt;

/// Why a table, the settings or the rows make no design, or what is expected of its run can't be. A fault of a table or
/// of its rows holds the number of the record at which it stands; the header is record 1.
#[derive(Clone, Copy)]
pub enum DesignFault {
    /// 20: the horizon isn't 1 to 1,000,000 ticks.
    Horizon,
    /// 21: the common clock's first tick is above 1,000,000, or its period isn't 1 to 1,000,000 ticks.
    Clock,
    /// 22: a flip-flop has no clock row, and no common clock is given.
    NoClock,
    /// 23: the first record isn't the table's header.
    Header(u32),
    /// 24: a record hasn't as many fields as the table's header.
    Fields(u32),
    /// 25: a number isn't 1 to 10 digits.
    Number(u32),
    /// 26: the netlist hasn't the net.
    UnknownNet(u32),
    /// 27: a delay row is by none of `kind`, `net` and `pin`, or its kind is none.
    UnknownKind(u32),
    /// 28: the delay isn't 1 to 1,000,000 ticks.
    DelayRange(u32),
    /// 29: an earlier row is about the same kind, net, pin, or net and tick.
    RepeatedRow(u32),
    /// 30: a stimulus is of a net that is no input.
    NotInput(u32),
    /// 31: a value isn't 0, 1, x or X.
    Level(u32),
    /// 32: an input has no delay.
    DelayOfInput(u32),
    /// 33: the table of all levels would have more than 16,777,216 cells.
    TableTooLarge,
    /// 34: the name of a pin isn't a net's name, `:` and a number.
    PinName(u32),
    /// 35: the net has no such pin.
    NoPin(u32),
    /// 36: the first tick is above 1,000,000, or the period isn't 1 to 1,000,000 ticks.
    ClockRange(u32),
    /// 37: a clock is of a net that no flip-flop drives.
    NotFlop(u32),
    /// 39: the tick of what is expected isn't below the horizon.
    BeyondHorizon(u32),
    /// 70: memory ran out. This is no fault of the inputs.
    Memory,
}

impl DesignFault {
    /// The fault's number: 20 to 37, 39, or 70 where memory ran out.
    pub fn number(&self) -> u32
        ensures { result ≡ fault_number self.now }
    {
        match self {
            DesignFault::Horizon => 20,
            DesignFault::Clock => 21,
            DesignFault::NoClock => 22,
            DesignFault::Header(_) => 23,
            DesignFault::Fields(_) => 24,
            DesignFault::Number(_) => 25,
            DesignFault::UnknownNet(_) => 26,
            DesignFault::UnknownKind(_) => 27,
            DesignFault::DelayRange(_) => 28,
            DesignFault::RepeatedRow(_) => 29,
            DesignFault::NotInput(_) => 30,
            DesignFault::Level(_) => 31,
            DesignFault::DelayOfInput(_) => 32,
            DesignFault::TableTooLarge => 33,
            DesignFault::PinName(_) => 34,
            DesignFault::NoPin(_) => 35,
            DesignFault::ClockRange(_) => 36,
            DesignFault::NotFlop(_) => 37,
            DesignFault::BeyondHorizon(_) => 39,
            DesignFault::Memory => 70,
        }
    }

    /// The number of the record at which the fault stands, counted from 1; 0 where it stands at none.
    pub fn record(&self) -> u32
        ensures { result ≡ fault_record self.now }
    {
        match self {
            DesignFault::Horizon
            | DesignFault::Clock
            | DesignFault::NoClock
            | DesignFault::TableTooLarge
            | DesignFault::Memory => 0,
            DesignFault::Header(record)
            | DesignFault::Fields(record)
            | DesignFault::Number(record)
            | DesignFault::UnknownNet(record)
            | DesignFault::UnknownKind(record)
            | DesignFault::DelayRange(record)
            | DesignFault::RepeatedRow(record)
            | DesignFault::NotInput(record)
            | DesignFault::Level(record)
            | DesignFault::DelayOfInput(record)
            | DesignFault::PinName(record)
            | DesignFault::NoPin(record)
            | DesignFault::ClockRange(record)
            | DesignFault::NotFlop(record)
            | DesignFault::BeyondHorizon(record) => *record,
        }
    }

    // What is wrong, without the record.
    fn words(&self) -> &'static str {
        match self {
            DesignFault::Horizon => "the horizon isn't 1 to 1,000,000",
            DesignFault::Clock => {
                "the common clock's first tick is above 1,000,000, or its period isn't 1 to 1,000,000"
            }
            DesignFault::NoClock => "a flip-flop has no clock row, and there is no common clock",
            DesignFault::Header(_) => "not the table's header",
            DesignFault::Fields(_) => "not as many fields as the header",
            DesignFault::Number(_) => "a number is 1 to 10 digits",
            DesignFault::UnknownNet(_) => "the netlist hasn't this net",
            DesignFault::UnknownKind(_) => "no such kind",
            DesignFault::DelayRange(_) => "the delay isn't 1 to 1,000,000",
            DesignFault::RepeatedRow(_) => "an earlier row is about the same",
            DesignFault::NotInput(_) => "the net isn't an input",
            DesignFault::Level(_) => "a value is 0, 1, x or X",
            DesignFault::DelayOfInput(_) => "an input has no delay",
            DesignFault::TableTooLarge => {
                "the table of all levels would have more than 16,777,216 cells"
            }
            DesignFault::PinName(_) => "a pin's name is a net's name, a colon and a number",
            DesignFault::NoPin(_) => "the net has no such pin",
            DesignFault::ClockRange(_) => {
                "the first tick is above 1,000,000, or the period isn't 1 to 1,000,000"
            }
            DesignFault::NotFlop(_) => "the net isn't driven by a flip-flop",
            DesignFault::BeyondHorizon(_) => "the tick isn't below the horizon",
            DesignFault::Memory => "out of memory",
        }
    }
}

// By the two numbers that a fault is known by: a derived one has twenty arms.
impl PartialEq for DesignFault {
    ghost eq = { eq_of_both (on fault_number ◌==◌) (on fault_record ◌==◌) };

    ghost laws = { Prim.search (comparing, rules) };

    fn eq(&self, other: &DesignFault) -> bool {
        self.number() == other.number() && self.record() == other.record()
    }
}

impl Eq for DesignFault {
    ghost laws = { Prim.search (comparing, rules) };
}

impl fmt::Display for DesignFault {
    fn fmt<W: fmt::Write>(&self, f: &mut fmt::Formatter<W>) -> fmt::Result {
        match self.record() {
            0 => f.write_str(self.words()),
            record => write!(f, "record {record}: {}", self.words()),
        }
    }
}

// In the words of `Display`: a derived one prints in each of twenty arms.
impl fmt::Debug for DesignFault {
    fn fmt<W: fmt::Write>(&self, f: &mut fmt::Formatter<W>) -> fmt::Result {
        fmt::Display::fmt(self, f)
    }
}

impl Error for DesignFault {}
