//! What an example or a run can find wrong.

use std::alloc::AllocError;
use std::error::Error;
use std::fmt;

/// What a thread found that no contract allows, or why it couldn't go on.
#[derive(Clone, Copy, PartialEq, Eq)]
pub enum Trouble {
    Memory,
    Circuit,
    NotRight,
    Falls,
    Unknown,
    NotOwn,
    NotDriven,
    Stop,
    Finished,
    Order,
    NotExact,
    Refused,
    Stopped,
    TooLong,
    FirstSeat,
    SecondSeat,
    Published,
    Ending,
    Span,
    NoRoom,
    NotFull,
    Empty,
    NotEmpty,
    Left,
    Room,
    Capacity,
    Workers,
    Wave,
}

impl Trouble {
    // What is wrong.
    fn words(self) -> &'static str {
        match self {
            Trouble::Memory => "out of memory",
            Trouble::Circuit => "the circuit isn't a design",
            Trouble::NotRight => "a promise isn't right",
            Trouble::Falls => "a promise is below an earlier one",
            Trouble::Unknown => "a promise was found that nobody published",
            Trouble::NotOwn => "a seat doesn't find what it published",
            Trouble::NotDriven => "a seat publishes of a net that it doesn't drive",
            Trouble::Stop => "the stop word went back, or isn't found after it was raised",
            Trouble::Finished => "the number of finished workers fell, or is wrong",
            Trouble::Order => "a piece doesn't begin where the one before it ended",
            Trouble::NotExact => "a piece isn't exact",
            Trouble::Refused => "a cluster refuses what it was sent",
            Trouble::Stopped => "a worker was stopped",
            Trouble::TooLong => "a thread made all its turns and didn't come to an end",
            Trouble::FirstSeat => "the first seat doesn't find what was worked out",
            Trouble::SecondSeat => "the second seat doesn't find what was worked out",
            Trouble::Published => "what was published isn't what was worked out",
            Trouble::Ending => "a closed board doesn't tell what was worked out",
            Trouble::Span => "a piece isn't the one that was worked out",
            Trouble::NoRoom => "a link refuses a piece though it has room",
            Trouble::NotFull => "a link takes a piece though it is full",
            Trouble::Empty => "a link gives no piece though it holds one",
            Trouble::NotEmpty => "a link gives a piece though it is empty",
            Trouble::Left => "a closed link doesn't give what was put and not taken",
            Trouble::Room => "a closed link gives more than it holds",
            Trouble::Capacity => "a link's capacity isn't judged as worked out",
            Trouble::Workers => "a number of workers isn't judged as worked out",
            Trouble::Wave => "the wave that was taken isn't the one that was worked out",
        }
    }
}

// From one table: a derived one prints in each of twenty-eight arms.
impl fmt::Display for Trouble {
    fn fmt<W: fmt::Write>(&self, f: &mut fmt::Formatter<W>) -> fmt::Result {
        f.write_str(self.words())
    }
}

impl fmt::Debug for Trouble {
    fn fmt<W: fmt::Write>(&self, f: &mut fmt::Formatter<W>) -> fmt::Result {
        fmt::Display::fmt(self, f)
    }
}

impl Error for Trouble {}

impl From<AllocError> for Trouble {
    fn from(_: AllocError) -> Trouble {
        Trouble::Memory
    }
}
