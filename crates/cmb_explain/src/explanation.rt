//! The explanation of a fault.

ghost use Rattle.std.specs.Prelude.{◌≡◌, ◌↔◌, IsSome, IfSome};
ghost use Rattle.cmb_explain.specs.Known.{IsFaultNumber, place_of};

use crate::netlist::netlist_fault;
use crate::running::running_fault;
use crate::settings::settings_fault;
use crate::tables::table_fault;

/// What the second number of a fault's line is.
#[derive(Clone, Copy, Debug, PartialEq, Eq)]
pub enum Place {
    /// The line of the netlist, counted from 1.
    Line,
    /// The record of a table, counted from 1; the header is the first.
    Record,
    /// The line of the list of nets, counted from 1.
    Listed,
    /// The number of a net.
    Net,
    /// The number of an input: 1 the netlist, 2 the delays, 3 the stimuli, 4 the clocks, 5 the list of nets, 6 the
    /// first levels, 7 what is expected.
    Input,
    /// How many bytes were written.
    Bytes,
    /// Always 0: the fault stands at no one place.
    Nowhere,
}

/// What there is to say about a fault.
#[derive(Clone, Copy, Debug)]
pub struct Explanation {
    pub number: u32,
    pub place: Place,
    /// What is wrong, in the words with which the library's text of the fault ends.
    pub meaning: &'static str,
    /// What gives the fault: a few lines of an input or of the command line.
    pub example: &'static str,
    /// What to look for, and what to do.
    pub advice: &'static str,
}

/// The explanation of the fault with this number; `None` where a simulation has no such fault.
pub fn explanation_of(number: u32) -> Option<Explanation>
    ensures known { IsSome result ↔ IsFaultNumber number }
    ensures number { IfSome result (λ e. e.number ≡ number) }
    ensures place { IfSome result (λ e. e.place ≡ place_of number) }
{
    match number {
        1..=8 => netlist_fault(number).copied(),
        23..=32 | 34..=37 | 39 => table_fault(number).copied(),
        38 | 53 | 60..=62 | 70 => running_fault(number).copied(),
        _ => settings_fault(number).copied(),
    }
}
