//! Netlists: nets by number, each with its name and what drives it, and the words of the kinds of gates.
#![tactic(auto)]

pub mod kinds;
pub mod laws;
pub mod limits;
pub mod name;
pub mod netlist;
mod part_count;

pub use kinds::{cell_named, is_word, takes_one};
pub use limits::{MAX_NAME, MAX_NETS, MAX_TEXT};
pub use name::{Name, Spelled};
pub use netlist::{Cell, Driver, Kind, Netlist, Operands, Pins};
pub use part_count::PartCount;
