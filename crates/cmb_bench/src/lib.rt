//! The reader of `.bench` netlists, the form of the ISCAS'89 benchmark set (Brglez, Bryan and
//! Kozminski, 1989): nets by number, each with its name and its one driver.
#![tactic(auto)]

mod build;
mod buses;
mod fault;
pub mod laws;
mod listed;
mod parser;
mod reader;
mod text;

pub use cmb_netlist::{
    Cell, Driver, Kind, MAX_NAME, MAX_NETS, MAX_TEXT, Name, Netlist, Operands, cell_named,
};
pub use fault::{BenchFault, FaultKind};
pub use listed::{ListFault, read_list};
pub use reader::read_bench;
