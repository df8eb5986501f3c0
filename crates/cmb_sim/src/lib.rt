//! Whole simulations: `carry_out` does what a command line asks for, from the texts of its inputs to the text of its
//! output.
#![tactic(auto)]

pub mod activities;
pub mod carrying;
pub mod checking;
pub mod expecting;
mod form;
pub mod laws;
mod modes;
mod plan;
mod running;
pub mod simulation;
mod tuning;

pub use activities::measure;
pub use carrying::carry_out;
pub use checking::check;
pub use cmb_bench::{BenchFault, FaultKind};
pub use cmb_cli::{LineFault, line_message, read_line};
pub use cmb_cli_line::{Choice, Line, Mode, Pick, Request, Task};
pub use cmb_count::{Counts, Longest};
pub use cmb_design_model::{DesignFault, Settings};
pub use cmb_faults::{Comparison, Done, Fault, Report, fault_line};
pub use cmb_inputs::{Checked, InputTexts, check_design, read_texts};
pub use cmb_io::{
    Failed, FromBytes, FromReader, Limited, ReadFault, Room, Sink, Source, ToWriter, read_whole,
    write_whole,
};
pub use cmb_netlist::PartCount;
pub use cmb_wave::Level;
pub use expecting::compare;
pub use simulation::{simulate, simulate_chosen};
