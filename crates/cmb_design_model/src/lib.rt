//! A design: a netlist with its delays, its stimuli, its sampling clocks and its first levels.
#![tactic(auto)]

mod clocks;
mod delays;
pub mod design;
pub mod examples;
pub mod expected;
pub mod fault;
pub mod gates;
mod initial;
pub mod laws;
mod nets;
mod part;
pub mod plain;
mod plain_cells;
mod plain_table;
mod row_levels;
pub mod rows;
mod samples;
pub mod settings;
mod stimuli;

pub use design::Design;
pub use expected::{Expected, expected_rows};
pub use fault::DesignFault;
pub use gates::gate;
pub use plain::{MOST_CELLS, plain_waves};
pub use rows::{
    Clock, ClockRow, ClockRows, DelayRow, DelayRows, Delayed, InitialRow, InitialRows, StimulusRow,
    StimulusRows,
};
pub use settings::Settings;
