//! The door to designs: a design with its settings, the readers of its tables, gate functions, and the values of its
//! nets by a plain table.
#![tactic(auto)]

pub use cmb_design_model::{
    Clock, ClockRow, ClockRows, DelayRow, DelayRows, Delayed, Design, DesignFault, Expected,
    InitialRow, InitialRows, MOST_CELLS, Settings, StimulusRow, StimulusRows, expected_rows, gate,
    plain_waves,
};
pub use cmb_design_tables::{read_clocks, read_delays, read_initial, read_stimuli};
