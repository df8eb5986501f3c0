//! What comes of a simulation and of a command line.

use cmb_count::Counts;

/// What was simulated and written.
#[derive(Clone, Copy, Debug, PartialEq, Eq)]
pub struct Report {
    /// How many nets the design has.
    pub nets: u32,
    /// The ticks below it were simulated.
    pub horizon: u32,
    /// How many bytes the text has.
    pub written: u64,
}

/// What was expected of a run, and how much of it came otherwise.
#[derive(Clone, Copy, Debug, PartialEq, Eq)]
pub struct Comparison {
    /// Of the text that lists the rows that differ.
    pub report: Report,
    /// How many rows were expected.
    pub rows: u32,
    /// How many of them differ.
    pub differ: u32,
}

/// What was done.
#[derive(Clone, Copy)]
pub enum Done {
    /// The waveforms were written.
    Ran(Report),
    /// The table of activities was written.
    Measured(Report),
    /// The rows that differ were written.
    Compared(Comparison),
    /// The counts were written.
    Checked(Counts),
}
