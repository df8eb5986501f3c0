//! The rows of the tables.

ghost use Rattle.std.specs.Prelude.{◌≡◌};

use cmb_netlist::{Cell, Name};
use cmb_wave::Level;
use std::marker::Model;

/// A row of one of the tables, with what holds of its numbers.
pub trait Row: Sized + Drop {
    ghost IsLawful: { Self → Type 0 };
}

/// What a row of the delay table is about.
#[derive(Drop)]
pub enum Delayed {
    /// One pin of a net's driver, counted from 1.
    Pin(Name, u64),
    /// All pins of a net's driver.
    Net(Name),
    /// All pins of the drivers of a kind.
    Kind(Cell),
}

/// A row of the delay table.
#[derive(Drop)]
pub struct DelayRow {
    pub what: Delayed,
    /// In ticks.
    pub delay: u32,
}

impl Row for DelayRow {
    ghost use Rattle.cmb_design_model.specs.Ranges.{IsDelayRow};

    ghost IsLawful = { IsDelayRow };
}

/// A row of the stimulus table.
#[derive(Drop)]
pub struct StimulusRow {
    /// The tick from which on the net has the level; it may lie beyond the horizon, and beyond 32 bits.
    pub tick: u64,
    pub net: Name,
    pub level: Level,
}

impl Row for StimulusRow {
    ghost use Rattle.cmb_design_model.specs.Ranges.{IsStimulusRow};

    ghost IsLawful = { IsStimulusRow };
}

/// A row of the clock table.
#[derive(Drop)]
pub struct ClockRow {
    pub net: Name,
    /// The first sample tick.
    pub first: u32,
    /// In ticks.
    pub period: u32,
}

impl Row for ClockRow {
    ghost use Rattle.cmb_design_model.specs.Ranges.{IsClockRow};

    ghost IsLawful = { IsClockRow };
}

/// A row of the table of first levels.
#[derive(Drop)]
pub struct InitialRow {
    pub net: Name,
    /// What the flip-flop shows until its first sample does.
    pub level: Level,
}

impl Row for InitialRow {
    ghost use Rattle.cmb_design_model.specs.Ranges.{IsInitialRow};

    ghost IsLawful = { IsInitialRow };
}

/// A sampling clock: its ticks are `first`, `first + period`, `first + 2 * period` and so on.
#[derive(Clone, Copy, Debug, PartialEq, Eq)]
pub struct Clock {
    /// The first sample tick.
    pub first: u32,
    /// In ticks.
    pub period: u32,
}

/// The rows of a table, in the order of their records, with their numbers in range.
#[derive(Drop)]
pub struct Rows<R: Row> {
    rows: Vec<R>,
}

impl<R: Row> Model for Rows<R> {
    ghost use Rattle.std.specs.Prelude.{List};
    ghost use Rattle.cmb_design_model.specs.Ranges.{AreRows};

    ghost Value = { List R };

    ghost view = { λ a. a.rows.items };

    ghost invariant = { λ a. AreRows R.IsLawful a.rows.items };
}

impl<R: Row> Rows<R> {
    ghost use Rattle.cmb_design_model.specs.Ranges.{AreRows};

    /// The rows of a table that was read.
    pub fn new(rows: Vec<R>) -> Rows<R>
        requires { AreRows R.IsLawful rows.items }
        ensures { result ≡ rows.items }
    {
        Rows { rows }
    }

    /// The rows, in the order of their records.
    pub fn as_slice(&self) -> &[R]
        ensures value { result.now ≡ self.now }
        ensures lawful { AreRows R.IsLawful self.now }
    {
        self.rows.as_slice()
    }
}

/// The rows of a delay table.
pub type DelayRows = Rows<DelayRow>;

/// The rows of a stimulus table.
pub type StimulusRows = Rows<StimulusRow>;

/// The rows of a clock table.
pub type ClockRows = Rows<ClockRow>;

/// The rows of a table of first levels.
pub type InitialRows = Rows<InitialRow>;
