//! The event list of the engine: a calendar queue with a list for each *day* of 64 ticks. All events below a tick are
//! taken out at once.
#![tactic(auto)]

pub mod calendar;
mod days;
pub mod event;
mod order;

pub use calendar::Calendar;
pub use event::LevelEvent;
