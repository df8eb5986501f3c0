//! Events of slots.

use cmb_wave::Level;

/// A slot's level from a tick on.
#[derive(Clone, Copy, Debug, PartialEq, Eq)]
pub struct LevelEvent {
    /// The tick from which on the slot has the level.
    pub tick: u32,
    /// The number of the slot.
    pub slot: u32,
    /// The level.
    pub level: Level,
}
