//! The ticks for which a process makes its output anew.

ghost use Rattle.std.specs.Prelude.{◌≤◌};

use cmb_wave::Level;

/// The span of an output's new ticks, and the level before it.
#[derive(Clone, Copy)]
pub struct Span {
    pub before: Level,
    pub from: u32,
    pub until: u32,
    ghost ordered: { from ≤ until },
}
