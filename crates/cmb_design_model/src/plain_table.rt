//! The table of levels: a cell for each net and tick.

ghost use Rattle.std.specs.Prelude.{◌≡◌, ◌+◌, ◌*◌, ◌<◌, slice_get, length};

use cmb_wave::Level;

/// Levels tick by tick, and those of a tick net by net.
#[derive(Drop)]
pub(crate) struct Table {
    pub nets: usize,
    pub levels: Vec<Level>,
}

impl Table {
    /// The level of a net at a tick.
    pub(crate) fn level(&self, net: usize, tick: u32) -> Level
        requires { tick * self.now.nets + net < length self.now.levels.items }
        ensures { slice_get self.now.levels.items (tick * self.now.nets + net) ≡ Some result }
    {
        self.levels[tick as usize * self.nets + net]
    }
}
