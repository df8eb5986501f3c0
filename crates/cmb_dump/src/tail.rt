//! The end of a net's lines.

ghost use Rattle.std.specs.Prelude.{◌≤◌};

/// What follows the level in a net's lines: the identifier code and the line's end.
#[derive(Clone, Copy)]
pub struct Tail {
    /// Four bytes, so that one store writes them all.
    pub bytes: [u8; 4],
    /// How many of them belong to the line.
    pub len: u32,
    ghost short: { len ≤ 4 },
}
