//! The limits of what is read.

/// A netlist has no more nets than this.
pub const MAX_NETS: usize = 65_535;

/// A net's name has no more bytes than this.
pub const MAX_NAME: usize = 255;

/// A text that is read, a netlist or a table, has no more bytes than this: 16 MiB.
pub const MAX_TEXT: usize = 16_777_216;
