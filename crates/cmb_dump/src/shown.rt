//! The nets that a text shows.

/// The nets of a design that a text shows: those of a list, which rises, or all nets where there is none.
pub type Shown<'a> = Option<&'a [u32]>;
