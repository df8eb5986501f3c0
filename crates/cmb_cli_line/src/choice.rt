//! Which nets are written.

/// Which nets are written.
#[derive(Clone, Copy, Debug, PartialEq, Eq)]
pub enum Choice {
    /// All nets.
    All,
    /// Some nets, by rising number, each once.
    Only(Pick),
}

/// What names the nets that are written.
#[derive(Clone, Copy, Debug, PartialEq, Eq)]
pub enum Pick {
    /// A list of names: input 5.
    Listed,
    /// The netlist's `OUTPUT` statements.
    Outputs,
}
