//! How a design is run.

use cmb_netlist::PartCount;

/// How a design is run.
#[derive(Clone, Copy, Debug, PartialEq, Eq)]
pub enum Mode {
    /// By a table with a place for each net and tick, of at most 16,777,216 places.
    Plain,
    /// By rounds: the nets are spread over this many clusters, and these over this many workers.
    Rounds {
        workers: PartCount,
        clusters: PartCount,
    },
    /// By workers that run freely, over this many clusters. The text is written while they run.
    Free {
        workers: PartCount,
        clusters: PartCount,
    },
}
