//! The events of the protocol, and what each answers.

ghost use Rattle.std.specs.Prelude.{◌≡◌};
ghost use Rattle.cmb_core_protocol.specs.PlayFaults.{number_of_play_fault};

use cmb_wave::{Heard, Piece, Promise};
use thiserror::Error;

/// An event. The posts of a world and its promises are lists of their own: a number is the place in its
/// list, from 0, in the order in which they were made.
#[derive(Clone, Copy)]
pub enum Event {
    /// Of a net: its process goes on as far as it can.
    Step(u32),
    /// Of a net and a tick: the net's piece from this tick up to its clock is sent.
    Post(u32, u32),
    /// Of a cluster and a post's number: the cluster is handed the piece.
    Deliver(u32, usize),
    /// Of a net: it promises how many changes it has below its clock, and the clock.
    Promise(u32),
    /// Of a cluster and a promise's number: the cluster hears the promise.
    Look(u32, usize),
}

/// The answer to an event that was not refused.
#[derive(Drop)]
pub enum Reply {
    /// The piece that is new, None where the process could not go on.
    Stepped(Option<Piece>),
    /// The post's number, None where the piece would have no ticks: then nothing is sent.
    Posted(Option<usize>),
    /// The clock of the cluster's input wave after it took the piece, in ticks.
    Delivered(u32),
    /// The promise's number, and what is promised.
    Promised(usize, Promise),
    /// What the promise told the cluster.
    Looked(Heard),
}

/// Why an event was refused.
#[derive(Clone, Copy, Debug, PartialEq, Eq, Error)]
pub enum PlayFault {
    /// 45: the net, the cluster or the number is not there.
    #[error("no such net, cluster, post or promise")]
    NoSuch,
    /// 46: the piece would begin above the net's clock.
    #[error("the piece would begin after the net's clock")]
    Beyond,
    /// 44: the cluster has no input wave of that net.
    #[error("the cluster has no input wave of the net")]
    Stranger,
    /// 42: the piece begins above the wave's clock.
    #[error("the piece begins after {clock}")]
    Gap { clock: u32 },
    /// 43: the piece ends at or below the wave's clock.
    #[error("the piece ends by {clock}")]
    Old { clock: u32 },
    /// 47: the piece's first new change, at this tick, is to the wave's last level.
    #[error("no change at {tick}")]
    Clash { tick: u32 },
    /// 70: out of memory.
    #[error("out of memory")]
    Memory,
}

impl PlayFault {
    /// The fault's number: 42 to 47, or 70.
    pub fn number(&self) -> u32
        ensures { result ≡ number_of_play_fault self.now }
    {
        match self {
            PlayFault::NoSuch => 45,
            PlayFault::Beyond => 46,
            PlayFault::Stranger => 44,
            PlayFault::Gap { .. } => 42,
            PlayFault::Old { .. } => 43,
            PlayFault::Clash { .. } => 47,
            PlayFault::Memory => 70,
        }
    }
}
