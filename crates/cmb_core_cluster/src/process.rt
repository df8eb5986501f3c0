//! What a process is: its rule and the operands that it reads.

use cmb_netlist::netlist::Kind;
use cmb_wave::Level;

/// A pin of a gate or flip-flop: the net on it, the place of the net's wave in the cluster, and the pin's delay. A
/// design has at most 65,535 nets.
#[derive(Clone, Copy)]
pub struct ProcessPin {
    pub net: u16,
    pub slot: u16,
    pub delay: u32,
}

// A sweep reads all of them, so they are kept small.
const _: () = prove!(size_of::<ProcessPin>() == 8);

/// How a process makes its level.
#[derive(Clone, Copy)]
pub enum ProcessRule {
    /// The net is not driven here: its wave is given to the cluster.
    Given,
    /// By the changes of its stimulus.
    Input,
    Gate(Kind),
    Flop {
        first: u32,
        period: u32,
        init: Level,
    },
}
