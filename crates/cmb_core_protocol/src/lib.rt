//! The protocol of Chandy and Misra and of Bryant: its five events, the machine of clocks that says what each does, and
//! the laws of that machine.
#![tactic(auto)]

pub mod event;
pub mod laws;

pub use event::{Event, PlayFault, Reply};
