//! Where texts come from and go to: sources and sinks of bytes, reading a source whole, and writing a text whole.
#![tactic(auto)]

pub mod reading;
pub mod sink;
pub mod source;
pub mod write_fault;

pub use reading::{ReadFault, read_whole};
pub use sink::{Failed, Limited, Room, Sink, ToWriter, write_whole};
pub use source::{FromBytes, FromReader, Source};
pub use write_fault::WriteFault;
