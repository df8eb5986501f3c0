//! What a command line asks for: the task, how it is run, which nets are written, and the files that it names.
#![tactic(auto)]

pub mod choice;
pub mod line;
pub mod mode;

pub use choice::{Choice, Pick};
pub use line::{Line, Request, Task};
pub use mode::Mode;
