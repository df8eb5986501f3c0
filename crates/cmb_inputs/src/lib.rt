//! What a simulation is given: its inputs read whole, the design that their texts spell, the nets that a line picks of
//! it, what is expected of it, and what is counted of it.
#![tactic(auto)]

pub mod check;
pub mod chosen;
pub mod expected;
pub mod texts;
pub mod writing;

pub use check::{Checked, check_design};
pub use chosen::chosen_nets;
pub use expected::expected_in;
pub use texts::{InputTexts, read_input, read_names, read_texts, spelled_design};
pub use writing::write_text;
