//! What worked examples are made of: designs of given texts, clusterings of them, what the nets of a netlist are, and
//! the VCD text of given lines.
#![tactic(auto)]

pub mod clusterings;
pub mod designs;
pub mod netlists;
pub mod outcomes;
pub mod texts;

pub use clusterings::spread;
pub use designs::{Inputs, bare, design_of, judged_design, of_design, sampled, stimulated};
pub use netlists::{has_gate, has_input, has_name};
pub use outcomes::or_fail;
pub use texts::text_of;
