//! The protocol of Chandy and Misra and of Bryant for logical processes that have the same windows, as shares of a
//! circuit have them: a machine of their clocks, and its laws.
#![tactic(auto)]

pub mod laws;
