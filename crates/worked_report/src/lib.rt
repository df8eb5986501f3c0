//! Worked examples of command lines, and of what the program says beside its text, as tests: whole lines carried out
//! over memory, and what faults are in words.
#![tactic(auto)]

#[cfg(test)]
mod carried;
#[cfg(test)]
mod checks;
#[cfg(test)]
mod explanations;
#[cfg(test)]
mod lines;
#[cfg(test)]
mod numbers;
#[cfg(test)]
mod words;
