//! Worked examples of runs in rounds and of free runs, as tests.
#![tactic(auto)]

#[cfg(test)]
mod checks;
#[cfg(test)]
mod free;
#[cfg(test)]
mod rounds;
