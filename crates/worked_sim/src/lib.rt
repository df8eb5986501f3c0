//! Worked examples of whole simulations, as tests, by topic.
#![tactic(auto)]

#[cfg(test)]
mod activities;
#[cfg(test)]
mod cases;
#[cfg(test)]
mod checks;
#[cfg(test)]
mod chosen;
#[cfg(test)]
mod counts;
#[cfg(test)]
mod drips;
#[cfg(test)]
mod ends;
#[cfg(test)]
mod expectations;
#[cfg(test)]
mod faults;
#[cfg(test)]
mod meanings;
#[cfg(test)]
mod scopes;
#[cfg(test)]
mod stages;
#[cfg(test)]
mod tables;
#[cfg(test)]
mod waves;
