//! Worked examples of the public calls, from waves to texts, as tests.
#![tactic(auto)]

#[cfg(test)]
mod checks;
#[cfg(test)]
mod clusters;
#[cfg(test)]
mod designs;
#[cfg(test)]
mod netlists;
#[cfg(test)]
mod scopes;
#[cfg(test)]
mod texts;
#[cfg(test)]
mod toggle;
#[cfg(test)]
mod trims;
#[cfg(test)]
mod waves;
#[cfg(test)]
mod worlds;
