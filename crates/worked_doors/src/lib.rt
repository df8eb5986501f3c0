//! Worked examples of the seven doors: the public calls of the whole, through these crates alone, as tests.
#![tactic(auto)]

#[cfg(test)]
mod checks;
#[cfg(test)]
mod designs;
#[cfg(test)]
mod links;
#[cfg(test)]
mod programs;
#[cfg(test)]
mod protocol;
#[cfg(test)]
mod runs;
#[cfg(test)]
mod waves;
