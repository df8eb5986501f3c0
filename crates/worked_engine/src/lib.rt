//! Worked examples of what the engine of words and its runs are made of, as tests: words, calendars, components,
//! partitions, parts of a design, shares of its nets, dumps, the text of chosen nets, how active nets are, and what
//! is expected of them.
#![tactic(auto)]

#[cfg(test)]
mod activities;
#[cfg(test)]
mod ahead;
#[cfg(test)]
mod calendars;
#[cfg(test)]
mod checks;
#[cfg(test)]
mod components;
#[cfg(test)]
mod dumps;
#[cfg(test)]
mod expectations;
#[cfg(test)]
mod findings;
#[cfg(test)]
mod inverter;
#[cfg(test)]
mod masks;
#[cfg(test)]
mod nets;
#[cfg(test)]
mod partitions;
#[cfg(test)]
mod parts;
#[cfg(test)]
mod paths;
#[cfg(test)]
mod pieces;
#[cfg(test)]
mod shares;
#[cfg(test)]
mod texts;
#[cfg(test)]
mod windows;
#[cfg(test)]
mod words;
