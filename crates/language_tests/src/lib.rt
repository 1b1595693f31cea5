//! Tests of the crates that read lines, setups and grammars, by their public calls alone.
//!
//! Texts and what they say were worked out by hand from the formats. The tests lie in a crate of their own, as a crate with tests
//! is proved once more with them.
#![tactic(auto)]

#[cfg(test)]
mod devices;
#[cfg(test)]
mod faults;
#[cfg(test)]
mod lexemes;
#[cfg(test)]
mod lines;
#[cfg(test)]
mod linking;
#[cfg(test)]
mod setups;
#[cfg(test)]
mod syntax;
