//! Tests of the normaliser, by its public calls alone.
//!
//! Rules are small grammars (`rules`), and what lines say was worked out by hand from the definitions. The tests lie in a crate of their
//! own, as a crate with tests is proved once more with them.
#![tactic(auto)]

#[cfg(test)]
mod beside;
#[cfg(test)]
mod faults;
#[cfg(test)]
mod lines;
#[cfg(test)]
mod rules;
#[cfg(test)]
mod stopping;
#[cfg(test)]
mod toy;
