//! Tests of the crates of transducers, by their public calls alone.
//!
//! Small transducers are written as tables of arcs (`machines`), or as grammars where operations are joined (`grammars`), and what
//! they read was worked out by hand from the relations (`readings` lists it). The tests lie in a crate of their own, as a crate
//! with tests is proved once more with them.
#![tactic(auto)]

#[cfg(test)]
mod acceptors;
#[cfg(test)]
mod aheads;
#[cfg(test)]
mod compositions;
#[cfg(test)]
mod grammars;
#[cfg(test)]
mod lexicons;
#[cfg(test)]
mod machines;
#[cfg(test)]
mod mergings;
#[cfg(test)]
mod operations;
#[cfg(test)]
mod readings;
#[cfg(test)]
mod rewrites;
#[cfg(test)]
mod shapings;
#[cfg(test)]
mod tuples;
