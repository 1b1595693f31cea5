//! Keys that are numbered by their first arrival.
//!
//! The states of a transducer that is built on the way, as by the construction of subsets or by composition, are
//! known by keys: sets of states, pairs or triples of them. A `StateTable` gives each key a number, from 0 in the
//! order in which the keys come first, as OpenFst's state tables do. The contract sees the list of the keys, in which
//! no key stands twice, and the number of a key is its place there; specs/Numbers.antt says what a key is given, and
//! proofs/Numbering.antt what follows.
#![tactic(auto)]

mod keys;
mod sets;
mod tables;

pub use keys::Key;
pub use sets::StateSet;
pub use tables::StateTable;

#[cfg(test)]
mod tests;
