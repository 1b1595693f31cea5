//! Deterministic automata of acceptors, and what is built of them.
//!
//! `determinise` makes an automaton of the strings that a transducer reads, by the construction of subsets;
//! `reverse_dfa` one of these strings read backwards; `complement` one of all other strings; and `minus` takes
//! from a transducer the readings whose input an automaton accepts. The contracts say which strings are
//! accepted, with `Accepts` of specs/Tables.antt for an automaton and the readings of `weighted_relations` for
//! a transducer. How subsets are told apart lies in specs/StateSets.antt, and that no state tells the labels of
//! a class apart in specs/Alike.antt.
#![tactic(auto)]

mod buckets;
mod classes;
mod complements;
mod determines;
mod dfa;
mod kernels;
mod products;

pub use buckets::Buckets;
pub use complements::complement;
pub use determines::{determinise, reverse_dfa};
pub use dfa::Dfa;
pub use products::minus;
