//! Tests of the search that runs, `least_path`, over the crates that it stands on: nothing of the product uses this crate.
//!
//! [`least_of`] is the plain program that the search is held against: over one transducer and one line it keeps a list of open entries,
//! of which the first is settled next, and a list of settled pairs of a position and a state. Its contract says the whole result, by the
//! same definitions (`weighted_relations`: `Machines`, `Least`, and for why such a search is right `Searches`, `SearchRuns`). Of this crate's own
//! `specs`, `Entries` and `Growth` speak of its lists.
//!
//! The tests compare both with readings that were worked out by hand and with each other at random transducers, and let an expander give up
//! at each of its calls.
#![tactic(auto)]

mod entries;
mod firsts;
mod search;
mod settling;

pub use search::{Reading, least_of};

#[cfg(test)]
mod tests;
