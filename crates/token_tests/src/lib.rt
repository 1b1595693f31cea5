//! Tests of the crates of tokens and their fields, by their public calls alone.
//!
//! Texts and what they say were worked out by hand from the formats. The tests lie in a crate of their own, as a crate with tests
//! is proved once more with them.
#![tactic(auto)]

#[cfg(test)]
mod orders;
#[cfg(test)]
mod tokens;
