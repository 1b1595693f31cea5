//! Tests of places that seats share, and of what is made of them.
//!
//! What each step finds is compared with a plain model of the state words, and with rows that were worked out by hand.
//! The tests lie in a crate of their own, as a crate with tests is proved once more with them.
#![tactic(auto)]

#[cfg(test)]
mod codes;
#[cfg(test)]
mod table;
#[cfg(test)]
mod words;
