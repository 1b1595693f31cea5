//! Tests of the words of the command and of the sample's lines.
//!
//! What the words ask for was worked out by hand from the rules of the command's options, and the lines from the rules of the
//! generator. The tests lie in a crate of their own, as a crate with tests is proved once more with them.
#![tactic(auto)]

#[cfg(test)]
mod sample;
#[cfg(test)]
mod words;
