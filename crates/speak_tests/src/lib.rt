//! Tests of the top call: what runs write, and their status.
//!
//! What the runs write was worked out by hand from the rules of grammars, lines and setups. The tests lie in a crate of their own, as
//! a crate with tests is proved once more with them.
#![tactic(auto)]

#[cfg(test)]
mod devices;
#[cfg(test)]
mod speaking;
