//! Lexicons: many strings, each with one that is written for it, as one transducer that is a tree.
//!
//! `lexicon` gives the union of its entries. Inputs that begin alike share the states of what they begin with, so
//! the states that are entered at a place of a text don't grow with the number of entries. Its clause `readings` says
//! that it has exactly the readings of the entries, `ReadsEntry` in `specs/Entries.antt`, and `ordered` that the arcs
//! of each state stand in the order of their labels and no two have the same ones, `AreOrdered` in
//! `specs/Shapes.antt`. The definitions in `specs/Growing.antt` are of the crate's own parts.
//!
//! A call that fails, fails for want of memory alone. It takes time in proportion to the labels of the entries.
#![tactic(auto)]

mod entries;
mod lexicons;
mod rows;
mod trees;

pub use entries::Entry;
pub use lexicons::lexicon;
