//! What the ways from a state of a transducer read next.
//!
//! A [`LookAhead`] keeps for each state a set of labels: those that some way from it to an end reads next, and 0 where some way to an end
//! reads nothing. A search at a state whose set lacks the next label of its line need not go on there. The classes of tokens of a
//! grammar open with text that is inserted, so that without such sets a search walks through the texts of all classes at each token,
//! although few of them can read the next byte. OpenFst has the like as its label look-ahead, after Allauzen, Riley and Schalkwyk (A
//! generalized composition algorithm for weighted finite-state transducers, 2009).
//!
//! The contract says that what a set lacks is read next by no way; a set may have more. The definitions lie in `specs/Aheads.antt`. How the
//! sets are gathered (`gathering`) isn't proved: whatever comes of it is checked once, arc by arc (`checking`), and where it doesn't hold,
//! each state has all labels. That the sets are small is only tested.
//!
//! A call that fails, fails for want of memory alone.
#![tactic(auto)]

mod aheads;
mod checking;
mod gathering;
mod labels;

pub use aheads::LookAhead;
