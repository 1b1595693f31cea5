//! Composition of transducers, with one path for each pair of matched paths.
//!
//! Two transducers move together by a sequencing filter, after Mohri, Pereira and Riley, "Weighted finite-state
//! transducers in speech recognition" (2002): where the first writes a label, the second reads it; where the first
//! writes nothing, it moves alone, and only while the filter is open; where the second reads nothing, it moves
//! alone, and the filter is closed. So of the orders in which both could move alone, one is left.
//!
//! The step is coded once, over a trait: a `Joining` tells what a move on the left is and where a move of both leads, and `add_both`,
//! `add_first` and `add_second` add the moves. `moves` and `compose` are of two transducers, and `state_tuples` joins part after part.
//!
//! `moves` gives the moves from two states, and `compose` gives the whole transducer: its clause `readings` says what it
//! reads, and `one_to_one` that its states are the triples of two states and a filter that moves lead to, and that its
//! arcs are their moves. The law
//! `one_composed_path` says, for any number of transducers, that matched paths and composed paths are one to one.
//! `each_move_once` joins the lists of moves to it.
//!
//! The definitions lie in `specs/`: `Steps` (how what stands on the left moves with one part more), `Combinations` (the list of the moves of two), `Expansions` (that of any number), `ComposedPaths` (composed and matched paths
//! of any number of transducers) and `Compositions` (what `compose` makes). `Readers` and `Numbered` are of the
//! crate's own parts.
//!
//! A call that fails, fails for want of memory alone. `compose` takes time in proportion to the moves of the triples
//! that it meets, and to the sorting of the second transducer's arcs.
#![tactic(auto)]

mod composes;
mod filters;
mod laws;
mod matches;
mod steps;
mod triples;

pub use composes::compose;
pub use filters::{Filter, Move, Taken};
pub use laws::{each_move_once, one_composed_path};
pub use matches::moves;
pub use steps::{Joining, Step, add_both, add_first, add_second, label_readers};
pub use triples::Triple;
