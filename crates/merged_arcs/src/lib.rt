//! Transducers in which arcs that read, write and cost the same are merged.
//!
//! `merge_arcs` takes a transducer as an automaton whose labels are triples of an input, an output and a weight,
//! and determinises it by the construction of subsets, as Mohri describes it (Finite-state transducers in language
//! and speech processing, 1997) and OpenFst does where labels and weights are encoded. So the answer reads what the
//! transducer reads, no two arcs of a state say the same, and paths that begin with the same triples share the arcs
//! of these. Where nothing is merged the transducer is handed on, and the answer says why: it is so already; the
//! merged one would have too many states, of which each is a set of states that is reached; or paths that say the
//! same end with two weights. These words stand in specs/Merged.antt.
//!
//! A call that fails, fails for want of memory alone.
#![tactic(auto)]

mod apart;
mod ends;
mod merges;
mod rows;

pub use merges::{Merging, Outcome, merge_arcs};
