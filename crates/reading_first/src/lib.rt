//! Transducers that read before they write.
//!
//! `read_first` moves what a transducer inserts in front of a label that it reads behind that label, so that a way
//! that can't read the next label is not entered. A new state is a text that is still to be written and a state of
//! the transducer: `Part` tells them, a text label by label. From a state at which something is chosen, each way of
//! arcs that read nothing is followed to the arcs that read, and each of these becomes one arc, which has the way's
//! weights and writes the first label of the way's text. What is written before an end stays a chain of arcs that
//! read nothing. Where nothing is chosen, an arc that reads nothing stays where it is.
//!
//! It is the removal of empty arcs, as Mohri describes it (Generic epsilon-removal and input epsilon-normalization
//! algorithms for weighted transducers, 2002), with the output kept in states and all ways kept, not the best alone.
//!
//! The contract says that the readings are the same, and that the answer reads first. The definitions lie in specs/:
//! `ReadsFirst` (where an arc that reads nothing may stand), `Ways` (ways without input, and the moves that end
//! them) and `Shapes` (the states and arcs of the answer). `Expanding` is of the crate's own parts. When a
//! transducer is handed on is said in words, and only tested.
//!
//! A call that fails, fails for want of memory alone.
#![tactic(auto)]

mod expands;
mod parts;
mod shapes;

pub use shapes::read_first;
