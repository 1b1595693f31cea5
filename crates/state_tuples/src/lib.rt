//! Cascades of transducers that are composed only where a search goes.
//!
//! A [`Cascade`] is up to [`MOST_PARTS`] transducers, each of which reads what the one before it writes. Its states are tuples: a state of
//! each part, and a filter before each part but the first (`compose_filter` says how two move together). [`Cascade::expand`] gives
//! all moves from a tuple in order. What a search asks for is the trait [`Expander`]: the moves that read one label, and the final
//! weight. [`Private`] answers it anew at each call, without the other moves, and keeps only the memory for them. An expander also tells, without a
//! call, that a tuple can't read a label next ([`Expander::may_read`]); a cascade knows it where it was made by [`Cascade::looking_ahead`]. And it
//! tells that a tuple has one way on only, or none that reads nothing ([`Expander::onward`]); a cascade of one part knows it.
//!
//! An expansion can be kept as a code, a list of words that names its tuple: [`encode`] writes it, and [`decode`], [`end_in`] and [`arcs_in`] read it.
//!
//! The definitions lie in `specs/`: `Cascades` (cascades, tuples, and the graph of these), `Positions` (tuples as lists), `Orders` (the order of arcs), `Calls` (what an expander answers), `Codes` and `Bounds`. The others are of
//! the crate's own parts: `Stages` says how the moves of one part more come of those of the parts before it.
//!
//! A call that fails, fails for want of memory alone. Where the arcs of each state of the parts stand in the order of their inputs,
//! those that read a label are found by a search, and else by a look at each arc of the state.
#![tactic(auto)]

mod cascades;
mod codes;
mod decoding;
mod encoding;
mod expanders;
mod expanding;
mod joins;
mod laws;
mod onward;
mod privates;
mod sharing;
mod stages;
mod tuples;

pub use cascades::Cascade;
pub use codes::{CodeRoom, Encoded, KEY_WORDS, Key, MOST_WORDS};
pub use decoding::{arcs_in, decode, end_in};
pub use encoding::{encode, encode_arcs, key_of};
pub use expanders::Expander;
pub use laws::cascades_read_their_parts;
pub use onward::Onward;
pub use privates::Private;
pub use tuples::{Expansion, MOST_PARTS, States, Tuple, TupleArc};
