//! Weighted transducers and the rational operations on them.
//!
//! A transducer has states, arcs that read one label, write one and cost a weight, and final weights.
//! Contracts see an `Fst` as a `Machine` and its paths as the `Path` of `weighted_relations`. The clause
//! `readings` of each operation says that its answer has exactly the readings of the relation of that name in
//! the specs of `weighted_relations`, and the clause `top` that no weight of it is above the sum of the
//! greatest weights of what it is made of and of the weights that are written out.
//!
//! The definitions of this crate lie in `specs/`: `Top` (the greatest weight), `States` (what a `Builder` holds),
//! `Reach` (what arcs lead to), `Useful` (what trimming keeps) and `Sorted` (arcs in the order of their inputs). The others are of the crate's own parts.
//!
//! A call that fails, fails for want of memory alone. Each takes time in proportion to the size of what it is
//! given and what it makes.
#![tactic(auto)]

mod bounds;
mod builder;
mod by_inputs;
mod concats;
mod crosses;
mod empties;
mod fst;
mod lives;
mod orders;
mod parts;
mod relabels;
mod reverses;
mod search;
mod sharing;
mod stars;
mod texts;
mod trims;
mod unions;
mod weights;

pub use builder::Builder;
pub use by_inputs::ByInput;
pub use concats::concat;
pub use crosses::cross;
pub use empties::reads_empty;
pub use fst::Fst;
pub use lives::live_states;
pub use orders::{is_sorted_row, reading};
pub use relabels::{Side2, invert, project};
pub use reverses::reverse;
pub use search::{Follow, Search, reached};
pub use stars::star;
pub use texts::text;
pub use trims::trim;
pub use unions::union;
pub use weighted_relations::Arc;
pub use weights::weighted;
