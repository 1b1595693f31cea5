//! From core expressions to transducers.
//!
//! `build` gives a transducer with exactly the readings of the relation of its expression, `Rel` in
//! `weighted_relations`, in `specs/Expressions.antt`. It refuses an expression in which a rewrite may read the empty
//! text, and no other: `RewritesEmptyText` in `specs/Empties.antt`. The strings and pairs of strings of a union make
//! one lexicon, whose inputs share their fronts; `specs/Parts.antt` says what they stand for.
#![tactic(auto)]

mod builds;
mod faults;
mod lexicons;

pub use builds::build;
pub use faults::BuildFault;
