//! Context rewrites: what a part of a text becomes between a left and a right context.
//!
//! `rewrite` makes the transducer of a rewrite of its four parts: tau, which says what is written for what is
//! read; the left context, which is looked for at the end of what was written; the right context, which is
//! looked for at the beginning of what is unread; and sigma, the texts that are read at all. Its contract is the
//! relation `Rewritten` of `weighted_relations`, which speaks of whole texts and of no state.
//!
//! The transducer is that of a bimachine: an automaton of the left context goes along with what is written, and one of
//! the right context runs backwards over what is unread, so that its state is guessed at the start, and the guess is
//! handed on with each byte. `specs/Bimachine` has its moves, over any automata; `specs/Stands` says what these have to
//! say of texts, and `proofs/Sound` and `proofs/Complete` that the runs then read exactly what the rewrite does.
//! `specs/Languages` has the texts that the three automata accept. `specs/Gaps` is the relation with rewrites whose
//! input is empty, for which all this is proved; `rewrite` asks for a tau without them.
//!
//! A call that fails, fails for want of memory alone.
#![tactic(auto)]

mod any_texts;
mod arcs;
mod automata;
mod befores;
mod classes;
mod few_readings;
mod lives;
mod machines;
mod modes;
mod rewrites;
mod shared_ends;
mod spots;

pub use modes::RewriteMode;
pub use rewrites::rewrite;
