//! Cascades whose expansions are kept in a table that callers share.
//!
//! A [`Shared`] has two cascades and a table of places ([`place_table`]); each of its callers has a seat at the table, and a [`Tally`] of
//! what came of its looks. A [`Hand`] is a caller at work: an expander of both cascades that looks for the code of a tuple's expansion, makes
//! and publishes it where there is none, and answers from it. Threads may share a `Shared`; a caller is its user's own.
//!
//! The definitions lie in `specs/`: `RightCodes` (which codes the table may hold), `Episodes` (what a call adds to the log of the caller's seat),
//! `Counts` (how many looks a log has), `Tallies`, `Callers` (when a caller is ready, and what a visit leaves in its hands), `Hands` (how a log
//! grows while a search uses it) and `Stalls` (where a caller stays that stops in the middle).
//!
//! A call that fails, fails for want of memory alone, and leaves its caller ready.
#![tactic(auto)]

mod arcs;
mod callers;
mod facts;
mod hands;
mod holding;
mod opening;
mod shared;
mod stalling;
mod sweeping;
mod tallies;
mod visits;

pub use callers::Caller;
pub use hands::Hand;
pub use shared::Shared;
pub use stalling::{How, Stalled};
pub use sweeping::Swept;
pub use tallies::{Outcome, Tally};
