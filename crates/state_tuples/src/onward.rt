// What is known of how a tuple goes on, without its moves.

ghost use Rattle.std.specs.Prelude.{◌≡◌, ◌∷◌, Option, None, IsTrue, [], ℕ};
ghost use Rattle.std.specs.List.{filter_map};
ghost use Rattle.std.specs.List.Sorted.{IsNonDecreasingBy};
ghost use Rattle.state_tuples.specs.Calls.{IsOnward};
ghost use Rattle.state_tuples.specs.Cascades.{IsOf};
ghost use Rattle.state_tuples.specs.Stages.{alone_arc};
ghost use Rattle.state_tuples.specs.declared.joins.Asked.TheVariants.{Every, Only};
ghost use Rattle.state_tuples.specs.declared.onward.Onward.TheVariants.{Forced, Reads};
ghost use Rattle.state_tuples.specs.declared.tuples.TupleArc.{TupleArc};

use crate::cascades::Cascade;
use crate::joins::move_alone;
use crate::tuples::{Tuple, TupleArc};
use fst_core::Arc;

/// What is known of how a tuple goes on.
#[derive(Clone, Copy, Debug, PartialEq, Eq)]
pub enum Onward {
    /// No move of it reads nothing.
    Reads,
    /// This is its only move; it reads nothing, and the tuple is no end.
    Forced(TupleArc),
    /// Nothing is known.
    Unknown,
}

impl Cascade {
    /// What is known of how a tuple goes on. It takes no memory, and a cascade of several parts knows nothing.
    pub fn onward(&self, t: &Tuple) -> Onward
        ensures told { IsOf self.now t.now → IsOnward self.now t.now result }
    {
        let state = t.states[0];
        if self.part_count() != 1 || state >= self.state_count(0) {
            return Onward::Unknown;
        }
        onward_by(
            self.row(0, state),
            self.final_at(0, state),
            self.is_sorted(),
        )
    }
}

/// What the arcs of a part's state and its final weight tell.
fn onward_by(row: &[Arc], last: Option<u64>, sorted: bool) -> Onward
    requires sorted { IsTrue sorted → IsNonDecreasingBy (λ y. y.input) row.now }
    ensures reads { result ≡ Reads → filter_map (alone_arc (Only 0)) row.now ≡ [] }
    ensures moves { (a : TupleArc) → result ≡ Forced a → filter_map (alone_arc Every) row.now ≡ a ∷ [] }
    ensures silent { (a : TupleArc) → result ≡ Forced a → a.input ≡ 0 }
    ensures no_end { (a : TupleArc) → result ≡ Forced a → last ≡ None }
{
    if row.is_empty() {
        return Onward::Reads;
    }
    let first = &row[0];
    if first.input != 0 {
        return if sorted {
            Onward::Reads
        } else {
            Onward::Unknown
        };
    }
    if row.len() == 1 && last.is_none() {
        return Onward::Forced(move_alone(first));
    }
    Onward::Unknown
}
