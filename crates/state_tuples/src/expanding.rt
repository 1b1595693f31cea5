// The expansion of a tuple.

ghost use Rattle.std.specs.Prelude.{◌≡◌, IfOk, OnOk};
ghost use Rattle.state_tuples.specs.Cascades.{IsOf, end_of, moves_of};
ghost use Rattle.state_tuples.specs.Orders.{IsExpansion, Ordered};

use crate::cascades::Cascade;
use crate::joins::Asked;
use crate::stages::{end_at, put_moves};
use crate::tuples::{Expansion, Tuple, TupleArc};
use std::alloc::{AllocError, Global};

impl Cascade {
    /// Puts all moves from a tuple into `into`, in order, in place of what is there, and answers its final weight. `spare` is room for
    /// the moves of fewer parts.
    pub fn expand_into(
        &self,
        t: &Tuple,
        into: &mut Vec<TupleArc>,
        spare: &mut Vec<TupleArc>,
    ) -> Result<Option<u64>, AllocError>
        requires known { IsOf self.now t.now }
        ensures arcs { OnOk result (Ordered (moves_of self.now t.now) into.new.items) }
        ensures finality { IfOk result (λ end. end ≡ end_of self.now t.now) }
    {
        put_moves(self, t, Asked::Every, into, spare)?;
        Ok(end_at(self, t))
    }

    /// All moves from a tuple in order, each as often as it comes, and its final weight.
    pub fn expand(&self, alloc: Global, t: &Tuple) -> Result<Expansion, AllocError>
        requires known { IsOf self.now t.now }
        ensures expansion { IfOk result (IsExpansion self.now t.now) }
    {
        let mut arcs = Vec::new(alloc);
        let mut spare = Vec::new(alloc);
        let finality = self.expand_into(t, &mut arcs, &mut spare)?;
        Ok(Expansion { finality, arcs })
    }
}
