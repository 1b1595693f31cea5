// Any number of readings of a transducer.

ghost use Rattle.std.specs.Prelude.{◌≡◌, ◌+◌, ◌<◌, ◌^◌, [], ◌∷◌, IfOk, ◌≤◌, sum_by};
ghost use Rattle.fst_core.specs.Top.{top_of};
ghost use Rattle.weighted_relations.specs.Relations.{Same, Starred};
ghost use Rattle.weighted_relations.specs.Machines.{Reads};
ghost use Rattle.fst_core.specs.Placed.{empty_arc};

use crate::builder::{Builder, Kept, empty};
use crate::fst::Fst;
use std::alloc::{AllocError, Global};
use weighted_relations::Arc;

/// Any number of readings, joined; none is the empty reading.
///
/// A state that is start and end leads into `a`, whose final states lead back, after Thompson's construction.
pub fn star(alloc: Global, a: &Fst) -> Result<Fst, AllocError>
    ensures readings { IfOk result (λ m. Same (Reads m) (Starred (Reads a.now))) }
    ensures top { IfOk result (λ m. top_of m ≤ top_of a.now) }
{
    let row = one(alloc, 1 + a.start())?;
    let mut built = Builder::new(alloc);
    built.push(row, Some(0))?;
    built.place(alloc, a, Kept::Input, Kept::Output, Some(0))?;
    Ok(built.finish(0))
}

/// An empty arc to a state.
fn one(alloc: Global, a: usize) -> Result<Vec<Arc>, AllocError>
    ensures { IfOk result (λ row. row.items ≡ empty_arc 0 a ∷ []) }
{
    let mut row = Vec::new(alloc);
    row.push(empty(0, a))?;
    Ok(row)
}
