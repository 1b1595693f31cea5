// The readings of several transducers together.

ghost use Rattle.std.specs.Prelude.{◌≤◌, sum_by, IfOk};
ghost use Rattle.fst_core.specs.Top.{top_of};
ghost use Rattle.weighted_relations.specs.Relations.{Same, AnyOf};
ghost use Rattle.weighted_relations.specs.Machines.{Reads};

use crate::builder::{Builder, Kept, empty};
use crate::fst::Fst;
use std::alloc::{AllocError, Global};

/// The readings of each part.
///
/// One state leads to the start of each part, without a label or a weight, after Thompson's construction.
pub fn union(alloc: Global, parts: &[Fst]) -> Result<Fst, AllocError>
    ensures readings { IfOk result (λ m. Same (Reads m) (AnyOf Reads parts.now)) }
    ensures top { IfOk result (λ m. top_of m ≤ sum_by top_of parts.now) }
{
    let mut built = Builder::new(alloc);
    let mut row = Vec::new(alloc);
    for p in parts {
        row.push(empty(0, built.len() + p.start()))?;
        built.place(alloc, p, Kept::Input, Kept::Output, None)?;
    }
    let hub = built.len();
    built.push(row, None)?;
    Ok(built.finish(hub))
}
