// A transducer with a weight added.

ghost use Rattle.std.specs.Prelude.{◌≡◌, IfOk, ◌≤◌, ◌+◌, sum_by};
ghost use Rattle.fst_core.specs.Top.{top_of};
ghost use Rattle.weighted_relations.specs.Relations.{Same, Weighted};
ghost use Rattle.weighted_relations.specs.Machines.{Reads};

use crate::builder::{Builder, Kept};
use crate::fst::Fst;
use std::alloc::{AllocError, Global};

/// The readings with a weight, in ten-thousandths, added to each.
///
/// It stands alone, as the final weight of a last state, so no two weights are added.
pub fn weighted(alloc: Global, a: &Fst, weight: u32) -> Result<Fst, AllocError>
    ensures readings { IfOk result (λ m. Same (Reads m) (Weighted weight (Reads a.now))) }
    ensures top { IfOk result (λ m. top_of m ≤ top_of a.now + weight) }
{
    let start = 1 + a.start();
    let mut built = Builder::new(alloc);
    built.push(Vec::new(alloc), Some(u64::from(weight)))?;
    built.place(alloc, a, Kept::Input, Kept::Output, Some(0))?;
    Ok(built.finish(start))
}
