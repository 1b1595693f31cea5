// The readings of several transducers, one after another.

ghost use Rattle.std.specs.Prelude.{◌≡◌, [], ◌∷◌, IfOk, ◌≤◌, ◌+◌, sum_by};
ghost use Rattle.fst_core.specs.Top.{top_of};
ghost use Rattle.weighted_relations.specs.Relations.{Same, Joined, AllOf, Is};
ghost use Rattle.weighted_relations.specs.Machines.{Reads};

use crate::builder::{Builder, Kept};
use crate::fst::Fst;
use std::alloc::{AllocError, Global};

/// A reading of each part, joined in order. Of no parts it is the empty reading.
///
/// The final states of each part go on to the start of the next by an arc without labels that has their
/// weight, after Thompson's construction.
pub fn concat(alloc: Global, parts: &[Fst]) -> Result<Fst, AllocError>
    ensures readings { IfOk result (λ m. Same (Reads m) (AllOf Reads parts.now)) }
    ensures top { IfOk result (λ m. top_of m ≤ sum_by top_of parts.now) }
{
    let mut all = empty_reading(alloc)?;
    for i in (0..parts.len()).rev() {
        all = before(alloc, &parts[i], all)?;
    }
    Ok(all)
}

/// The transducer that reads and writes nothing.
pub(crate) fn empty_reading(alloc: Global) -> Result<Fst, AllocError>
    ensures readings { IfOk result (λ m. Same (Reads m) (Is [])) }
    ensures top { IfOk result (λ m. top_of m ≤ 0) }
{
    let mut built = Builder::new(alloc);
    built.push(Vec::new(alloc), Some(0))?;
    Ok(built.finish(0))
}

/// A reading of the first and then one of the rest.
fn before(alloc: Global, p: &Fst, rest: Fst) -> Result<Fst, AllocError>
    ensures readings { IfOk result (λ m. Same (Reads m) (Joined (Reads p.now) (Reads rest))) }
    ensures top { IfOk result (λ m. top_of m ≤ top_of p.now + top_of rest) }
{
    let next = rest.start();
    let mut built = rest.into_builder();
    let off = built.len();
    built.place(alloc, p, Kept::Input, Kept::Output, Some(next))?;
    let start = off + p.start();
    Ok(built.finish(start))
}
