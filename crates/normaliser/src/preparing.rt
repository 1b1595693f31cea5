// The shape of a rule's transducer, as a search likes it.

ghost use Rattle.std.specs.Prelude.{IfOk};
ghost use Rattle.weighted_relations.specs.Machines.{Reads};
ghost use Rattle.weighted_relations.specs.Relations.{Same};

use fst_core::{ByInput, Fst, trim};
use merged_arcs::merge_arcs;
use reading_first::read_first;
use std::alloc::{AllocError, Global};
use std::cmp::max;

/// A change of shape may give a transducer so many states, or twice as many as it had.
const FEW_STATES: usize = 1000;

/// The same transducer in the shape that a search likes. What leads to no end is left out. Arcs of a state that say the same are one, so that
/// what a rewrite has to guess of the text to come waits until it matters. What is inserted in front of a label comes behind it, so that
/// a class of tokens that can't read the next byte is not entered. The arcs of each state stand in the order of their inputs.
pub(crate) fn prepared(alloc: Global, fst: Fst) -> Result<Fst, AllocError>
    ensures { IfOk result (λ m. Same (Reads m) (Reads fst)) }
{
    let live = trim(alloc, &fst)?;
    let merged = merged(alloc, live)?;
    let early = reading_early(alloc, merged)?;
    in_order(alloc, &early)
}

/// The same transducer without two arcs of a state that say the same, where it doesn't grow much by that.
fn merged(alloc: Global, fst: Fst) -> Result<Fst, AllocError>
    ensures { IfOk result (λ m. Same (Reads m) (Reads fst)) }
{
    let most = most_states(&fst);
    let merging = merge_arcs(alloc, fst, most)?;
    Ok(merging.fst)
}

/// The same transducer, which reads before it writes where it doesn't grow much by that.
fn reading_early(alloc: Global, fst: Fst) -> Result<Fst, AllocError>
    ensures { IfOk result (λ m. Same (Reads m) (Reads fst)) }
{
    match read_first(alloc, &fst, most_states(&fst))? {
        Some(early) => merged(alloc, early),
        None => Ok(fst),
    }
}

/// The same transducer with the arcs of each state in the order of their inputs, so that a search finds those of a label.
fn in_order(alloc: Global, fst: &Fst) -> Result<Fst, AllocError>
    ensures { IfOk result (λ m. Same (Reads m) (Reads fst.now)) }
{
    let sorted = ByInput::new(alloc, fst)?;
    Ok(sorted.into_fst())
}

fn most_states(fst: &Fst) -> usize {
    max(fst.len().saturating_mul(2), FEW_STATES)
}
