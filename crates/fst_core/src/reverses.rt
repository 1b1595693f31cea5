// A transducer whose readings are those of another backwards.

ghost use Rattle.std.specs.Prelude.{◌≡◌, ◌<◌, ◌+◌, ℕ, length, get_or, [], IfOk, OnOk, ◌≤◌};
ghost use Rattle.fst_core.specs.Top.{top_of};
ghost use Rattle.weighted_relations.specs.Relations.{Same, Reversed};
ghost use Rattle.weighted_relations.specs.Machines.{Reads};
ghost use Rattle.fst_core.specs.Turned.{TurnedArcs, Below, HubRow, OneFinal};

use crate::builder::{Builder, empty};
use crate::fst::Fst;
use std::alloc::{AllocError, Global};
use weighted_relations::Arc;

/// The readings with both lists backwards.
///
/// Each arc is turned round, and a new start leads to the states that were final, as in Mohri's survey
/// "Weighted automata algorithms" (2009).
pub fn reverse(alloc: Global, a: &Fst) -> Result<Fst, AllocError>
    ensures readings { IfOk result (λ m. Same (Reads m) (Reversed (Reads a.now))) }
    ensures top { IfOk result (λ m. top_of m ≤ top_of a.now) }
{
    let start = a.start();
    let n = a.len();
    let hub = hub_row(alloc, a)?;
    let mut built = one_final(alloc, n, start)?;
    for s in 0..n {
        turn(a, s, &mut built)?;
    }
    built.push(hub, None)?;
    Ok(built.finish(n))
}

/// The arcs of a state, turned round.
pub(crate) fn turn(a: &Fst, s: usize, built: &mut Builder) -> Result<(), AllocError>
    requires state { s < length a.now.arcs }
    requires turned { TurnedArcs a.now (Below s) built.old.arcs }
    ensures turned { OnOk result (TurnedArcs a.now (Below (s + 1)) built.new.arcs) }
    ensures finals { OnOk result (built.new.finals ≡ built.old.finals) }
{
    for arc in a.arcs_of(s) {
        built.add_arc(
            arc.next,
            Arc {
                input: arc.input,
                output: arc.output,
                weight: arc.weight,
                next: s,
            },
        )?;
    }
    Ok(())
}

/// Empty arcs to the final states, with their weights.
fn hub_row(alloc: Global, a: &Fst) -> Result<Vec<Arc>, AllocError>
    ensures { IfOk result (λ row. HubRow a.now (length a.now.arcs) row.items) }
{
    let mut row = Vec::new(alloc);
    for s in 0..a.len() {
        if let Some(w) = a.final_of(s) {
            row.push(empty(w, s))?;
        }
    }
    Ok(row)
}

/// So many states without arcs, of which the one with this number is final, if there is one.
pub(crate) fn one_final(alloc: Global, n: usize, at: usize) -> Result<Builder, AllocError>
    ensures { IfOk result (OneFinal at n) }
{
    let mut built = Builder::new(alloc);
    for s in 0..n {
        built.push(Vec::new(alloc), if s == at { Some(0) } else { None })?;
    }
    Ok(built)
}
