// The composition of two transducers.

ghost use Rattle.std.specs.Prelude.{◌≡◌, ◌+◌, ◌≤◌, ◌<◌, ◌^◌, length, IfOk};
ghost use Rattle.weighted_relations.specs.Relations.{Same, Composed};
ghost use Rattle.weighted_relations.specs.Machines.{Reads};
ghost use Rattle.fst_core.specs.Top.{top_of};
ghost use Rattle.compose_filter.specs.Compositions.{end_of, IsComposition};
ghost use Rattle.compose_filter.specs.Numbered.{InRange, RowMade};

use crate::filters::{Filter, Move};
use crate::matches::all_moves;
use crate::triples::Triple;
use fst_core::{Arc, Builder, ByInput, Fst};
use state_table::StateTable;
use std::alloc::{AllocError, Global};

/// The readings of `a` whose output `b` reads, with what `b` writes for it.
///
/// Its states are the triples to which moves lead from the two starts and the open filter, and its arcs all of their
/// moves, also those that lead to no final state: `trim` leaves these out.
///
/// It ends: each turn adds a state, and a list has fewer than 2^63 elements. So `AllocError` comes from the
/// allocator alone.
pub fn compose(alloc: Global, a: &Fst, b: &Fst) -> Result<Fst, AllocError>
    requires fits { top_of a.now + top_of b.now < 2 ^ 54 }
    ensures readings { IfOk result (λ m. Same (Reads m) (Composed (Reads a.now) (Reads b.now))) }
    ensures top { IfOk result (λ m. top_of m ≤ top_of a.now + top_of b.now) }
    ensures one_to_one { IfOk result (IsComposition a.now b.now) }
{
    let by_input = ByInput::new(alloc, b)?;
    let sorted = by_input.as_fst();
    let mut triples = StateTable::new(alloc);
    let start = triples.number(Triple {
        qa: a.start(),
        qb: b.start(),
        filter: Filter::Open,
    })?;
    let mut built = Builder::new(alloc);
    while built.len() < triples.len() {
        let t = *triples.key(built.len());
        let row = sorted.arcs_of(t.qb);
        let found = all_moves(alloc, a.arcs_of(t.qa), t.qa, row, t.qb, t.filter, true)?;
        let row = numbered(alloc, &mut triples, &found)?;
        built.push(row, end(a, b, t))?;
    }
    Ok(built.finish(start))
}

/// The final weight of a triple.
fn end(a: &Fst, b: &Fst, t: Triple) -> Option<u64>
    requires range { InRange a.now b.now t }
    requires fits { top_of a.now + top_of b.now < 2 ^ 54 }
    ensures value { result ≡ end_of a.now b.now t }
{
    match (a.final_of(t.qa), b.final_of(t.qb)) {
        (Some(w), Some(v)) => Some(w + v),
        _ => None,
    }
}

/// The arcs of the moves.
fn numbered(
    alloc: Global,
    triples: &mut StateTable<Triple>,
    found: &[Move],
) -> Result<Vec<Arc>, AllocError>
    ensures made { IfOk result (λ row. RowMade triples.old triples.new found.now (length found.now) row.items) }
{
    let mut row = Vec::new(alloc);
    for m in found {
        let next = triples.number(Triple {
            qa: m.qa,
            qb: m.qb,
            filter: m.filter,
        })?;
        row.push(Arc {
            input: m.input,
            output: m.output,
            weight: m.weight,
            next,
        })?;
    }
    Ok(row)
}
