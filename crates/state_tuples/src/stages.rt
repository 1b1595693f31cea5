// The moves of a tuple, part by part.

ghost use Rattle.std.specs.Prelude.{◌≡◌, ◌+◌, ◌<◌, ◌^◌, IfSome, IsTrue, OnOk, length, []};
ghost use Rattle.std.specs.List.{filter, filter_map};
ghost use Rattle.std.specs.List.Sorted.{IsNonDecreasingBy};
ghost use Rattle.state_tuples.specs.Cascades.{IsOf, IsSound, end_of, moves_of};
ghost use Rattle.compose_filter.specs.Compositions.{both_final};
ghost use Rattle.state_tuples.specs.Orders.{Ordered};
ghost use Rattle.state_tuples.specs.Stages.{alone_arc, asks, stage};

use crate::cascades::Cascade;
use crate::joins::{Asked, PartJoining, add_alone, add_entered, filter_of};
use crate::tuples::{Tuple, TupleArc};
use compose_filter::{add_both, add_first, label_readers};
use fst_core::Arc;
use std::alloc::AllocError;
use std::mem::swap;

/// Puts the moves of the tuple that are asked for into `into`, in order, in place of what is there. `spare` is room for those of
/// fewer parts.
pub(crate) fn put_moves(
    cascade: &Cascade,
    t: &Tuple,
    asked: Asked,
    into: &mut Vec<TupleArc>,
    spare: &mut Vec<TupleArc>,
) -> Result<(), AllocError>
    requires known { IsOf cascade.now t.now }
    ensures { OnOk result (Ordered (filter (λ a. asks asked a.input) (moves_of cascade.now t.now)) into.new.items) }
{
    let count = cascade.part_count();
    into.clear();
    first_part(cascade, t, asked, into)?;
    for k in 0..count - 1 {
        swap(into, spare);
        into.clear();
        next_part(cascade, t, asked, k, spare, into)?;
    }
    into.sort_unstable();
    Ok(())
}

/// The moves of the first part.
fn first_part(
    cascade: &Cascade,
    t: &Tuple,
    asked: Asked,
    all: &mut Vec<TupleArc>,
) -> Result<(), AllocError>
    requires sound { IsSound cascade.now }
    requires known { IsOf cascade.now t.now }
    requires empty { all.old.items ≡ [] }
    ensures { OnOk result (all.new.items ≡ stage cascade.now t.now asked 0) }
{
    let row = cascade.row(0, t.states[0]);
    add_alone(all, asked_of(row, asked, cascade.is_sorted()), asked)?;
    Ok(())
}

/// Arcs of the row among which are all that are asked for.
fn asked_of(row: &[Arc], asked: Asked, sorted: bool) -> &[Arc]
    requires sorted { IsTrue sorted → IsNonDecreasingBy (λ y. y.input) row.now }
    ensures { filter_map (alone_arc asked) result.now ≡ filter_map (alone_arc asked) row.now }
{
    match asked {
        Asked::Every => row,
        Asked::Only(label) => label_readers(row, label, sorted),
    }
}

/// The moves of the first `k + 2` parts, from those of the first `k + 1`.
fn next_part(
    cascade: &Cascade,
    t: &Tuple,
    asked: Asked,
    k: usize,
    before: &[TupleArc],
    all: &mut Vec<TupleArc>,
) -> Result<(), AllocError>
    requires sound { IsSound cascade.now }
    requires known { IsOf cascade.now t.now }
    requires more { k + 1 < length cascade.now.parts }
    requires stage { before.now ≡ stage cascade.now t.now asked k }
    requires empty { all.old.items ≡ [] }
    ensures { OnOk result (all.new.items ≡ stage cascade.now t.now asked (k + 1)) }
{
    let q = t.states[k + 1];
    let row = cascade.row(k + 1, q);
    let sorted = cascade.is_sorted();
    let joining = PartJoining { part: k + 1 };
    add_both(all, &joining, before, row, sorted)?;
    add_first(all, &joining, before, q, filter_of(t.filters, k))?;
    add_entered(all, row, sorted, t, k, asked)?;
    Ok(())
}

/// The final weight of the tuple.
pub(crate) fn end_at(cascade: &Cascade, t: &Tuple) -> Option<u64>
    requires known { IsOf cascade.now t.now }
    ensures { result ≡ end_of cascade.now t.now }
{
    let count = cascade.part_count();
    let mut sum = cascade.final_at(0, t.states[0]);
    for k in 1..count {
        sum = both_ends(sum, cascade.final_at(k, t.states[k]));
    }
    sum
}

/// The sum, where there are both.
fn both_ends(w: Option<u64>, v: Option<u64>) -> Option<u64>
    requires light { IfSome w (λ n. n < 2 ^ 63) }
    requires light_more { IfSome v (λ n. n < 2 ^ 63) }
    ensures { result ≡ both_final w v }
{
    match (w, v) {
        (Some(w), Some(v)) => Some(w + v),
        _ => None,
    }
}
