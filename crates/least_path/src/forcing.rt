// Nodes from which one edge alone leads on.

ghost use Rattle.std.specs.Prelude.{◌≡◌, ◌<◌, ◌+◌, ◌^◌, [], All, Contains, IfSome, IsTrue, OnOk, length};
ghost use Rattle.weighted_relations.specs.Graphs.{label as written};
ghost use Rattle.state_tuples.specs.Cascades.{Cascaded, IsOf, next_of};
ghost use Rattle.least_path.specs.Forcing.{IsForced, IsForcedOf, Reads};
ghost use Rattle.least_path.specs.Keeps.{IsEdge};
ghost use Rattle.least_path.specs.Passing.{most_passed};
ghost use Rattle.least_path.specs.Paying.{Adds, IsAt};
ghost use Rattle.least_path.specs.Relaxing.{Kept, GainedFrom};
ghost use Rattle.least_path.specs.Texts.{Grows};
ghost use Rattle.least_path.specs.Waiting.{Fits};

use crate::lists::Turn;
use crate::node::Node;
use crate::queue::Entry;
use crate::relaxing::Relaxed;
use fst_core::{Arc, Fst};
use state_tuples::{Expander, Onward, Tuple, TupleArc};
use std::alloc::AllocError;

/// How many nodes are passed over at a time, at most.
const MOST_PASSED: usize = 4096;

/// What a move leads to is met, with the source at a state. Where one edge alone leads on from there, the node that lies behind such edges is
/// met in its place.
#[inline(always)]
pub(crate) fn meet_along<X: Expander>(
    x: &X,
    source: &Fst,
    state: usize,
    tuple: &Tuple,
    a: &TupleArc,
    from: &Entry,
    search: &mut Relaxed,
    turn: Turn,
) -> Result<(), AllocError>
    requires ready { X.is_ready x.now }
    requires state { state < length source.now.arcs }
    requires next { (c : Cascaded) → Contains (X.cascades x.now) c → IsOf c tuple.now → IsOf c (next_of tuple.now a.now) }
    requires kept { Kept search.old }
    requires from { Fits search.old.outputs from.now }
    requires light { from.now.weight < 2 ^ 126 }
    requires short { from.now.length + 4097 < 2 ^ 64 }
    ensures kept { OnOk result (Kept search.new) }
    ensures texts { OnOk result (Grows search.old.outputs search.new.outputs) }
    ensures gained { OnOk result (GainedFrom source.now (X.cascades x.now) tuple.now search.old search.new from.now (λ c. IsEdge (Node.At state (next_of tuple.now a.now)) a.now.weight (written a.now.output []))) }
    ensures adds { OnOk result (Adds (IsAt state) search.old.nodes search.new.nodes) }
{
    let mut way = *from;
    let mut last = *a;
    let mut next = next_tuple(tuple, a);
    let mut passed = 0;
    let readers = are_readers(source.arcs_of(state));
    while let Some(more) = forced_after(x, &next, passed, readers) {
        way = search.go_on(&way, &last)?;
        next = next_tuple(&next, &more);
        last = more;
        passed += 1;
    }
    search.relax(Node::At(state, next), &way, last.weight, last.output, turn)?;
    Ok(())
}

/// The only move on from a tuple, where so many nodes were passed over and this one may be, too: the source has to read before it goes on, if
/// all of its arcs are readers.
fn forced_after<X: Expander>(x: &X, tuple: &Tuple, passed: usize, readers: bool) -> Option<TupleArc>
    ensures few { IfSome result (λ _. passed < most_passed) }
    ensures readers { IfSome result (λ _. IsTrue readers) }
    ensures only { IfSome result (IsForcedOf (X.cascades x.now) tuple.now) }
{
    if !readers || passed >= MOST_PASSED {
        return None;
    }
    match x.onward(tuple) {
        Onward::Forced(a) => Some(a),
        _ => None,
    }
}

/// Where a move leads.
pub(crate) fn next_tuple(tuple: &Tuple, a: &TupleArc) -> Tuple
    ensures { result ≡ next_of tuple.now a.now }
{
    Tuple {
        cascade: tuple.cascade,
        states: a.states,
        filters: a.filters,
    }
}

/// The only move on from a node, where the expander knows that there is one alone, which reads nothing, and the source has to read before
/// it goes on.
pub(crate) fn forced_at<X: Expander>(
    x: &X,
    source: &Fst,
    state: usize,
    tuple: &Tuple,
) -> Option<TupleArc>
    requires { state < length source.now.arcs }
    ensures { IfSome result (IsForced source.now (X.cascades x.now) state tuple.now) }
{
    let Onward::Forced(a) = x.onward(tuple) else {
        return None;
    };
    if !are_readers(source.arcs_of(state)) {
        return None;
    }
    Some(a)
}

/// Whether each of these arcs reads a label.
fn are_readers(row: &[Arc]) -> bool
    ensures { IsTrue result → All Reads row.now }
{
    for arc in row {
        if arc.input == 0 {
            return false;
        }
    }
    true
}
