// What a node leads to is met, in a search by lists.

ghost use Rattle.std.specs.Prelude.{◌<◌, ◌≤◌, ◌+◌, ◌^◌, All, Contains, OnErr, OnOk, length};
ghost use Rattle.state_tuples.specs.Calls.{IsKnown};
ghost use Rattle.state_tuples.specs.Cascades.{Cascaded, IsOf, next_of};
ghost use Rattle.state_tuples.specs.Orders.{moves_on};
ghost use Rattle.least_path.specs.Starting.{StopsAfter};
ghost use Rattle.least_path.specs.Waiting.{Fits};
ghost use Rattle.least_path.specs.Relaxing.{Kept, GainedFrom};
ghost use Rattle.least_path.specs.Growths.{Steps, AlongArc, AlongMoves, AtEnd};
ghost use Rattle.least_path.specs.Paying.{Adds, IsAt, Pays, PaysAlong};
ghost use Rattle.least_path.specs.Texts.{Grows};
ghost use Rattle.weighted_relations.specs.Machines.{final_of};

use crate::ending::is_dead;
use crate::forcing::{forced_at, meet_along, next_tuple};
use crate::lists::Turn;
use crate::node::Node;
use crate::queue::Entry;
use crate::relaxing::Relaxed;
use fst_core::{Arc, Fst};
use state_tuples::{Expander, Onward, Tuple, TupleArc};
use std::alloc::AllocError;

/// What a node leads to is met, but for nodes that are known not to lead to the end.
pub(crate) fn spread<X: Expander>(
    source: &Fst,
    x: &mut X,
    state: usize,
    tuple: &Tuple,
    from: &Entry,
    search: &mut Relaxed,
    buffer: &mut Vec<TupleArc>,
) -> Result<(), AllocError>
    requires ready { X.is_ready x.old }
    requires known { IsKnown (X.cascades x.old) tuple.now }
    requires state { state < length source.now.arcs }
    requires kept { Kept search.old }
    requires from { Fits search.old.outputs from.now }
    requires light { from.now.weight < 2 ^ 126 }
    requires short { from.now.length + 4097 < 2 ^ 64 }
    ensures gained { OnOk result (GainedFrom source.now (X.cascades x.old) tuple.now search.old search.new from.now (λ c. Steps source.now c (Node.At state tuple.now))) }
    ensures pays { OnOk result (Pays source.now (Node.At state tuple.now) (X.calls x.old) (X.calls x.new) search.old.nodes search.new.nodes) }
    ensures ready { X.is_ready x.new }
    ensures on { OnOk result (X.goes_on x.old x.new) }
    ensures up { OnErr result (StopsAfter X.goes_on X.gives_up x.old x.new) }
{
    match forced_at(x, source, state, tuple) {
        Some(a) => meet_along(x, source, state, tuple, &a, from, search, Turn::Now)?,
        None => spread_all(source, x, state, tuple, from, search, buffer)?,
    }
    Ok(())
}

/// The same, edge by edge.
fn spread_all<X: Expander>(
    source: &Fst,
    x: &mut X,
    state: usize,
    tuple: &Tuple,
    from: &Entry,
    search: &mut Relaxed,
    buffer: &mut Vec<TupleArc>,
) -> Result<(), AllocError>
    requires ready { X.is_ready x.old }
    requires known { IsKnown (X.cascades x.old) tuple.now }
    requires state { state < length source.now.arcs }
    requires kept { Kept search.old }
    requires from { Fits search.old.outputs from.now }
    requires light { from.now.weight < 2 ^ 126 }
    requires short { from.now.length + 4097 < 2 ^ 64 }
    ensures gained { OnOk result (GainedFrom source.now (X.cascades x.old) tuple.now search.old search.new from.now (λ c. Steps source.now c (Node.At state tuple.now))) }
    ensures pays { OnOk result (Pays source.now (Node.At state tuple.now) (X.calls x.old) (X.calls x.new) search.old.nodes search.new.nodes) }
    ensures ready { X.is_ready x.new }
    ensures on { OnOk result (X.goes_on x.old x.new) }
    ensures up { OnErr result (StopsAfter X.goes_on X.gives_up x.old x.new) }
{
    spread_silently(source, x, state, tuple, from, search, buffer)?;
    for arc in source.arcs_of(state) {
        spread_along(source, x, arc, tuple, from, search, buffer)?;
    }
    spread_to_end(source, x, state, tuple, from, search)?;
    Ok(())
}

/// What the moves that read nothing lead to is met. Where it is known that there are none, they aren't asked for.
fn spread_silently<X: Expander>(
    source: &Fst,
    x: &mut X,
    state: usize,
    tuple: &Tuple,
    from: &Entry,
    search: &mut Relaxed,
    buffer: &mut Vec<TupleArc>,
) -> Result<(), AllocError>
    requires ready { X.is_ready x.old }
    requires known { IsKnown (X.cascades x.old) tuple.now }
    requires state { state < length source.now.arcs }
    requires kept { Kept search.old }
    requires from { Fits search.old.outputs from.now }
    requires light { from.now.weight < 2 ^ 126 }
    requires short { from.now.length + 4097 < 2 ^ 64 }
    ensures kept { OnOk result (Kept search.new) }
    ensures texts { OnOk result (Grows search.old.outputs search.new.outputs) }
    ensures gained { OnOk result (GainedFrom source.now (X.cascades x.old) tuple.now search.old search.new from.now (λ c. AlongMoves state tuple.now (moves_on c tuple.now 0))) }
    ensures pays { OnOk result (Pays source.now (Node.At state tuple.now) (X.calls x.old) (X.calls x.new) search.old.nodes search.new.nodes) }
    ensures ready { X.is_ready x.new }
    ensures on { OnOk result (X.goes_on x.old x.new) }
    ensures up { OnErr result (StopsAfter X.goes_on X.gives_up x.old x.new) }
{
    if let Onward::Reads = x.onward(tuple) {
        return Ok(());
    }
    x.arcs_on(tuple, 0, buffer)?;
    spread_moves(x, source, state, tuple, from, search, buffer, Turn::Now)?;
    Ok(())
}

/// What these moves lead to is met, with the source at a state.
fn spread_moves<X: Expander>(
    x: &X,
    source: &Fst,
    state: usize,
    tuple: &Tuple,
    from: &Entry,
    search: &mut Relaxed,
    moves: &[TupleArc],
    turn: Turn,
) -> Result<(), AllocError>
    requires ready { X.is_ready x.now }
    requires state { state < length source.now.arcs }
    requires moves { (c : Cascaded) → Contains (X.cascades x.now) c → IsOf c tuple.now → All (λ a. IsOf c (next_of tuple.now a)) moves.now }
    requires kept { Kept search.old }
    requires from { Fits search.old.outputs from.now }
    requires light { from.now.weight < 2 ^ 126 }
    requires short { from.now.length + 4097 < 2 ^ 64 }
    ensures kept { OnOk result (Kept search.new) }
    ensures texts { OnOk result (Grows search.old.outputs search.new.outputs) }
    ensures gained { OnOk result (GainedFrom source.now (X.cascades x.now) tuple.now search.old search.new from.now (λ c. AlongMoves state tuple.now moves.now)) }
    ensures adds { OnOk result (Adds (IsAt state) search.old.nodes search.new.nodes) }
{
    for a in moves {
        let next = next_tuple(tuple, a);
        if is_dead(x, source, state, &next) {
            continue;
        }
        meet_along(x, source, state, tuple, a, from, search, turn)?;
    }
    Ok(())
}

/// What one arc of the source leads to is met. Where it reads, this waits for the next list.
fn spread_along<X: Expander>(
    source: &Fst,
    x: &mut X,
    arc: &Arc,
    tuple: &Tuple,
    from: &Entry,
    search: &mut Relaxed,
    buffer: &mut Vec<TupleArc>,
) -> Result<(), AllocError>
    requires ready { X.is_ready x.old }
    requires known { IsKnown (X.cascades x.old) tuple.now }
    requires label { arc.now.input ≤ 257 }
    requires next { arc.now.next < length source.now.arcs }
    requires kept { Kept search.old }
    requires from { Fits search.old.outputs from.now }
    requires light { from.now.weight < 2 ^ 126 }
    requires short { from.now.length + 4097 < 2 ^ 64 }
    ensures gained { OnOk result (GainedFrom source.now (X.cascades x.old) tuple.now search.old search.new from.now (λ c. AlongArc c tuple.now arc.now arc.now.input)) }
    ensures pays { OnOk result (PaysAlong arc.now tuple.now (X.calls x.old) (X.calls x.new) search.old.nodes search.new.nodes) }
    ensures ready { X.is_ready x.new }
    ensures on { OnOk result (X.goes_on x.old x.new) }
    ensures up { OnErr result (StopsAfter X.goes_on X.gives_up x.old x.new) }
{
    if arc.input == 0 {
        search.relax(Node::At(arc.next, *tuple), from, 0, 0, Turn::Now)?;
        return Ok(());
    }
    x.arcs_on(tuple, arc.input, buffer)?;
    spread_moves(x, source, arc.next, tuple, from, search, buffer, Turn::Next)?;
    Ok(())
}

/// The end is met, where the source is at an end and the tuple is.
fn spread_to_end<X: Expander>(
    source: &Fst,
    x: &mut X,
    state: usize,
    tuple: &Tuple,
    from: &Entry,
    search: &mut Relaxed,
) -> Result<(), AllocError>
    requires ready { X.is_ready x.old }
    requires known { IsKnown (X.cascades x.old) tuple.now }
    requires state { state < length source.now.arcs }
    requires kept { Kept search.old }
    requires from { Fits search.old.outputs from.now }
    requires light { from.now.weight < 2 ^ 126 }
    requires short { from.now.length + 4097 < 2 ^ 64 }
    ensures gained { OnOk result (GainedFrom source.now (X.cascades x.old) tuple.now search.old search.new from.now (λ c. AtEnd c tuple.now (final_of source.now.finals state))) }
    ensures pays { OnOk result (Pays source.now (Node.At state tuple.now) (X.calls x.old) (X.calls x.new) search.old.nodes search.new.nodes) }
    ensures ready { X.is_ready x.new }
    ensures on { OnOk result (X.goes_on x.old x.new) }
    ensures up { OnErr result (StopsAfter X.goes_on X.gives_up x.old x.new) }
{
    let Some(_) = source.final_of(state) else {
        return Ok(());
    };
    let Some(weight) = x.finality(tuple)? else {
        return Ok(());
    };
    search.relax(Node::End, from, weight, 0, Turn::Next)?;
    Ok(())
}
