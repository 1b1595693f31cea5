// What a node leads to comes to wait.

ghost use Rattle.std.specs.Prelude.{◌<◌, ◌≤◌, ◌+◌, ◌^◌, OnErr, OnOk, length};
ghost use Rattle.state_tuples.specs.Calls.{IsKnown};
ghost use Rattle.least_path.specs.Starting.{StopsAfter};
ghost use Rattle.least_path.specs.Waiting.{Fits};
ghost use Rattle.least_path.specs.Keeps.{Kept, GrownFrom};
ghost use Rattle.least_path.specs.Growths.{Steps, AlongArc, AtEnd};
ghost use Rattle.least_path.specs.Paying.{Pays, PaysAlong, PaysToEnd};

use crate::node::Node;
use crate::queue::Entry;
use crate::reaching::Search;
use fst_core::{Arc, Fst};
use state_tuples::{Expander, Tuple, TupleArc};
use std::alloc::AllocError;

/// What a node leads to waits.
pub(crate) fn expand<X: Expander>(
    source: &Fst,
    x: &mut X,
    state: usize,
    tuple: &Tuple,
    from: &Entry,
    search: &mut Search,
    buffer: &mut Vec<TupleArc>,
) -> Result<(), AllocError>
    requires ready { X.is_ready x.old }
    requires known { IsKnown (X.cascades x.old) tuple.now }
    requires state { state < length source.now.arcs }
    requires kept { Kept search.old }
    requires from { Fits search.old.outputs from.now }
    requires light { from.now.weight < 2 ^ 127 }
    requires short { from.now.length + 1 < 2 ^ 64 }
    ensures grown { OnOk result (GrownFrom (X.cascades x.old) tuple.now search.old search.new from.now (λ c. Steps source.now c (Node.At state tuple.now))) }
    ensures pays { OnOk result (Pays source.now (Node.At state tuple.now) (X.calls x.old) (X.calls x.new) search.old.nodes search.new.nodes) }
    ensures ready { X.is_ready x.new }
    ensures on { OnOk result (X.goes_on x.old x.new) }
    ensures up { OnErr result (StopsAfter X.goes_on X.gives_up x.old x.new) }
{
    x.arcs_on(tuple, 0, buffer)?;
    search.reach_all(state, tuple, from, buffer)?;
    for arc in source.arcs_of(state) {
        follow(x, arc, tuple, from, search, buffer)?;
    }
    finish(x, source.final_of(state), tuple, from, search)?;
    Ok(())
}

/// What one arc of the source leads to waits.
fn follow<X: Expander>(
    x: &mut X,
    arc: &Arc,
    tuple: &Tuple,
    from: &Entry,
    search: &mut Search,
    buffer: &mut Vec<TupleArc>,
) -> Result<(), AllocError>
    requires ready { X.is_ready x.old }
    requires known { IsKnown (X.cascades x.old) tuple.now }
    requires label { arc.now.input ≤ 257 }
    requires kept { Kept search.old }
    requires from { Fits search.old.outputs from.now }
    requires light { from.now.weight < 2 ^ 127 }
    requires short { from.now.length + 1 < 2 ^ 64 }
    ensures grown { OnOk result (GrownFrom (X.cascades x.old) tuple.now search.old search.new from.now (λ c. AlongArc c tuple.now arc.now arc.now.input)) }
    ensures pays { OnOk result (PaysAlong arc.now tuple.now (X.calls x.old) (X.calls x.new) search.old.nodes search.new.nodes) }
    ensures ready { X.is_ready x.new }
    ensures on { OnOk result (X.goes_on x.old x.new) }
    ensures up { OnErr result (StopsAfter X.goes_on X.gives_up x.old x.new) }
{
    if arc.input == 0 {
        search.reach(Node::At(arc.next, *tuple), from, 0, 0)?;
        return Ok(());
    }
    x.arcs_on(tuple, arc.input, buffer)?;
    search.reach_all(arc.next, tuple, from, buffer)?;
    Ok(())
}

/// The end waits, where the source is at an end and the tuple is.
fn finish<X: Expander>(
    x: &mut X,
    last: Option<u64>,
    tuple: &Tuple,
    from: &Entry,
    search: &mut Search,
) -> Result<(), AllocError>
    requires ready { X.is_ready x.old }
    requires known { IsKnown (X.cascades x.old) tuple.now }
    requires kept { Kept search.old }
    requires from { Fits search.old.outputs from.now }
    requires light { from.now.weight < 2 ^ 127 }
    requires short { from.now.length + 1 < 2 ^ 64 }
    ensures grown { OnOk result (GrownFrom (X.cascades x.old) tuple.now search.old search.new from.now (λ c. AtEnd c tuple.now last)) }
    ensures pays { OnOk result (PaysToEnd last tuple.now (X.calls x.old) (X.calls x.new) search.old.nodes search.new.nodes) }
    ensures ready { X.is_ready x.new }
    ensures on { OnOk result (X.goes_on x.old x.new) }
    ensures up { OnErr result (StopsAfter X.goes_on X.gives_up x.old x.new) }
{
    let Some(_) = last else {
        return Ok(());
    };
    let Some(weight) = x.finality(tuple)? else {
        return Ok(());
    };
    search.reach(Node::End, from, weight, 0)?;
    Ok(())
}
