// The search by lists.

ghost use Rattle.std.specs.Prelude.{◌≡◌, ◌≤◌, ◌^◌, IfOk, IfSome, OnErr, OnOk, option_map};
ghost use Rattle.least_path.specs.Counting.{CallsForEach, HasRisen};
ghost use Rattle.least_path.specs.Starting.{IsLeastFrom, IsStart, StopsAfter, WritesBytes};

use crate::answers::Least;
use crate::lists::Turn;
use crate::marks::Mark;
use crate::node::Node;
use crate::queue::Entry;
use crate::relaxing::Relaxed;
use crate::spreading::spread;
use fst_core::Fst;
use state_tuples::{Expander, Tuple, TupleArc, cascades_read_their_parts};
use std::alloc::{AllocError, Global};
use std::cmp::min;

/// The least reading as [`crate::least`] answers it, or `None` where the search gives up. What is in `search` and `buffer` is given up first.
///
/// A search that corrects its labels, after Bellman, Ford and Moore: nodes are taken in the order in which they came, and one that gets a
/// lesser way is taken again. A move that reads leads to the list after this one, so a node of a line is mostly taken once. Where the
/// source leads the search to take nodes often, it gives up.
pub(crate) fn least_by_lists<X: Expander>(
    alloc: Global,
    source: &Fst,
    x: &mut X,
    start: &Tuple,
    search: &mut Relaxed,
    buffer: &mut Vec<TupleArc>,
) -> Result<Option<Option<Least>>, AllocError>
    requires ready { X.is_ready x.old }
    requires start { IsStart (X.cascades x.old) start.now }
    requires bytes { WritesBytes (X.cascades x.old) start.now }
    ensures least { IfOk result (λ found. IfSome found (λ answer. IsLeastFrom source.now (X.cascades x.old) start.now (option_map (λ l. (l.weight, l.output.items)) answer))) }
    ensures calls { IfOk result (λ found. IfSome found (λ answer. IfSome answer (λ _. CallsForEach source.now (X.calls x.old) (X.calls x.new)))) }
    ensures risen { OnOk result (HasRisen 0 (X.calls x.old) (X.calls x.new)) }
    ensures ready { X.is_ready x.new }
    ensures on { OnOk result (X.goes_on x.old x.new) }
    ensures up { OnErr result (StopsAfter X.goes_on X.gives_up x.old x.new) }
{
    cascades_read_their_parts();
    search.clear(usual_nodes(source.len()))?;
    let nothing = Entry {
        weight: 0,
        length: 0,
        output: 0,
        node: 0,
    };
    let first = Node::At(source.start(), *start);
    search.relax(first, &nothing, 0, 0, Turn::Now)?;
    let mut taken = 0;
    while let Some(number) = search.lists.take() {
        if taken >= most_taken(search.nodes.len()) {
            return Ok(None);
        }
        taken += 1;
        let Mark::Waiting(way) = search.marks[number] else {
            continue;
        };
        let Node::At(state, tuple) = search.nodes.node(number) else {
            continue;
        };
        search.marks[number] = Mark::Done(way);
        spread(source, x, state, &tuple, &way, search, buffer)?;
    }
    let Some(way) = search.best_end() else {
        return Ok(Some(None));
    };
    Ok(Some(Some(Least {
        weight: way.weight,
        output: search.outputs.bytes(alloc, way.output, way.length)?,
    })))
}

/// For how many nodes there is room from the beginning, with a source of so many states. Lines of text mostly lead to fewer.
fn usual_nodes(states: usize) -> usize {
    min(states, 1 << 16) * 4 + 65
}

/// How often nodes are taken before the search gives up, where so many were met.
fn most_taken(nodes: usize) -> usize
    ensures { result ≤ 2 ^ 48 }
{
    min(nodes, 1 << 43) * 16 + 1000
}
