// The search over a source and the tuples of an expander.

ghost use Rattle.std.specs.Prelude.{IfOk, IfSome, OnErr, OnOk, option_map};
ghost use Rattle.least_path.specs.Counting.{CallsForEach};
ghost use Rattle.least_path.specs.Starting.{IsLeastFrom, IsStart, StopsAfter, WritesBytes};

use crate::answers::Least;
use crate::expanding::expand;
use crate::listing::least_by_lists;
use crate::node::Node;
use crate::queue::Entry;
use crate::reaching::Search;
use crate::rooms::Room;
use fst_core::Fst;
use state_tuples::{Expander, Tuple, cascades_read_their_parts};
use std::alloc::{AllocError, Global};

/// The least reading of the cascade that starts at the tuple, at an input of the source: by weight, then by the length of its output, then by
/// its bytes. None exactly where there is none. What the source writes and weighs does not count.
///
/// Where there is one, it makes a call for each label that all inputs of the source have at least, and one more for the end.
///
/// It searches by lists, which is fast on a line. Where that search gives up, which costs a constant factor at most, the one by the queue
/// answers.
pub fn least<X: Expander>(
    alloc: Global,
    source: &Fst,
    x: &mut X,
    start: &Tuple,
) -> Result<Option<Least>, AllocError>
    requires ready { X.is_ready x.old }
    requires start { IsStart (X.cascades x.old) start.now }
    requires bytes { WritesBytes (X.cascades x.old) start.now }
    ensures least { IfOk result (λ answer. IsLeastFrom source.now (X.cascades x.old) start.now (option_map (λ l. (l.weight, l.output.items)) answer)) }
    ensures calls { IfOk result (λ answer. IfSome answer (λ _. CallsForEach source.now (X.calls x.old) (X.calls x.new))) }
    ensures ready { X.is_ready x.new }
    ensures on { OnOk result (X.goes_on x.old x.new) }
    ensures up { OnErr result (StopsAfter X.goes_on X.gives_up x.old x.new) }
{
    let mut room = Room::new(alloc);
    least_in(alloc, &mut room, source, x, start)
}

/// The same, in room that searches before it may have used.
pub fn least_in<X: Expander>(
    alloc: Global,
    room: &mut Room,
    source: &Fst,
    x: &mut X,
    start: &Tuple,
) -> Result<Option<Least>, AllocError>
    requires ready { X.is_ready x.old }
    requires start { IsStart (X.cascades x.old) start.now }
    requires bytes { WritesBytes (X.cascades x.old) start.now }
    ensures least { IfOk result (λ answer. IsLeastFrom source.now (X.cascades x.old) start.now (option_map (λ l. (l.weight, l.output.items)) answer)) }
    ensures calls { IfOk result (λ answer. IfSome answer (λ _. CallsForEach source.now (X.calls x.old) (X.calls x.new))) }
    ensures ready { X.is_ready x.new }
    ensures on { OnOk result (X.goes_on x.old x.new) }
    ensures up { OnErr result (StopsAfter X.goes_on X.gives_up x.old x.new) }
{
    match least_by_lists(alloc, source, x, start, &mut room.search, &mut room.buffer)? {
        Some(answer) => Ok(answer),
        None => least_by_queue(alloc, source, x, start),
    }
}

/// The same by an ordered queue alone, whatever the source.
///
/// After Dijkstra: the first entry that waits is the least way to its node, unless this is settled. It ends, since each round settles one
/// node more, and a node is a state of the source with a tuple. Its sums fit `u128`: each settled node adds less than 2^56 to a weight, and
/// fewer than 2^64 are settled.
pub fn least_by_queue<X: Expander>(
    alloc: Global,
    source: &Fst,
    x: &mut X,
    start: &Tuple,
) -> Result<Option<Least>, AllocError>
    requires ready { X.is_ready x.old }
    requires start { IsStart (X.cascades x.old) start.now }
    requires bytes { WritesBytes (X.cascades x.old) start.now }
    ensures least { IfOk result (λ answer. IsLeastFrom source.now (X.cascades x.old) start.now (option_map (λ l. (l.weight, l.output.items)) answer)) }
    ensures calls { IfOk result (λ answer. IfSome answer (λ _. CallsForEach source.now (X.calls x.old) (X.calls x.new))) }
    ensures ready { X.is_ready x.new }
    ensures on { OnOk result (X.goes_on x.old x.new) }
    ensures up { OnErr result (StopsAfter X.goes_on X.gives_up x.old x.new) }
{
    cascades_read_their_parts();
    let mut search = Search::new(alloc);
    let nothing = Entry {
        weight: 0,
        length: 0,
        output: 0,
        node: 0,
    };
    search.reach(Node::At(source.start(), *start), &nothing, 0, 0)?;
    let mut buffer = Vec::new(alloc);
    while let Some(entry) = search.next() {
        match *search.nodes.key(entry.node) {
            Node::End => {
                return Ok(Some(Least {
                    weight: entry.weight,
                    output: search.outputs.bytes(alloc, entry.output, entry.length)?,
                }));
            }
            Node::At(state, tuple) => {
                expand(source, x, state, &tuple, &entry, &mut search, &mut buffer)?;
            }
        }
    }
    Ok(None)
}
