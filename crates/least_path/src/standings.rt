// How the nodes of a search stand.

ghost use Rattle.std.specs.Prelude.{◌≡◌, ◌↔◌, IfOk, IsTrue, length};
ghost use Rattle.state_table.specs.Numbers.{Distinct};
ghost use Rattle.least_path.specs.Notes.{Noted};
ghost use Rattle.least_path.specs.Standings.{Passes};
ghost use Rattle.least_path.specs.declared.standings.Standing.TheVariants.{Met, Settled};
ghost use Rattle.least_path.specs.Waiting.{Before, Fits};

use crate::node::Node;
use crate::outputs::Outputs;
use crate::queue::{Entry, is_before};
use state_table::StateTable;
use std::alloc::AllocError;

/// What is known of a node: nothing, the first of the ways to it that wait, or that its least way is found.
#[derive(Clone, Copy)]
pub(crate) enum Standing {
    Unmet,
    Met(Entry),
    Settled,
}

/// The number of a node. What is kept of a new one is `unmet`.
pub(crate) fn note<T: Copy>(
    nodes: &mut StateTable<Node>,
    marks: &mut Vec<T>,
    node: Node,
    unmet: T,
) -> Result<usize, AllocError>
    requires { length marks.old.items ≡ length nodes.old }
    ensures noted { IfOk result (λ i. Noted unmet nodes.old nodes.new marks.old.items marks.new.items node i) }
    ensures distinct { Distinct nodes.new }
{
    let number = nodes.number(node)?;
    if number == marks.len() {
        marks.push(unmet)?;
    }
    Ok(number)
}

/// Whether a node is settled.
pub(crate) fn is_settled(standing: &Standing) -> bool
    ensures { IsTrue result ↔ (standing.now ≡ Settled) }
{
    match standing {
        Standing::Settled => true,
        _ => false,
    }
}

/// Whether a way of this weight and length need not wait, whatever its output.
pub(crate) fn is_passed(standing: &Standing, weight: u128, length: usize) -> bool
    ensures { IsTrue result ↔ Passes standing.now weight length }
{
    match standing {
        Standing::Unmet => false,
        Standing::Met(best) => {
            best.weight < weight || (best.weight == weight && best.length < length)
        }
        Standing::Settled => true,
    }
}

/// Whether a way to the node that is no greater waits.
pub(crate) fn is_under(standing: &Standing, outputs: &Outputs, entry: &Entry) -> bool
    requires best { (b : Entry) → standing.now ≡ Met b → Fits outputs.now b }
    requires entry { Fits outputs.now entry.now }
    ensures { IsTrue result → (b : Entry) × (standing.now ≡ Met b) × Before outputs.now b entry.now }
{
    match standing {
        Standing::Met(best) => is_before(outputs, best, entry),
        _ => false,
    }
}
