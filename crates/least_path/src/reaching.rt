// What a search keeps, and how a node comes to wait.

ghost use Rattle.std.specs.Prelude.{◌≡◌, ◌<◌, ◌+◌, ◌^◌, ◌∷◌, [], length, OnOk, MatchOption};
ghost use Rattle.weighted_relations.specs.Graphs.{label as written};

use crate::node::Node;
use crate::outputs::Outputs;
use crate::queue::{Entry, pop, push};
use crate::standings::{Standing, is_passed, is_settled, is_under, note};
use state_table::StateTable;
use state_tuples::{Tuple, TupleArc};
use std::alloc::{AllocError, Global};

/// The nodes met, how each stands, the outputs, and what waits.
#[derive(Drop)]
pub(crate) struct Search {
    pub(crate) nodes: StateTable<Node>,
    pub(crate) standings: Vec<Standing>,
    pub(crate) outputs: Outputs,
    pub(crate) queue: Vec<Entry>,
}

impl Search {
    ghost use Rattle.least_path.specs.Texts.{text_of};
    ghost use Rattle.least_path.specs.Waiting.{Fits};
    ghost use Rattle.least_path.specs.Growths.{AlongMoves};
    ghost use Rattle.least_path.specs.Keeps.{Kept, Grown, IsEdge, Left, IsTaken};

    /// Nothing is met.
    pub(crate) fn new(alloc: Global) -> Search
        ensures nodes { result.nodes ≡ [] }
        ensures standings { result.standings.items ≡ [] }
        ensures outputs { result.outputs ≡ [] ∷ [] }
        ensures queue { result.queue.items ≡ [] }
    {
        Search {
            nodes: StateTable::new(alloc),
            standings: Vec::new(alloc),
            outputs: Outputs::new(alloc),
            queue: Vec::new(alloc),
        }
    }

    /// A node waits at this weight and output more, where it is not settled and no way to it waits that is no greater.
    pub(crate) fn reach(
        &mut self,
        node: Node,
        from: &Entry,
        weight: u64,
        output: u16,
    ) -> Result<(), AllocError>
        requires kept { Kept self.old }
        requires from { Fits self.old.outputs from.now }
        requires light { from.now.weight < 2 ^ 127 }
        requires short { from.now.length + 1 < 2 ^ 64 }
        ensures { OnOk result (Grown self.old self.new from.now.weight (text_of self.old.outputs from.now.output) (IsEdge node weight (written output []))) }
    {
        let number = note(&mut self.nodes, &mut self.standings, node, Standing::Unmet)?;
        let weight = from.weight + weight as u128;
        let length = longer(from.length, output);
        if is_passed(&self.standings[number], weight, length) {
            return Ok(());
        }
        let output = self.outputs.more(from.output, output)?;
        let entry = Entry {
            weight,
            length,
            output,
            node: number,
        };
        if is_under(&self.standings[number], &self.outputs, &entry) {
            return Ok(());
        }
        self.standings[number] = Standing::Met(entry);
        push(&mut self.queue, &self.outputs, entry)?;
        Ok(())
    }

    /// What these moves lead to waits, with the source at a state.
    pub(crate) fn reach_all(
        &mut self,
        state: usize,
        tuple: &Tuple,
        from: &Entry,
        moves: &[TupleArc],
    ) -> Result<(), AllocError>
        requires kept { Kept self.old }
        requires from { Fits self.old.outputs from.now }
        requires light { from.now.weight < 2 ^ 127 }
        requires short { from.now.length + 1 < 2 ^ 64 }
        ensures { OnOk result (Grown self.old self.new from.now.weight (text_of self.old.outputs from.now.output) (AlongMoves state tuple.now moves.now)) }
    {
        for a in moves {
            let next = Tuple {
                cascade: tuple.cascade,
                states: a.states,
                filters: a.filters,
            };
            self.reach(Node::At(state, next), from, a.weight, a.output)?;
        }
        Ok(())
    }

    /// Takes out the first entry whose node is not settled, and settles this.
    pub(crate) fn next(&mut self) -> Option<Entry>
        requires { Kept self.old }
        ensures { MatchOption result (Left self.old []) (IsTaken self.old self.new) }
    {
        while let Some(entry) = pop(&mut self.queue, &self.outputs) {
            if !is_settled(&self.standings[entry.node]) {
                self.standings[entry.node] = Standing::Settled;
                return Some(entry);
            }
        }
        None
    }
}

/// The length with a label more.
pub(crate) fn longer(from: usize, label: u16) -> usize
    requires { from + 1 < 2 ^ 64 }
    ensures { result ≡ from + length (written label []) }
{
    if label == 0 { from } else { from + 1 }
}
