// What a search by lists keeps, and how a node is met.

ghost use Rattle.std.specs.Prelude.{◌≡◌, ◌<◌, ◌≤◌, ◌+◌, ◌^◌, ◌++◌, [], ℕ, List, IfOk, OnOk, MatchOption};
ghost use Rattle.weighted_relations.specs.Graphs.{label as written};

use crate::lists::{Lists, Turn};
use crate::marks::{Mark, best, is_no_greater, is_shorter, is_waiting};
use crate::node::Node;
use crate::nodes::{Nodes, meet};
use crate::outputs::Outputs;
use crate::queue::Entry;
use crate::reaching::longer;
use state_tuples::TupleArc;
use std::alloc::{AllocError, Global};

/// For how many nodes there is room on a list from the beginning.
const USUAL_LIST: usize = 32;

/// The nodes met, what is known of each, the outputs, and the nodes that wait.
#[derive(Drop)]
pub(crate) struct Relaxed {
    pub(crate) nodes: Nodes,
    pub(crate) marks: Vec<Mark>,
    pub(crate) outputs: Outputs,
    pub(crate) lists: Lists,
}

impl Relaxed {
    ghost use Rattle.least_path.specs.Texts.{Grows, text_of};
    ghost use Rattle.least_path.specs.Waiting.{Fits};
    ghost use Rattle.least_path.specs.Keeps.{IsEdge};
    ghost use Rattle.least_path.specs.Ending.{Every};
    ghost use Rattle.least_path.specs.Passing.{Stays};
    ghost use Rattle.least_path.specs.Relaxing.{Kept, Gained, IsBest, IsEmpty, IsMet};

    /// Nothing is met. It takes no memory yet.
    pub(crate) fn new(alloc: Global) -> Relaxed {
        Relaxed {
            nodes: Nodes::new(alloc),
            marks: Vec::new(alloc),
            outputs: Outputs::new(alloc),
            lists: Lists::new(alloc),
        }
    }

    /// Nothing is met any longer. There is room for so many nodes.
    pub(crate) fn clear(&mut self, room: usize) -> Result<(), AllocError>
        ensures { OnOk result (IsEmpty self.new) }
    {
        self.nodes.clear(room)?;
        self.marks.clear();
        self.marks.reserve(room)?;
        self.outputs.clear(room)?;
        self.lists.clear(USUAL_LIST)?;
        Ok(())
    }

    /// A node is met by a way of this weight and output more. Where the way is less than its best so far, it takes the place of this and
    /// the node waits.
    #[inline(always)]
    pub(crate) fn relax(
        &mut self,
        node: Node,
        from: &Entry,
        weight: u64,
        output: u16,
        turn: Turn,
    ) -> Result<(), AllocError>
        requires kept { Kept self.old }
        requires from { Fits self.old.outputs from.now }
        requires light { from.now.weight < 2 ^ 127 }
        requires short { from.now.length + 1 < 2 ^ 64 }
        ensures { OnOk result (Gained Stays Every self.old self.new from.now.weight (text_of self.old.outputs from.now.output) (IsEdge node weight (written output []))) }
    {
        let number = meet(&mut self.nodes, &mut self.marks, node)?;
        let weight = from.weight + weight as u128;
        let length = longer(from.length, output);
        if is_shorter(&self.marks[number], weight, length) {
            return Ok(());
        }
        let output = self.outputs.more(from.output, output)?;
        let way = Entry {
            weight,
            length,
            output,
            node: number,
        };
        if is_no_greater(&self.marks[number], &self.outputs, &way) {
            return Ok(());
        }
        let is_listed = is_waiting(&self.marks[number]);
        self.marks[number] = Mark::Waiting(way);
        if is_listed {
            return Ok(());
        }
        self.lists.put(number, turn)?;
        Ok(())
    }

    /// A way that goes on along a move.
    pub(crate) fn go_on(&mut self, from: &Entry, a: &TupleArc) -> Result<Entry, AllocError>
        requires from { Fits self.old.outputs from.now }
        requires light { from.now.weight < 2 ^ 127 }
        requires short { from.now.length + 1 < 2 ^ 64 }
        ensures fits { IfOk result (Fits self.new.outputs) }
        ensures weight { IfOk result (λ e. e.weight ≡ from.now.weight + a.now.weight) }
        ensures light { IfOk result (λ e. e.weight ≤ from.now.weight + 2 ^ 64) }
        ensures short { IfOk result (λ e. e.length ≤ from.now.length + 1) }
        ensures output { IfOk result (λ e. text_of self.new.outputs e.output ≡ text_of self.old.outputs from.now.output ++ written a.now.output []) }
        ensures texts { Grows self.old.outputs self.new.outputs }
        ensures nodes { self.new.nodes ≡ self.old.nodes }
        ensures marks { self.new.marks ≡ self.old.marks }
        ensures lists { self.new.lists ≡ self.old.lists }
    {
        Ok(Entry {
            weight: from.weight + a.weight as u128,
            length: longer(from.length, a.output),
            output: self.outputs.more(from.output, a.output)?,
            node: from.node,
        })
    }

    /// The best way to the end, where it was met.
    pub(crate) fn best_end(&self) -> Option<Entry>
        requires { Kept self.now }
        ensures { MatchOption result ((w : ℕ) (y : List ℕ) → IsMet self.now Node.End w y → ⊥) (IsBest self.now Node.End) }
    {
        match self.nodes.end() {
            Some(number) => best(&self.marks[number]),
            None => None,
        }
    }
}
