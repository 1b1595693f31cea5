// What a search keeps, and its step.

ghost use Rattle.std.specs.Prelude.{◌≡◌, ◌<◌, ◌≤◌, ◌+◌, ◌^◌, ◌++◌, ◌∷◌, [], ℕ, List, OnOk, MatchOption, Some, length, drop, get_or};
ghost use Rattle.weighted_relations.specs.Graphs.{label};
ghost use Rattle.weighted_relations.specs.Machines.{graph};
ghost use Rattle.weighted_relations.specs.SearchPaths.{Along};
ghost use Rattle.search_tests.specs.Growth.{AlongArc, Grown};

use crate::entries::{Entry, Pair, Place, is_settled};
use fst_core::{Arc, Fst};
use std::alloc::{AllocError, Global};

/// The ways still to be looked at, and the pairs whose least way is known.
#[derive(Drop)]
pub(crate) struct Search {
    pub(crate) waiting: Vec<Entry>,
    pub(crate) settled: Vec<Pair>,
}

impl Search {
    /// Settles a pair, and opens what its edges lead to.
    pub(crate) fn settle(
        &mut self,
        alloc: Global,
        rule: &Fst,
        line: &[u8],
        from: &Entry,
        pair: Pair,
    ) -> Result<(), AllocError>
        requires state { pair.state < length rule.now.arcs }
        requires position { pair.position ≤ length line.now }
        requires weight { from.now.weight < 2 ^ 127 }
        ensures settled { OnOk result (self.new.settled.items ≡ self.old.settled.items ++ pair ∷ []) }
        ensures grown { OnOk result (Grown line.now self.new.settled.items self.old.waiting.items self.new.waiting.items from.now (length (get_or rule.now.arcs pair.state []) + 1) (Along (graph rule.now) (Some (drop pair.position line.now, pair.state)))) }
    {
        self.settled.push(pair)?;
        for arc in rule.arcs_of(pair.state) {
            self.follow(alloc, line, from, pair.position, arc)?;
        }
        if pair.position < line.len() {
            return Ok(());
        }
        if let Some(last) = rule.final_of(pair.state) {
            self.waiting.push(from.then(alloc, 0, last, Place::End)?)?;
        }
        Ok(())
    }

    /// Opens what an arc leads to, where the line goes on with its input, to a pair that isn't settled.
    fn follow(
        &mut self,
        alloc: Global,
        line: &[u8],
        from: &Entry,
        position: usize,
        arc: &Arc,
    ) -> Result<(), AllocError>
        requires position { position ≤ length line.now }
        requires weight { from.now.weight < 2 ^ 127 }
        ensures settled { self.new.settled ≡ self.old.settled }
        ensures grown { OnOk result (Grown line.now self.new.settled.items self.old.waiting.items self.new.waiting.items from.now 1 (AlongArc (drop position line.now) arc.now)) }
    {
        let Some(position) = after(line, position, arc.input) else {
            return Ok(());
        };
        let pair = Pair {
            position,
            state: arc.next,
        };
        if is_settled(&self.settled, pair) {
            return Ok(());
        }
        self.waiting
            .push(from.then(alloc, arc.output, arc.weight, Place::At(pair))?)?;
        Ok(())
    }
}

/// The position after a label, where the line goes on with it. The label 0 reads nothing.
fn after(line: &[u8], position: usize, input: u16) -> Option<usize>
    requires { position ≤ length line.now }
    ensures { MatchOption result ((rest : List ℕ) → drop position line.now ≡ label input rest → ⊥) (λ i. (i ≤ length line.now) × (drop position line.now ≡ label input (drop i line.now))) }
{
    if input == 0 {
        return Some(position);
    }
    if position < line.len() && line[position] as u16 == input {
        return Some(position + 1);
    }
    None
}
