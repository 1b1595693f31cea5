// A tree that grows.

ghost use Rattle.std.specs.Prelude.{◌≡◌, ◌≤◌, ◌<◌, ◌^◌, [], ◌∷◌, length, get_or, insert, slice_set, IfOk, OnOk, IsTrue, ◌↔◌, None, All};
ghost use Rattle.weighted_relations.specs.Relations.{IsLabel};
ghost use Rattle.weighted_relations.specs.Graphs.{label};
ghost use Rattle.weighted_relations.specs.Machines.{WellFormed};
ghost use Rattle.fst_core.specs.States.{as_machine};
ghost use Rattle.lexicon_trees.specs.Entries.{IsEntry};
ghost use Rattle.lexicon_trees.specs.Growing.{IsTree, Led, Ended, Added, one_state, grown, head_of, read_of, written_of, all_read, all_written};

use crate::entries::Entry;
use crate::rows::find;
use fst_core::Fst;
use std::alloc::{AllocError, Global};
use std::marker::Model;
use weighted_relations::Arc;

/// What is done with each of some labels.
#[derive(Clone, Copy)]
pub(crate) enum Way {
    Copied,
    Read,
    Written,
}

/// The states of a tree that grows. Paths begin at the first.
///
/// A tree that was refused memory is to be let go.
#[derive(Drop)]
pub(crate) struct Tree {
    arcs: Vec<Vec<Arc>>,
    finals: Vec<Option<u64>>,
}

impl Model for Tree {
    ghost use Rattle.std.specs.Prelude.{map};
    ghost use Rattle.fst_core.specs.States.{States};

    ghost Value = { States };

    ghost view = { λ a. record { arcs = map (λ row. row.items) a.arcs.items; finals = a.finals.items } };
}

impl Tree {
    /// The tree of no entry.
    pub fn new(alloc: Global) -> Result<Tree, AllocError>
        ensures { IfOk result (λ t. t ≡ one_state) }
    {
        let mut arcs = Vec::new(alloc);
        let mut finals = Vec::new(alloc);
        arcs.push(Vec::new(alloc))?;
        finals.push(None)?;
        Ok(Tree { arcs, finals })
    }

    /// The number of states.
    fn len(&self) -> usize
        ensures { result ≡ length self.now.arcs }
    {
        self.arcs.len()
    }

    /// Adds the reading of an entry.
    pub fn add(&mut self, alloc: Global, entry: &Entry) -> Result<(), AllocError>
        requires tree { IsTree self.old }
        requires entry { IsEntry entry.now }
        ensures { OnOk result (Added self.old self.new entry.now) }
    {
        if is_copied(entry) {
            let state = self.walk(alloc, 0, &entry.input, Way::Copied)?;
            return self.end(alloc, state, entry.weight);
        }
        let read = self.walk(alloc, 0, &entry.input, Way::Read)?;
        let state = self.walk(alloc, read, &entry.output, Way::Written)?;
        self.end(alloc, state, entry.weight)
    }

    /// The state that labels lead to from a state; where a state is missing on the way, it is made.
    fn walk(
        &mut self,
        alloc: Global,
        from: usize,
        labels: &[u16],
        way: Way,
    ) -> Result<usize, AllocError>
        requires tree { IsTree self.old }
        requires from { from < length self.old.arcs }
        requires labels { All IsLabel labels.now }
        ensures { IfOk result (Led self.old self.new from (all_read way labels.now) (all_written way labels.now)) }
    {
        let mut state = from;
        for label in labels {
            state = self.step(alloc, state, read(way, *label), written(way, *label))?;
        }
        Ok(state)
    }

    /// The state that an arc with these labels leads to, which is made where it is missing.
    fn step(
        &mut self,
        alloc: Global,
        state: usize,
        input: u16,
        output: u16,
    ) -> Result<usize, AllocError>
        requires tree { IsTree self.old }
        requires state { state < length self.old.arcs }
        requires input { input ≤ 257 }
        requires output { output ≤ 257 }
        ensures { IfOk result (Led self.old self.new state (label input []) (label output [])) }
    {
        match find(&self.arcs[state], input, output) {
            Ok(next) => Ok(next),
            Err(place) => {
                let next = self.len();
                let arc = Arc {
                    input,
                    output,
                    weight: 0,
                    next,
                };
                self.branch(alloc, state, place, arc, None)?;
                Ok(next)
            }
        }
    }

    /// Lets what comes to a state end there at this weight, too.
    fn end(&mut self, alloc: Global, state: usize, weight: u64) -> Result<(), AllocError>
        requires tree { IsTree self.old }
        requires state { state < length self.old.arcs }
        ensures { OnOk result (Ended self.old self.new state weight) }
    {
        match self.finals[state] {
            None => {
                self.finals[state] = Some(weight);
                Ok(())
            }
            Some(last) => {
                if last == weight {
                    return Ok(());
                }
                self.end_again(alloc, state, weight)
            }
        }
    }

    /// Lets what comes to a state end at this weight in a state of its own, which an arc without labels leads to.
    ///
    /// Such an arc that is there goes on from the new state, so that each state keeps one of them at most.
    fn end_again(&mut self, alloc: Global, state: usize, weight: u64) -> Result<(), AllocError>
        requires tree { IsTree self.old }
        requires state { state < length self.old.arcs }
        ensures { OnOk result (Ended self.old self.new state weight) }
    {
        let arc = Arc {
            input: 0,
            output: 0,
            weight: 0,
            next: self.len(),
        };
        match find(&self.arcs[state], 0, 0) {
            Ok(_) => self.lead_round(alloc, state, arc, Some(weight)),
            Err(place) => self.branch(alloc, state, place, arc, Some(weight)),
        }
    }

    /// Puts an arc among those of a state, at this place, and a state without arcs after the others.
    fn branch(
        &mut self,
        alloc: Global,
        state: usize,
        place: usize,
        arc: Arc,
        last: Option<u64>,
    ) -> Result<(), AllocError>
        requires state { state < length self.old.arcs }
        requires place { place ≤ length (get_or self.old.arcs state []) }
        ensures value { OnOk result (self.new ≡ grown self.old state (insert (get_or self.old.arcs state []) place arc) [] last) }
    {
        self.arcs[state].insert(place, arc)?;
        self.arcs.push(Vec::new(alloc))?;
        self.finals.push(last)?;
        Ok(())
    }

    /// Puts an arc in the place of the first of a state, and a state with that first arc after the others.
    fn lead_round(
        &mut self,
        alloc: Global,
        state: usize,
        arc: Arc,
        last: Option<u64>,
    ) -> Result<(), AllocError>
        requires state { state < length self.old.arcs }
        requires some { 0 < length (get_or self.old.arcs state []) }
        ensures value { OnOk result (self.new ≡ grown self.old state (slice_set (get_or self.old.arcs state []) 0 arc) (head_of (get_or self.old.arcs state [])) last) }
    {
        let mut row = Vec::new(alloc);
        row.push(replace_first(&mut self.arcs[state], arc))?;
        self.arcs.push(row)?;
        self.finals.push(last)?;
        Ok(())
    }

    /// The transducer of the tree.
    pub fn finish(self) -> Fst
        requires { WellFormed (as_machine 0 self) }
        ensures { result ≡ as_machine 0 self }
    {
        let Tree { arcs, finals } = self;
        Fst::new(0, arcs, finals).unwrap()
    }
}

/// Whether an entry writes what it reads.
fn is_copied(entry: &Entry) -> bool
    ensures { IsTrue result ↔ (entry.now.input.items ≡ entry.now.output.items) }
{
    entry.input == entry.output
}

/// Puts an arc in the place of the first, which is handed out.
fn replace_first(row: &mut Vec<Arc>, arc: Arc) -> Arc
    requires some { 0 < length row.old.items }
    ensures first { result ∷ [] ≡ head_of row.old.items }
    ensures after { row.new.items ≡ slice_set row.old.items 0 arc }
{
    let first = row[0];
    row[0] = arc;
    first
}

/// The input label.
fn read(way: Way, label: u16) -> u16
    ensures { result ≡ read_of way label }
{
    match way {
        Way::Copied | Way::Read => label,
        Way::Written => 0,
    }
}

/// The output label.
fn written(way: Way, label: u16) -> u16
    ensures { result ≡ written_of way label }
{
    match way {
        Way::Copied | Way::Written => label,
        Way::Read => 0,
    }
}
