// The search for the states that arcs lead to.

ghost use Rattle.std.specs.Prelude.{◌≡◌, ◌↔◌, ◌<◌, ◌≤◌, ◌^◌, ℕ, [], length, get_or, slice_get, All, IsTrue, OnOk, IfOk, IfSome};
ghost use Rattle.std.specs.List.{Contains};
ghost use Rattle.fst_core.specs.Reach.{Added, FollowedTo, LedTo, Reached, IsFollowed};

use crate::fst::Fst;
use std::alloc::{AllocError, Global};
use std::marker::Model;
use weighted_relations::Arc;

/// Which arcs a search follows.
#[derive(Clone, Copy, Debug, PartialEq, Eq)]
pub enum Follow {
    /// Every arc.
    Every,
    /// The arcs that read nothing.
    EmptyInput,
}

/// A search for the states that arcs lead to, from those that are added to it.
///
/// One search can serve many times: `clear` costs no more than what was found.
#[derive(Drop)]
pub struct Search {
    marks: Vec<bool>,
    found: Vec<usize>,
}

impl Model for Search {
    ghost use Rattle.std.specs.Prelude.{length};
    ghost use Rattle.fst_core.specs.Reach.{Found, Marked};

    ghost Value = { Found };

    ghost view = { λ a. record { size = length a.marks.items; states = a.found.items } };

    ghost invariant = { λ a. Marked a.marks.items a.found.items };
}

impl Search {
    /// A search among so many states, of which none was found.
    pub fn new(alloc: Global, states: usize) -> Result<Search, AllocError>
        ensures value { IfOk result (λ f. f ≡ record { size = states; states = [] }) }
    {
        let mut marks = Vec::new(alloc);
        for _ in 0..states {
            marks.push(false)?;
        }
        Ok(Search {
            marks,
            found: Vec::new(alloc),
        })
    }

    /// A state is found, if it was not yet.
    pub fn add(&mut self, state: usize) -> Result<(), AllocError>
        requires state { state < self.old.size }
        ensures added { OnOk result (Added self.old state self.new) }
    {
        if !self.marks[state] {
            self.found.push(state)?;
            self.marks[state] = true;
        }
        Ok(())
    }

    /// What arcs lead to from the states that were found is found too.
    ///
    /// A search that was refused memory may lack some of it, and is to be let go.
    pub fn run(&mut self, a: &Fst, which: Follow) -> Result<(), AllocError>
        requires size { self.old.size ≡ length a.now.arcs }
        ensures size { OnOk result (self.new.size ≡ self.old.size) }
        ensures found { OnOk result ((t : ℕ) → Contains self.new.states t ↔ LedTo a.now which self.old.states t) }
    {
        let mut next = 0;
        while let Some(s) = self.at(next) {
            next += 1;
            self.follow(a, s, which)?;
        }
        Ok(())
    }

    /// Whether a state was found.
    pub fn has(&self, state: usize) -> bool
        requires state { state < self.now.size }
        ensures found { IsTrue result ↔ Contains self.now.states state }
    {
        self.marks[state]
    }

    /// What was found, in order.
    pub fn found(&self) -> &[usize]
        ensures states { result.now ≡ self.now.states }
        ensures within { All (λ s. s < self.now.size) result.now }
    {
        self.found.as_slice()
    }

    /// Nothing is found any more.
    pub fn clear(&mut self)
        ensures value { self.new ≡ record { size = self.old.size; states = [] } }
    {
        while let Some(s) = self.found.pop() {
            self.marks[s] = false;
        }
    }

    /// The state that was found at a place of the order.
    fn at(&self, place: usize) -> Option<usize>
        ensures value { result ≡ slice_get self.now.states place }
        ensures within { IfSome result (λ s. s < self.now.size) }
        ensures count { length self.now.states ≤ self.now.size }
        ensures small { self.now.size < 2 ^ 63 }
    {
        if place < self.found.len() {
            Some(self.found[place])
        } else {
            None
        }
    }

    /// What the arcs of a state lead to is found.
    fn follow(&mut self, a: &Fst, s: usize, which: Follow) -> Result<(), AllocError>
        requires state { s < length a.now.arcs }
        requires size { self.old.size ≡ length a.now.arcs }
        ensures { OnOk result (FollowedTo a.now which self.old s (length (get_or a.now.arcs s [])) self.new) }
    {
        for arc in a.arcs_of(s) {
            if follows(which, arc) {
                self.add(arc.next)?;
            }
        }
        Ok(())
    }
}

/// Whether an arc is followed.
fn follows(which: Follow, arc: &Arc) -> bool
    ensures { IsTrue result ↔ IsFollowed which arc.now }
{
    match which {
        Follow::Every => true,
        Follow::EmptyInput => arc.input == 0,
    }
}

/// What arcs lead to from the start, the start included.
pub fn reached(alloc: Global, a: &Fst, which: Follow) -> Result<Search, AllocError>
    ensures states { IfOk result (Reached a.now which) }
{
    let mut search = Search::new(alloc, a.len())?;
    search.add(a.start())?;
    search.run(a, which)?;
    Ok(search)
}
