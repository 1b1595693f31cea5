// A cascade.

ghost use Rattle.std.specs.Prelude.{◌≡◌, ◌<◌, ◌≤◌, All, IfOk, IsTrue, false, get_or, length, []};
ghost use Rattle.compose_filter.specs.ComposedPaths.{starts};
ghost use Rattle.fst_core.specs.Sorted.{HasSortedRows};
ghost use Rattle.weighted_relations.specs.Machines.{WellFormed, final_of};
ghost use Rattle.look_ahead.specs.Aheads.{IsAhead};
ghost use Rattle.state_tuples.specs.Positions.{back, most_parts, padded};
ghost use Rattle.state_tuples.specs.Calls.{ReadsNot};
ghost use Rattle.state_tuples.specs.Cascades.{IsOf, IsSound, first_tuple, no_part};

use crate::tuples::{MOST_PARTS, States, Tuple};
use fst_core::{Arc, Fst};
use look_ahead::LookAhead;
use std::alloc::{AllocError, Global};
use std::marker::Model;

/// One to [`MOST_PARTS`](crate::MOST_PARTS) transducers, each of which reads what the one before it writes, with a number that tells the cascade from others.
///
/// It keeps whether the arcs of each state of each part stand in the order of their inputs. Where they do, those that read a label
/// are found by a search. It may keep what the ways from each state of its first part read next, so that a search can leave out tuples from
/// which the next label can't be read.
#[derive(Drop)]
pub struct Cascade {
    number: u32,
    pub(crate) parts: Vec<Fst>,
    is_sorted: bool,
    ahead: Option<LookAhead>,
}

impl Model for Cascade {
    ghost use Rattle.state_tuples.specs.Cascades.{Cascaded};
    ghost use Rattle.state_tuples.specs.Kept.{IsKept};

    ghost Value = { Cascaded };

    ghost view = { λ c. record { number = c.number; parts = c.parts.items } };

    ghost invariant = { λ c. IsKept (record { number = c.number; parts = c.parts.items }) c.is_sorted c.ahead };
}

impl Cascade {
    /// The cascade of these parts, from the first to the last.
    pub fn new(number: u32, parts: Vec<Fst>) -> Cascade
        requires some { 0 < length parts.items }
        requires few { length parts.items ≤ most_parts }
        ensures value { result ≡ record { number = number; parts = parts.items } }
    {
        let is_sorted = all_sorted(&parts);
        Cascade {
            number,
            parts,
            is_sorted,
            ahead: None,
        }
    }

    /// The same cascade, which also keeps what its first part reads next.
    pub fn looking_ahead(alloc: Global, number: u32, parts: Vec<Fst>) -> Result<Cascade, AllocError>
        requires some { 0 < length parts.items }
        requires few { length parts.items ≤ most_parts }
        ensures value { IfOk result (λ c. c ≡ record { number = number; parts = parts.items }) }
    {
        let is_sorted = all_sorted(&parts);
        let ahead = ahead_of(alloc, &parts)?;
        Ok(Cascade {
            number,
            parts,
            is_sorted,
            ahead: Some(ahead),
        })
    }

    /// Its number.
    pub fn number(&self) -> u32
        ensures value { result ≡ self.now.number }
    {
        self.number
    }

    /// The number of its parts.
    pub(crate) fn part_count(&self) -> usize
        ensures value { result ≡ length self.now.parts }
        ensures sound { IsSound self.now }
    {
        self.parts.len()
    }

    /// Whether the arcs of each state of each part stand in the order of their inputs.
    pub(crate) fn is_sorted(&self) -> bool
        ensures { IsTrue result → All HasSortedRows self.now.parts }
    {
        self.is_sorted
    }

    /// Whether some path from the tuple may read this label next; with label 0, whether some path that reads nothing may end. It takes no
    /// memory, and the state of the first part decides.
    pub fn may_read(&self, t: &Tuple, label: u16) -> bool
        ensures none { result ≡ false → ReadsNot self.now t.now label }
    {
        match &self.ahead {
            Some(ahead) => ahead.may(t.states[0], label),
            None => true,
        }
    }

    /// The number of states of the part at a place.
    pub(crate) fn state_count(&self, place: usize) -> usize
        requires place { place < length self.now.parts }
        ensures { result ≡ length (get_or self.now.parts place no_part).arcs }
    {
        self.parts[place].len()
    }

    /// The arcs of the part at a place, at one of its states.
    pub(crate) fn row(&self, place: usize, state: usize) -> &[Arc]
        requires place { place < length self.now.parts }
        requires state { state < length (get_or self.now.parts place no_part).arcs }
        ensures { result.now ≡ get_or (get_or self.now.parts place no_part).arcs state [] }
    {
        self.parts[place].arcs_of(state)
    }

    /// The final weight of a state of the part at a place.
    pub(crate) fn final_at(&self, place: usize, state: usize) -> Option<u64>
        requires place { place < length self.now.parts }
        requires state { state < length (get_or self.now.parts place no_part).arcs }
        ensures { result ≡ final_of (get_or self.now.parts place no_part).finals state }
    {
        self.parts[place].final_of(state)
    }

    /// The tuple where all parts start.
    pub fn start(&self) -> Tuple
        ensures value { result ≡ first_tuple self.now }
        ensures known { IsOf self.now result }
        ensures sound { IsSound self.now }
    {
        let states = starts_of(&self.parts);
        Tuple {
            cascade: self.number,
            states,
            filters: 0,
        }
    }
}

/// Whether the arcs of each state of each part stand in the order of their inputs.
fn all_sorted(parts: &[Fst]) -> bool
    ensures sound { All WellFormed parts.now }
    ensures sorted { IsTrue result → All HasSortedRows parts.now }
{
    let mut sorted = true;
    for part in parts {
        let _start = part.start();
        sorted = part.is_sorted() && sorted;
    }
    sorted
}

/// What the first part reads next.
fn ahead_of(alloc: Global, parts: &[Fst]) -> Result<LookAhead, AllocError>
    requires some { 0 < length parts.now }
    ensures { IfOk result (IsAhead (get_or parts.now 0 no_part)) }
{
    LookAhead::new(alloc, &parts[0])
}

/// Where the parts start, with zeros after them.
fn starts_of(parts: &[Fst]) -> States
    requires few { length parts.now ≤ most_parts }
    ensures { result ≡ padded (starts (back no_part parts.now (length parts.now))) }
{
    let mut states = [0; MOST_PARTS];
    for k in 0..parts.len() {
        states[k] = parts[k].start();
    }
    states
}
