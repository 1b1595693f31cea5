// A transducer, and what reads it.

ghost use Rattle.std.specs.Prelude.{◌≡◌, ◌<◌, ◌^◌, ◌↔◌, length, get_or, [], IsSome, IfSome};
ghost use Rattle.weighted_relations.specs.Machines.{final_of, WellFormed};
ghost use Rattle.fst_core.specs.States.{as_states};
ghost use Rattle.fst_core.specs.Top.{top_of};
ghost use Rattle.fst_core.specs.Made.{machine};

use crate::bounds::{ends_top, rows_top};
use crate::builder::Builder;
use crate::parts::parts_fit;
use std::cmp::max;
use std::marker::Model;
use weighted_relations::Arc;

/// A weighted transducer.
///
/// Its states are numbered from 0. A label is a byte from 1 to 255, the mark of the beginning (256), the
/// mark of the end (257), or 0, which reads or writes nothing. A weight is in ten-thousandths, and below
/// 2^54.
#[derive(Drop)]
pub struct Fst {
    pub(crate) start: usize,
    pub(crate) arcs: Vec<Vec<Arc>>,
    pub(crate) finals: Vec<Option<u64>>,
}

impl Model for Fst {
    ghost use Rattle.std.specs.Prelude.{map};
    ghost use Rattle.weighted_relations.specs.Machines.{Machine, WellFormed};

    ghost Value = { Machine };

    ghost view = { λ a. record { start = a.start; arcs = map (λ row. row.items) a.arcs.items; finals = a.finals.items } };

    ghost invariant = { λ a. WellFormed (record { start = a.start; arcs = map (λ row. row.items) a.arcs.items; finals = a.finals.items }) };
}

impl Fst {
    /// A transducer of these parts, or none where they do not make one.
    pub fn new(start: usize, arcs: Vec<Vec<Arc>>, finals: Vec<Option<u64>>) -> Option<Fst>
        ensures sound { IsSome result ↔ WellFormed (machine start arcs finals) }
        ensures value { IfSome result (λ m. m ≡ machine start arcs finals) }
    {
        if !parts_fit(start, &arcs, &finals) {
            return None;
        }
        Some(Fst {
            start,
            arcs,
            finals,
        })
    }

    /// The number of states.
    pub fn len(&self) -> usize
        ensures count { result ≡ length self.now.arcs }
        ensures small { result < 2 ^ 63 }
    {
        self.arcs.len()
    }

    /// The state where paths start.
    pub fn start(&self) -> usize
        ensures value { result ≡ self.now.start }
        ensures small { result < 2 ^ 63 }
        ensures sound { WellFormed self.now }
    {
        self.start
    }

    /// The arcs of a state.
    pub fn arcs_of(&self, state: usize) -> &[Arc]
        requires state { state < length self.now.arcs }
        ensures value { result.now ≡ get_or self.now.arcs state [] }
        ensures sound { WellFormed self.now }
    {
        self.arcs[state].as_slice()
    }

    /// The final weight of a state.
    pub fn final_of(&self, state: usize) -> Option<u64>
        requires state { state < length self.now.arcs }
        ensures value { result ≡ final_of self.now.finals state }
    {
        self.finals[state]
    }

    /// The greatest weight of an arc or a final state, and 0 where there is none.
    pub fn top(&self) -> u64
        ensures value { result ≡ top_of self.now }
    {
        max(rows_top(&self.arcs), ends_top(&self.finals))
    }

    /// Its states, to be added to.
    pub(crate) fn into_builder(self) -> Builder
        ensures value { result ≡ as_states self }
    {
        let Fst {
            start: _,
            arcs,
            finals,
        } = self;
        Builder { arcs, finals }
    }
}
