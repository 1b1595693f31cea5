// The sets of the states.

ghost use Rattle.std.specs.Prelude.{◌≡◌, IfOk, [], slice_get};
ghost use Rattle.look_ahead.specs.Aheads.{IsAhead, may};

use crate::checking::is_closed;
use crate::gathering::gather;
use fst_core::Fst;
use std::alloc::{AllocError, Global};
use std::marker::Model;

/// For each state of a transducer the labels that some way from it to an end reads next, and perhaps more. Label 0 stands for the ways to an
/// end that read nothing.
///
/// States with equal sets share one, so that a state costs four bytes, and a set 258.
#[derive(Drop)]
pub struct LookAhead {
    pub(crate) places: Vec<u32>,
    pub(crate) table: Vec<bool>,
}

impl Model for LookAhead {
    ghost use Rattle.look_ahead.specs.Aheads.{Sets};

    ghost Value = { Sets };

    ghost view = { λ a. record { places = a.places.items; table = a.table.items } };
}

impl LookAhead {
    /// The sets of a transducer. It takes time in proportion to its arcs for each sweep over them, of which there are few; a chain of arcs
    /// takes two.
    pub fn new(alloc: Global, m: &Fst) -> Result<LookAhead, AllocError>
        ensures ahead { IfOk result (IsAhead m.now) }
    {
        let sets = gather(alloc, m)?;
        if is_closed(m, &sets) {
            return Ok(sets);
        }
        Ok(LookAhead {
            places: Vec::new(alloc),
            table: Vec::new(alloc),
        })
    }

    /// Whether a label is in the set of a state: where it isn't, no way from the state to an end reads it next.
    pub fn may(&self, state: usize, label: u16) -> bool
        ensures { result ≡ may self.now state label }
    {
        match self.places.get(state) {
            Some(place) => match self.table.get(*place as usize + label as usize) {
                Some(allowed) => *allowed,
                None => true,
            },
            None => true,
        }
    }

    /// The place of a state's set.
    pub(crate) fn place(&self, state: usize) -> Option<u32>
        ensures { result ≡ slice_get self.now.places state }
    {
        self.places.get(state).copied()
    }
}
