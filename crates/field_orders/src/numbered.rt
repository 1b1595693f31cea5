//! The states of a source, numbered as they are met.

ghost use Rattle.std.specs.Prelude.{◌≡◌, ◌<◌, ◌^◌, [], IfOk, OnErr, Some, length, slice_get};
ghost use Rattle.state_table.specs.Numbers.{Numbers};
ghost use Rattle.field_orders.specs.declared.states.State.TheVariants.{Fields};

use crate::states::State;
use state_table::{StateSet, StateTable};
use std::alloc::{AllocError, Global};
use std::marker::Model;

/// For how many states there is room from the beginning.
const USUAL_STATES: usize = 64;

/// States with their numbers, from 0.
///
/// Texts that are written in different orders meet again where fields are left, so such a state is looked up. Each other state belongs to
/// one field that is chosen in one such state, so none comes twice, and it gets the next number without a look.
#[derive(Drop)]
pub(crate) struct Numbered {
    all: Vec<State>,
    /// Those of the states that are looked up,
    meeting: StateTable<State>,
    /// and the number of each.
    numbers: Vec<usize>,
}

impl Model for Numbered {
    ghost use Rattle.std.specs.Prelude.{List};
    ghost use Rattle.field_orders.specs.Sources.{AreMet};
    ghost use Rattle.field_orders.specs.declared.states.State.{State};

    ghost Value = { List State };

    ghost view = { λ s. s.all.items };

    ghost invariant = { λ s. AreMet s.all.items s.meeting s.numbers.items };
}

impl Numbered {
    /// No states, and room for as many as most records have.
    pub(crate) fn new(alloc: Global) -> Result<Numbered, AllocError>
        ensures value { IfOk result (λ s. s ≡ []) }
    {
        Ok(Numbered {
            all: Vec::with_capacity(alloc, USUAL_STATES)?,
            meeting: StateTable::new(alloc),
            numbers: Vec::new(alloc),
        })
    }

    /// How many states have a number.
    pub(crate) fn len(&self) -> usize
        ensures count { result ≡ length self.now }
        ensures small { result < 2 ^ 63 }
    {
        self.all.len()
    }

    /// The state of a number.
    pub(crate) fn state(&self, number: usize) -> &State
        requires within { number < length self.now }
        ensures value { slice_get self.now number ≡ Some result.now }
    {
        &self.all[number]
    }

    /// Gives a state the next number.
    pub(crate) fn put(&mut self, state: State) -> Result<usize, AllocError>
        ensures number { IfOk result (Numbers self.old self.new state) }
        ensures unchanged { OnErr result (self.new ≡ self.old) }
    {
        let number = self.all.len();
        self.all.push(state)?;
        Ok(number)
    }

    /// The number of the state where these fields are left. It gets the next one where it has none.
    pub(crate) fn meet(
        &mut self,
        alloc: Global,
        left: Vec<usize>,
        next: usize,
    ) -> Result<usize, AllocError>
        ensures number { IfOk result (Numbers self.old self.new (Fields left.items next)) }
    {
        let copy = StateSet::new(Vec::from_slice(alloc, &left)?);
        let known = self.numbers.len();
        let place = self.meeting.number(State::Fields { left: copy, next })?;
        if place < known {
            return Ok(self.numbers[place]);
        }
        let number = self.all.len();
        let left = StateSet::new(left);
        self.all.push(State::Fields { left, next })?;
        // (the two are unequal only after a refusal of memory)
        if place == known {
            self.numbers.push(number)?;
        }
        Ok(number)
    }
}
