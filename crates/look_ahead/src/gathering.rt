// How the sets are gathered. Nothing is promised of it but that it is safe and ends: what comes of it is checked.

ghost use Rattle.std.specs.Prelude.{◌<◌, length};

use crate::aheads::LookAhead;
use crate::labels::{ALL_LABELS, Labels};
use fst_core::{Arc, Fst};
use state_table::StateTable;
use std::alloc::{AllocError, Global};

/// So often the states are swept over before the search for the sets is given up.
const MOST_SWEEPS: usize = 100;

/// The sets so far, each once, and for each state the number of its set.
#[derive(Drop)]
struct Gathered {
    sets: StateTable<Labels>,
    numbers: Vec<usize>,
}

/// Sets for the states of a transducer: the least ones that have what is read next, where sweeps over the states find them soon enough.
/// Sweeps go from the last state to the first and back, since arcs mostly lead from lower to higher numbers.
pub(crate) fn gather(alloc: Global, m: &Fst) -> Result<LookAhead, AllocError> {
    let mut gathered = Gathered::new(alloc, m.len())?;
    for k in 0..MOST_SWEEPS {
        if !gathered.sweep(m, k % 2 == 0)? {
            break;
        }
    }
    gathered.written(alloc)
}

impl Gathered {
    /// So many states with the empty set.
    fn new(alloc: Global, states: usize) -> Result<Gathered, AllocError> {
        let mut sets = StateTable::new(alloc);
        let empty = sets.number(Labels::none())?;
        let mut numbers = Vec::new(alloc);
        numbers.resize(states, empty)?;
        Ok(Gathered { sets, numbers })
    }

    /// Gives each state what its arcs say, and tells whether this changed anything.
    fn sweep(&mut self, m: &Fst, backwards: bool) -> Result<bool, AllocError> {
        let mut changed = false;
        let count = m.len();
        for k in 0..count {
            let s = if backwards { count - 1 - k } else { k };
            let number = self.number_at(m, s)?;
            if let Some(known) = self.numbers.get_mut(s) {
                changed = changed || *known != number;
                *known = number;
            }
        }
        Ok(changed)
    }

    /// The number of the set that the arcs and the end of a state say.
    fn number_at(&mut self, m: &Fst, s: usize) -> Result<usize, AllocError>
        requires { s < length m.now.arcs }
    {
        let row = m.arcs_of(s);
        let is_end = m.final_of(s).is_some();
        if let ([only], false) = (row, is_end) {
            if only.input == 0 {
                return Ok(self.number_of(only.next));
            }
        }
        let labels = self.labels_of(row, is_end);
        if self.set_of(s) == labels {
            return Ok(self.number_of(s));
        }
        self.sets.number(labels)
    }

    /// What arcs say, and the end where the state is one.
    fn labels_of(&self, row: &[Arc], is_end: bool) -> Labels {
        let mut labels = Labels::none();
        if is_end {
            labels = labels.with(0);
        }
        for arc in row {
            labels = match arc.input {
                0 => labels.and(&self.set_of(arc.next)),
                label => labels.with(label),
            };
        }
        labels
    }

    /// The number of a state's set.
    fn number_of(&self, state: usize) -> usize {
        match self.numbers.get(state) {
            Some(number) => *number,
            None => 0,
        }
    }

    /// A state's set.
    fn set_of(&self, state: usize) -> Labels {
        let number = self.number_of(state);
        if number < self.sets.len() {
            *self.sets.key(number)
        } else {
            Labels::none()
        }
    }

    /// The sets as a table, and for each state the place of its set in it.
    fn written(&self, alloc: Global) -> Result<LookAhead, AllocError> {
        let mut table = Vec::with_capacity(
            alloc,
            self.sets.len().saturating_mul(ALL_LABELS as usize),
        )?;
        for number in 0..self.sets.len() {
            put_set(self.sets.key(number), &mut table)?;
        }
        let mut places = Vec::with_capacity(alloc, self.numbers.len())?;
        for number in &self.numbers {
            places.push(place_of(*number))?;
        }
        Ok(LookAhead { places, table })
    }
}

/// Adds to the table for each label whether it is in the set.
fn put_set(set: &Labels, table: &mut Vec<bool>) -> Result<(), AllocError> {
    for label in 0..ALL_LABELS {
        table.push(set.has(label))?;
    }
    Ok(())
}

/// The place of a set in the table. Where this is too long for its places, a place past the end, from which on every label is allowed.
fn place_of(number: usize) -> u32 {
    let place = number.saturating_mul(ALL_LABELS as usize);
    if place < u32::MAX as usize {
        place as u32
    } else {
        u32::MAX
    }
}
