//! Small transducers, written as tables.

ghost use Rattle.std.specs.Prelude.{◌≤◌};

use fst_core::{Arc, Fst};
use std::alloc::{AllocError, Global};

/// An arc: from a state, with an input, an output and a weight, to a state. `-` is the empty label.
pub type Step = (usize, u8, u8, u64, usize);

/// A final state and its weight.
pub type End = (usize, u64);

/// The label of a letter.
pub fn label_of(letter: u8) -> u16
    ensures { result ≤ 257 }
{
    if letter == b'-' { 0 } else { u16::from(letter) }
}

/// The transducer of so many states that starts at 0, where the arcs and the final states are among these.
pub fn machine(
    alloc: Global,
    states: usize,
    steps: &[Step],
    ends: &[End],
) -> Result<Option<Fst>, AllocError> {
    machine_at(alloc, 0, states, steps, ends)
}

/// The same where it starts at another state.
pub fn machine_at(
    alloc: Global,
    start: usize,
    states: usize,
    steps: &[Step],
    ends: &[End],
) -> Result<Option<Fst>, AllocError> {
    let mut arcs = Vec::new(alloc);
    let mut finals = Vec::new(alloc);
    for s in 0..states {
        arcs.push(row_of(alloc, s, steps)?)?;
        finals.push(ends.iter().find(|end| end.0 == s).map(|end| end.1))?;
    }
    Ok(Fst::new(start, arcs, finals))
}

/// The arcs of a state, in the order of the table.
fn row_of(alloc: Global, state: usize, steps: &[Step]) -> Result<Vec<Arc>, AllocError> {
    let mut row = Vec::new(alloc);
    for (from, input, output, weight, next) in steps {
        if *from == state {
            row.push(Arc {
                input: label_of(*input),
                output: label_of(*output),
                weight: *weight,
                next: *next,
            })?;
        }
    }
    Ok(row)
}
