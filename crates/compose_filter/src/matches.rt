// The moves of two transducers from two of their states.

ghost use Rattle.std.specs.Prelude.{◌≡◌, ◌+◌, ◌<◌, ◌^◌, length, get_or, [], IfOk, IsTrue, All};
ghost use Rattle.std.specs.List.Sorted.{IsNonDecreasingBy};
ghost use Rattle.fst_core.specs.Top.{top_of};
ghost use Rattle.compose_filter.specs.Combinations.{combinations};
ghost use Rattle.compose_filter.specs.Readers.{Fit};

use crate::filters::{Filter, Move, Taken};
use crate::steps::{Joining, Step, add_both, add_first, add_second};
use fst_core::{Arc, Fst, is_sorted_row};
use std::alloc::{AllocError, Global};

/// The moves of what stands on the left, at its state `qa`, with the arcs of `b` at `qb`.
///
/// `left` is the list of its own moves. Where the arcs of `b` at `qb` stand in the order of their inputs, those that
/// read a label are found by a search; whether they do is seen in one pass.
pub fn moves(
    alloc: Global,
    left: &[Arc],
    qa: usize,
    b: &Fst,
    qb: usize,
    f: Filter,
) -> Result<Vec<Move>, AllocError>
    requires in_range { qb < length b.now.arcs }
    requires fits { All (λ x. x.weight + top_of b.now < 2 ^ 63) left.now }
    ensures exact { IfOk result (λ v. v.items ≡ combinations left.now qa (get_or b.now.arcs qb []) qb f) }
{
    let row = b.arcs_of(qb);
    let sorted = is_sorted_row(row);
    let found = all_moves(alloc, left, qa, row, qb, f, sorted)?;
    Ok(found)
}

/// The moves with the arcs of a row, which is in the order of inputs where this is said.
pub(crate) fn all_moves(
    alloc: Global,
    left: &[Arc],
    qa: usize,
    row: &[Arc],
    qb: usize,
    f: Filter,
    sorted: bool,
) -> Result<Vec<Move>, AllocError>
    requires sorted { IsTrue sorted → IsNonDecreasingBy (λ y. y.input) row.now }
    requires fits { Fit left.now row.now }
    ensures exact { IfOk result (λ v. v.items ≡ combinations left.now qa row.now qb f) }
{
    let mut all = Vec::new(alloc);
    add_both(&mut all, &TwoStates, left, row, sorted)?;
    add_first(&mut all, &TwoStates, left, qb, f)?;
    add_second(&mut all, &TwoStates, &qa, row, sorted)?;
    Ok(all)
}

/// Where two transducers are, and which of them has moved.
#[derive(Clone, Copy)]
pub struct Meeting {
    pub qa: usize,
    pub qb: usize,
    pub filter: Filter,
    pub taken: Taken,
}

/// How the arcs of two states are joined.
struct TwoStates;

impl Joining for TwoStates {
    ghost use Rattle.std.specs.Prelude.{ℕ};
    ghost use Rattle.compose_filter.specs.Combinations.{arc_step, meeting, move_of};
    ghost use Rattle.std.specs.Prelude.{◌≡◌};

    type Left = Arc;

    type Place = usize;

    type Next = Meeting;

    type Joined = Move;

    ghost step = { arc_step };

    ghost pair = { λ j. meeting };

    ghost made = { move_of };

    ghost is_ready = { λ j. Unit {0} };

    fn step(&self, x: &Arc) -> Step<usize> {
        Step {
            input: x.input,
            output: x.output,
            weight: x.weight,
            next: x.next,
        }
    }

    fn pair(&self, left: &usize, q: usize, filter: Filter, taken: Taken) -> Meeting {
        Meeting {
            qa: *left,
            qb: q,
            filter,
            taken,
        }
    }

    fn made(&self, s: Step<Meeting>) -> Move
        ensures { result ≡ move_of s }
    {
        Move {
            input: s.input,
            output: s.output,
            weight: s.weight,
            qa: s.next.qa,
            qb: s.next.qb,
            filter: s.next.filter,
            taken: s.next.taken,
        }
    }
}
