// How one part more joins the moves of the parts before it.

ghost use Rattle.std.specs.Prelude.{◌≡◌, ◌==◌, ◌+◌, ◌<◌, ◌≤◌, ◌^◌, ◌++◌, IsTrue, OnOk, Some, length};
ghost use Rattle.std.specs.List.{filter_map};
ghost use Rattle.std.specs.List.Sorted.{IsNonDecreasingBy};
ghost use Rattle.state_tuples.specs.Positions.{filter_at, most_parts};
ghost use Rattle.state_tuples.specs.declared.joins.Asked.TheVariants.{Every};
ghost use Rattle.state_tuples.specs.Stages.{all_entered, alone_arc, asks, entering};

use crate::tuples::{MOST_PARTS, States, Tuple, TupleArc};
use compose_filter::{Filter, Joining, Step, Taken, add_second};
use fst_core::Arc;
use std::alloc::AllocError;

/// What is asked for: every move, or only those that read a label.
#[derive(Clone, Copy)]
pub enum Asked {
    Every,
    Only(u16),
}

/// A state of each part, 0 past the last one, and the filters, as a tuple has them.
#[derive(Clone, Copy)]
pub struct TuplePlace {
    pub states: States,
    pub filters: u32,
}

/// Whether a move that reads this label is asked for.
fn is_asked(asked: Asked, input: u16) -> bool
    ensures { result ≡ asks asked input }
{
    match asked {
        Asked::Every => true,
        Asked::Only(label) => input == label,
    }
}

/// What a closed filter counts: 1 after the first part, and after each next one twice as much.
fn closed_value(k: usize) -> u32
    requires { k + 1 < most_parts }
    ensures { result ≡ 2 ^ k }
{
    1 << k
}

/// The filter after the first `k + 1` parts.
pub(crate) fn filter_of(filters: u32, k: usize) -> Filter
    requires { k + 1 < most_parts }
    ensures { result ≡ filter_at filters k }
{
    if filters / closed_value(k) % 2 == 0 {
        Filter::Open
    } else {
        Filter::Closed
    }
}

/// Where the first `k + 1` parts are, with the filter after them closed.
fn entering_at(t: &Tuple, k: usize) -> TuplePlace
    requires few { k + 1 < most_parts }
    ensures { result ≡ entering t.now k }
{
    let mut states = [0; MOST_PARTS];
    for i in 0..k + 1 {
        states[i] = t.states[i];
    }
    let value = closed_value(k);
    let filters = t.filters % value + value;
    TuplePlace { states, filters }
}

/// The moves of the first part.
pub(crate) fn add_alone(
    all: &mut Vec<TupleArc>,
    row: &[Arc],
    asked: Asked,
) -> Result<(), AllocError>
    ensures { OnOk result (all.new.items ≡ all.old.items ++ filter_map (alone_arc asked) row.now) }
{
    for y in row {
        if let Some(m) = one_alone(y, asked) {
            all.push(m)?;
        }
    }
    Ok(())
}

fn one_alone(y: &Arc, asked: Asked) -> Option<TupleArc>
    ensures { result ≡ alone_arc asked y.now }
{
    if !is_asked(asked, y.input) {
        return None;
    }
    Some(move_alone(y))
}

/// An arc of the first part as a move, with all other parts at 0.
pub(crate) fn move_alone(y: &Arc) -> TupleArc
    ensures { Some result ≡ alone_arc Every y.now }
{
    let mut states = [0; MOST_PARTS];
    states[0] = y.next;
    TupleArc {
        input: y.input,
        output: y.output,
        weight: y.weight,
        filters: 0,
        states,
    }
}

/// How a part joins the moves of those before it. Parts are counted from 0.
#[derive(Drop)]
pub(crate) struct PartJoining {
    pub part: usize,
}

impl Joining for PartJoining {
    ghost use Rattle.std.specs.Prelude.{◌≡◌, ◌<◌};
    ghost use Rattle.state_tuples.specs.Positions.{most_parts};
    ghost use Rattle.state_tuples.specs.Stages.{arc_of, arc_step, put_state};

    type Left = TupleArc;

    type Place = TuplePlace;

    type Next = TuplePlace;

    type Joined = TupleArc;

    ghost step = { arc_step };

    ghost pair = { λ j. put_state j.part };

    ghost made = { arc_of };

    ghost is_ready = { λ j. j.part < most_parts };

    fn step(&self, x: &TupleArc) -> Step<TuplePlace> {
        Step {
            input: x.input,
            output: x.output,
            weight: x.weight,
            next: TuplePlace {
                states: x.states,
                filters: x.filters,
            },
        }
    }

    fn pair(&self, left: &TuplePlace, q: usize, _filter: Filter, _taken: Taken) -> TuplePlace {
        let mut states = left.states;
        states[self.part] = q;
        TuplePlace {
            states,
            filters: left.filters,
        }
    }

    fn made(&self, s: Step<TuplePlace>) -> TupleArc
        ensures { result ≡ arc_of s }
    {
        let TuplePlace { states, filters } = s.next;
        TupleArc {
            input: s.input,
            output: s.output,
            weight: s.weight,
            filters,
            states,
        }
    }
}

/// Part `k + 1` moves alone, where what reads nothing is asked for.
pub(crate) fn add_entered(
    all: &mut Vec<TupleArc>,
    row: &[Arc],
    sorted: bool,
    t: &Tuple,
    k: usize,
    asked: Asked,
) -> Result<(), AllocError>
    requires few { k + 1 < most_parts }
    requires sorted { IsTrue sorted → IsNonDecreasingBy (λ y. y.input) row.now }
    ensures { OnOk result (all.new.items ≡ all.old.items ++ all_entered asked (k + 1) (entering t.now k) row.now) }
{
    if is_asked(asked, 0) {
        let at = entering_at(t, k);
        add_second(all, &PartJoining { part: k + 1 }, &at, row, sorted)?;
    }
    Ok(())
}
