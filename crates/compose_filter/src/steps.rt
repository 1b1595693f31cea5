// The step of what stands on the left together with one part more.

ghost use Rattle.std.specs.Prelude.{◌≡◌, ◌+◌, ◌<◌, ◌^◌, ◌++◌, OnOk, IsTrue, All, Option};
ghost use Rattle.std.specs.List.{filter_map};
ghost use Rattle.std.specs.List.Sorted.{IsNonDecreasingBy};
ghost use Rattle.compose_filter.specs.Readers.{AreReaders};
ghost use Rattle.compose_filter.specs.Steps.{both_step, both_steps, first_step, second_step};

use crate::filters::{Filter, Taken};
use fst_core::{Arc, reading};
use std::alloc::AllocError;

/// A move to a place of any kind. Label 0 is the empty label. The weight is in ten-thousandths.
#[derive(Clone, Copy)]
pub struct Step<P> {
    pub input: u16,
    pub output: u16,
    pub weight: u64,
    pub next: P,
}

/// How what stands on the left is joined by one part more: where both are.
pub trait Joining {
    ghost use Rattle.std.specs.Prelude.{ℕ};
    ghost use Rattle.compose_filter.specs.declared.filters.Filter.{Filter};
    ghost use Rattle.compose_filter.specs.declared.filters.Taken.{Taken};
    ghost use Rattle.compose_filter.specs.declared.steps.Step.{Step};

    /// A move on the left.
    type Left;
    /// Where a move on the left leads.
    type Place: Copy;
    /// Where a move of both leads.
    type Next;
    /// A move of both.
    type Joined: Drop;

    /// A move on the left as a step.
    ghost step: { Self.Left → Step Self.Place };

    /// Where both are: the place of the left, the state of the part, the filter between them, and which of the two has moved.
    ghost pair: { Self → Self.Place → ℕ → Filter → Taken → Self.Next };

    /// A step of both as a move.
    ghost made: { Step Self.Next → Self.Joined };

    /// Whether a place can be made.
    ghost is_ready: { Self → Type 0 };

    /// A move on the left as a step.
    fn step(&self, x: &Self::Left) -> Step<Self::Place>
        ensures { result ≡ step x.now };

    /// Where both are.
    fn pair(&self, left: &Self::Place, q: usize, filter: Filter, taken: Taken) -> Self::Next
        requires { is_ready self.now }
        ensures { result ≡ pair self.now left.now q filter taken };

    /// A step of both as a move.
    fn made(&self, s: Step<Self::Next>) -> Self::Joined
        ensures { result ≡ made s };
}

/// Arcs of the row among which are all that read the label: these alone, where the row is in order.
pub fn label_readers(row: &[Arc], label: u16, sorted: bool) -> &[Arc]
    requires sorted { IsTrue sorted → IsNonDecreasingBy (λ y. y.input) row.now }
    ensures { AreReaders label row.now result.now }
{
    if sorted { reading(row, label) } else { row }
}

/// Adds the moves of both to `all`: those on the left write a label, and arcs of the row read it. Where these stand in the order of
/// their inputs, those that read a label are found by a search.
pub fn add_both<J: Joining>(
    all: &mut Vec<J::Joined>,
    joining: &J,
    left: &[J::Left],
    row: &[Arc],
    sorted: bool,
) -> Result<(), AllocError>
    requires ready { J.is_ready joining.now }
    requires sorted { IsTrue sorted → IsNonDecreasingBy (λ y. y.input) row.now }
    requires fits { All (λ x. All (λ y. (J.step x).weight + y.weight < 2 ^ 64) row.now) left.now }
    ensures moves { OnOk result (all.new.items ≡ all.old.items ++ both_steps J.step (J.pair joining.now) J.made left.now row.now) }
{
    for x in left {
        let s = joining.step(x);
        if s.output != 0 {
            add_readers(all, joining, x, label_readers(row, s.output, sorted))?;
        }
    }
    Ok(())
}

/// Both move, the left by this move.
fn add_readers<J: Joining>(
    all: &mut Vec<J::Joined>,
    joining: &J,
    x: &J::Left,
    row: &[Arc],
) -> Result<(), AllocError>
    requires ready { J.is_ready joining.now }
    requires fits { All (λ y. (J.step x.now).weight + y.weight < 2 ^ 64) row.now }
    ensures { OnOk result (all.new.items ≡ all.old.items ++ filter_map (both_step J.step (J.pair joining.now) J.made x.now) row.now) }
{
    let s = joining.step(x);
    for y in row {
        if let Some(m) = one_both(joining, x, &s, y) {
            all.push(m)?;
        }
    }
    Ok(())
}

fn one_both<J: Joining>(joining: &J, x: &J::Left, s: &Step<J::Place>, y: &Arc) -> Option<J::Joined>
    requires ready { J.is_ready joining.now }
    requires step { s.now ≡ J.step x.now }
    requires fits { s.now.weight + y.now.weight < 2 ^ 64 }
    ensures { result ≡ both_step J.step (J.pair joining.now) J.made x.now y.now }
{
    if s.output != 0 && s.output == y.input {
        Some(joining.made(Step {
            input: s.input,
            output: y.output,
            weight: s.weight + y.weight,
            next: joining.pair(&s.next, y.next, Filter::Open, Taken::Both),
        }))
    } else {
        None
    }
}

/// Adds the moves of the left alone, which write nothing, where the filter is open. The part stays in the state `q`.
pub fn add_first<J: Joining>(
    all: &mut Vec<J::Joined>,
    joining: &J,
    left: &[J::Left],
    q: usize,
    filter: Filter,
) -> Result<(), AllocError>
    requires ready { J.is_ready joining.now }
    ensures moves { OnOk result (all.new.items ≡ all.old.items ++ filter_map (first_step J.step (J.pair joining.now) J.made q filter) left.now) }
{
    for x in left {
        if let Some(m) = one_first(joining, x, q, filter) {
            all.push(m)?;
        }
    }
    Ok(())
}

fn one_first<J: Joining>(joining: &J, x: &J::Left, q: usize, filter: Filter) -> Option<J::Joined>
    requires { J.is_ready joining.now }
    ensures { result ≡ first_step J.step (J.pair joining.now) J.made q filter x.now }
{
    let s = joining.step(x);
    match filter {
        Filter::Open if s.output == 0 => Some(joining.made(Step {
            input: s.input,
            output: 0,
            weight: s.weight,
            next: joining.pair(&s.next, q, Filter::Open, Taken::First),
        })),
        _ => None,
    }
}

/// Adds the moves of the part alone, which read nothing. The left stays at its place.
pub fn add_second<J: Joining>(
    all: &mut Vec<J::Joined>,
    joining: &J,
    at: &J::Place,
    row: &[Arc],
    sorted: bool,
) -> Result<(), AllocError>
    requires ready { J.is_ready joining.now }
    requires sorted { IsTrue sorted → IsNonDecreasingBy (λ y. y.input) row.now }
    ensures moves { OnOk result (all.new.items ≡ all.old.items ++ filter_map (second_step J.step (J.pair joining.now) J.made at.now) row.now) }
{
    for y in label_readers(row, 0, sorted) {
        if let Some(m) = one_second(joining, at, y) {
            all.push(m)?;
        }
    }
    Ok(())
}

fn one_second<J: Joining>(joining: &J, at: &J::Place, y: &Arc) -> Option<J::Joined>
    requires { J.is_ready joining.now }
    ensures { result ≡ second_step J.step (J.pair joining.now) J.made at.now y.now }
{
    if y.input == 0 {
        Some(joining.made(Step {
            input: 0,
            output: y.output,
            weight: y.weight,
            next: joining.pair(at, y.next, Filter::Closed, Taken::Second),
        }))
    } else {
        None
    }
}
