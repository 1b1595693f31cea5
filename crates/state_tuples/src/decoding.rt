// From codes to expansions.

ghost use Rattle.std.specs.Prelude.{◌≡◌, ◌<◌, ◌≤◌, ◌+◌, ◌*◌, ◌/◌, ◌%◌, ℕ, List, Option, IfOk, OnOk, drop, get_or, length, nat_eq, take};
ghost use Rattle.std.specs.List.{filter};
ghost use Rattle.state_tuples.specs.Codes.{IsArc, IsCode, IsCodeOf, IsFirstReader, IsOrderedCode, code_width, labels_word, no_arc};
ghost use Rattle.state_tuples.specs.Orders.{InOrder};
ghost use Rattle.state_tuples.specs.Positions.{most_parts};
ghost use Rattle.state_tuples.specs.declared.tuples.Tuple.{Tuple};
ghost use Rattle.state_tuples.specs.declared.tuples.TupleArc.{TupleArc};

use crate::codes::{ARC_WORDS, HEAD_WORDS};
use crate::tuples::{Expansion, MOST_PARTS, States, Tuple, TupleArc};
use std::alloc::{AllocError, Global};

/// The states that stand there.
fn states_at(code: &[u64], at: usize) -> States
    requires within { at + most_parts ≤ length code.now }
    ensures { result ≡ take most_parts (drop at code.now) }
{
    let mut states = [0; MOST_PARTS];
    for k in 0..MOST_PARTS {
        states[k] = code[at + k] as usize;
    }
    states
}

/// Both labels and the filters that a word tells.
fn labels_in(word: u64) -> (u16, u16, u32)
    requires known { (a : TupleArc) × IsArc a × (word ≡ labels_word a) }
    ensures { (a : TupleArc) → IsArc a → word ≡ labels_word a → (result.0 ≡ a.input) × (result.1 ≡ a.output) × (result.2 ≡ a.filters) }
{
    let input = (word / 4294967296) as u16;
    let output = (word / 65536 % 65536) as u16;
    let filters = (word % 65536) as u32;
    (input, output, filters)
}

/// How many arcs a code tells.
fn arc_count(code: &[u64]) -> usize
    requires known { IsCode code.now }
    ensures { (t : Tuple) (end : Option ℕ) (arcs : List TupleArc) → IsCodeOf t end arcs code.now → result ≡ length arcs }
{
    (code.len() - HEAD_WORDS) / ARC_WORDS
}

/// The arc at a place among the arcs.
fn arc_at(code: &[u64], k: usize) -> TupleArc
    requires known { IsCode code.now }
    requires within { code_width (k + 1) ≤ length code.now }
    ensures { (t : Tuple) (end : Option ℕ) (arcs : List TupleArc) → IsCodeOf t end arcs code.now → result ≡ get_or arcs k no_arc }
{
    let at = HEAD_WORDS + ARC_WORDS * k;
    let (input, output, filters) = labels_in(code[at]);
    let weight = code[at + 1];
    let states = states_at(code, at + 2);
    TupleArc {
        input,
        output,
        weight,
        filters,
        states,
    }
}

/// The final weight that a code tells.
pub fn end_in(code: &[u64]) -> Option<u64>
    requires known { IsCode code.now }
    ensures { (t : Tuple) (end : Option ℕ) (arcs : List TupleArc) → IsCodeOf t end arcs code.now → result ≡ end }
{
    if code[MOST_PARTS + 3] == 0 {
        None
    } else {
        Some(code[MOST_PARTS + 4])
    }
}

/// The tuple that a code tells.
fn tuple_in(code: &[u64]) -> Tuple
    requires known { IsCode code.now }
    ensures { (t : Tuple) (end : Option ℕ) (arcs : List TupleArc) → IsCodeOf t end arcs code.now → result ≡ t }
{
    let states = states_at(code, 2);
    Tuple {
        cascade: code[1] as u32,
        states,
        filters: code[MOST_PARTS + 2] as u32,
    }
}

/// The label that the arc at a place reads.
fn input_at(code: &[u64], k: usize) -> u16
    requires known { IsCode code.now }
    requires within { code_width (k + 1) ≤ length code.now }
    ensures { (t : Tuple) (end : Option ℕ) (arcs : List TupleArc) → IsCodeOf t end arcs code.now → result ≡ (get_or arcs k no_arc).input }
{
    labels_in(code[HEAD_WORDS + ARC_WORDS * k]).0
}

/// The place of the first arc that reads the label or a greater one, by halving.
fn first_reader(code: &[u64], label: u16) -> usize
    requires known { IsOrderedCode code.now }
    ensures { (t : Tuple) (end : Option ℕ) (arcs : List TupleArc) → IsCodeOf t end arcs code.now → InOrder arcs → IsFirstReader arcs label result }
{
    let mut low = 0;
    let mut high = arc_count(code);
    while low < high {
        let middle = low + (high - low) / 2;
        if input_at(code, middle) < label {
            low = middle + 1;
        } else {
            high = middle;
        }
    }
    low
}

/// Puts the arcs that read the label into `into`, in order, in place of what is there. The words of other arcs are not looked at, but
/// for the labels of some, since the arcs of a code stand in order.
pub fn arcs_in(code: &[u64], label: u16, into: &mut Vec<TupleArc>) -> Result<(), AllocError>
    requires known { IsOrderedCode code.now }
    ensures arcs { OnOk result ((t : Tuple) (end : Option ℕ) (arcs : List TupleArc) → IsCodeOf t end arcs code.now → InOrder arcs → into.new.items ≡ filter (λ a. nat_eq a.input label) arcs) }
{
    into.clear();
    for k in first_reader(code, label)..arc_count(code) {
        let arc = arc_at(code, k);
        if arc.input != label {
            return Ok(());
        }
        into.push(arc)?;
    }
    Ok(())
}

/// The tuple and the expansion that a code tells.
pub fn decode(alloc: Global, code: &[u64]) -> Result<(Tuple, Expansion), AllocError>
    requires known { IsCode code.now }
    ensures tuple { IfOk result (λ r. (t : Tuple) (end : Option ℕ) (arcs : List TupleArc) → IsCodeOf t end arcs code.now → r.0 ≡ t) }
    ensures finality { IfOk result (λ r. (t : Tuple) (end : Option ℕ) (arcs : List TupleArc) → IsCodeOf t end arcs code.now → r.1.finality ≡ end) }
    ensures arcs { IfOk result (λ r. (t : Tuple) (end : Option ℕ) (arcs : List TupleArc) → IsCodeOf t end arcs code.now → r.1.arcs.items ≡ arcs) }
{
    let mut arcs = Vec::new(alloc);
    for k in 0..arc_count(code) {
        arcs.push(arc_at(code, k))?;
    }
    let tuple = tuple_in(code);
    let finality = end_in(code);
    Ok((tuple, Expansion { finality, arcs }))
}
