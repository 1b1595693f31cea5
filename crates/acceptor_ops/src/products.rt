// A transducer's readings without those whose input an automaton accepts.

ghost use Rattle.std.specs.Prelude.{◌≡◌, ◌↔◌, ◌<◌, ◌≤◌, [], ℕ, List, length, get_or, IfOk};
ghost use Rattle.fst_core.specs.Top.{top_of};
ghost use Rattle.fst_core.specs.Useful.{IsTrimmed};
ghost use Rattle.weighted_relations.specs.Relations.{Same};
ghost use Rattle.weighted_relations.specs.Machines.{Reads};
ghost use Rattle.acceptor_ops.specs.Tables.{Accepts, Except};
ghost use Rattle.acceptor_ops.specs.Beside.{ArePairs, Paired, moved, final_beside};

use crate::dfa::Dfa;
use fst_core::{Arc, Builder, Fst, trim};
use state_table::StateTable;
use std::alloc::{AllocError, Global};

/// The readings of an acceptor whose string the automaton does not accept.
///
/// Its states are pairs that the start leads to, and of these, beside the start, such alone as lead to a final
/// one.
pub fn minus(alloc: Global, a: &Fst, d: &Dfa) -> Result<Fst, AllocError>
    ensures readings { IfOk result (λ m. Same (Reads m) (Except (Reads a.now) (Accepts d.now))) }
    ensures top { IfOk result (λ m. top_of m ≤ top_of a.now) }
    ensures states { IfOk result IsTrimmed }
{
    let all = product(alloc, a, d)?;
    let m = trim(alloc, &all)?;
    Ok(m)
}

/// The pairs of states that the start leads to.
///
/// It ends: each turn adds a state, and a list has fewer than 2^63 elements. So `AllocError` comes from the
/// allocator alone.
fn product(alloc: Global, a: &Fst, d: &Dfa) -> Result<Fst, AllocError>
    ensures readings { IfOk result (λ m. Same (Reads m) (Except (Reads a.now) (Accepts d.now))) }
    ensures top { IfOk result (λ m. top_of m ≤ top_of a.now) }
{
    let mut pairs = StateTable::new(alloc);
    let start = pairs.number((a.start(), d.start()))?;
    let mut built = Builder::new(alloc);
    while built.len() < pairs.len() {
        let (first, second) = *pairs.key(built.len());
        let row = beside(alloc, a, d, &mut pairs, first, second)?;
        built.push(row, end(d.accepts(second), a.final_of(first)))?;
    }
    Ok(built.finish(start))
}

/// The final weight of a pair of states.
fn end(accepts: bool, last: Option<u64>) -> Option<u64>
    ensures value { result ≡ final_beside accepts last }
{
    if accepts { None } else { last }
}

/// The automaton's state after an input label, which may be empty.
fn after(d: &Dfa, state: usize, label: u16) -> usize
    requires state { state < length d.now.next }
    requires label { label ≤ 257 }
    ensures value { result ≡ moved d.now state label }
    ensures within { result < length d.now.next }
{
    if label == 0 {
        state
    } else {
        d.step(state, label)
    }
}

/// The arcs of a state beside the automaton's steps; pairs that are new get the next numbers.
fn beside(
    alloc: Global,
    a: &Fst,
    d: &Dfa,
    pairs: &mut StateTable<(usize, usize)>,
    first: usize,
    second: usize,
) -> Result<Vec<Arc>, AllocError>
    requires first { first < length a.now.arcs }
    requires second { second < length d.now.next }
    requires pairs { ArePairs a.now d.now pairs.old }
    ensures arcs { IfOk result (λ v. Paired a.now d.now pairs.old pairs.new second (length (get_or a.now.arcs first [])) (get_or a.now.arcs first []) v.items) }
{
    let mut row = Vec::new(alloc);
    for arc in a.arcs_of(first) {
        let q = after(d, second, arc.input);
        let next = pairs.number((arc.next, q))?;
        row.push(Arc {
            input: arc.input,
            output: arc.output,
            weight: arc.weight,
            next,
        })?;
    }
    Ok(row)
}
