// The arcs of a set of states, and those that are merged of them.

ghost use Rattle.std.specs.Prelude.{◌≡◌, ◌↔◌, ◌<◌, ◌≤◌, ℕ, length, get_or, IfOk, IsTrue, IsPermutation};
ghost use Rattle.std.specs.List.{Contains};
ghost use Rattle.weighted_relations.specs.declared.Arc.{Arc};
ghost use Rattle.std.specs.List.Sorted.{IsStrictlyIncreasing};
ghost use Rattle.merged_arcs.specs.Merged.{Alike, AllApart, StandTogether, IsArcOf, RowMade, Run, TargetIn, none};

use fst_core::{Arc, Fst};
use state_table::{StateSet, StateTable};
use std::alloc::{AllocError, Global};

/// Whether two arcs have the same labels and weight.
fn alike(x: &Arc, y: &Arc) -> bool
    ensures alike { IsTrue result ↔ Alike x.now y.now }
{
    x.input == y.input && x.output == y.output && x.weight == y.weight
}

/// Puts arcs in such an order that those with the same labels and weight stand together.
fn put_in_order(arcs: &mut Vec<Arc>)
    ensures order { IsPermutation arcs.old.items arcs.new.items }
    ensures together { StandTogether arcs.new.items }
{
    arcs.sort_unstable_by_key(|y| (y.input, y.output, y.weight));
}

/// The arcs of these states, in order.
pub(crate) fn gathered(alloc: Global, a: &Fst, set: &[usize]) -> Result<Vec<Arc>, AllocError>
    requires within { (s : ℕ) → Contains set.now s → s < length a.now.arcs }
    ensures all { IfOk result (λ v. (y : Arc) → Contains v.items y ↔ IsArcOf a.now set.now y) }
    ensures together { IfOk result (λ v. StandTogether v.items) }
{
    let mut arcs = Vec::new(alloc);
    for s in set {
        arcs.extend_from_slice(a.arcs_of(*s))?;
    }
    put_in_order(&mut arcs);
    Ok(arcs)
}

/// For each run of arcs with the same labels and weight, one that leads to the set of what they lead to; sets that
/// are new get the next numbers.
pub(crate) fn merged_row(
    alloc: Global,
    sets: &mut StateTable<StateSet>,
    arcs: &[Arc],
) -> Result<Vec<Arc>, AllocError>
    requires together { StandTogether arcs.now }
    ensures made { IfOk result (λ v. RowMade (Contains arcs.now) sets.old sets.new v.items) }
    ensures apart { IfOk result (λ v. AllApart v.items) }
{
    let mut row = Vec::new(alloc);
    let mut from = 0;
    while from < arcs.len() {
        let to = run_end(arcs, from);
        let next = sets.number(targets(alloc, arcs, from, to)?)?;
        let first = arcs[from];
        row.push(Arc {
            input: first.input,
            output: first.output,
            weight: first.weight,
            next,
        })?;
        from = to;
    }
    Ok(row)
}

/// Where the arcs end that are like the one at a place, and stand together with it.
fn run_end(arcs: &[Arc], from: usize) -> usize
    requires within { from < length arcs.now }
    ensures run { Run arcs.now from result }
    ensures whole { result < length arcs.now → Alike (get_or arcs.now from none) (get_or arcs.now result none) → ⊥ }
{
    let first = arcs[from];
    let mut to = from + 1;
    while to < arcs.len() && alike(&first, &arcs[to]) {
        to += 1;
    }
    to
}

/// The states to which the arcs at these places lead, in order.
fn targets(alloc: Global, arcs: &[Arc], from: usize, to: usize) -> Result<StateSet, AllocError>
    requires order { from ≤ to }
    requires within { to ≤ length arcs.now }
    ensures all { IfOk result (λ v. (t : ℕ) → Contains v t ↔ TargetIn arcs.now from to t) }
    ensures order { IfOk result IsStrictlyIncreasing }
{
    let mut found = Vec::new(alloc);
    for i in from..to {
        found.push(arcs[i].next)?;
    }
    found.sort_unstable();
    found.dedup();
    Ok(StateSet::new(found))
}
