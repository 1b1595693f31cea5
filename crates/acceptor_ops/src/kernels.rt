// Sets of states, and what arcs lead to from them.

ghost use Rattle.std.specs.Prelude.{◌≡◌, ◌↔◌, ◌<◌, ◌≤◌, ◌+◌, ℕ, List, [], length, get_or, slice_get, slice_set, Some, IfOk, OnOk, IsTrue, IsSome, Any, ◌⊎◌};
ghost use Rattle.std.specs.List.{Contains};
ghost use Rattle.weighted_relations.specs.declared.Arc.{Arc};
ghost use Rattle.weighted_relations.specs.Machines.{WellFormed};
ghost use Rattle.acceptor_ops.specs.Alike.{AreClasses};
ghost use Rattle.acceptor_ops.specs.StateSets.{IsActive, AnyFinal, KernelOf, HasLabel, Filled, FitsClasses, RowFilled};

use crate::buckets::Buckets;
use crate::classes::Classes;
use fst_core::{Arc, Follow, Fst, Search};
use state_table::StateSet;
use std::alloc::{AllocError, Global};

/// Whether one of the states is final.
pub(crate) fn any_final(a: &Fst, set: &[usize]) -> bool
    requires within { (s : ℕ) → Contains set.now s → s < length a.now.arcs }
    ensures found { IsTrue result ↔ AnyFinal a.now set.now }
{
    for s in set {
        if a.final_of(*s).is_some() {
            return true;
        }
    }
    false
}

/// Whether an arc has a label.
fn has_label(arc: &Arc) -> bool
    ensures label { IsTrue result ↔ HasLabel arc.now }
{
    arc.input != 0
}

/// Whether some arc of a row has a label.
fn any_label(row: &[Arc]) -> bool
    ensures label { IsTrue result ↔ Any HasLabel row.now }
{
    row.iter().any(|arc| has_label(arc))
}

/// Whether a state is final or has an arc with a label.
fn is_active(last: Option<u64>, row: &[Arc]) -> bool
    ensures active { IsTrue result ↔ (IsSome last ⊎ Any HasLabel row.now) }
{
    last.is_some() || any_label(row)
}

/// The states that are final or have an arc with a label, in order.
fn active(alloc: Global, a: &Fst, states: &[usize]) -> Result<Vec<usize>, AllocError>
    requires within { (s : ℕ) → Contains states.now s → s < length a.now.arcs }
    ensures active { IfOk result (λ v. (s : ℕ) → Contains v.items s ↔ (Contains states.now s × IsActive a.now s)) }
{
    let mut kept = Vec::new(alloc);
    for s in states {
        if is_active(a.final_of(*s), a.arcs_of(*s)) {
            kept.push(*s)?;
        }
    }
    kept.sort()?;
    Ok(kept)
}

/// The kernel of these states: of what empty arcs lead to from them, the states that are final or have an arc
/// with a label. Sets that differ only in other states have one kernel, which is in order, and so are one
/// state of the automaton.
///
/// The search is one that served before, so that no call takes time for all states.
pub(crate) fn kernel(
    alloc: Global,
    a: &Fst,
    seeds: &[usize],
    search: &mut Search,
) -> Result<StateSet, AllocError>
    requires size { search.old.size ≡ length a.now.arcs }
    requires within { (s : ℕ) → Contains seeds.now s → s < length a.now.arcs }
    ensures size { OnOk result (search.new.size ≡ search.old.size) }
    ensures kernel { IfOk result (KernelOf a.now seeds.now) }
{
    search.clear();
    for s in seeds {
        search.add(*s)?;
    }
    search.run(a, Follow::EmptyInput)?;
    let found = active(alloc, a, search.found())?;
    Ok(StateSet::new(found))
}

/// For each class of labels, what arcs with a label of it lead to from a set of states, whose arcs are looked at
/// once.
pub(crate) fn targets(
    alloc: Global,
    a: &Fst,
    classes: &Classes,
    set: &[usize],
) -> Result<Buckets, AllocError>
    requires classes { AreClasses a.now classes.now }
    requires within { (s : ℕ) → Contains set.now s → s < length a.now.arcs }
    ensures filled { IfOk result (Filled a.now classes.now.classes classes.now.count set.now (length set.now)) }
{
    let mut buckets = Buckets::empty(alloc, classes.count())?;
    for s in set {
        fill(&mut buckets, classes, a.arcs_of(*s))?;
    }
    Ok(buckets)
}

/// Adds what the arcs of a row lead to.
fn fill(buckets: &mut Buckets, classes: &Classes, row: &[Arc]) -> Result<(), AllocError>
    requires within { (j : ℕ) (a : Arc) → slice_get row.now j ≡ Some a → FitsClasses classes.now.classes (length buckets.old) a }
    ensures filled { OnOk result (RowFilled classes.now.classes row.now (length row.now) buckets.old buckets.new) }
{
    for arc in row {
        if has_label(arc) {
            buckets.put(classes.of(arc.input), arc.next)?;
        }
    }
    Ok(())
}
