// A transducer with no states that no reading needs.

ghost use Rattle.std.specs.Prelude.{◌≡◌, ◌↔◌, ◌⊎◌, ◌<◌, ◌≤◌, ℕ, length, get_or, slice_get, Some, IfOk, IsTrue};
ghost use Rattle.std.specs.List.{Contains, filter_map};
ghost use Rattle.fst_core.specs.Top.{top_of};
ghost use Rattle.weighted_relations.specs.declared.Arc.{Arc};
ghost use Rattle.weighted_relations.specs.Relations.{Same};
ghost use Rattle.weighted_relations.specs.Machines.{Reads};
ghost use Rattle.fst_core.specs.Useful.{IsKept, IsTrimmed, IsTrimOf, rank, to_kept, KeptStates};

use crate::builder::Builder;
use crate::fst::Fst;
use crate::lives::live_states;
use crate::search::{Follow, Search, reached};
use std::alloc::{AllocError, Global};
use weighted_relations::Arc;

/// The same readings, by the states alone that paths from the start to a final state go through.
///
/// The start stays, also where there is no path. The states that are kept stay in their order, with their arcs to one
/// another. After Mohri's survey "Weighted automata algorithms" (2009): one search from the start, and one backwards
/// from the final states.
pub fn trim(alloc: Global, a: &Fst) -> Result<Fst, AllocError>
    ensures readings { IfOk result (λ m. Same (Reads m) (Reads a.now)) }
    ensures top { IfOk result (λ m. top_of m ≤ top_of a.now) }
    ensures states { IfOk result IsTrimmed }
    ensures kept { IfOk result (IsTrimOf a.now) }
{
    let _start = a.start();
    let ahead = reached(alloc, a, Follow::Every)?;
    let live = live_states(alloc, a)?;
    let keep = marks(alloc, a, &ahead, &live)?;
    let m = kept_states(alloc, a, &keep)?;
    Ok(m)
}

/// Marks of the start and of the states that both searches found.
fn marks(alloc: Global, a: &Fst, ahead: &Search, live: &Search) -> Result<Vec<bool>, AllocError>
    requires ahead { length a.now.arcs ≤ ahead.now.size }
    requires live { length a.now.arcs ≤ live.now.size }
    ensures count { IfOk result (λ v. length v.items ≡ length a.now.arcs) }
    ensures marks { IfOk result (λ v. (s : ℕ) → s < length a.now.arcs → IsKept v.items s ↔ ((s ≡ a.now.start) ⊎ (Contains ahead.now.states s × Contains live.now.states s))) }
{
    let start = a.start();
    let mut marks = Vec::new(alloc);
    for s in 0..a.len() {
        marks.push(is_kept(start, ahead, live, s))?;
    }
    Ok(marks)
}

/// Whether a state is the start, or both searches found it.
fn is_kept(start: usize, ahead: &Search, live: &Search, s: usize) -> bool
    requires ahead { s < ahead.now.size }
    requires live { s < live.now.size }
    ensures kept { IsTrue result ↔ ((s ≡ start) ⊎ (Contains ahead.now.states s × Contains live.now.states s)) }
{
    s == start || both_have(ahead, live, s)
}

/// Whether both searches found a state.
fn both_have(ahead: &Search, live: &Search, s: usize) -> bool
    requires ahead { s < ahead.now.size }
    requires live { s < live.now.size }
    ensures found { IsTrue result ↔ (Contains ahead.now.states s × Contains live.now.states s) }
{
    ahead.has(s) && live.has(s)
}

/// The numbers that the kept states get.
fn numbers(alloc: Global, keep: &[bool]) -> Result<Vec<usize>, AllocError>
    ensures count { IfOk result (λ v. length v.items ≡ length keep.now) }
    ensures ranks { IfOk result (λ v. (s : ℕ) → s < length keep.now → get_or v.items s 0 ≡ rank keep.now s) }
{
    let mut ranks = Vec::new(alloc);
    let mut next = 0;
    for s in 0..keep.len() {
        ranks.push(next)?;
        if keep[s] {
            next += 1;
        }
    }
    Ok(ranks)
}

/// The arcs that lead to kept states.
fn kept_row(
    alloc: Global,
    row: &[Arc],
    keep: &[bool],
    ranks: &[usize],
) -> Result<Vec<Arc>, AllocError>
    requires count { length ranks.now ≡ length keep.now }
    requires ranks { (s : ℕ) → s < length keep.now → get_or ranks.now s 0 ≡ rank keep.now s }
    requires within { (i : ℕ) (a : Arc) → slice_get row.now i ≡ Some a → a.next < length keep.now }
    ensures { IfOk result (λ v. v.items ≡ filter_map (to_kept keep.now) row.now) }
{
    let mut arcs = Vec::new(alloc);
    for a in row {
        if keep[a.next] {
            arcs.push(Arc {
                input: a.input,
                output: a.output,
                weight: a.weight,
                next: ranks[a.next],
            })?;
        }
    }
    Ok(arcs)
}

/// The kept states alone.
fn kept_states(alloc: Global, a: &Fst, keep: &[bool]) -> Result<Fst, AllocError>
    requires count { length keep.now ≡ length a.now.arcs }
    requires start { IsKept keep.now a.now.start }
    ensures states { IfOk result (KeptStates a.now keep.now) }
    ensures top { IfOk result (λ m. top_of m ≤ top_of a.now) }
{
    let start = a.start();
    let ranks = numbers(alloc, keep)?;
    let mut built = Builder::new(alloc);
    for s in 0..a.len() {
        if keep[s] {
            let row = kept_row(alloc, a.arcs_of(s), keep, &ranks)?;
            built.push(row, a.final_of(s))?;
        }
    }
    Ok(built.finish(ranks[start]))
}
