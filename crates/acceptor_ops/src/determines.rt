// The automaton of the sets of a transducer's states.

ghost use Rattle.std.specs.Prelude.{◌≡◌, ◌↔◌, ◌<◌, ◌≤◌, [], ◌∷◌, ℕ, List, length, reverse, IfOk, OnOk};
ghost use Rattle.weighted_relations.specs.Relations.{IsInput};
ghost use Rattle.weighted_relations.specs.Machines.{Reads, WellFormed};
ghost use Rattle.acceptor_ops.specs.Alike.{AreClasses};
ghost use Rattle.acceptor_ops.specs.Numbered.{AllKernels, RowAdded};
ghost use Rattle.acceptor_ops.specs.Tables.{Accepts};

use crate::classes::Classes;
use crate::dfa::{Dfa, Rows};
use crate::kernels::{any_final, kernel, targets};
use fst_core::{Fst, Search};
use state_table::{StateSet, StateTable};
use std::alloc::{AllocError, Global};

/// An automaton that accepts the inputs of a transducer: of an acceptor, its strings.
///
/// This is the construction of subsets of Rabin and Scott (Finite automata and their decision problems, 1959).
/// A subset is known by its kernel, and its rows are by classes of labels.
///
/// It ends: each turn adds a row, and a list has fewer than 2^63 elements. So no count of turns is kept that could
/// run out, and `AllocError` comes from the allocator alone.
pub fn determinise(alloc: Global, a: &Fst) -> Result<Dfa, AllocError>
    ensures strings { IfOk result (λ d. (x : List ℕ) → Accepts d x ↔ IsInput (Reads a.now) x) }
{
    let classes = Classes::new(alloc, a)?;
    let mut search = Search::new(alloc, a.len())?;
    let mut sets = StateTable::new(alloc);
    let start = sets.number(kernel(alloc, a, &[a.start()], &mut search)?)?;
    let mut rows = Rows::new(alloc);
    while rows.len() < sets.len() {
        let k = rows.len();
        let last = any_final(a, sets.key(k).states());
        let row = row_of(alloc, a, &classes, &mut search, &mut sets, k)?;
        rows.push(row, last)?;
    }
    Ok(Dfa::from_rows(start, classes.into_list(), rows))
}

/// An automaton that accepts the inputs of a transducer read backwards.
pub fn reverse_dfa(alloc: Global, a: &Fst) -> Result<Dfa, AllocError>
    ensures strings { IfOk result (λ d. (x : List ℕ) → Accepts d x ↔ IsInput (Reads a.now) (reverse x)) }
{
    let back = fst_core::reverse(alloc, a)?;
    let d = determinise(alloc, &back)?;
    Ok(d)
}

/// Where the classes of labels lead from the set of a number; sets that are new get the next numbers.
fn row_of(
    alloc: Global,
    a: &Fst,
    classes: &Classes,
    search: &mut Search,
    sets: &mut StateTable<StateSet>,
    k: usize,
) -> Result<Vec<usize>, AllocError>
    requires sound { WellFormed a.now }
    requires classes { AreClasses a.now classes.now }
    requires size { search.old.size ≡ length a.now.arcs }
    requires within { k < length sets.old }
    requires kernels { AllKernels a.now sets.old }
    ensures size { OnOk result (search.new.size ≡ search.old.size) }
    ensures row { IfOk result (λ v. RowAdded a.now classes.now.classes sets.old sets.new k classes.now.count v.items) }
{
    let buckets = targets(alloc, a, classes, sets.key(k).states())?;
    let mut row = Vec::new(alloc);
    for c in 0..classes.count() {
        let found = kernel(alloc, a, buckets.get(c), search)?;
        row.push(sets.number(found)?)?;
    }
    Ok(row)
}
