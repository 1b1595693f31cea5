// A transducer whose arcs are found by their inputs.

ghost use Rattle.std.specs.Prelude.{◌≡◌, ◌==◌, ◌<◌, length, get_or, [], IfOk, IsPermutation};
ghost use Rattle.std.specs.List.{filter};
ghost use Rattle.std.specs.List.Sorted.{IsNonDecreasingBy};
ghost use Rattle.fst_core.specs.Sorted.{HasSortedRows, IsReordered};

use crate::builder::Builder;
use crate::fst::Fst;
use crate::orders::reading;
use std::alloc::{AllocError, Global};
use std::marker::Model;
use weighted_relations::Arc;

/// A transducer whose arcs, at each state, stand in the order of their inputs.
///
/// So the arcs that read a label are found by a search, and take no memory.
#[derive(Drop)]
pub struct ByInput {
    fst: Fst,
}

impl Model for ByInput {
    ghost use Rattle.weighted_relations.specs.Machines.{Machine};
    ghost use Rattle.fst_core.specs.Sorted.{HasSortedRows};

    ghost Value = { Machine };

    ghost view = { λ a. a.fst };

    ghost invariant = { λ a. HasSortedRows a.fst };
}

impl ByInput {
    /// The same transducer with its arcs in this order.
    pub fn new(alloc: Global, a: &Fst) -> Result<ByInput, AllocError>
        ensures reordered { IfOk result (IsReordered a.now) }
    {
        let start = a.start();
        let mut built = Builder::new(alloc);
        for s in 0..a.len() {
            let row = sorted_row(alloc, a.arcs_of(s))?;
            built.push(row, a.final_of(s))?;
        }
        Ok(ByInput {
            fst: built.finish(start),
        })
    }

    /// The transducer.
    pub fn as_fst(&self) -> &Fst
        ensures value { result.now ≡ self.now }
        ensures sorted { HasSortedRows result.now }
    {
        &self.fst
    }

    /// The transducer, given away.
    pub fn into_fst(self) -> Fst
        ensures value { result ≡ self }
        ensures sorted { HasSortedRows result }
    {
        self.fst
    }

    /// The arcs of a state that read a label.
    pub fn reading(&self, state: usize, label: u16) -> &[Arc]
        requires state { state < length self.now.arcs }
        ensures value { result.now ≡ filter (λ y. y.input == label) (get_or self.now.arcs state []) }
    {
        reading(self.fst.arcs_of(state), label)
    }
}

/// The arcs in the order of their inputs.
fn sorted_row(alloc: Global, row: &[Arc]) -> Result<Vec<Arc>, AllocError>
    ensures order { IfOk result (λ v. IsPermutation row.now v.items) }
    ensures sorted { IfOk result (λ v. IsNonDecreasingBy (λ y. y.input) v.items) }
{
    let mut arcs = Vec::from_slice(alloc, row)?;
    arcs.sort_unstable_by_key(|y| y.input);
    Ok(arcs)
}
