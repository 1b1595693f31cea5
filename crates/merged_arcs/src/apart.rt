// Whether arcs say different things.

ghost use Rattle.std.specs.Prelude.{◌≡◌, IfOk, IsTrue};
ghost use Rattle.std.proofs.Common.{rules};
ghost use Rattle.merged_arcs.specs.Merged.{AllApart, IsMerged, said};

use fst_core::{Arc, Fst};
use state_table::{Key, StateTable};
use std::alloc::{AllocError, Global};

/// What an arc says: its labels and its weight.
#[derive(Clone, Copy, PartialEq, Eq, Hash)]
pub(crate) struct Saying {
    pub input: u16,
    pub output: u16,
    pub weight: u64,
}

impl Key for Saying {
    ghost same = { Prim.search rules };
}

/// Whether no two arcs of a state say the same.
pub(crate) fn is_merged(alloc: Global, a: &Fst) -> Result<bool, AllocError>
    ensures merged { IfOk result (λ b. IsTrue b → IsMerged a.now) }
{
    for s in 0..a.len() {
        if !are_apart(alloc, a.arcs_of(s))? {
            return Ok(false);
        }
    }
    Ok(true)
}

/// Whether no two of these arcs say the same.
fn are_apart(alloc: Global, row: &[Arc]) -> Result<bool, AllocError>
    ensures apart { IfOk result (λ b. IsTrue b → AllApart row.now) }
{
    let mut sayings = StateTable::new(alloc);
    for i in 0..row.len() {
        if sayings.number(saying_of(&row[i]))? != i {
            return Ok(false);
        }
    }
    Ok(true)
}

/// What an arc says.
fn saying_of(arc: &Arc) -> Saying
    ensures value { result ≡ said arc.now }
{
    Saying {
        input: arc.input,
        output: arc.output,
        weight: arc.weight,
    }
}
