// A transducer whose states are sets of another's states.

ghost use Rattle.std.specs.Prelude.{◌≡◌, ◌≤◌, length, IfOk, Ok};
ghost use Rattle.weighted_relations.specs.Relations.{Same};
ghost use Rattle.weighted_relations.specs.Machines.{Machine, Reads};
ghost use Rattle.merged_arcs.specs.Merged.{IsMerged, PassesLimit, EndsDiffer};
ghost use Rattle.merged_arcs.specs.declared.merges.Built.TheVariants.{Whole, Large, Split};
ghost use Rattle.merged_arcs.specs.declared.merges.Outcome.TheVariants.{Already, Merged, TooMany, Differs};

use crate::apart::is_merged;
use crate::ends::end_of;
use crate::rows::{gathered, merged_row};
use fst_core::{Builder, Fst};
use state_table::{StateSet, StateTable};
use std::alloc::{AllocError, Global};

/// What became of a transducer.
#[derive(Clone, Copy, Debug, PartialEq, Eq)]
pub enum Outcome {
    /// It is handed on, since no two arcs of a state say the same.
    Already,
    /// It is merged.
    Merged,
    /// It is handed on, since the merged one would have too many states.
    TooMany,
    /// It is handed on, since two final weights would fall together.
    Differs,
}

/// A transducer that is merged, or handed on as it was, and which of them.
#[derive(Drop)]
pub struct Merging {
    pub fst: Fst,
    pub outcome: Outcome,
}

/// What comes of the sets of states.
#[derive(Drop)]
enum Built {
    Whole(Fst),
    Large,
    Split,
}

/// A transducer with the same readings in which no two arcs of a state have the same input, output and weight. The
/// transducer itself is handed on where it is so already, where the merged one would have more than `most` states,
/// or where two final weights would fall together.
///
/// The empty label is a label as any other here: what is reached without reading is not put together.
///
/// It takes time in proportion to the arcs of the sets that it meets, times the logarithm of how many a set has.
pub fn merge_arcs(alloc: Global, a: Fst, most: usize) -> Result<Merging, AllocError>
    ensures readings { IfOk result (λ r. Same (Reads r.fst) (Reads a)) }
    ensures handed_on { IfOk result (λ r. (r.outcome ≡ Merged → ⊥) → r.fst ≡ a) }
    ensures merged { IfOk result (λ r. r.outcome ≡ Merged → IsMerged r.fst) }
    ensures states { IfOk result (λ r. r.outcome ≡ Merged → length r.fst.arcs ≤ most) }
    ensures already { IfOk result (λ r. r.outcome ≡ Already → IsMerged a) }
    ensures too_many { IfOk result (λ r. r.outcome ≡ TooMany → PassesLimit a most) }
    ensures differs { IfOk result (λ r. r.outcome ≡ Differs → EndsDiffer a) }
{
    if is_merged(alloc, &a)? {
        return Ok(Merging {
            fst: a,
            outcome: Outcome::Already,
        });
    }
    match of_sets(alloc, &a, most)? {
        Built::Whole(fst) => Ok(Merging {
            fst,
            outcome: Outcome::Merged,
        }),
        Built::Large => Ok(Merging {
            fst: a,
            outcome: Outcome::TooMany,
        }),
        Built::Split => Ok(Merging {
            fst: a,
            outcome: Outcome::Differs,
        }),
    }
}

/// The transducer of the sets of states that paths with the same labels and weights lead to.
///
/// It ends: each turn adds a state, and a list has fewer than 2^63 elements. So `AllocError` comes from the
/// allocator alone.
fn of_sets(alloc: Global, a: &Fst, most: usize) -> Result<Built, AllocError>
    ensures readings { (m : Machine) → result ≡ Ok (Whole m) → Same (Reads m) (Reads a.now) }
    ensures merged { (m : Machine) → result ≡ Ok (Whole m) → IsMerged m }
    ensures states { (m : Machine) → result ≡ Ok (Whole m) → length m.arcs ≤ most }
    ensures large { result ≡ Ok Large → PassesLimit a.now most }
    ensures split { result ≡ Ok Split → EndsDiffer a.now }
{
    let mut sets = StateTable::new(alloc);
    let start = sets.number(StateSet::new(Vec::from_slice(alloc, &[a.start()])?))?;
    let mut built = Builder::new(alloc);
    while built.len() < sets.len() {
        if sets.len() > most {
            return Ok(Built::Large);
        }
        let set = sets.key(built.len()).states();
        let last = match end_of(a, set) {
            Some(last) => last,
            None => return Ok(Built::Split),
        };
        let arcs = gathered(alloc, a, set)?;
        let row = merged_row(alloc, &mut sets, &arcs)?;
        built.push(row, last)?;
    }
    Ok(Built::Whole(built.finish(start)))
}
