// The final weight of a set of states.

ghost use Rattle.std.specs.Prelude.{◌≡◌, ◌⊎◌, ◌<◌, ℕ, length, Some, IfSome, IfNone};
ghost use Rattle.std.specs.List.{Contains};
ghost use Rattle.merged_arcs.specs.Merged.{EndOf, Joins, Differ, TwoEnds};

use fst_core::Fst;

/// The final weight that the final states of a set have in common, or none where two differ.
pub(crate) fn end_of(a: &Fst, set: &[usize]) -> Option<Option<u64>>
    requires within { (s : ℕ) → Contains set.now s → s < length a.now.arcs }
    ensures common { IfSome result (EndOf a.now set.now) }
    ensures differ { IfNone result (TwoEnds a.now (Contains set.now)) }
{
    let mut last = None;
    for s in set {
        last = joined(last, a.final_of(*s))?;
    }
    Some(last)
}

/// The final weight of two states, or none where theirs differ.
fn joined(one: Option<u64>, other: Option<u64>) -> Option<Option<u64>>
    ensures common { IfSome result (Joins one other) }
    ensures differ { IfNone result (Differ one other) }
{
    match (one, other) {
        (Some(w), Some(v)) if w != v => None,
        (Some(_), _) => Some(one),
        (None, _) => Some(other),
    }
}
