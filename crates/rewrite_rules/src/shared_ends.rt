// A transducer whose readings share what they end with.

ghost use Rattle.std.specs.Prelude.{◌≤◌, IfOk, IfSome};
ghost use Rattle.fst_core.specs.Top.{top_of};
ghost use Rattle.weighted_relations.specs.Relations.{Same};
ghost use Rattle.weighted_relations.specs.Machines.{Reads};

use crate::few_readings::few_readings;
use fst_core::{Fst, reverse, trim};
use lexicon_trees::lexicon;
use std::alloc::{AllocError, Global};

/// The same readings. Where there are few, their inputs share the states of what they end with: it is a tree of letters
/// with its root at the end, in which a path writes first and reads then.
///
/// So the automaton of what is read backwards is in few states at a time, and a machine that knows what lies ahead has
/// no state for each reading beside each text that may follow.
pub(crate) fn share_ends(alloc: Global, a: &Fst) -> Result<Fst, AllocError>
    ensures readings { IfOk result (λ m. Same (Reads m) (Reads a.now)) }
    ensures top { IfOk result (λ m. top_of m ≤ top_of a.now) }
{
    let trimmed = trim(alloc, a)?;
    let Some(tree) = tree_of_ends(alloc, &trimmed)? else {
        return Ok(trimmed);
    };
    if tree.top() > trimmed.top() {
        return Ok(trimmed);
    }
    Ok(tree)
}

/// The same readings as a tree with its root at the end, or none where they are many.
fn tree_of_ends(alloc: Global, a: &Fst) -> Result<Option<Fst>, AllocError>
    ensures readings { IfOk result (λ o. IfSome o (λ m. Same (Reads m) (Reads a.now))) }
{
    let back = reverse(alloc, a)?;
    let Some(entries) = few_readings(alloc, &back)? else {
        return Ok(None);
    };
    let tree = lexicon(alloc, &entries)?;
    let m = reverse(alloc, &tree)?;
    Ok(Some(m))
}
