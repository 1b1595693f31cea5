// The transducer of a lexicon.

ghost use Rattle.std.specs.Prelude.{◌≤◌, IfOk, All};
ghost use Rattle.fst_core.specs.Top.{top_of, greatest};
ghost use Rattle.weighted_relations.specs.Relations.{Same, AnyOf};
ghost use Rattle.weighted_relations.specs.Machines.{Reads};
ghost use Rattle.lexicon_trees.specs.Entries.{ReadsEntry, IsEntry};
ghost use Rattle.lexicon_trees.specs.Shapes.{AreOrdered};

use crate::entries::Entry;
use crate::trees::Tree;
use fst_core::Fst;
use std::alloc::{AllocError, Global};

/// The readings of each entry.
///
/// Where an entry writes what it reads, it is copied label by label. Each other entry is read without output first,
/// and written without input then. Entries whose paths have the same labels share them as far as they go, as in a
/// tree of letters (a trie, after Fredkin, "Trie memory", 1960). Of entries that differ in their weights alone each
/// is kept.
pub fn lexicon(alloc: Global, entries: &[Entry]) -> Result<Fst, AllocError>
    requires entries { All IsEntry entries.now }
    ensures readings { IfOk result (λ m. Same (Reads m) (AnyOf ReadsEntry entries.now)) }
    ensures top { IfOk result (λ m. top_of m ≤ greatest (λ e. e.weight) entries.now) }
    ensures ordered { IfOk result AreOrdered }
{
    let mut tree = Tree::new(alloc)?;
    for entry in entries {
        tree.add(alloc, entry)?;
    }
    Ok(tree.finish())
}
