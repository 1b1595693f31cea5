// One string.

ghost use Rattle.std.specs.Prelude.{◌≡◌, ◌≤◌, [], ◌∷◌, IfOk, All};
ghost use Rattle.fst_core.specs.Top.{top_of};
ghost use Rattle.weighted_relations.specs.Relations.{IsLabel, Same, Is};
ghost use Rattle.weighted_relations.specs.Machines.{Reads};
ghost use Rattle.fst_core.specs.Placed.{label_arc};

use crate::builder::Builder;
use crate::fst::Fst;
use std::alloc::{AllocError, Global};
use weighted_relations::Arc;

/// The one reading of the labels, which are no empty labels.
///
/// It has one state more than there are labels.
pub fn text(alloc: Global, labels: &[u16]) -> Result<Fst, AllocError>
    requires labels { All IsLabel labels.now }
    ensures readings { IfOk result (λ m. Same (Reads m) (Is labels.now)) }
    ensures top { IfOk result (λ m. top_of m ≤ 0) }
{
    let mut built = Builder::new(alloc);
    for i in 0..labels.len() {
        let row = one(alloc, labels[i], i + 1)?;
        built.push(row, None)?;
    }
    built.push(Vec::new(alloc), Some(0))?;
    Ok(built.finish(0))
}

/// An arc that reads and writes a label.
fn one(alloc: Global, label: u16, next: usize) -> Result<Vec<Arc>, AllocError>
    ensures { IfOk result (λ row. row.items ≡ label_arc label next ∷ []) }
{
    let mut row = Vec::new(alloc);
    row.push(Arc {
        input: label,
        output: label,
        weight: 0,
        next,
    })?;
    Ok(row)
}
