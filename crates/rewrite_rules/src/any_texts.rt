// The transducer of all texts.

ghost use Rattle.std.specs.Prelude.{IfOk};
ghost use Rattle.weighted_relations.specs.Relations.{Same};
ghost use Rattle.weighted_relations.specs.Machines.{Reads};
ghost use Rattle.rewrite_rules.specs.AnyTexts.{AnyText, Loops};

use fst_core::{Arc, Builder, Fst};
use std::alloc::{AllocError, Global};

/// Each text of bytes and marks, as it is.
pub(crate) fn any_text(alloc: Global) -> Result<Fst, AllocError>
    ensures readings { IfOk result (λ m. Same (Reads m) AnyText) }
{
    let mut built = Builder::new(alloc);
    built.push(loops(alloc)?, Some(0))?;
    Ok(built.finish(0))
}

/// The loops of all labels.
fn loops(alloc: Global) -> Result<Vec<Arc>, AllocError>
    ensures loops { IfOk result (λ v. Loops 258 v.items) }
{
    let mut row = Vec::new(alloc);
    for c in 1..258u16 {
        row.push(Arc {
            input: c,
            output: c,
            weight: 0,
            next: 0,
        })?;
    }
    Ok(row)
}
