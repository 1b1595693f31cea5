// Whether a transducer reads the empty text.

ghost use Rattle.std.specs.Prelude.{◌↔◌, [], IfOk, IsTrue};
ghost use Rattle.weighted_relations.specs.Relations.{IsInput};
ghost use Rattle.weighted_relations.specs.Machines.{Reads};

use crate::fst::Fst;
use crate::search::{Follow, reached};
use std::alloc::{AllocError, Global};

/// Whether some reading has an empty input.
pub fn reads_empty(alloc: Global, a: &Fst) -> Result<bool, AllocError>
    ensures answer { IfOk result (λ b. IsTrue b ↔ IsInput (Reads a.now) []) }
{
    let search = reached(alloc, a, Follow::EmptyInput)?;
    let found = search.found();
    for i in 0..found.len() {
        if a.final_of(found[i]).is_some() {
            return Ok(true);
        }
    }
    Ok(false)
}
