// The strings of one acceptor with those of another.

ghost use Rattle.std.specs.Prelude.{◌≡◌, IfOk, ◌≤◌, ◌+◌, sum_by};
ghost use Rattle.fst_core.specs.Top.{top_of};
ghost use Rattle.weighted_relations.specs.Relations.{Same, Crossed, IsAcceptor};
ghost use Rattle.weighted_relations.specs.Machines.{Reads};

use crate::builder::{Builder, Kept};
use crate::fst::Fst;
use std::alloc::{AllocError, Global};

/// The strings of `a` as inputs, with those of `b` as outputs.
///
/// What `a` reads comes first, without output, and then what `b` writes, without input.
pub fn cross(alloc: Global, a: &Fst, b: &Fst) -> Result<Fst, AllocError>
    requires inputs { IsAcceptor (Reads a.now) }
    requires outputs { IsAcceptor (Reads b.now) }
    ensures readings { IfOk result (λ m. Same (Reads m) (Crossed (Reads a.now) (Reads b.now))) }
    ensures top { IfOk result (λ m. top_of m ≤ top_of a.now + top_of b.now) }
{
    let mut built = Builder::new(alloc);
    built.place(alloc, b, Kept::Neither, Kept::Output, None)?;
    let off = built.len();
    let next = b.start();
    built.place(alloc, a, Kept::Input, Kept::Neither, Some(next))?;
    let start = off + a.start();
    Ok(built.finish(start))
}
