// A transducer with its lists exchanged, or one of them as both.

ghost use Rattle.std.specs.Prelude.{◌≡◌, IfOk, ◌≤◌, ◌+◌, sum_by};
ghost use Rattle.fst_core.specs.Top.{top_of};
ghost use Rattle.weighted_relations.specs.Relations.{Same, Inverted, Inputs, Outputs};
ghost use Rattle.weighted_relations.specs.Machines.{Reads};
ghost use Rattle.fst_core.specs.Placed.{Picked};
ghost use Rattle.fst_core.specs.Sides.{Projected};

use crate::builder::{Builder, Kept};
use crate::fst::Fst;
use std::alloc::{AllocError, Global};

/// One of the two lists of a reading.
#[derive(Clone, Copy, Debug, PartialEq, Eq)]
pub enum Side2 {
    Input,
    Output,
}

/// The readings with their lists exchanged.
pub fn invert(alloc: Global, a: &Fst) -> Result<Fst, AllocError>
    ensures readings { IfOk result (λ m. Same (Reads m) (Inverted (Reads a.now))) }
    ensures top { IfOk result (λ m. top_of m ≤ top_of a.now) }
{
    let m = relabelled(alloc, a, Kept::Output, Kept::Input)?;
    Ok(m)
}

/// The readings with the chosen list as input and output both.
pub fn project(alloc: Global, a: &Fst, side: Side2) -> Result<Fst, AllocError>
    ensures readings { IfOk result (λ m. Same (Reads m) (Projected side (Reads a.now))) }
    ensures top { IfOk result (λ m. top_of m ≤ top_of a.now) }
{
    match side {
        Side2::Input => inputs(alloc, a),
        Side2::Output => outputs(alloc, a),
    }
}

/// The readings with their inputs as both lists.
fn inputs(alloc: Global, a: &Fst) -> Result<Fst, AllocError>
    ensures readings { IfOk result (λ m. Same (Reads m) (Inputs (Reads a.now))) }
    ensures top { IfOk result (λ m. top_of m ≤ top_of a.now) }
{
    let m = relabelled(alloc, a, Kept::Input, Kept::Input)?;
    Ok(m)
}

/// The readings with their outputs as both lists.
fn outputs(alloc: Global, a: &Fst) -> Result<Fst, AllocError>
    ensures readings { IfOk result (λ m. Same (Reads m) (Outputs (Reads a.now))) }
    ensures top { IfOk result (λ m. top_of m ≤ top_of a.now) }
{
    let m = relabelled(alloc, a, Kept::Output, Kept::Output)?;
    Ok(m)
}

/// The readings with other lists as their inputs and outputs.
fn relabelled(alloc: Global, a: &Fst, input: Kept, output: Kept) -> Result<Fst, AllocError>
    ensures readings { IfOk result (λ m. Same (Reads m) (Picked input output (Reads a.now))) }
    ensures top { IfOk result (λ m. top_of m ≤ top_of a.now) }
{
    let start = a.start();
    let mut built = Builder::new(alloc);
    built.place(alloc, a, input, output, None)?;
    Ok(built.finish(start))
}
