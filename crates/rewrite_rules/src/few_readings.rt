// The readings of a transducer that has few.

ghost use Rattle.std.specs.Prelude.{◌≡◌, ◌<◌, ◌^◌, ◌++◌, ℕ, [], List, All, length, get_or, slice_get, Some, None, IfOk, OnOk, IfSome, IsTrue};
ghost use Rattle.weighted_relations.specs.Graphs.{label};
ghost use Rattle.weighted_relations.specs.Machines.{Reads};
ghost use Rattle.weighted_relations.specs.Relations.{Same, AnyOf, IsLabel};
ghost use Rattle.lexicon_trees.specs.Entries.{ReadsEntry, IsEntry};
ghost use Rattle.rewrite_rules.specs.Begun.{IsBegun, ReadsOn, Branched, IsArcOn, IsEndOn};

use fst_core::{Arc, Fst};
use lexicon_trees::Entry;
use std::alloc::{AllocError, Global};

/// A path that was begun: what was read and written so far, and the state that it has come to, or none where it has
/// ended.
#[derive(Drop)]
pub(crate) struct Begun {
    pub so_far: Entry,
    pub state: Option<usize>,
}

/// So many labels that a path may read, and as many that it may write.
const LONGEST: usize = 255;

/// So many steps that are taken for each state.
const STEPS: usize = 8;

/// A list of the readings, or none where paths are many or long.
///
/// Paths are followed one after another, each to its end. Where a circle can be gone through, they are long, and it is
/// given up. So it is where more paths go through states than the number of these would make likely.
pub(crate) fn few_readings(alloc: Global, a: &Fst) -> Result<Option<Vec<Entry>>, AllocError>
    ensures readings { IfOk result (λ o. IfSome o (λ v. Same (Reads a.now) (AnyOf ReadsEntry v.items))) }
    ensures entries { IfOk result (λ o. IfSome o (λ v. All IsEntry v.items)) }
{
    let mut begun = Vec::new(alloc);
    let mut found = Vec::new(alloc);
    begun.push(first(alloc, a))?;
    for _ in 0..a.len().saturating_mul(STEPS) {
        let Some(path) = begun.pop() else {
            return Ok(Some(found));
        };
        if !is_short(&path.so_far) {
            return Ok(None);
        }
        match path.state {
            Some(state) => branch(alloc, a, state, &path.so_far, &mut begun)?,
            None => found.push(path.so_far)?,
        }
    }
    Ok(None)
}

/// The path that has only come to the start.
fn first(alloc: Global, a: &Fst) -> Begun
    ensures start { result.state ≡ Some a.now.start }
    ensures input { result.so_far.input.items ≡ [] }
    ensures output { result.so_far.output.items ≡ [] }
    ensures weight { result.so_far.weight ≡ 0 }
    ensures begun { IsBegun a.now result }
{
    let so_far = Entry {
        input: Vec::new(alloc),
        output: Vec::new(alloc),
        weight: 0,
    };
    Begun {
        so_far,
        state: Some(a.start()),
    }
}

/// Whether a path has few labels, and a weight that a transducer can hold.
fn is_short(so_far: &Entry) -> bool
    ensures weight { IsTrue result → so_far.now.weight < 2 ^ 54 }
{
    so_far.input.len() <= LONGEST && so_far.output.len() <= LONGEST && so_far.weight < 1 << 54
}

/// The paths that go on from a state by one arc, and the one that ends there.
fn branch(
    alloc: Global,
    a: &Fst,
    state: usize,
    so_far: &Entry,
    begun: &mut Vec<Begun>,
) -> Result<(), AllocError>
    requires state { state < length a.now.arcs }
    requires input { All IsLabel so_far.now.input.items }
    requires output { All IsLabel so_far.now.output.items }
    requires weight { so_far.now.weight < 2 ^ 54 }
    ensures branched { OnOk result (Branched a.now state so_far.now begun.old.items begun.new.items) }
{
    let row = a.arcs_of(state);
    end(alloc, so_far, a.final_of(state), begun)?;
    for arc in row {
        begun.push(extended(alloc, so_far, arc)?)?;
    }
    Ok(())
}

/// The path that ends here, if one does.
fn end(
    alloc: Global,
    so_far: &Entry,
    last: Option<u64>,
    begun: &mut Vec<Begun>,
) -> Result<(), AllocError>
    requires weight { so_far.now.weight < 2 ^ 54 }
    requires last { IfSome last (λ w. w < 2 ^ 54) }
    ensures ended { OnOk result (IsEndOn so_far.now last begun.old.items begun.new.items) }
{
    if let Some(weight) = last {
        let ended = Entry {
            input: with_label(alloc, &so_far.input, 0)?,
            output: with_label(alloc, &so_far.output, 0)?,
            weight: so_far.weight + weight,
        };
        begun.push(Begun {
            so_far: ended,
            state: None,
        })?;
    }
    Ok(())
}

/// The path that goes on by an arc.
fn extended(alloc: Global, so_far: &Entry, arc: &Arc) -> Result<Begun, AllocError>
    requires weight { so_far.now.weight < 2 ^ 54 }
    requires arc { arc.now.weight < 2 ^ 54 }
    ensures extended { IfOk result (IsArcOn so_far.now arc.now) }
{
    let longer = Entry {
        input: with_label(alloc, &so_far.input, arc.input)?,
        output: with_label(alloc, &so_far.output, arc.output)?,
        weight: so_far.weight + arc.weight,
    };
    Ok(Begun {
        so_far: longer,
        state: Some(arc.next),
    })
}

/// The labels, and one more where it is not empty.
fn with_label(alloc: Global, labels: &[u16], last: u16) -> Result<Vec<u16>, AllocError>
    ensures labels { IfOk result (λ v. v.items ≡ labels.now ++ label last []) }
{
    let mut all = Vec::from_slice(alloc, labels)?;
    if last != 0 {
        all.push(last)?;
    }
    Ok(all)
}
