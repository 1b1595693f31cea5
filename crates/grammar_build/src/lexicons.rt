//! The entries of a union.

ghost use Rattle.std.specs.Prelude.{◌≡◌, ◌≤◌, ◌<◌, ◌^◌, ◌+◌, IfOk, IfSome, All, sum_by};
ghost use Rattle.fst_core.specs.Top.{top_of};
ghost use Rattle.weighted_relations.specs.Relations.{Same, Either, AnyOf};
ghost use Rattle.weighted_relations.specs.Machines.{Reads};
ghost use Rattle.weighted_relations.specs.Expressions.{MeetsKinds, literals, text, cross};
ghost use Rattle.lexicon_trees.specs.Entries.{ReadsEntry, IsEntry};
ghost use Rattle.core_expressions.specs.Views.{expression_of};
ghost use Rattle.grammar_build.specs.Parts.{IsEntryOf, weight_of};

use core_expressions::Expr;
use fst_core::{Fst, union};
use lexicon_trees::{Entry, lexicon};
use std::alloc::{AllocError, Global};

/// The entry of a string or of a pair of strings, with the weights that are added to it; none of any other
/// expression.
pub(crate) fn entry_of(alloc: Global, e: &Expr) -> Result<Option<Entry>, AllocError>
    requires kinds { MeetsKinds (expression_of e.now) }
    requires weights { literals (expression_of e.now) < 2 ^ 54 }
    ensures { IfOk result (λ found. IfSome found (λ entry. IsEntryOf entry (expression_of e.now))) }
{
    match e {
        Expr::Text(labels) => {
            let input = Vec::from_slice(alloc, labels)?;
            let output = Vec::from_slice(alloc, labels)?;
            Ok(Some(Entry {
                input,
                output,
                weight: 0,
            }))
        }
        Expr::Cross(a, b) => pair_of(alloc, a, b),
        Expr::Weighted(part, weight) => {
            let Some(entry) = entry_of(alloc, part)? else {
                return Ok(None);
            };
            Ok(Some(added(entry, *weight)))
        }
        _ => Ok(None),
    }
}

/// The entry with a weight added.
fn added(entry: Entry, weight: u32) -> Entry
    requires { entry.weight + weight < 2 ^ 64 }
    ensures input { result.input.items ≡ entry.input.items }
    ensures output { result.output.items ≡ entry.output.items }
    ensures weight { result.weight ≡ entry.weight + weight }
{
    let Entry {
        input,
        output,
        weight: before,
    } = entry;
    Entry {
        input,
        output,
        weight: before + u64::from(weight),
    }
}

/// The entry of two strings, of which the first is read and the second written.
fn pair_of(alloc: Global, a: &Expr, b: &Expr) -> Result<Option<Entry>, AllocError>
    requires reads { MeetsKinds (expression_of a.now) }
    requires writes { MeetsKinds (expression_of b.now) }
    ensures { IfOk result (λ found. IfSome found (λ entry. IsEntryOf entry (cross (expression_of a.now) (expression_of b.now)))) }
{
    let Some(read) = text_of(a) else {
        return Ok(None);
    };
    let Some(written) = text_of(b) else {
        return Ok(None);
    };
    let input = Vec::from_slice(alloc, read)?;
    let output = Vec::from_slice(alloc, written)?;
    Ok(Some(Entry {
        input,
        output,
        weight: 0,
    }))
}

/// The labels of a string.
fn text_of(e: &Expr) -> Option<&[u16]>
    ensures { IfSome result (λ labels. expression_of e.now ≡ text labels.now) }
{
    match e {
        Expr::Text(labels) => Some(labels.as_slice()),
        _ => None,
    }
}

/// The readings of the entries and of the others.
pub(crate) fn united(
    alloc: Global,
    entries: &[Entry],
    mut others: Vec<Fst>,
) -> Result<Fst, AllocError>
    requires entries { All IsEntry entries.now }
    ensures readings { IfOk result (λ m. Same (Reads m) (Either (AnyOf ReadsEntry entries.now) (AnyOf Reads others.items))) }
    ensures top { IfOk result (λ m. top_of m ≤ sum_by weight_of entries.now + sum_by top_of others.items) }
{
    if entries.is_empty() {
        let m = union(alloc, &others)?;
        return Ok(m);
    }
    let tree = lexicon(alloc, entries)?;
    if others.is_empty() {
        return Ok(tree);
    }
    others.push(tree)?;
    let m = union(alloc, &others)?;
    Ok(m)
}
