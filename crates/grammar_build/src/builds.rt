//! Transducers of expressions.

ghost use Rattle.std.specs.Prelude.{◌≡◌, ◌+◌, ◌≤◌, ◌<◌, ◌^◌, IfOk, IfErr, OnOk, List, [], ◌∷◌, ◌++◌, map, sum_by};
ghost use Rattle.fst_core.specs.Top.{top_of};
ghost use Rattle.fst_core.specs.Useful.{IsTrimmed};
ghost use Rattle.weighted_relations.specs.Relations.{Same, Composed};
ghost use Rattle.weighted_relations.specs.Machines.{Reads};
ghost use Rattle.weighted_relations.specs.Expressions.{Expression, Rel, RelAny, MeetsKinds, MeetKinds, literals, all_literals, members};
ghost use Rattle.weighted_relations.specs.ExpressionLaws.{Alike};
ghost use Rattle.core_expressions.specs.Views.{expression_of, rewrite_of};
ghost use Rattle.grammar_build.specs.Empties.{RewritesEmptyText, OneRewritesEmptyText, HasCause, OneHasCause};
ghost use Rattle.grammar_build.specs.Parts.{Parted};
ghost use Rattle.grammar_build.specs.Sides.{side2_of, rule_of};

use crate::faults::BuildFault;
use crate::lexicons::{entry_of, united};
use acceptor_ops::{determinise, minus};
use compose_filter::compose;
use core_expressions::{Expr, Mode, RewriteOf, Side};
use fst_core::{
    Fst, Side2, concat, cross, invert, project, reads_empty, star, text, trim, weighted,
};
use lexicon_trees::Entry;
use rewrite_rules::{RewriteMode, rewrite};
use std::alloc::{AllocError, Global};

/// A transducer with exactly the readings of the expression.
///
/// Each node of the expression makes its transducer of those of its parts, whose states it copies once.
///
/// The weights that are written in the expression are below 2^54 together, as those of each sound expression are.
/// `RewritesEmpty` comes where a rewrite in the expression, at any depth, may read the empty text.
#[cycle(build)]
pub fn build(alloc: Global, e: &Expr) -> Result<Fst, BuildFault>
    requires kinds { MeetsKinds (expression_of e.now) }
    requires weights { literals (expression_of e.now) < 2 ^ 54 }
    ensures readings { IfOk result (λ m. Same (Reads m) (Rel (expression_of e.now))) }
    ensures top { IfOk result (λ m. top_of m ≤ literals (expression_of e.now)) }
    ensures complete { OnOk result (RewritesEmptyText (expression_of e.now) → ⊥) }
    ensures refused { IfErr result (λ fault. HasCause fault (expression_of e.now)) }
{
    match e {
        Expr::Text(labels) => Ok(text(alloc, labels)?),
        Expr::Weighted(part, weight) => Ok(weighted(alloc, &build(alloc, part)?, *weight)?),
        Expr::Union(parts) => build_union(alloc, parts),
        Expr::Concat(parts) => Ok(concat(alloc, &build_each(alloc, parts)?)?),
        Expr::Star(part) => Ok(star(alloc, &build(alloc, part)?)?),
        Expr::Cross(a, b) => {
            let inputs = build(alloc, a)?;
            let outputs = build(alloc, b)?;
            Ok(cross(alloc, &inputs, &outputs)?)
        }
        Expr::Compose(a, b) => {
            let first = build(alloc, a)?;
            let second = build(alloc, b)?;
            Ok(composed(alloc, &first, &second)?)
        }
        Expr::Minus(a, b) => {
            let all = build(alloc, a)?;
            let others = build(alloc, b)?;
            Ok(minus(alloc, &all, &determinise(alloc, &others)?)?)
        }
        Expr::Invert(part) => Ok(invert(alloc, &build(alloc, part)?)?),
        Expr::Project(part, side) => Ok(project(alloc, &build(alloc, part)?, side_of(*side))?),
        Expr::Rewrite(r) => build_rewrite(alloc, r),
    }
}

/// The transducers of the parts, in order.
#[cycle(build)]
fn build_each(alloc: Global, parts: &[Expr]) -> Result<Vec<Fst>, BuildFault>
    requires kinds { MeetKinds (members (map expression_of parts.now)) }
    requires weights { all_literals (members (map expression_of parts.now)) < 2 ^ 54 }
    ensures readings { IfOk result (λ all. Alike all.items (map expression_of parts.now)) }
    ensures top { IfOk result (λ all. sum_by top_of all.items ≤ all_literals (members (map expression_of parts.now))) }
    ensures complete { OnOk result (OneRewritesEmptyText (members (map expression_of parts.now)) → ⊥) }
    ensures refused { IfErr result (λ fault. OneHasCause fault (members (map expression_of parts.now))) }
{
    let mut all = Vec::new(alloc);
    for part in parts {
        all.push(build(alloc, part)?)?;
    }
    Ok(all)
}

/// The transducer of a union. Its strings and pairs of strings are one lexicon.
#[cycle(build)]
fn build_union(alloc: Global, parts: &[Expr]) -> Result<Fst, BuildFault>
    requires kinds { MeetKinds (members (map expression_of parts.now)) }
    requires weights { all_literals (members (map expression_of parts.now)) < 2 ^ 54 }
    ensures readings { IfOk result (λ m. Same (Reads m) (RelAny (members (map expression_of parts.now)))) }
    ensures top { IfOk result (λ m. top_of m ≤ all_literals (members (map expression_of parts.now))) }
    ensures complete { OnOk result (OneRewritesEmptyText (members (map expression_of parts.now)) → ⊥) }
    ensures refused { IfErr result (λ fault. OneHasCause fault (members (map expression_of parts.now))) }
{
    let mut entries = Vec::new(alloc);
    let mut others = Vec::new(alloc);
    for part in parts {
        build_member(alloc, part, &mut entries, &mut others)?;
    }
    let m = united(alloc, &entries, others)?;
    Ok(m)
}

/// Puts a member of a union among the entries of its lexicon, or among the others.
#[cycle(build)]
fn build_member(
    alloc: Global,
    part: &Expr,
    entries: &mut Vec<Entry>,
    others: &mut Vec<Fst>,
) -> Result<(), BuildFault>
    requires kinds { MeetsKinds (expression_of part.now) }
    requires weights { literals (expression_of part.now) < 2 ^ 54 }
    ensures parted { OnOk result ((es : List Expression) → Parted es entries.old.items others.old.items → Parted (es ++ expression_of part.now ∷ []) entries.new.items others.new.items) }
    ensures refused { IfErr result (λ fault. HasCause fault (expression_of part.now)) }
{
    if let Some(entry) = entry_of(alloc, part)? {
        entries.push(entry)?;
        return Ok(());
    }
    let other = build(alloc, part)?;
    others.push(other)?;
    Ok(())
}

/// The transducer of a rewrite.
#[cycle(build)]
fn build_rewrite(alloc: Global, r: &RewriteOf) -> Result<Fst, BuildFault>
    requires kinds { MeetsKinds (rewrite_of r.now) }
    requires weights { literals (rewrite_of r.now) < 2 ^ 54 }
    ensures readings { IfOk result (λ m. Same (Reads m) (Rel (rewrite_of r.now))) }
    ensures top { IfOk result (λ m. top_of m ≤ literals (rewrite_of r.now)) }
    ensures complete { OnOk result (RewritesEmptyText (rewrite_of r.now) → ⊥) }
    ensures refused { IfErr result (λ fault. HasCause fault (rewrite_of r.now)) }
{
    let tau = build(alloc, &r.tau)?;
    let left = build(alloc, &r.left)?;
    let right = build(alloc, &r.right)?;
    let sigma = build(alloc, &r.sigma)?;
    if reads_empty(alloc, &tau)? {
        return Err(BuildFault::RewritesEmpty);
    }
    let mode = mode_of(r.mode);
    Ok(rewrite(alloc, &tau, &left, &right, &sigma, mode)?)
}

/// The composition, without the states that no reading needs.
fn composed(alloc: Global, first: &Fst, second: &Fst) -> Result<Fst, AllocError>
    requires fits { top_of first.now + top_of second.now < 2 ^ 54 }
    ensures readings { IfOk result (λ m. Same (Reads m) (Composed (Reads first.now) (Reads second.now))) }
    ensures top { IfOk result (λ m. top_of m ≤ top_of first.now + top_of second.now) }
    ensures states { IfOk result IsTrimmed }
{
    let all = compose(alloc, first, second)?;
    let m = trim(alloc, &all)?;
    Ok(m)
}

/// The same side in the words for transducers.
fn side_of(side: Side) -> Side2
    ensures { result ≡ side2_of side }
{
    match side {
        Side::Input => Side2::Input,
        Side::Output => Side2::Output,
    }
}

/// The same mode in the words for rewrite rules.
fn mode_of(mode: Mode) -> RewriteMode
    ensures { result ≡ rule_of mode }
{
    match mode {
        Mode::Obligatory => RewriteMode::Obligatory,
        Mode::Optional => RewriteMode::Optional,
    }
}
