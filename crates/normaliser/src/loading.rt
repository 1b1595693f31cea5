//! From the rules of two cascades to a normaliser.

ghost use Rattle.std.specs.Prelude.{◌≡◌, ◌≤◌, ◌+◌, ◌*◌, ◌++◌, ℕ, All, IfErr, IfOk, OnOk, Some, length, map, slice_get, vec_len};
ghost use Rattle.weighted_relations.specs.Expressions.{Rel};
ghost use Rattle.weighted_relations.specs.Machines.{Reads};
ghost use Rattle.weighted_relations.specs.Relations.{Cascade as CascadeOf, IsUnmarked, Nothing, Same};
ghost use Rattle.state_tuples.specs.Positions.{most_parts};
ghost use Rattle.core_expressions.specs.Views.{expression_of};
ghost use Rattle.grammar_build.specs.Empties.{RewritesEmptyText};
ghost use Rattle.normaliser.specs.Loads.{CanBeBuilt, IsLoadFault, NoneRewritesEmpty, classifier_of, verbaliser_of};
ghost use Rattle.normaliser.specs.Parts.{AllReadAs, IsEmptyRule, IsFaultAfter};
ghost use Rattle.normaliser.specs.Searches.{IsNewCallerOf, places_of};
ghost use Rattle.shared_cascade.specs.Callers.{number_in, seats_of};
ghost use Rattle.shared_cascade.specs.declared.callers.Caller.{Caller};

use crate::faults::LoadFault;
use crate::normalisers::Normaliser;
use crate::preparing::prepared;
use core_expressions::Expr;
use fst_core::{Fst, union};
use grammar_build::{BuildFault, build};
use shared_cascade::{Caller, Shared};
use state_tuples::Cascade;
use std::alloc::{AllocError, Global};

/// The normaliser of these rules, and the callers that may use it: its classifier reads a line by the first list, from the first rule to the
/// last, and its verbaliser reads a record's texts by the second. Each list has at most [`MOST_PARTS`](state_tuples::MOST_PARTS) rules. A
/// verbaliser of no rules has no reading. The table of the normaliser has so many places, and as many callers as seats.
pub fn load(
    alloc: Global,
    classifier: &[Expr],
    verbaliser: &[Expr],
    places: u32,
    seats: u32,
) -> Result<(Normaliser, Vec<Caller>), LoadFault>
    requires some { 1 ≤ length classifier.now }
    requires few { length classifier.now ≤ most_parts }
    requires few_words { length verbaliser.now ≤ most_parts }
    requires classifier { All CanBeBuilt (map expression_of classifier.now) }
    requires verbaliser { All CanBeBuilt (map expression_of verbaliser.now) }
    requires places { (1 ≤ places) × (places ≤ 4096) }
    requires seats { (1 ≤ seats) × (seats ≤ 64) }
    ensures classifier { IfOk result (λ n. Same (classifier_of n.0) (CascadeOf Rel (map expression_of classifier.now))) }
    ensures verbaliser { IfOk result (λ n. Same (verbaliser_of n.0) (CascadeOf Rel (map expression_of verbaliser.now))) }
    ensures refused { IfErr result (IsLoadFault (map expression_of classifier.now ++ map expression_of verbaliser.now)) }
    ensures complete { OnOk result (NoneRewritesEmpty (map expression_of classifier.now ++ map expression_of verbaliser.now)) }
    ensures places { IfOk result (λ n. places_of n.0 ≡ places) }
    ensures seats { IfOk result (λ n. vec_len n.1 ≡ seats) }
    ensures callers { IfOk result (λ n. All (IsNewCallerOf n.0) n.1.items) }
    ensures all_seats { IfOk result (λ n. All (λ c. seats_of c ≡ seats) n.1.items) }
    ensures numbers { IfOk result (λ n. (k : ℕ) (c : Caller) → slice_get n.1.items k ≡ Some c → number_in c ≡ k) }
{
    let classifying = build_all(alloc, classifier, 0)?;
    let verbalising = build_all(alloc, verbaliser, classifier.len())?;
    let classifier = Cascade::looking_ahead(alloc, 0, classifying)?;
    let verbaliser = verbalising_cascade(alloc, verbalising)?;
    let loaded = over_table(alloc, classifier, verbaliser, places, seats)?;
    Ok(loaded)
}

/// The cascade of these parts, which may be none: then it reads nothing.
fn verbalising_cascade(alloc: Global, parts: Vec<Fst>) -> Result<Cascade, AllocError>
    requires few { length parts.items ≤ most_parts }
    ensures number { IfOk result (λ c. c.number ≡ 1) }
    ensures readings { IfOk result (λ c. Same (CascadeOf Reads c.parts) (CascadeOf Reads parts.items)) }
{
    if parts.is_empty() {
        return reading_nothing(alloc);
    }
    Cascade::looking_ahead(alloc, 1, parts)
}

/// A cascade that reads nothing.
fn reading_nothing(alloc: Global) -> Result<Cascade, AllocError>
    ensures number { IfOk result (λ c. c.number ≡ 1) }
    ensures readings { IfOk result (λ c. Same (CascadeOf Reads c.parts) Nothing) }
{
    let nothing = union(alloc, &[])?;
    let mut parts = Vec::new(alloc);
    parts.push(nothing)?;
    Cascade::looking_ahead(alloc, 1, parts)
}

/// The normaliser of two cascades over a table of so many places, and its callers.
fn over_table(
    alloc: Global,
    classifier: Cascade,
    verbaliser: Cascade,
    places: u32,
    seats: u32,
) -> Result<(Normaliser, Vec<Caller>), AllocError>
    requires numbers { (classifier.number ≡ 0) × (verbaliser.number ≡ 1) }
    requires classifier { IsUnmarked (CascadeOf Reads classifier.parts) }
    requires verbaliser { IsUnmarked (CascadeOf Reads verbaliser.parts) }
    requires places { (1 ≤ places) × (places ≤ 4096) }
    requires seats { (1 ≤ seats) × (seats ≤ 64) }
    ensures classifier { IfOk result (λ n. Same (classifier_of n.0) (CascadeOf Reads classifier.parts)) }
    ensures verbaliser { IfOk result (λ n. Same (verbaliser_of n.0) (CascadeOf Reads verbaliser.parts)) }
    ensures places { IfOk result (λ n. places_of n.0 ≡ places) }
    ensures seats { IfOk result (λ n. vec_len n.1 ≡ seats) }
    ensures callers { IfOk result (λ n. All (IsNewCallerOf n.0) n.1.items) }
    ensures all_seats { IfOk result (λ n. All (λ c. seats_of c ≡ seats) n.1.items) }
    ensures numbers { IfOk result (λ n. (k : ℕ) (c : Caller) → slice_get n.1.items k ≡ Some c → number_in c ≡ k) }
{
    let first = classifier.start();
    let second = verbaliser.start();
    let (shared, callers) = Shared::open(alloc, classifier, verbaliser, places, seats)?;
    let normaliser = Normaliser {
        shared,
        classifier: first,
        verbaliser: second,
    };
    Ok((normaliser, callers))
}

/// The transducers of these rules, or the refusal of the first of which a rewrite may read the empty text. So many rules come before
/// them.
fn build_all(alloc: Global, rules: &[Expr], before: usize) -> Result<Vec<Fst>, LoadFault>
    requires few { before + length rules.now ≤ 2 * most_parts }
    requires can_be_built { All CanBeBuilt (map expression_of rules.now) }
    ensures built { IfOk result (λ parts. AllReadAs parts.items (map expression_of rules.now)) }
    ensures refused { IfErr result (IsFaultAfter before (map expression_of rules.now)) }
    ensures complete { OnOk result (NoneRewritesEmpty (map expression_of rules.now)) }
{
    let mut parts = Vec::new(alloc);
    for (i, rule) in rules.iter().enumerate() {
        parts.push(build_one(alloc, rule, before + i)?)?;
    }
    Ok(parts)
}

/// The transducer of the rule of a number, as a search likes it.
fn build_one(alloc: Global, rule: &Expr, number: usize) -> Result<Fst, LoadFault>
    requires { CanBeBuilt (expression_of rule.now) }
    ensures readings { IfOk result (λ m. Same (Reads m) (Rel (expression_of rule.now))) }
    ensures complete { OnOk result (RewritesEmptyText (expression_of rule.now) → ⊥) }
    ensures refused { IfErr result (IsEmptyRule number (expression_of rule.now)) }
{
    match build(alloc, rule) {
        Ok(fst) => {
            let part = prepared(alloc, fst)?;
            Ok(part)
        }
        Err(BuildFault::RewritesEmpty) => Err(LoadFault::RewritesEmpty { rule: number }),
        Err(BuildFault::Memory) => Err(LoadFault::Memory),
    }
}
