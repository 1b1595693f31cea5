//! Normalisers of small grammars.

ghost use Rattle.std.specs.Prelude.{◌≡◌, ◌≤◌, All, IfOk, length, map};
ghost use Rattle.core_expressions.specs.Views.{expression_of};
ghost use Rattle.normaliser.specs.Loads.{CanBeBuilt};
ghost use Rattle.normaliser.specs.Searches.{IsCallerOf, IsNewCallerOf};

use core_expressions::Expr;
use norm_base::{Name, SureShelf};
use normaliser::{Caller, LoadFault, Normaliser, load};
use state_tuples::MOST_PARTS;
use std::alloc::Global;
use std::test::Fail;
use thrax_link::link;

/// A normaliser, and its one caller.
#[derive(Drop)]
pub struct Prepared {
    pub normaliser: Normaliser,
    pub caller: Caller,
}

/// The normaliser of the rules that these grammars export as `MAIN`. Its table has so many places.
pub fn ready_for(
    alloc: Global,
    classifier: &[&str],
    verbaliser: &[&str],
    places: u32,
) -> Result<Prepared, Fail>
    requires { (1 ≤ places) × (places ≤ 4096) }
    ensures { IfOk result (λ p. IsCallerOf p.normaliser p.caller) }
{
    let classifier = rules(alloc, classifier)?;
    let verbaliser = rules(alloc, verbaliser)?;
    if classifier.is_empty() || classifier.len() > MOST_PARTS || verbaliser.len() > MOST_PARTS {
        return Err("a cascade of too many rules, or of none")?;
    }
    match load(alloc, &classifier, &verbaliser, places, 1) {
        Ok((normaliser, callers)) => Ok(with_its_caller(normaliser, callers)),
        Err(_) => Err("rules that are refused")?,
    }
}

/// A normaliser with its one caller.
fn with_its_caller(normaliser: Normaliser, mut callers: Vec<Caller>) -> Prepared
    requires one { length callers.items ≡ 1 }
    requires ready { All (IsNewCallerOf normaliser) callers.items }
    ensures ready { IsCallerOf result.normaliser result.caller }
{
    let caller = callers.pop().unwrap();
    Prepared { normaliser, caller }
}

/// Why there is no normaliser of the rules that these grammars export as `MAIN`, if there is none.
pub fn refusal(
    alloc: Global,
    classifier: &[&str],
    verbaliser: &[&str],
) -> Result<Option<LoadFault>, Fail> {
    let classifier = rules(alloc, classifier)?;
    let verbaliser = rules(alloc, verbaliser)?;
    if classifier.is_empty() || classifier.len() > MOST_PARTS || verbaliser.len() > MOST_PARTS {
        return Err("a cascade of too many rules, or of none")?;
    }
    match load(alloc, &classifier, &verbaliser, 1, 1) {
        Ok(_) => Ok(None),
        Err(fault) => Ok(Some(fault)),
    }
}

/// The rules that grammars export as `MAIN`.
fn rules(alloc: Global, grammars: &[&str]) -> Result<Vec<Expr>, Fail>
    ensures { IfOk result (λ es. All CanBeBuilt (map expression_of es.items)) }
{
    let mut rules = Vec::new(alloc);
    for grammar in grammars {
        let made = rule(alloc, grammar.as_bytes(), "MAIN")?;
        rules.push(made)?;
    }
    Ok(rules)
}

/// The rule that a grammar exports under this name.
pub(crate) fn rule(alloc: Global, grammar: &[u8], exported: &str) -> Result<Expr, Fail>
    ensures { IfOk result (λ e. CanBeBuilt (expression_of e)) }
{
    let mut files = Vec::new(alloc);
    files.push((Name::new(alloc, b"g")?, Vec::from_slice(alloc, grammar)?))?;
    let mut shelf = SureShelf::new(alloc, files);
    let name = Name::new(alloc, b"g")?;
    let Ok(grammar) = link(alloc, &mut shelf, &name) else {
        return Err("the grammar is refused")?;
    };
    let exported = Name::new(alloc, exported.as_bytes())?;
    let Some(rule) = grammar.rule(&exported) else {
        return Err("no such rule")?;
    };
    if rule.is_marked() {
        return Err("a rule with marks")?;
    }
    let copied = rule.copy(alloc)?;
    Ok(copied)
}
