// The rules of a linked grammar file.

ghost use Rattle.std.specs.Prelude.{◌≡◌, All, IfErr, IfOk, Ok};
ghost use Rattle.core_expressions.specs.Views.{expression_of};
ghost use Rattle.normaliser.specs.Loads.{CanBeBuilt};
ghost use Rattle.thrax_link.specs.Exports.{expression_named, exports_of};
ghost use Rattle.speak_core.specs.Accepted.{checked, named};
ghost use Rattle.speak_core.specs.Loaded.{TellsText, expressions_of};
ghost use Rattle.speak_core.specs.Stops.{IsRuleStop};

use crate::stop::Stop;
use crate::texts;
use core_expressions::Expr;
use norm_base::Name;
use std::alloc::Global;
use thrax_link::Grammar;

/// The expressions of these rules in order, or the refusal of the first that isn't exported or may hold a mark.
pub(crate) fn rules_of(
    alloc: Global,
    grammar: &Grammar,
    file: &Name,
    names: &[Name],
) -> Result<Vec<Expr>, Stop>
    ensures found { IfOk result (λ rules. named file.now (exports_of grammar.now) names.now ≡ Ok (expressions_of rules)) }
    ensures can_be_built { IfOk result (λ rules. All CanBeBuilt (expressions_of rules)) }
    ensures refused { IfErr result (TellsText (named file.now (exports_of grammar.now) names.now)) }
    ensures stops { IfErr result IsRuleStop }
{
    let mut rules = Vec::new(alloc);
    for name in names {
        match rule_of(alloc, grammar, file, name) {
            Ok(rule) => rules.push(rule)?,
            Err(stop) => return Err(stop),
        }
    }
    Ok(rules)
}

/// The expression of a rule, or its refusal.
fn rule_of(alloc: Global, grammar: &Grammar, file: &Name, name: &Name) -> Result<Expr, Stop>
    ensures found { IfOk result (λ e. checked file.now name.now (expression_named (exports_of grammar.now) name.now) ≡ Ok (expression_of e)) }
    ensures can_be_built { IfOk result (λ e. CanBeBuilt (expression_of e)) }
    ensures refused { IfErr result (TellsText (checked file.now name.now (expression_named (exports_of grammar.now) name.now))) }
    ensures stops { IfErr result IsRuleStop }
{
    let Some(rule) = grammar.rule(name) else {
        return Err(Stop::refused(texts::no_rule(alloc, name, file)));
    };
    if rule.is_marked() {
        return Err(Stop::refused(texts::marked(alloc, name, file)));
    }
    let own = rule.copy(alloc)?;
    Ok(own)
}
