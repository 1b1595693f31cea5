// The sizes of rules, as they are told.

ghost use Rattle.std.specs.Prelude.{◌≡◌, ◌<◌, ◌++◌, All, IfOk, OnOk, codes, map};
ghost use Rattle.core_expressions.specs.Views.{expression_of};
ghost use Rattle.speak_setup.specs.Setups.{names_of};
ghost use Rattle.weighted_relations.specs.Expressions.{size};
ghost use Rattle.speak_core.specs.Loaded.{CanLoad, expressions_of};
ghost use Rattle.speak_core.specs.Outputs.{rule_line, rule_lines, rules_text};

use crate::loading::Rules;
use crate::texts::joined;
use core_expressions::Expr;
use norm_base::Name;
use speak_setup::Setup;
use std::alloc::{AllocError, Global};

/// A line for each rule of a setup: the tokeniser's, and then the verbaliser's.
pub(crate) fn all(alloc: Global, setup: &Setup, rules: &Rules) -> Result<Vec<u8>, AllocError>
    requires { CanLoad (names_of setup.now) rules.now }
    ensures { IfOk result (λ text. text.items ≡ rules_text (names_of setup.now) (expressions_of rules.now.classifier) (expressions_of rules.now.verbaliser)) }
{
    let mut text = Vec::new(alloc);
    let classifier = &rules.classifier;
    add(
        alloc,
        &mut text,
        "tokenizer_rule",
        &setup.tokenizer_rules,
        classifier,
    )?;
    let verbaliser = &rules.verbaliser;
    add(
        alloc,
        &mut text,
        "verbalizer_rule",
        &setup.verbalizer_rules,
        verbaliser,
    )?;
    Ok(text)
}

/// Adds a line for each of these rules.
fn add(
    alloc: Global,
    text: &mut Vec<u8>,
    kind: &str,
    names: &[Name],
    rules: &[Expr],
) -> Result<(), AllocError>
    requires { All (λ e. size e < 4194304) (map expression_of rules.now) }
    ensures { OnOk result (text.new.items ≡ text.old.items ++ rule_lines kind.now names.now (map expression_of rules.now)) }
{
    let mut names_left = names;
    let mut rules_left = rules;
    while let [name, more_names @ ..] = names_left {
        let [rule, more_rules @ ..] = rules_left else {
            return Ok(());
        };
        let line = rule_line(alloc, kind, name, rule)?;
        text.extend_from_slice(&line)?;
        names_left = more_names;
        rules_left = more_rules;
    }
    Ok(())
}

/// The line of a rule.
fn rule_line(alloc: Global, kind: &str, name: &Name, rule: &Expr) -> Result<Vec<u8>, AllocError>
    requires { size (expression_of rule.now) < 4194304 }
    ensures { IfOk result (λ text. text.items ≡ rule_line kind.now name.now (expression_of rule.now)) }
{
    let size = rule.size();
    let digits = format!(in alloc; "{size}")?;
    joined(
        alloc,
        &[
            kind.as_bytes(),
            b" ",
            name.bytes(),
            b" size ",
            digits.as_bytes(),
            b"\n",
        ],
    )
}
