ghost use Rattle.std.specs.Prelude.{◌≡◌, ◌+◌, ◌<◌, ◌≤◌, ◌∷◌, IfOk, IfSome, List, [], length, map, true, ℕ};
ghost use Rattle.thrax_lexer.specs.Lexemes.{Lex, lex_of, symbol, word};
ghost use Rattle.thrax_lexer.specs.declared.bytes.Symbol.TheVariants.{Bar, CloseBracket, CloseParen, OpenParen};
ghost use Rattle.thrax_syntax.specs.Grammar.{Spells, argument, arguments, atom, bars, cat, closed, commas, dotted, expr, heavy, joined, members, named, operand};
ghost use Rattle.thrax_syntax.specs.Outcomes.{Answers, begins, level};
ghost use Rattle.thrax_syntax.specs.Trees.{tree_term};

use crate::building;
use crate::fronts::{
    Lexemes, after_symbol, begins_atom, front_quoted, front_text, front_weight, front_word,
    named_after,
};
use crate::operators::{Callee, Operator, front_repeat};
use crate::stop::Stop;
use crate::tree::Tree;
use norm_base::Name;
use std::alloc::Global;
use thrax_lexer::{Symbol, labels};

/// A choice: one or more compositions with `|` between them.
#[cycle(parse)]
pub fn expression<'l, 't>(
    alloc: Global,
    lexemes: Lexemes<'l, 't>,
) -> Result<(Tree, Lexemes<'l, 't>), Stop>
    ensures shorter { IfOk result (λ x. length x.1.now < length lexemes.now) }
    ensures exact { Answers 0 (Spells expr (map lex_of lexemes.now)) result }
{
    let (first, rest) = operation(alloc, Operator::Composition, lexemes)?;
    match after_symbol(rest, Symbol::Bar) {
        Some(after) => choice(alloc, first, after),
        None => Ok((first, rest)),
    }
}

/// The members of a choice behind the first and its `|`.
#[cycle(parse)]
fn choice<'l, 't>(
    alloc: Global,
    first: Tree,
    lexemes: Lexemes<'l, 't>,
) -> Result<(Tree, Lexemes<'l, 't>), Stop>
    ensures shorter { IfOk result (λ x. length x.1.now < length lexemes.now) }
    ensures exact { Answers 0 (Spells (bars (tree_term first ∷ [])) (symbol Bar ∷ map lex_of lexemes.now)) result }
{
    let mut members = Vec::new(alloc);
    members.push(first)?;
    let (second, mut rest) = operation(alloc, Operator::Composition, lexemes)?;
    members.push(second)?;
    while let Some(after) = after_symbol(rest, Symbol::Bar) {
        let (member, left) = operation(alloc, Operator::Composition, after)?;
        members.push(member)?;
        rest = left;
    }
    Ok((building::union(members), rest))
}

/// One or more operands with the operator between them.
#[cycle(parse)]
fn operation<'l, 't>(
    alloc: Global,
    operator: Operator,
    lexemes: Lexemes<'l, 't>,
) -> Result<(Tree, Lexemes<'l, 't>), Stop>
    ensures shorter { IfOk result (λ x. length x.1.now < length lexemes.now) }
    ensures exact { Answers (level operator) (Spells (joined operator) (map lex_of lexemes.now)) result }
{
    let (mut tree, mut rest) = operand(alloc, operator, lexemes)?;
    while let Some(after) = after_symbol(rest, operator.symbol()) {
        let (right, left) = operand(alloc, operator, after)?;
        tree = operator.join(alloc, tree, right)?;
        rest = left;
    }
    Ok((tree, rest))
}

/// What stands on a side of an operator.
#[cycle(parse)]
fn operand<'l, 't>(
    alloc: Global,
    operator: Operator,
    lexemes: Lexemes<'l, 't>,
) -> Result<(Tree, Lexemes<'l, 't>), Stop>
    ensures shorter { IfOk result (λ x. length x.1.now < length lexemes.now) }
    ensures exact { Answers (level operator + 1) (Spells (operand operator) (map lex_of lexemes.now)) result }
{
    match operator {
        Operator::Composition => operation(alloc, Operator::Crossing, lexemes),
        Operator::Crossing => operation(alloc, Operator::Difference, lexemes),
        Operator::Difference => weighted(alloc, lexemes),
    }
}

/// A concatenation and the weights behind it.
#[cycle(parse)]
fn weighted<'l, 't>(
    alloc: Global,
    lexemes: Lexemes<'l, 't>,
) -> Result<(Tree, Lexemes<'l, 't>), Stop>
    ensures shorter { IfOk result (λ x. length x.1.now < length lexemes.now) }
    ensures exact { Answers 4 (Spells heavy (map lex_of lexemes.now)) result }
{
    let (mut tree, mut rest) = concatenation(alloc, lexemes)?;
    while let Some((weight, after)) = front_weight(rest) {
        tree = building::weighted(alloc, tree, weight)?;
        rest = after;
    }
    Ok((tree, rest))
}

/// One or more closures, one behind another.
#[cycle(parse)]
fn concatenation<'l, 't>(
    alloc: Global,
    lexemes: Lexemes<'l, 't>,
) -> Result<(Tree, Lexemes<'l, 't>), Stop>
    ensures shorter { IfOk result (λ x. length x.1.now < length lexemes.now) }
    ensures exact { Answers 5 (Spells cat (map lex_of lexemes.now)) result }
{
    let (first, rest) = closure(alloc, lexemes)?;
    if begins_atom(rest) {
        sequence(alloc, first, rest)
    } else {
        Ok((first, rest))
    }
}

/// The members of a concatenation behind the first.
#[cycle(parse)]
fn sequence<'l, 't>(
    alloc: Global,
    first: Tree,
    lexemes: Lexemes<'l, 't>,
) -> Result<(Tree, Lexemes<'l, 't>), Stop>
    requires { begins (map lex_of lexemes.now) ≡ true }
    ensures shorter { IfOk result (λ x. length x.1.now < length lexemes.now) }
    ensures exact { Answers 5 (Spells (members (tree_term first ∷ [])) (map lex_of lexemes.now)) result }
{
    let mut members = Vec::new(alloc);
    members.push(first)?;
    let (second, mut rest) = closure(alloc, lexemes)?;
    members.push(second)?;
    while begins_atom(rest) {
        let (member, left) = closure(alloc, rest)?;
        members.push(member)?;
        rest = left;
    }
    Ok((building::concat(members), rest))
}

/// An atom and the marks of repetition behind it.
#[cycle(parse)]
fn closure<'l, 't>(alloc: Global, lexemes: Lexemes<'l, 't>) -> Result<(Tree, Lexemes<'l, 't>), Stop>
    ensures shorter { IfOk result (λ x. length x.1.now < length lexemes.now) }
    ensures exact { Answers 6 (Spells closed (map lex_of lexemes.now)) result }
{
    let (mut tree, mut rest) = single(alloc, lexemes)?;
    while let Some((repeat, after)) = front_repeat(rest) {
        tree = repeat.of(alloc, tree)?;
        rest = after;
    }
    Ok((tree, rest))
}

/// A string, a use or a call of a name, or an expression in brackets.
#[cycle(parse)]
fn single<'l, 't>(alloc: Global, lexemes: Lexemes<'l, 't>) -> Result<(Tree, Lexemes<'l, 't>), Stop>
    ensures shorter { IfOk result (λ x. length x.1.now < length lexemes.now) }
    ensures exact { Answers 7 (Spells atom (map lex_of lexemes.now)) result }
{
    match after_symbol(lexemes, Symbol::OpenParen) {
        Some(after) => group(alloc, after),
        None => match front_word(lexemes) {
            Some((word, rest)) => reference(alloc, word, rest),
            None => string(alloc, lexemes),
        },
    }
}

/// An expression and the bracket that closes it.
#[cycle(parse)]
fn group<'l, 't>(alloc: Global, lexemes: Lexemes<'l, 't>) -> Result<(Tree, Lexemes<'l, 't>), Stop>
    ensures shorter { IfOk result (λ x. length x.1.now < length lexemes.now) }
    ensures exact { Answers 7 (λ t c. Spells expr (map lex_of lexemes.now) t (symbol CloseParen ∷ c)) result }
{
    let (tree, left) = expression(alloc, lexemes)?;
    match after_symbol(left, Symbol::CloseParen) {
        Some(rest) => Ok((tree, rest)),
        None => Err(Stop::Syntax),
    }
}

fn string<'l, 't>(alloc: Global, lexemes: Lexemes<'l, 't>) -> Result<(Tree, Lexemes<'l, 't>), Stop>
    requires no_group { (c : List Lex) → map lex_of lexemes.now ≡ symbol OpenParen ∷ c → ⊥ }
    requires no_word { (x : List ℕ) (c : List Lex) → map lex_of lexemes.now ≡ word x ∷ c → ⊥ }
    ensures shorter { IfOk result (λ x. length x.1.now < length lexemes.now) }
    ensures exact { Answers 7 (Spells atom (map lex_of lexemes.now)) result }
{
    let Some((pieces, rest)) = front_text(lexemes) else {
        return Err(Stop::Syntax);
    };
    match labels(alloc, pieces)? {
        Some(labels) => Ok((building::text(labels), rest)),
        None => Err(Stop::Syntax),
    }
}

/// A use or a call of a name that begins with this word.
#[cycle(parse)]
fn reference<'l, 't>(
    alloc: Global,
    word: &[u8],
    lexemes: Lexemes<'l, 't>,
) -> Result<(Tree, Lexemes<'l, 't>), Stop>
    ensures shorter { IfOk result (λ x. length x.1.now ≤ length lexemes.now) }
    ensures exact { Answers 7 (Spells (dotted word.now) (map lex_of lexemes.now)) result }
{
    let own = Name::new(alloc, word)?;
    match named_after(lexemes, Symbol::Dot) {
        Some((name, rest)) => {
            let name = Name::new(alloc, name)?;
            use_or_call(alloc, Callee::Imported(own, name), rest)
        }
        None => use_or_call(alloc, Callee::Own(own), lexemes),
    }
}

/// What a name is used for: it has arguments or none.
#[cycle(parse)]
fn use_or_call<'l, 't>(
    alloc: Global,
    callee: Callee,
    lexemes: Lexemes<'l, 't>,
) -> Result<(Tree, Lexemes<'l, 't>), Stop>
    ensures shorter { IfOk result (λ x. length x.1.now ≤ length lexemes.now) }
    ensures exact { Answers 7 (Spells (named callee) (map lex_of lexemes.now)) result }
{
    match after_symbol(lexemes, Symbol::OpenBracket) {
        Some(after) => call(alloc, callee, after),
        None => Ok((callee.used(), lexemes)),
    }
}

/// The arguments behind an opening bracket.
#[cycle(parse)]
fn call<'l, 't>(
    alloc: Global,
    callee: Callee,
    lexemes: Lexemes<'l, 't>,
) -> Result<(Tree, Lexemes<'l, 't>), Stop>
    ensures shorter { IfOk result (λ x. length x.1.now < length lexemes.now) }
    ensures exact { Answers 7 (Spells (arguments callee) (map lex_of lexemes.now)) result }
{
    match after_symbol(lexemes, Symbol::CloseBracket) {
        Some(rest) => Ok((callee.called(Vec::new(alloc)), rest)),
        None => call_with(alloc, callee, lexemes),
    }
}

/// One or more arguments and the bracket behind them.
#[cycle(parse)]
fn call_with<'l, 't>(
    alloc: Global,
    callee: Callee,
    lexemes: Lexemes<'l, 't>,
) -> Result<(Tree, Lexemes<'l, 't>), Stop>
    requires { (c : List Lex) → map lex_of lexemes.now ≡ symbol CloseBracket ∷ c → ⊥ }
    ensures shorter { IfOk result (λ x. length x.1.now < length lexemes.now) }
    ensures exact { Answers 7 (Spells (arguments callee) (map lex_of lexemes.now)) result }
{
    let (first, mut rest) = argument(alloc, lexemes)?;
    let mut arguments = Vec::new(alloc);
    arguments.push(first)?;
    while let Some(after) = after_symbol(rest, Symbol::Comma) {
        let (next, left) = argument(alloc, after)?;
        arguments.push(next)?;
        rest = left;
    }
    match after_symbol(rest, Symbol::CloseBracket) {
        Some(after) => Ok((callee.called(arguments), after)),
        None => Err(Stop::Syntax),
    }
}

/// A quoted text or an expression.
#[cycle(parse)]
fn argument<'l, 't>(
    alloc: Global,
    lexemes: Lexemes<'l, 't>,
) -> Result<(Tree, Lexemes<'l, 't>), Stop>
    ensures shorter { IfOk result (λ x. length x.1.now < length lexemes.now) }
    ensures exact { Answers 0 (Spells argument (map lex_of lexemes.now)) result }
{
    match front_quoted(lexemes) {
        Some((bytes, rest)) => Ok((building::quoted(alloc, bytes)?, rest)),
        None => expression(alloc, lexemes),
    }
}
