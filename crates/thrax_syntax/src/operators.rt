ghost use Rattle.std.specs.Prelude.{◌≡◌, ◌<◌, ◌∷◌, IfOk, IfSome, length, map};
ghost use Rattle.text_forms.specs.Answers.{Next};
ghost use Rattle.thrax_lexer.specs.Lexemes.{lex_of, symbol};
ghost use Rattle.thrax_lexer.specs.declared.bytes.Symbol.TheVariants.{OpenBrace};
ghost use Rattle.thrax_syntax.specs.Grammar.{RepeatAt, called, join, repeated, sign, used};
ghost use Rattle.thrax_syntax.specs.Trees.{tree_term};

use crate::fronts::{Lexemes, after_symbol, front, front_number};
use crate::tree::Tree;
use norm_base::Name;
use std::alloc::{AllocError, Global};
use thrax_lexer::{Lexeme, Symbol};

/// An operator between two operands. Each groups to the left.
#[derive(Clone, Copy, Debug, PartialEq, Eq)]
pub enum Operator {
    /// `@`, the loosest.
    Composition,
    /// `:`.
    Crossing,
    /// `-`, the tightest.
    Difference,
}

impl Operator {
    pub fn symbol(self) -> Symbol
        ensures { result ≡ sign self }
    {
        match self {
            Operator::Composition => Symbol::At,
            Operator::Crossing => Symbol::Colon,
            Operator::Difference => Symbol::Minus,
        }
    }

    /// The tree of two operands.
    pub fn join(self, alloc: Global, left: Tree, right: Tree) -> Result<Tree, AllocError>
        ensures { IfOk result (λ t. tree_term t ≡ join self (tree_term left) (tree_term right)) }
    {
        let left = Box::new(alloc, left)?;
        let right = Box::new(alloc, right)?;
        match self {
            Operator::Composition => Ok(Tree::Compose(left, right)),
            Operator::Crossing => Ok(Tree::Cross(left, right)),
            Operator::Difference => Ok(Tree::Minus(left, right)),
        }
    }
}

/// How often a closure takes what stands before its mark.
#[derive(Clone, Copy, Debug, PartialEq, Eq)]
pub enum Repeat {
    /// `*`.
    AnyNumber,
    /// `+`.
    OneOrMore,
    /// `?`.
    AtMostOne,
    /// `{m,n}`: at least the first number of times and at most the second.
    Between(u32, u32),
}

impl Repeat {
    /// The tree of a repetition.
    pub fn of(self, alloc: Global, tree: Tree) -> Result<Tree, AllocError>
        ensures { IfOk result (λ t. tree_term t ≡ repeated self (tree_term tree)) }
    {
        let tree = Box::new(alloc, tree)?;
        match self {
            Repeat::AnyNumber => Ok(Tree::Star(tree)),
            Repeat::OneOrMore => Ok(Tree::Plus(tree)),
            Repeat::AtMostOne => Ok(Tree::Maybe(tree)),
            Repeat::Between(least, most) => Ok(Tree::Times(tree, least, most)),
        }
    }
}

/// The mark of a closure that comes first, and the others.
pub fn front_repeat<'l, 't>(lexemes: Lexemes<'l, 't>) -> Option<(Repeat, Lexemes<'l, 't>)>
    ensures shorter { IfSome result (λ x. length x.1.now < length lexemes.now) }
    ensures exact { Next (λ x. x.0) (λ x. map lex_of x.1.now) (RepeatAt (map lex_of lexemes.now)) result }
{
    let (first, rest) = front(lexemes)?;
    let Lexeme::Symbol(mark) = first else {
        return None;
    };
    match mark {
        Symbol::Star => Some((Repeat::AnyNumber, rest)),
        Symbol::Plus => Some((Repeat::OneOrMore, rest)),
        Symbol::Question => Some((Repeat::AtMostOne, rest)),
        Symbol::OpenBrace => between(rest),
        _ => None,
    }
}

/// Two numbers in order and the brace behind them.
fn between<'l, 't>(lexemes: Lexemes<'l, 't>) -> Option<(Repeat, Lexemes<'l, 't>)>
    ensures shorter { IfSome result (λ x. length x.1.now < length lexemes.now) }
    ensures exact { Next (λ x. x.0) (λ x. map lex_of x.1.now) (RepeatAt (symbol OpenBrace ∷ map lex_of lexemes.now)) result }
{
    let (least, rest) = front_number(lexemes)?;
    let rest = after_symbol(rest, Symbol::Comma)?;
    let (most, rest) = front_number(rest)?;
    let rest = after_symbol(rest, Symbol::CloseBrace)?;
    if least <= most {
        Some((Repeat::Between(least, most), rest))
    } else {
        None
    }
}

/// What is used or called: a name of this file, or an alias and a name of its file.
#[derive(Drop)]
pub enum Callee {
    Own(Name),
    Imported(Name, Name),
}

impl Callee {
    /// The tree of the name without arguments.
    pub fn used(self) -> Tree
        ensures { tree_term result ≡ used self }
    {
        match self {
            Callee::Own(name) => Tree::Use(name),
            Callee::Imported(alias, name) => Tree::Member(alias, name),
        }
    }

    /// The tree of a call.
    pub fn called(self, arguments: Vec<Tree>) -> Tree
        ensures { tree_term result ≡ called self (map tree_term arguments.items) }
    {
        match self {
            Callee::Own(name) => Tree::Call(name, arguments),
            Callee::Imported(alias, name) => Tree::CallMember(alias, name, arguments),
        }
    }
}
