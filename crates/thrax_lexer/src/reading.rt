ghost use Rattle.std.specs.Prelude.{◌≡◌, ◌≤◌, ◌++◌, map, option_to_list, OnOk};
ghost use Rattle.thrax_lexer.specs.Lexemes.{lex_of, lexed};
ghost use Rattle.thrax_lexer.specs.Reading.{LexAnswers, StoppedBy, behind, turned, nested};
ghost use Rattle.thrax_lexer.specs.declared.reading.LexFault.TheVariants.{Memory};

use crate::bytes::Symbol;
use crate::lexemes::Lexeme;
use crate::pieces::piece;
use std::alloc::{AllocError, Global};
use text_forms::front_byte;

/// Where a text has no further lexeme.
#[derive(Clone, Copy, Debug, PartialEq, Eq)]
pub enum LexFault {
    /// Nothing begins here, or a string, a quoted text or a number that begins here breaks its form.
    BadLexeme { at: u64 },
    /// A weight that begins here has no `>` in its line, or what stands before it is no decimal in range.
    BadWeight { at: u64 },
    Memory,
}

impl From<AllocError> for LexFault {
    ghost from_gives = { λ _ fault. fault ≡ Memory };

    fn from(_: AllocError) -> LexFault {
        LexFault::Memory
    }
}

/// The lexemes of a text, and the place of the first bracket that is the 129th open at once.
#[derive(Drop)]
pub struct Lexed<'t> {
    pub lexemes: Vec<Lexeme<'t>>,
    pub too_deep: Option<u64>,
}

/// How many brackets are open, and the place of the first that was too deep.
#[derive(Clone, Copy)]
pub struct Nesting {
    pub depth: u64,
    pub over: Option<u64>,
}

/// How many brackets are open behind a lexeme.
fn behind(depth: u64, item: Option<Lexeme<'_>>) -> u64
    requires { depth ≤ 128 }
    ensures { result ≡ behind depth (lexed item.entry) }
{
    match item {
        Some(Lexeme::Symbol(symbol)) => turned(depth, symbol),
        _ => depth,
    }
}

fn turned(depth: u64, symbol: Symbol) -> u64
    requires { depth ≤ 128 }
    ensures { result ≡ turned depth symbol }
{
    match symbol {
        Symbol::OpenParen | Symbol::OpenBracket | Symbol::OpenBrace => depth + 1,
        Symbol::CloseParen | Symbol::CloseBracket | Symbol::CloseBrace => depth.saturating_sub(1),
        _ => depth,
    }
}

/// The nesting behind a lexeme that stands at a place.
fn nested(nesting: Nesting, at: u64, item: Option<Lexeme<'_>>) -> Nesting
    requires { nesting.depth ≤ 128 }
    ensures next { result ≡ nested nesting.depth nesting.over at (lexed item.entry) }
    ensures low { result.depth ≤ 128 }
{
    if nesting.over.is_some() {
        return nesting;
    }
    let depth = behind(nesting.depth, item);
    if depth > 128 {
        Nesting {
            depth: nesting.depth,
            over: Some(at),
        }
    } else {
        Nesting { depth, over: None }
    }
}

fn keep<'t>(found: &mut Vec<Lexeme<'t>>, item: Option<Lexeme<'t>>) -> Result<(), AllocError>
    ensures { OnOk result (map lex_of found.new.items ≡ map lex_of found.old.items ++ option_to_list (lexed item.entry)) }
{
    if let Some(lexeme) = item {
        found.push(lexeme)?;
    }
    Ok(())
}

/// The lexemes of a whole text, or the first fault by place.
pub fn lex(alloc: Global, text: &[u8]) -> Result<Lexed<'_>, LexFault>
    ensures { LexAnswers text.now result }
{
    let mut lexemes = Vec::new(alloc);
    let mut nesting = Nesting {
        depth: 0,
        over: None,
    };
    let mut rest = text;
    while let Some((item, after)) = piece(rest) {
        nesting = nested(nesting, (text.len() - rest.len()) as u64, item);
        keep(&mut lexemes, item)?;
        rest = after;
    }
    let Some((first, _)) = front_byte(rest) else {
        return Ok(Lexed {
            lexemes,
            too_deep: nesting.over,
        });
    };
    Err(fault(first, (text.len() - rest.len()) as u64))
}

fn fault(first: u8, at: u64) -> LexFault
    ensures { StoppedBy first at result }
{
    if first == b'<' {
        LexFault::BadWeight { at }
    } else {
        LexFault::BadLexeme { at }
    }
}
