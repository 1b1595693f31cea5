ghost use Rattle.thrax_lexer.specs.Lexemes.{NumberAt, WeightAt, QuotedAt, Piece, lexed};
ghost use Rattle.text_forms.specs.Answers.{Next};

use crate::bytes::{Inside, Start, begun_by};
use crate::lexemes::{Lexeme, word_lexeme};
use crate::strings::closed;
use text_forms::{ByteKind, after_byte, decimal, front_byte, span, value_below};

/// The blank, comment or lexeme at the front of a text, and the rest. A blank or a comment is `None`.
pub fn piece(text: &[u8]) -> Option<(Option<Lexeme<'_>>, &[u8])>
    ensures { Next (λ x. lexed x.0) (λ x. x.1.now) (Piece text.now) result }
{
    let (first, rest) = front_byte(text)?;
    match begun_by(first) {
        Start::Blank => Some((None, rest)),
        Start::Comment => {
            let (_, after) = span(rest, Inside::Comment);
            Some((None, after))
        }
        Start::Word => {
            let (more, after) = span(rest, ByteKind::Wordy);
            Some((Some(word_lexeme(&text[..=more.len()])), after))
        }
        Start::Number => {
            let (value, after) = number(text)?;
            Some((Some(Lexeme::Number(value)), after))
        }
        Start::Weight => {
            let (weight, after) = weight(rest)?;
            Some((Some(Lexeme::Weight(weight)), after))
        }
        Start::Text => {
            let (pieces, after) = closed(rest)?;
            Some((Some(Lexeme::Text(pieces)), after))
        }
        Start::Quoted => {
            let (bytes, after) = quoted(rest)?;
            Some((Some(Lexeme::Quoted(bytes)), after))
        }
        Start::Symbol(symbol) => Some((Some(Lexeme::Symbol(symbol)), rest)),
        Start::Nothing => None,
    }
}

fn number(text: &[u8]) -> Option<(u32, &[u8])>
    ensures { Next (λ x. x.0) (λ x. x.1.now) (NumberAt text.now) result }
{
    let (digits, rest) = span(text, ByteKind::Digit);
    if digits.is_empty() || digits.len() > 4 {
        return None;
    }
    let value = value_below(0, digits, 10, 1 << 32)?;
    Some((value as u32, rest))
}

fn weight(text: &[u8]) -> Option<(u32, &[u8])>
    ensures { Next (λ x. x.0) (λ x. x.1.now) (WeightAt text.now) result }
{
    let (inside, left) = span(text, Inside::Weight);
    let rest = after_byte(left, b'>')?;
    Some((decimal(inside)?, rest))
}

fn quoted(text: &[u8]) -> Option<(&[u8], &[u8])>
    ensures { Next (λ x. x.0.now) (λ x. x.1.now) (QuotedAt text.now) result }
{
    let (bytes, left) = span(text, Inside::Quotes);
    let rest = after_byte(left, b'\'')?;
    if bytes.is_empty() {
        None
    } else {
        Some((bytes, rest))
    }
}
