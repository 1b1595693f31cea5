ghost use Rattle.std.specs.Prelude.{◌≡◌, ◌<◌, ◌≤◌, ◌^◌, ◌∷◌, List, ℕ, length, IfOk, IfSome, IfNone, Some};
ghost use Rattle.text_forms.specs.Bytes.{Run, is_of};
ghost use Rattle.thrax_lexer.specs.Bytes.{is_inside};
ghost use Rattle.thrax_lexer.specs.declared.bytes.Inside.TheVariants as inner;
ghost use Rattle.thrax_lexer.specs.Strings.{is_plain, escaped, Numeral, NamedByte, Named, Label, Labels, Closed};
ghost use Rattle.text_forms.specs.Answers.{Next};

use crate::bytes::Inside;
use std::alloc::{AllocError, Global};
use text_forms::{ByteKind, after_byte, front_byte, span, value_below};

fn is_plain(b: u8) -> bool
    ensures { result ≡ is_plain b }
{
    !matches!(b, 0 | b'\n' | b'"' | b'\\' | b'[' | b']')
}

/// The label of a byte behind a backslash.
fn escaped(b: u8) -> Option<u8>
    ensures { result ≡ escaped b }
{
    match b {
        b'n' => Some(b'\n'),
        b't' => Some(b'\t'),
        b'r' => Some(b'\r'),
        b'!'..=b'~' if !b.is_ascii_alphanumeric() => Some(b),
        _ => None,
    }
}

/// The byte that one to so many digits say, which isn't 0.
fn numeral(digits: &[u8], kind: ByteKind, base: u64, most: usize) -> Option<u16>
    requires based { 1 ≤ base }
    requires small { base ≤ 16 }
    ensures found { IfSome result (λ n. Numeral kind base most digits.now n) }
    ensures none { IfNone result ((n : ℕ) → Numeral kind base most digits.now n → ⊥) }
{
    let (run, rest) = span(digits, kind);
    if !rest.is_empty() || run.is_empty() || run.len() > most {
        return None;
    }
    let value = value_below(0, digits, base, 256)?;
    if value == 0 { None } else { Some(value as u16) }
}

/// The label that a text in brackets names.
fn named(name: &[u8]) -> Option<u16>
    ensures found { IfSome result (λ n. Named name.now n) }
    ensures none { IfNone result ((n : ℕ) → Named name.now n → ⊥) }
{
    if name == b"BOS".as_slice() {
        return Some(256);
    }
    if name == b"EOS".as_slice() {
        return Some(257);
    }
    named_byte(name)
}

/// The byte that decimal digits say, or hexadecimal ones behind `0x`.
fn named_byte(name: &[u8]) -> Option<u16>
    ensures found { IfSome result (λ n. NamedByte name.now n) }
    ensures none { IfNone result ((n : ℕ) → NamedByte name.now n → ⊥) }
{
    match hexadecimal(name) {
        Some(digits) => numeral(digits, ByteKind::HexDigit, 16, 2),
        None => numeral(name, ByteKind::Digit, 10, 3),
    }
}

/// What stands behind `0x`.
fn hexadecimal(name: &[u8]) -> Option<&[u8]>
    ensures found { IfSome result (λ digits. name.now ≡ 48 ∷ 120 ∷ digits.now) }
    ensures none { IfNone result ((digits : List ℕ) → name.now ≡ 48 ∷ 120 ∷ digits → ⊥) }
{
    after_byte(after_byte(name, b'0')?, b'x')
}

/// One piece of a string, as its label, and the rest.
fn label(text: &[u8]) -> Option<(u16, &[u8])>
    ensures shorter { IfSome result (λ x. length x.1.now < length text.now) }
    ensures found { IfSome result (λ x. Label text.now x.0 x.1.now) }
    ensures none { IfNone result ((n : ℕ) (d : List ℕ) → Label text.now n d → ⊥) }
{
    let (first, rest) = front_byte(text)?;
    if is_plain(first) {
        return Some((u16::from(first), rest));
    }
    match first {
        b'\\' => escape(rest),
        b'[' => bracketed(rest),
        _ => None,
    }
}

/// What stands behind a backslash.
fn escape(text: &[u8]) -> Option<(u16, &[u8])>
    ensures shorter { IfSome result (λ x. length x.1.now < length text.now) }
    ensures found { IfSome result (λ x. (d : ℕ) × (text.now ≡ d ∷ x.1.now) × (escaped d ≡ Some x.0)) }
    ensures none { IfNone result ((d n : ℕ) (c : List ℕ) → text.now ≡ d ∷ c → escaped d ≡ Some n → ⊥) }
{
    let (byte, rest) = front_byte(text)?;
    let label = escaped(byte)?;
    Some((u16::from(label), rest))
}

/// What stands behind an opening bracket.
fn bracketed(text: &[u8]) -> Option<(u16, &[u8])>
    ensures shorter { IfSome result (λ x. length x.1.now < length text.now) }
    ensures found { IfSome result (λ x. (name : List ℕ) × Run (is_inside inner.Brackets) text.now name (93 ∷ x.1.now) × Named name x.0) }
    ensures none { IfNone result ((name : List ℕ) (n : ℕ) (c : List ℕ) → Run (is_inside inner.Brackets) text.now name (93 ∷ c) → Named name n → ⊥) }
{
    let (name, left) = span(text, Inside::Brackets);
    let rest = after_byte(left, b']')?;
    Some((named(name)?, rest))
}

/// The pieces of a string before its closing quote, and what follows the quote.
pub fn closed(text: &[u8]) -> Option<(&[u8], &[u8])>
    ensures { Next (λ x. x.0.now) (λ x. x.1.now) (Closed text.now) result }
{
    let mut rest = text;
    while let Some((_, after)) = label(rest) {
        rest = after;
    }
    let after = after_byte(rest, b'"')?;
    Some((&text[..text.len() - rest.len()], after))
}

/// The labels of a text that is the pieces of a string, or that it isn't.
///
/// A byte stands for itself, 256 and 257 for the begin and the end of a text.
pub fn labels(alloc: Global, text: &[u8]) -> Result<Option<Vec<u16>>, AllocError>
    ensures found { IfOk result (λ o. IfSome o (λ v. Labels text.now v.items)) }
    ensures only { IfOk result (λ o. IfSome o (λ v. (ns : List ℕ) → Labels text.now ns → ns ≡ v.items)) }
    ensures none { IfOk result (λ o. IfNone o ((ns : List ℕ) → Labels text.now ns → ⊥)) }
{
    let mut found = Vec::new(alloc);
    let mut rest = text;
    while let Some((next, after)) = label(rest) {
        found.push(next)?;
        rest = after;
    }
    if rest.is_empty() {
        return Ok(Some(found));
    }
    Ok(None)
}
