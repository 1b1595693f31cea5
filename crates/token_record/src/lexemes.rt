//! Lexemes at the front of a text.

ghost use Rattle.std.specs.Prelude.{◌≡◌, ◌<◌, ◌≤◌, ◌∷◌, [], IfNone, IfOk, IfSome, List, length, ℕ, None, Some};
ghost use Rattle.text_forms.specs.Answers.{Next};
ghost use Rattle.text_forms.specs.Bytes.{is_blank};
ghost use Rattle.token_record.specs.Lexemes.{Bare, Closed, Sign, Value, Word, escaped, is_plain, starts_word, string_byte, unblanked};

use std::alloc::{AllocError, Global};
use text_forms::{ByteKind, after_byte, front_byte, span};

fn is_blank(b: u8) -> bool
    ensures { result ≡ is_blank b }
{
    matches!(b, b' ' | b'\t' | b'\r' | b'\n')
}

/// What follows the blanks at the front.
pub(crate) fn after_blanks(text: &[u8]) -> &[u8]
    ensures value { result.now ≡ unblanked text.now }
    ensures shorter { length result.now ≤ length text.now }
{
    let mut rest = text;
    while let [first, after @ ..] = rest {
        if !is_blank(*first) {
            return rest;
        }
        rest = after;
    }
    rest
}

/// What follows a sign that comes first.
pub(crate) fn after_sign(text: &[u8], sign: u8) -> Option<&[u8]>
    ensures shorter { IfSome result (λ rest. length rest.now < length text.now) }
    ensures found { IfSome result (λ rest. Sign sign text.now rest.now) }
    ensures none { IfNone result ((rest : List ℕ) → Sign sign text.now rest → ⊥) }
{
    after_byte(after_blanks(text), sign)
}

fn starts_word(word: &[u8]) -> bool
    ensures { result ≡ starts_word word.now }
{
    match word {
        [first, ..] => *first == b'_' || first.is_ascii_alphabetic(),
        [] => false,
    }
}

/// A word that comes first, and what follows it.
pub(crate) fn front_word(text: &[u8]) -> Option<(&[u8], &[u8])>
    ensures shorter { IfSome result (λ x. length x.1.now < length text.now) }
    ensures exact { Next (λ x. x.0.now) (λ x. x.1.now) (Word text.now) result }
{
    let (word, rest) = span(after_blanks(text), ByteKind::Wordy);
    if starts_word(word) {
        Some((word, rest))
    } else {
        None
    }
}

/// A bare value that comes first, and what follows it.
fn front_bare(text: &[u8]) -> Option<(&[u8], &[u8])>
    ensures shorter { IfSome result (λ x. length x.1.now < length text.now) }
    ensures exact { Next (λ x. x.0.now) (λ x. x.1.now) (Bare text.now) result }
{
    let (value, rest) = span(after_blanks(text), ByteKind::Wordy);
    if value.is_empty() {
        None
    } else {
        Some((value, rest))
    }
}

fn is_plain(b: u8) -> bool
    ensures { result ≡ is_plain b }
{
    !matches!(b, 0 | b'"' | b'\\')
}

/// The byte behind a backslash, and what follows it.
fn escaped(text: &[u8]) -> Option<(u8, &[u8])>
    ensures shorter { IfSome result (λ x. length x.1.now < length text.now) }
    ensures found { IfSome result (λ x. escaped text.now ≡ Some (x.0, x.1.now)) }
    ensures none { IfNone result (escaped text.now ≡ None) }
{
    let (first, rest) = front_byte(text)?;
    if first == b'"' || first == b'\\' {
        Some((first, rest))
    } else {
        None
    }
}

/// The byte of a string that comes first, and what follows it.
fn string_byte(text: &[u8]) -> Option<(u8, &[u8])>
    ensures shorter { IfSome result (λ x. length x.1.now < length text.now) }
    ensures found { IfSome result (λ x. string_byte text.now ≡ Some (x.0, x.1.now)) }
    ensures none { IfNone result (string_byte text.now ≡ None) }
{
    let (first, rest) = front_byte(text)?;
    if is_plain(first) {
        return Some((first, rest));
    }
    if first == b'\\' { escaped(rest) } else { None }
}

/// How many bytes of the text the bytes of a string at its front take.
fn string_length(text: &[u8]) -> usize
    ensures { result ≤ length text.now }
{
    let mut rest = text;
    while let Some((_, after)) = string_byte(rest) {
        rest = after;
    }
    text.len() - rest.len()
}

/// The bytes of a string before its closing quote, and what follows the quote.
fn closed(alloc: Global, text: &[u8]) -> Result<Option<(Vec<u8>, &[u8])>, AllocError>
    ensures shorter { IfOk result (λ o. IfSome o (λ x. length x.1.now < length text.now)) }
    ensures exact { IfOk result (Next (λ x. x.0.items) (λ x. x.1.now) (Closed text.now)) }
{
    let mut value = Vec::with_capacity(alloc, string_length(text))?;
    let mut rest = text;
    while let Some((byte, after)) = string_byte(rest) {
        value.push(byte)?;
        rest = after;
    }
    match after_byte(rest, b'"') {
        Some(after) => Ok(Some((value, after))),
        None => Ok(None),
    }
}

/// A value that comes first, and what follows it.
pub(crate) fn front_value(
    alloc: Global,
    text: &[u8],
) -> Result<Option<(Vec<u8>, &[u8])>, AllocError>
    ensures shorter { IfOk result (λ o. IfSome o (λ x. length x.1.now < length text.now)) }
    ensures exact { IfOk result (Next (λ x. x.0.items) (λ x. x.1.now) (Value text.now)) }
{
    if let Some(inside) = after_sign(text, b'"') {
        return closed(alloc, inside);
    }
    match front_bare(text) {
        Some((value, rest)) => Ok(Some((Vec::from_slice(alloc, value)?, rest))),
        None => Ok(None),
    }
}
