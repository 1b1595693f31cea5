// What a line of a setup is.

ghost use Rattle.std.specs.Prelude.{◌≡◌, ◌++◌, IfNone, IfSome, List, ℕ};
ghost use Rattle.speak_setup.specs.Forms.{IsAssigned, IsQuoted, is_blank, is_value_byte, key_text};
ghost use Rattle.speak_setup.specs.Parts.{IsFrontLen, IsLine, Splits};
ghost use Rattle.speak_setup.specs.declared.key.Key.{Key};

use crate::key::Key;

/// What a line of a setup is.
#[derive(Clone, Copy, Debug)]
pub(crate) enum Line<'a> {
    /// It gives nothing.
    Skipped,
    /// It gives a key a value.
    Entry(Key, &'a [u8]),
    /// It is of no form.
    Bad,
}

/// What a line is.
pub(crate) fn read_line(line: &[u8]) -> Line<'_>
    ensures { IsLine line.now result }
{
    let text = after_blanks(line);
    if text.is_empty() || after_text(text, b"#").is_some() {
        return Line::Skipped;
    }
    match assigned(text) {
        Some((key, value)) => Line::Entry(key, value),
        None => Line::Bad,
    }
}

/// The key that a text begins with, and the value that it gives that key.
fn assigned(text: &[u8]) -> Option<(Key, &[u8])>
    ensures found { IfSome result (λ x. IsAssigned text.now x.0 x.1.now) }
    ensures none { IfNone result ((key : Key) (value : List ℕ) → IsAssigned text.now key value → ⊥) }
{
    let (key, rest) = key_at(text)?;
    let rest = after_text(after_blanks(rest), b":")?;
    let value = quoted(after_blanks(rest))?;
    Some((key, value))
}

/// The key that a text begins with, and what follows it.
fn key_at(text: &[u8]) -> Option<(Key, &[u8])>
    ensures found { IfSome result (λ x. text.now ≡ key_text x.0 ++ x.1.now) }
    ensures none { IfNone result ((key : Key) (rest : List ℕ) → text.now ≡ key_text key ++ rest → ⊥) }
{
    if let Some(rest) = after_text(text, Key::TokenizerGrammar.text()) {
        return Some((Key::TokenizerGrammar, rest));
    }
    if let Some(rest) = after_text(text, Key::TokenizerRule.text()) {
        return Some((Key::TokenizerRule, rest));
    }
    if let Some(rest) = after_text(text, Key::VerbalizerGrammar.text()) {
        return Some((Key::VerbalizerGrammar, rest));
    }
    let rest = after_text(text, Key::VerbalizerRule.text())?;
    Some((Key::VerbalizerRule, rest))
}

/// The value that stands in double quotes at the front of a text, where nothing but spaces and tabs follows.
fn quoted(text: &[u8]) -> Option<&[u8]>
    ensures found { IfSome result (λ value. IsQuoted text.now value.now) }
    ensures none { IfNone result ((value : List ℕ) → IsQuoted text.now value → ⊥) }
{
    let (value, end) = value_at(after_text(text, b"\"")?);
    let last = after_text(end, b"\"")?;
    if value.is_empty() || 255 < value.len() || !after_blanks(last).is_empty() {
        return None;
    }
    Some(value)
}

/// What follows these bytes, where a text begins with them.
fn after_text<'a>(text: &'a [u8], front: &[u8]) -> Option<&'a [u8]>
    ensures found { IfSome result (λ rest. text.now ≡ front.now ++ rest.now) }
    ensures none { IfNone result ((rest : List ℕ) → text.now ≡ front.now ++ rest → ⊥) }
{
    text.strip_prefix(front)
}

/// The longest front of a text that a value may hold, and the rest.
fn value_at(text: &[u8]) -> (&[u8], &[u8])
    ensures { Splits is_value_byte text.now result.0.now result.1.now }
{
    text.split_at(value_len(text))
}

/// What follows the spaces and tabs at the front of a text.
fn after_blanks(text: &[u8]) -> &[u8]
    ensures { (blanks : List ℕ) × Splits is_blank text.now blanks result.now }
{
    text.split_at(blank_len(text)).1
}

/// How many bytes at the front of a text a value may hold.
fn value_len(text: &[u8]) -> usize
    ensures { IsFrontLen is_value_byte text.now result }
{
    for (i, b) in text.iter().enumerate() {
        if !is_value_byte(*b) {
            return i;
        }
    }
    text.len()
}

/// How many spaces and tabs stand at the front of a text.
fn blank_len(text: &[u8]) -> usize
    ensures { IsFrontLen is_blank text.now result }
{
    for (i, b) in text.iter().enumerate() {
        if !is_blank(*b) {
            return i;
        }
    }
    text.len()
}

fn is_value_byte(b: u8) -> bool
    ensures { result ≡ is_value_byte b }
{
    32 <= b && b <= 126 && b != b'"' && b != b'\\'
}

fn is_blank(b: u8) -> bool
    ensures { result ≡ is_blank b }
{
    b == b' ' || b == b'\t'
}
