//! Entries of a string file.

ghost use Rattle.std.specs.Prelude.{◌≡◌, ◌+◌, ◌<◌, ◌^◌, List, length, IfOk, IfSome, IfNone, map};
ghost use Rattle.std.specs.Option.{option_map};
ghost use Rattle.weighted_relations.specs.Expressions.{Expression};
ghost use Rattle.checked_expressions.specs.Answers.{Makes, shared_of};
ghost use Rattle.checked_expressions.specs.Nodes.{text_of};
ghost use Rattle.string_files.specs.StringFiles.{line_entry, entries_from, file_entries, bad_line, entries};
ghost use Rattle.string_files.specs.Lexicons.{GivesLexicon, file_lexicon, from_entries};
ghost use Rattle.string_files.specs.Entries.{said_by, made_of, pair_of, OversizedBy};
ghost use Rattle.text_lines.specs.Lines.{lines};

use crate::LexiconFault;
use crate::fields::{are_bytes, first_field, weight};
use checked_expressions::{CheckFault, KindFault, LIMIT, Value, cross, text, union, weighted};
use std::alloc::{AllocError, Global};
use std::rc::Rc;
use text_lines::first_line;

/// An entry of a string file: a string that is read and written, or one that is read and one that is written, or
/// these with a weight.
#[derive(Clone, Copy)]
pub(crate) enum Entry<'a> {
    Both(&'a [u8]),
    Pair(&'a [u8], &'a [u8]),
    Weighing(&'a [u8], &'a [u8], u32),
}

/// The entry that a line is, where it is one.
fn read_entry(line: &[u8]) -> Option<Entry<'_>>
    ensures { option_map said_by result ≡ line_entry line.now }
{
    if !are_bytes(line) {
        return None;
    }
    let (first, rest) = first_field(line);
    let Some(rest) = rest else {
        return Some(Entry::Both(first));
    };
    let (second, rest) = first_field(rest);
    let Some(rest) = rest else {
        return Some(Entry::Pair(first, second));
    };
    let (third, rest) = first_field(rest);
    if rest.is_some() {
        return None;
    }
    match weight(third) {
        Some(weight) => Some(Entry::Weighing(first, second, weight)),
        None => None,
    }
}

/// The bytes as labels.
fn labels(alloc: Global, bytes: &[u8]) -> Result<Vec<u16>, AllocError>
    ensures { IfOk result (λ v. v.items ≡ bytes.now) }
{
    let mut labels = Vec::new(alloc);
    for b in bytes {
        labels.push(u16::from(*b))?;
    }
    Ok(labels)
}

/// The bytes as a text.
fn bytes_text(alloc: Global, bytes: &[u8]) -> Result<Rc<Value>, CheckFault>
    ensures { Makes result (text_of bytes.now) }
{
    let labels = labels(alloc, bytes)?;
    text(alloc, &labels)
}

/// Two texts, of which one is read and the other written.
fn pair(alloc: Global, input: &[u8], output: &[u8]) -> Result<Rc<Value>, CheckFault>
    ensures { Makes result (pair_of input.now output.now) }
{
    let a = bytes_text(alloc, input)?;
    let b = bytes_text(alloc, output)?;
    cross(alloc, a, b)
}

/// The value of an entry.
fn entry_value(alloc: Global, entry: &Entry<'_>) -> Result<Rc<Value>, CheckFault>
    ensures { Makes result (made_of entry.now) }
{
    match entry {
        Entry::Both(bytes) => bytes_text(alloc, bytes),
        Entry::Pair(input, output) => pair(alloc, input, output),
        Entry::Weighing(input, output, weight) => {
            weighted(alloc, pair(alloc, input, output)?, *weight)
        }
    }
}

/// The first line, among lines that come after so many, that is neither empty nor an entry.
fn first_bad(text: &[u8], lines_before: u64) -> Option<u64>
    requires { lines_before + length text.now < 2 ^ 64 }
    ensures bad { IfSome result (λ n. entries_from (lines_before + 1) (lines text.now) ≡ bad_line n) }
    ensures none { IfNone result ((es : List Expression) × (entries_from (lines_before + 1) (lines text.now) ≡ entries es)) }
{
    let mut rest = text;
    let mut number = lines_before;
    while !rest.is_empty() {
        let (line, after) = first_line(rest);
        number += 1;
        rest = after;
        if line.is_empty() {
            continue;
        }
        let Some(_entry) = read_entry(line) else {
            return Some(number);
        };
    }
    None
}

/// Why a string file has no expression whose entries are too large before this text, which comes after so many lines: a
/// bad line comes first.
fn oversized(text: &[u8], lines_before: u64) -> LexiconFault
    requires { lines_before + length text.now < 2 ^ 64 }
    ensures { OversizedBy (entries_from (lines_before + 1) (lines text.now)) result }
{
    match first_bad(text, lines_before) {
        Some(line) => LexiconFault::BadPair { line },
        None => LexiconFault::Unfit(KindFault::TooLarge),
    }
}

/// The union of the values, as what a string file means.
fn whole(alloc: Global, values: Vec<Rc<Value>>) -> Result<Rc<Value>, LexiconFault>
    ensures { GivesLexicon result (from_entries (entries (map shared_of values.items))) }
{
    match union(alloc, values) {
        Ok(value) => Ok(value),
        Err(CheckFault::Refused(fault)) => Err(LexiconFault::Unfit(fault)),
        Err(CheckFault::Memory) => Err(LexiconFault::Memory),
    }
}

/// The expression of the bytes of a string file: the union of its entries in order.
pub fn lexicon(alloc: Global, bytes: &[u8]) -> Result<Rc<Value>, LexiconFault>
    ensures { GivesLexicon result (file_lexicon bytes.now) }
{
    let mut values = Vec::new(alloc);
    let mut total = 0;
    let mut number = 0;
    let mut rest = bytes;
    while !rest.is_empty() {
        let (line, after) = first_line(rest);
        number += 1;
        rest = after;
        if line.is_empty() {
            continue;
        }
        let Some(entry) = read_entry(line) else {
            return Err(LexiconFault::BadPair { line: number });
        };
        match entry_value(alloc, &entry) {
            Ok(value) => {
                total += value.size;
                values.push(value)?;
            }
            Err(CheckFault::Refused(_)) => return Err(oversized(after, number)),
            Err(CheckFault::Memory) => return Err(LexiconFault::Memory),
        }
        if total >= LIMIT - 1 {
            return Err(oversized(after, number));
        }
    }
    whole(alloc, values)
}
