//! Fields and their braces.

ghost use Rattle.std.specs.Prelude.{◌≡◌, ◌<◌, ◌≤◌, IfOk, IfSome, List, length, ℕ};
ghost use Rattle.text_forms.specs.Answers.{Next};
ghost use Rattle.token_record.specs.Answers.{Braced, FieldAnswers, Valued};
ghost use Rattle.token_record.specs.Fields.{fields_of};
ghost use Rattle.token_record.specs.Grammar.{Block};
ghost use Rattle.token_record.specs.Lexemes.{Sign, Word};

use crate::lexemes::{after_sign, front_value, front_word};
use crate::tokens::{Field, Value};
use norm_base::Name;
use std::alloc::{AllocError, Global};

/// Fields and the brace that closes them, with at most so many more braces open at once, and what follows.
#[cycle(fields)]
pub(crate) fn block<'t>(
    alloc: Global,
    text: &'t [u8],
    room: u64,
) -> Result<Option<(Vec<Field>, &'t [u8])>, AllocError>
    ensures shorter { IfOk result (λ o. IfSome o (λ x. length x.1.now < length text.now)) }
    ensures exact { IfOk result (Next (λ x. fields_of x.0.items) (λ x. x.1.now) (Block room text.now)) }
{
    let mut fields = Vec::new(alloc);
    let mut rest = text;
    while let Some((found, after)) = field(alloc, rest, room)? {
        fields.push(found)?;
        rest = after;
    }
    match after_sign(rest, b'}') {
        Some(after) => Ok(Some((fields, after))),
        None => Ok(None),
    }
}

/// The field that comes first, and what follows it.
#[cycle(fields)]
fn field<'t>(
    alloc: Global,
    text: &'t [u8],
    room: u64,
) -> Result<Option<(Field, &'t [u8])>, AllocError>
    ensures shorter { IfOk result (λ o. IfSome o (λ x. length x.1.now < length text.now)) }
    ensures exact { IfOk result (FieldAnswers (λ x. x.0) (λ x. x.1.now) room text.now) }
{
    let Some((name, after)) = front_word(text) else {
        return Ok(None);
    };
    if let Some(rest) = after_sign(after, b':') {
        return valued(alloc, name, rest);
    }
    match after_sign(after, b'{') {
        Some(inner) if room > 0 => braced(alloc, name, inner, room),
        _ => Ok(None),
    }
}

/// What stands behind a name and its colon: a value.
fn valued<'t>(
    alloc: Global,
    name: &[u8],
    text: &'t [u8],
) -> Result<Option<(Field, &'t [u8])>, AllocError>
    ensures shorter { IfOk result (λ o. IfSome o (λ x. length x.1.now < length text.now)) }
    ensures exact { IfOk result (Valued name.now text.now) }
{
    let Some((value, rest)) = front_value(alloc, text)? else {
        return Ok(None);
    };
    let name = Name::new(alloc, name)?;
    let value = Value::Text(value);
    Ok(Some((Field { name, value }, rest)))
}

/// What stands behind a name and its brace: fields and a closing brace.
#[cycle(fields)]
fn braced<'t>(
    alloc: Global,
    name: &[u8],
    text: &'t [u8],
    room: u64,
) -> Result<Option<(Field, &'t [u8])>, AllocError>
    requires { 1 ≤ room }
    ensures shorter { IfOk result (λ o. IfSome o (λ x. length x.1.now < length text.now)) }
    ensures exact { IfOk result (Braced name.now room text.now) }
{
    let Some((inner, rest)) = block(alloc, text, room - 1)? else {
        return Ok(None);
    };
    let name = Name::new(alloc, name)?;
    let value = Value::Nested(inner);
    Ok(Some((Field { name, value }, rest)))
}
