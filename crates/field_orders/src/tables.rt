//! A record's fields in a table.

ghost use Rattle.std.specs.Prelude.{◌≡◌, ◌≤◌, ◌<◌, ◌++◌, ◌∷◌, [], All, IfOk, OnOk, length, map};
ghost use Rattle.token_record.specs.Fields.{chain, field_of, fields_of, no_fields};
ghost use Rattle.token_record.specs.Writable.{AreBytes};
ghost use Rattle.field_orders.specs.Orders.{escape, escaped};
ghost use Rattle.field_orders.specs.Remainders.{AreWritten};
ghost use Rattle.field_orders.specs.Tables.{Added, Grown, NumberOf, NumbersOf, brace_text, value_text};

use std::alloc::{AllocError, Global};
use std::marker::Model;
use token_record::{Field, Value};

/// A field as it is written.
#[derive(Drop)]
pub(crate) struct Part {
    /// The bytes before its inner fields.
    pub text: Vec<u8>,
    /// The numbers of its inner fields.
    pub inner: Vec<usize>,
    /// Whether `}|` stands behind these.
    pub braced: bool,
}

impl Model for Part {
    ghost use Rattle.field_orders.specs.Remainders.{Written};

    ghost Value = { Written };

    ghost view = { λ p. record { text = p.text.items; inner = p.inner.items; braced = p.braced } };
}

/// Puts fields and those inside them into a table, and answers the numbers of the outer ones.
#[cycle(number)]
pub(crate) fn number_fields(
    alloc: Global,
    fields: &[Field],
    table: &mut Vec<Part>,
) -> Result<Vec<usize>, AllocError>
    requires bytes { AreBytes (fields_of fields.now) }
    ensures table { OnOk result (Grown table.old.items table.new.items) }
    ensures numbers { IfOk result (λ ks. NumbersOf table.new.items ks.items (chain (map field_of fields.now))) }
{
    let mut numbers = Vec::new(alloc);
    for field in fields {
        numbers.push(number_field(alloc, field, table)?)?;
    }
    Ok(numbers)
}

/// Puts a field and those inside it into a table, and answers its number.
#[cycle(number)]
fn number_field(alloc: Global, field: &Field, table: &mut Vec<Part>) -> Result<usize, AllocError>
    requires bytes { AreBytes (field_of field.now no_fields) }
    ensures table { OnOk result (Grown table.old.items table.new.items) }
    ensures number { IfOk result (λ k. NumberOf table.new.items k (field_of field.now)) }
{
    match &field.value {
        Value::Text(value) => {
            let text = value_text(alloc, field.name.bytes(), value)?;
            let inner = Vec::new(alloc);
            add(table, text, inner, false)
        }
        Value::Nested(fields) => {
            let text = brace_text(alloc, field.name.bytes())?;
            let inner = number_fields(alloc, fields, table)?;
            add(table, text, inner, true)
        }
    }
}

/// Puts a field into a table, and answers its number.
pub(crate) fn add(
    table: &mut Vec<Part>,
    text: Vec<u8>,
    inner: Vec<usize>,
    braced: bool,
) -> Result<usize, AllocError>
    ensures added { IfOk result (Added table.old.items table.new.items (record { text = text.items; inner = inner.items; braced = braced })) }
{
    let number = table.len();
    table.push(Part {
        text,
        inner,
        braced,
    })?;
    Ok(number)
}

/// The text of a field with a value.
fn value_text(alloc: Global, name: &[u8], value: &[u8]) -> Result<Vec<u8>, AllocError>
    ensures { IfOk result (λ text. text.items ≡ value_text name.now value.now) }
{
    let mut text = Vec::from_slice(alloc, name)?;
    text.push(b':')?;
    for byte in value {
        push_escaped(&mut text, *byte)?;
    }
    text.push(b'|')?;
    Ok(text)
}

/// The text before the inner fields of a field with braces.
fn brace_text(alloc: Global, name: &[u8]) -> Result<Vec<u8>, AllocError>
    ensures { IfOk result (λ text. text.items ≡ brace_text name.now) }
{
    let mut text = Vec::from_slice(alloc, name)?;
    text.push(b'{')?;
    Ok(text)
}

/// Appends a byte of a value, with a `\` before `\`, `|`, `{` and `}`.
fn push_escaped(text: &mut Vec<u8>, byte: u8) -> Result<(), AllocError>
    ensures { OnOk result (text.new.items ≡ text.old.items ++ escape byte) }
{
    if matches!(byte, b'\\' | b'|' | b'{' | b'}') {
        text.push(b'\\')?;
    }
    text.push(byte)?;
    Ok(())
}
