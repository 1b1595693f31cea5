//! How many fields there are.

ghost use Rattle.std.specs.Prelude.{◌≡◌, min};
ghost use Rattle.token_record.specs.Fields.{field_count, field_of, fields_of, no_fields};

use crate::tokens::{Field, Record, Value};

/// The number of a record's fields at all levels, or the greatest `u64` where there are more. It takes no memory.
pub fn field_count(r: &Record) -> u64
    ensures { result ≡ min (field_count (fields_of r.now.fields.items)) u64.MAX }
{
    count_fields(&r.fields)
}

#[cycle(count)]
fn count_fields(fields: &[Field]) -> u64
    ensures { result ≡ min (field_count (fields_of fields.now)) u64.MAX }
{
    let mut all = 0u64;
    for field in fields {
        all = all.saturating_add(count_field(field));
    }
    all
}

#[cycle(count)]
fn count_field(field: &Field) -> u64
    ensures { result ≡ min (field_count (field_of field.now no_fields)) u64.MAX }
{
    match &field.value {
        Value::Text(_) => 1,
        Value::Nested(inner) => count_fields(inner).saturating_add(1),
    }
}
