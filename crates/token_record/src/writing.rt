//! The written form of tokens.

ghost use Rattle.std.specs.Prelude.{◌≡◌, ◌++◌, IfOk, List, OnOk, codes};
ghost use Rattle.std.specs.List.{All, flat_map};
ghost use Rattle.token_record.specs.Fields.{field_of, fields_of, no_fields};
ghost use Rattle.token_record.specs.Meaning.{TokenTree, record_tree, token_tree, token_trees};
ghost use Rattle.token_record.specs.Texts.{TokenText};
ghost use Rattle.token_record.specs.Writable.{IsWritable};
ghost use Rattle.token_record.specs.Written.{escape, quoted, written, written_fields, written_keep, written_token};

use crate::tokens::{Field, Record, Token, Value};
use std::alloc::{AllocError, Global};

/// The one written form of the tokens: one space between lexemes but before `:`, and between tokens; values in quotes, with `\`
/// before `"` and `\`; ` preserve_order: true` last in a record that keeps its order.
///
/// Classes and names have to be words, a letter or `_` and then letters, digits and `_`. Values hold no byte 0, at most 16 braces are
/// open at once, and no field of a record itself, as against a deeper one, is `preserve_order` with the text `true`.
pub fn write_tokens(alloc: Global, tokens: &[Token]) -> Result<Vec<u8>, AllocError>
    requires { All (λ t. IsWritable (token_tree t)) tokens.now }
    ensures written { IfOk result (λ text. text.items ≡ written (token_trees tokens.now)) }
    ensures reads { IfOk result (λ text. TokenText (token_trees tokens.now) text.items) }
    ensures only { IfOk result (λ text. (ts : List TokenTree) → TokenText ts text.items → ts ≡ token_trees tokens.now) }
{
    let mut out = Vec::new(alloc);
    let [first, others @ ..] = tokens else {
        return Ok(out);
    };
    write_token(&mut out, first)?;
    write_others(&mut out, others)?;
    Ok(out)
}

/// Appends the tokens, each with a space before it.
fn write_others(out: &mut Vec<u8>, tokens: &[Token]) -> Result<(), AllocError>
    ensures { OnOk result (out.new.items ≡ out.old.items ++ flat_map (λ t. codes " " ++ written_token (token_tree t)) tokens.now) }
{
    for token in tokens {
        out.push(b' ')?;
        write_token(out, token)?;
    }
    Ok(())
}

fn write_token(out: &mut Vec<u8>, token: &Token) -> Result<(), AllocError>
    ensures { OnOk result (out.new.items ≡ out.old.items ++ written_token (token_tree token.now)) }
{
    match token {
        Token::Spoken(words) => write_spoken(out, words),
        Token::Silent => out.extend_from_slice(b"tokens { type: PUNCT }"),
        Token::Class(record) => write_record(out, record),
    }
}

fn write_spoken(out: &mut Vec<u8>, words: &[u8]) -> Result<(), AllocError>
    ensures { OnOk result (out.new.items ≡ out.old.items ++ (codes "tokens { name: " ++ quoted words.now ++ codes " }")) }
{
    out.extend_from_slice(b"tokens { name: ")?;
    write_quoted(out, words)?;
    out.extend_from_slice(b" }")
}

fn write_record(out: &mut Vec<u8>, r: &Record) -> Result<(), AllocError>
    ensures { OnOk result (out.new.items ≡ out.old.items ++ written_token (record_tree r.now)) }
{
    out.extend_from_slice(b"tokens { ")?;
    out.extend_from_slice(r.class.bytes())?;
    out.extend_from_slice(b" {")?;
    write_fields(out, &r.fields)?;
    write_keep(out, r.keep)?;
    out.extend_from_slice(b" } }")
}

/// Appends what says that fields keep their order, where they do.
fn write_keep(out: &mut Vec<u8>, keep: bool) -> Result<(), AllocError>
    ensures { OnOk result (out.new.items ≡ out.old.items ++ written_keep keep) }
{
    if keep {
        out.extend_from_slice(b" preserve_order: true")?;
    }
    Ok(())
}

/// Appends the fields, each with a space before it.
#[cycle(write)]
fn write_fields(out: &mut Vec<u8>, fields: &[Field]) -> Result<(), AllocError>
    ensures { OnOk result (out.new.items ≡ out.old.items ++ written_fields (fields_of fields.now)) }
{
    for field in fields {
        write_field(out, field)?;
    }
    Ok(())
}

#[cycle(write)]
fn write_field(out: &mut Vec<u8>, field: &Field) -> Result<(), AllocError>
    ensures { OnOk result (out.new.items ≡ out.old.items ++ written_fields (field_of field.now no_fields)) }
{
    out.push(b' ')?;
    out.extend_from_slice(field.name.bytes())?;
    match &field.value {
        Value::Text(value) => {
            out.extend_from_slice(b": ")?;
            write_quoted(out, value)
        }
        Value::Nested(inner) => {
            out.extend_from_slice(b" {")?;
            write_fields(out, inner)?;
            out.extend_from_slice(b" }")
        }
    }
}

/// Appends a value in quotes.
fn write_quoted(out: &mut Vec<u8>, value: &[u8]) -> Result<(), AllocError>
    ensures { OnOk result (out.new.items ≡ out.old.items ++ quoted value.now) }
{
    out.push(b'"')?;
    for byte in value {
        write_byte(out, *byte)?;
    }
    out.push(b'"')?;
    Ok(())
}

/// Appends a byte of a string, with `\` before `"` and `\`.
fn write_byte(out: &mut Vec<u8>, byte: u8) -> Result<(), AllocError>
    ensures { OnOk result (out.new.items ≡ out.old.items ++ escape byte) }
{
    if byte == b'"' || byte == b'\\' {
        out.push(b'\\')?;
    }
    out.push(byte)?;
    Ok(())
}
