//! Token text that is read and written.

use std::alloc::{AllocError, Global};
use std::test::Fail;
use token_record::{
    Field, Record, Token, TokenFault, Value, field_count, read_tokens, write_tokens,
};

/// Texts, and how many whole tokens stand before the first place where none can be read.
const FAULTS: [(&[u8], u64); 51] = [
    // no token begins
    (b"x", 0),
    (b"tokens", 0),
    (b"tokens {", 0),
    (b"token { name: \"a\" }", 0),
    (b"Tokens { name: \"a\" }", 0),
    (b"tokenst { name: \"a\" }", 0),
    (b"tokens: \"a\"", 0),
    // none ends
    (b"tokens { name: \"a\" ", 0),
    (b"tokens { name: \"a", 0),
    (b"tokens { c { a: 1 }", 0),
    // the fields make none
    (b"tokens { }", 0),
    (b"tokens { type: WORD }", 0),
    (b"tokens { type: punct }", 0),
    (b"tokens { kind: PUNCT }", 0),
    (b"tokens { name: \"a\" name: \"b\" }", 0),
    (b"tokens { name: \"a\" c { } }", 0),
    (b"tokens { name: \"a\" name { } }", 0),
    (b"tokens { c { } d { } }", 0),
    (b"tokens { type { } type: WORD d { } }", 0),
    // no field
    (b"tokens { name \"a\" }", 0),
    (b"tokens { : \"a\" }", 0),
    (b"tokens { name: }", 0),
    (b"tokens { name:: a }", 0),
    (b"tokens { 1a: \"b\" name: \"a\" }", 0),
    (b"tokens { c { d } }", 0),
    (b"tokens { name: \"a\", }", 0),
    (b"tokens { name: \"a\" \"b\" }", 0),
    (b"tokens { name: a\"b\" }", 0),
    // no value
    (b"tokens { name: a-b }", 0),
    (b"tokens { name: a b }", 0),
    (b"tokens { name: 'a' }", 0),
    (b"tokens{c{a:1b:2}}", 0),
    (b"tokens { name: \"\\n\" }", 0),
    (b"tokens { name: \"\\x41\" }", 0),
    (b"tokens { name: \"a\\\" }", 0),
    (b"tokens { name: \"a\0b\" }", 0),
    // neither blanks nor comments
    (b"\0", 0),
    (b"tokens\x0b{ name: \"a\" }", 0),
    (b"# a\ntokens { name: \"a\" }", 0),
    (b"tokens { # a\n name: \"a\" }", 0),
    (b"tokens { name: \"a\" // b\n }", 0),
    // seventeen open braces
    (
        b"tokens{a{b{c{d{e{f{g{h{i{j{k{l{m{n{o{p{}}}}}}}}}}}}}}}}}",
        0,
    ),
    // some whole tokens stand before it
    (b"tokens{name:\"a\"}tokens { x", 1),
    (b"tokens { name: \"a\" } tokens {", 1),
    (b"tokens { name: \"a\" } }", 1),
    (b"tokens { name: \"a\" } # b", 1),
    (b"tokens { name: \"a\" }\0", 1),
    (b"tokens { name: \"a\" }\xa0", 1),
    (b"tokens{type:PUNCT}tokens", 1),
    (b"tokens { type: PUNCT } tokens { } tokens { name: a }", 1),
    (b"tokens{name:a}tokens{c{}}tokens{d{}e{}}", 2),
];

#[test]
fn faults(rt: HostRuntime) -> Result<(), Fail> {
    for (row, (text, whole)) in FAULTS.iter().enumerate() {
        match read_tokens(rt.alloc(), *text) {
            Err(TokenFault::NotTokens { token }) => assert_eq!(rt; token, *whole, "row {row}"),
            _ => assert!(rt; false, "row {row}"),
        }
    }
    Ok(())
}

/// Texts, and their tokens: words between single quotes, `-` for a silent token, and a class with its fields, with `!` where they
/// keep their order.
const TOKENS: [(&[u8], &[u8]); 47] = [
    (b"", b""),
    (b" \t\r\n", b""),
    (b"tokens { name: \"a\" }", b"'a';"),
    (b"\ttokens\r\n{\nname\t:\r\"a\" }\n", b"'a';"),
    (
        b"tokens{name:\"a\"}tokens{type:PUNCT}tokens{name:b}",
        b"'a';-;'b';",
    ),
    // values
    (b"tokens { name: 1st }", b"'1st';"),
    (b"tokens { name: _ }", b"'_';"),
    (b"tokens { name: tokens }", b"'tokens';"),
    (b"tokens { name: \"\" }", b"'';"),
    (b"tokens { name: \"}{:#' \" }", b"'}{:#' ';"),
    (b"tokens { name: \"a\\\"b\\\\c\" }", b"'a\"b\\c';"),
    (b"tokens { name: \"\\\\n\" }", b"'\\n';"),
    (b"tokens { name: \"a\nb\" }", b"'a\nb';"),
    (b"tokens { name: \"\x01\xff\" }", b"'\x01\xff';"),
    // `type` and `name`
    (b"tokens { type: \"PUNCT\" }", b"-;"),
    (b"tokens { name: \"a\" type: PUNCT }", b"-;"),
    (b"tokens { type: PUNCT name: \"a\" name: \"b\" }", b"-;"),
    (b"tokens { type: WORD type: PUNCT }", b"-;"),
    (b"tokens { c { } type: PUNCT d { } }", b"-;"),
    (b"tokens { type { } type: PUNCT }", b"-;"),
    (b"tokens { type { PUNCT: 1 } }", b"type{PUNCT=1};"),
    (b"tokens { type: WORD name: \"a\" }", b"'a';"),
    (b"tokens { x: 1 name: \"a\" y: 2 }", b"'a';"),
    (b"tokens { name { } }", b"name{};"),
    (b"tokens { c { } x: 1 type: WORD }", b"c{};"),
    (b"tokens { c { type: PUNCT } }", b"c{type=PUNCT};"),
    (
        b"tokens { c { name: \"a\" name: \"b\" } }",
        b"c{name=a name=b};",
    ),
    (b"tokens { tokens { name: \"a\" } }", b"tokens{name=a};"),
    // records
    (
        b"tokens { date { day: \"2\" month: \"may\" } }",
        b"date{day=2 month=may};",
    ),
    (b"tokens{c{a:\"1\"b:2}}", b"c{a=1 b=2};"),
    (b"tokens { _c1 { A_b: 1 } }", b"_c1{A_b=1};"),
    (
        b"tokens { a { b { c: 1 } d: 2 b { c: 1 } d: 2 } }",
        b"a{b{c=1} d=2 b{c=1} d=2};",
    ),
    (b"tokens { a { b { } c { d { } } } }", b"a{b{} c{d{}}};"),
    // sixteen open braces
    (
        b"tokens{a{b{c{d{e{f{g{h{i{j{k{l{m{n{o{}}}}}}}}}}}}}}}}",
        b"a{b{c{d{e{f{g{h{i{j{k{l{m{n{o{}}}}}}}}}}}}}}};",
    ),
    // `preserve_order`
    (b"tokens { c { preserve_order: true } }", b"c!{};"),
    (b"tokens { c { preserve_order: true a: 1 } }", b"c!{a=1};"),
    (
        b"tokens { c { preserve_order: true a: 1 preserve_order: \"true\" } }",
        b"c!{a=1};",
    ),
    (
        b"tokens { c { preserve_order: false a: 1 } }",
        b"c{preserve_order=false a=1};",
    ),
    (
        b"tokens { c { preserve_order: false preserve_order: true } }",
        b"c!{preserve_order=false};",
    ),
    (
        b"tokens { c { preserve_order: \"true \" } }",
        b"c{preserve_order=true };",
    ),
    (
        b"tokens { c { preserve_order: True } }",
        b"c{preserve_order=True};",
    ),
    (
        b"tokens { c { d { preserve_order: true } } }",
        b"c{d{preserve_order=true}};",
    ),
    (
        b"tokens { c { d { preserve_order: true } preserve_order: true } }",
        b"c!{d{preserve_order=true}};",
    ),
    (
        b"tokens { c { preserve_order { true: true } } }",
        b"c{preserve_order{true=true}};",
    ),
    (b"tokens { c { } preserve_order: true }", b"c{};"),
    (
        b"tokens { preserve_order { a: 1 } }",
        b"preserve_order{a=1};",
    ),
    (b"tokens { preserve_order: true name: \"a\" }", b"'a';"),
];

#[test]
fn tokens(rt: HostRuntime) -> Result<(), Fail> {
    let alloc = rt.alloc();
    for (row, (text, wanted)) in TOKENS.iter().enumerate() {
        match read_tokens(alloc, *text) {
            Ok(tokens) => assert_eq!(rt; shown(alloc, &tokens)?.as_slice(), *wanted, "row {row}"),
            Err(_) => assert!(rt; false, "row {row}"),
        }
    }
    Ok(())
}

/// Tokens as the rows show them.
fn shown(alloc: Global, tokens: &[Token]) -> Result<Vec<u8>, AllocError> {
    let mut out = Vec::new(alloc);
    for token in tokens {
        match token {
            Token::Spoken(words) => show_words(&mut out, words)?,
            Token::Silent => out.push(b'-')?,
            Token::Class(record) => show_record(&mut out, record)?,
        }
        out.push(b';')?;
    }
    Ok(out)
}

fn show_words(out: &mut Vec<u8>, words: &[u8]) -> Result<(), AllocError> {
    out.push(b'\'')?;
    out.extend_from_slice(words)?;
    out.push(b'\'')?;
    Ok(())
}

fn show_record(out: &mut Vec<u8>, record: &Record) -> Result<(), AllocError> {
    out.extend_from_slice(record.class.bytes())?;
    if record.keep {
        out.push(b'!')?;
    }
    show_fields(out, &record.fields)
}

#[cycle(show)]
fn show_fields(out: &mut Vec<u8>, fields: &[Field]) -> Result<(), AllocError> {
    out.push(b'{')?;
    for (place, field) in fields.iter().enumerate() {
        if place > 0 {
            out.push(b' ')?;
        }
        show_field(out, field)?;
    }
    out.push(b'}')?;
    Ok(())
}

#[cycle(show)]
fn show_field(out: &mut Vec<u8>, field: &Field) -> Result<(), AllocError> {
    out.extend_from_slice(field.name.bytes())?;
    match &field.value {
        Value::Text(text) => {
            out.push(b'=')?;
            out.extend_from_slice(text)
        }
        Value::Nested(inner) => show_fields(out, inner),
    }
}

/// Three tokens, and where each ends.
const THREE: &[u8] =
    b"tokens{name:\"a\\\"\"} tokens { c { d: \"1\" e { } } }\ntokens { type: PUNCT }";

const ENDS: [usize; 3] = [18, 48, 71];

/// A front of the text is read where its tokens are whole, and else has the fault with their number.
#[test]
fn fronts(rt: HostRuntime) -> Result<(), Fail> {
    for size in 0..=THREE.len() {
        let whole = ENDS.iter().filter(|end| **end <= size).count();
        let is_whole = size == 0 || ENDS.iter().any(|end| *end == size || *end + 1 == size);
        match read_tokens(rt.alloc(), &THREE[..size]) {
            Ok(tokens) => {
                assert!(rt; is_whole, "{size} bytes");
                assert_eq!(rt; tokens.len(), whole, "{size} bytes");
            }
            Err(TokenFault::NotTokens { token }) => {
                assert!(rt; !is_whole, "{size} bytes");
                assert_eq!(rt; token, whole as u64, "{size} bytes");
            }
            Err(TokenFault::Memory) => assert!(rt; false, "{size} bytes"),
        }
    }
    Ok(())
}

/// Texts, the written form of their tokens, and how many fields their records have at all levels.
const WRITTEN: [(&[u8], &[u8], u64); 10] = [
    (b" ", b"", 0),
    (b"tokens{x:1 name:a}", b"tokens { name: \"a\" }", 0),
    (
        b"tokens { type: \"PUNCT\" c { d: 1 } }",
        b"tokens { type: PUNCT }",
        0,
    ),
    (
        b"tokens { date { day: \"2\" month: \"may\" } }",
        b"tokens { date { day: \"2\" month: \"may\" } }",
        2,
    ),
    (
        b"tokens{name:\"\"}\n\ntokens{type:PUNCT}tokens{c{}}",
        b"tokens { name: \"\" } tokens { type: PUNCT } tokens { c { } }",
        0,
    ),
    (
        b"tokens { name: \"\\\\\\\"\" }",
        b"tokens { name: \"\\\\\\\"\" }",
        0,
    ),
    (
        b"tokens { c { f: v g { h: \"w \" } } }",
        b"tokens { c { f: \"v\" g { h: \"w \" } } }",
        3,
    ),
    (
        b"tokens { c { preserve_order: true } }",
        b"tokens { c { preserve_order: true } }",
        0,
    ),
    (
        b"tokens { c { preserve_order: true a: 1 b { preserve_order: true } } }",
        b"tokens { c { a: \"1\" b { preserve_order: \"true\" } preserve_order: true } }",
        3,
    ),
    (
        b"tokens { a { b { c { } c { } } } } tokens { d { e: 1 e: 1 } }",
        b"tokens { a { b { c { } c { } } } } tokens { d { e: \"1\" e: \"1\" } }",
        5,
    ),
];

#[test]
fn written(rt: HostRuntime) -> Result<(), Fail> {
    let alloc = rt.alloc();
    for (row, (text, wanted, fields)) in WRITTEN.iter().enumerate() {
        let Ok(tokens) = read_tokens(alloc, *text) else {
            assert!(rt; false, "row {row}");
            continue;
        };
        let form = write_tokens(alloc, &tokens)?;
        assert_eq!(rt; form.as_slice(), *wanted, "row {row}");
        assert_eq!(rt; all_fields(&tokens), *fields, "row {row}");
        let Ok(again) = read_tokens(alloc, &form) else {
            assert!(rt; false, "row {row}");
            continue;
        };
        assert_eq!(rt; shown(alloc, &again)?, shown(alloc, &tokens)?, "row {row}");
    }
    Ok(())
}

/// The fields of all records together.
fn all_fields(tokens: &[Token]) -> u64 {
    let mut all = 0u64;
    for token in tokens {
        if let Token::Class(record) = token {
            all = all.saturating_add(field_count(record));
        }
    }
    all
}

#[test]
fn faults_are_shown_by_their_names(rt: HostRuntime) -> Result<(), Fail> {
    let alloc = rt.alloc();
    let cases = [
        (TokenFault::NotTokens { token: 1 }, "NotTokens"),
        (TokenFault::Memory, "Memory"),
    ];
    for (fault, wanted) in cases {
        assert_eq!(rt; format!(in alloc; "{fault}")?.as_str(), wanted);
    }
    Ok(())
}
