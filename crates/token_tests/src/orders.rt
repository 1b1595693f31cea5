//! The texts of records, in all their orders.

ghost use Rattle.std.specs.Prelude.{◌≡◌, ◌≤◌, ◌<◌, IfSome, IsTrue, OnOk, All, false, length};
ghost use Rattle.token_record.specs.Fields.{field_count, fields_of};
ghost use Rattle.token_record.specs.Meaning.{token_tree};
ghost use Rattle.token_record.specs.Writable.{AreBytes, HasNoZero, TokenHasNoZero};
ghost use Rattle.field_orders.specs.Sources.{IsSource};

use field_orders::{OrderSource, orders};
use fst_core::Fst;
use std::alloc::{AllocError, Global};
use std::test::Fail;
use token_record::{Record, Token, field_count, read_tokens};

/// Tokens of a record, and all texts of it, in the order of their bytes.
const TEXTS: [(&[u8], &[u8]); 17] = [
    // two orders, and three times two
    (
        b"tokens { date { day: \"2\" month: \"may\" } }",
        b"date|day:2|month:may|\ndate|month:may|day:2|\n",
    ),
    (
        b"tokens { c { x: 1 y: 2 z: 3 } }",
        b"c|x:1|y:2|z:3|\nc|x:1|z:3|y:2|\nc|y:2|x:1|z:3|\nc|y:2|z:3|x:1|\nc|z:3|x:1|y:2|\nc|z:3|y:2|x:1|\n",
    ),
    // the order as written
    (
        b"tokens { date { preserve_order: true day: \"2\" month: \"may\" } }",
        b"date|day:2|month:may|\n",
    ),
    (
        b"tokens { c { b { y: 1 x: 2 } a: 3 preserve_order: true } }",
        b"c|b{y:1|x:2|}|a:3|\n",
    ),
    (
        b"tokens { c { a: \"1\" b: \"2\" preserve_order: true } }",
        b"c|a:1|b:2|\n",
    ),
    // nothing to order
    (b"tokens { c { } }", b"c|\n"),
    (b"tokens { c { a: 1 } }", b"c|a:1|\n"),
    (b"tokens { c { a { } } }", b"c|a{}|\n"),
    (b"tokens { c { a: \"\" } }", b"c|a:|\n"),
    // orders within orders
    (
        b"tokens { money { amount { integer: \"3\" } currency: \"usd\" } }",
        b"money|amount{integer:3|}|currency:usd|\nmoney|currency:usd|amount{integer:3|}|\n",
    ),
    (
        b"tokens { c { a { x: 1 y: 2 } b: 3 } }",
        b"c|a{x:1|y:2|}|b:3|\nc|a{y:2|x:1|}|b:3|\nc|b:3|a{x:1|y:2|}|\nc|b:3|a{y:2|x:1|}|\n",
    ),
    // no order of a deeper level is kept
    (
        b"tokens { c { a { x: 1 preserve_order: true } } }",
        b"c|a{preserve_order:true|x:1|}|\nc|a{x:1|preserve_order:true|}|\n",
    ),
    // fields of one name
    (b"tokens { c { a: 1 a: 1 } }", b"c|a:1|a:1|\n"),
    (b"tokens { c { a: 1 a: 2 } }", b"c|a:1|a:2|\nc|a:2|a:1|\n"),
    // bytes with a backslash before them, and bytes without
    (b"tokens { c { a: \"\\\\|{}\" } }", b"c|a:\\\\\\|\\{\\}|\n"),
    (b"tokens { c { a: \"a|b\" } }", b"c|a:a\\|b|\n"),
    (b"tokens { c { a: \":\\\" ,\" } }", b"c|a::\" ,|\n"),
];

#[test]
fn texts(rt: HostRuntime) -> Result<(), Fail> {
    let alloc = rt.alloc();
    for (row, (tokens, wanted)) in TEXTS.iter().enumerate() {
        match acceptor(alloc, *tokens)? {
            Some(m) => assert_eq!(rt; all_texts(alloc, &m)?.as_slice(), *wanted, "row {row}"),
            None => assert!(rt; false, "row {row}"),
        }
    }
    Ok(())
}

/// A record of ten fields.
const TEN: &[u8] = b"tokens { c { a: 1 b: 2 c: 3 d: 4 e { f: 5 g: 6 } h: 7 i: 8 j: 9 } }";

/// Texts, and whether they are among its own.
const ORDERS: [(&[u8], bool); 8] = [
    (b"c|a:1|b:2|c:3|d:4|e{f:5|g:6|}|h:7|i:8|j:9|", true),
    (b"c|j:9|e{g:6|f:5|}|b:2|i:8|a:1|d:4|c:3|h:7|", true),
    // a field left out, and one twice
    (b"c|j:9|e{g:6|f:5|}|b:2|i:8|a:1|d:4|c:3|", false),
    (b"c|j:9|e{g:6|}|b:2|i:8|a:1|d:4|c:3|h:7|", false),
    (b"c|j:9|e{g:6|f:5|}|b:2|i:8|a:1|d:4|c:3|h:7|h:7|", false),
    // a field at another level
    (b"c|j:9|e{g:6|}|f:5|b:2|i:8|a:1|d:4|c:3|h:7|", false),
    // no bytes, and other ones
    (b"", false),
    (b"d|a:1|b:2|c:3|d:4|e{f:5|g:6|}|h:7|i:8|j:9|", false),
];

#[test]
fn ten_fields(rt: HostRuntime) -> Result<(), Fail> {
    let alloc = rt.alloc();
    match acceptor(alloc, TEN)? {
        Some(m) => {
            for (row, (text, wanted)) in ORDERS.iter().enumerate() {
                assert_eq!(rt; accepts(alloc, &m, *text)?, *wanted, "row {row}");
            }
        }
        None => assert!(rt; false, "no acceptor"),
    }
    Ok(())
}

#[test]
fn ten_fields_as_they_are_asked_for(rt: HostRuntime) -> Result<(), Fail> {
    let alloc = rt.alloc();
    for (row, (text, wanted)) in ORDERS.iter().enumerate() {
        assert_eq!(rt; walks(alloc, TEN, *text)?, *wanted, "row {row}");
    }
    Ok(())
}

/// Whether a text leads to a final state of the source of the record that is the first token.
fn walks(alloc: Global, tokens: &[u8], text: &[u8]) -> Result<bool, AllocError> {
    let Ok(tokens) = read_tokens(alloc, tokens) else {
        return Ok(false);
    };
    let Some(record) = first_record(&tokens) else {
        return Ok(false);
    };
    if !record.keep && field_count(record) > 10 {
        return Ok(false);
    }
    let mut source = OrderSource::new(alloc, record)?;
    let mut states = Vec::new(alloc);
    states.push(source.start())?;
    for byte in text {
        states = asked_after(alloc, &mut source, &states, *byte)?;
    }
    Ok(
        states
            .iter()
            .any(|s| *s < source.len() && source.is_final(*s)),
    )
}

/// The states after a byte.
fn asked_after(
    alloc: Global,
    source: &mut OrderSource,
    states: &[usize],
    byte: u8,
) -> Result<Vec<usize>, AllocError>
    requires source { IsSource source.old }
    ensures source { OnOk result (IsSource source.new) }
{
    let mut next = Vec::new(alloc);
    for state in states {
        if *state < source.len() {
            push_asked(alloc, source, *state, byte, &mut next)?;
        }
    }
    Ok(next)
}

/// Adds the states to which a byte leads from a state of a source.
fn push_asked(
    alloc: Global,
    source: &mut OrderSource,
    state: usize,
    byte: u8,
    next: &mut Vec<usize>,
) -> Result<(), AllocError>
    requires source { IsSource source.old }
    requires state { state < length source.old.states }
    ensures source { OnOk result (IsSource source.new) }
{
    let row = source.arcs(alloc, state)?;
    for arc in &row {
        if arc.input == u16::from(byte) {
            next.push(arc.next)?;
        }
    }
    Ok(())
}

/// The acceptor of the texts of the record that is the first token.
fn acceptor(alloc: Global, text: &[u8]) -> Result<Option<Fst>, AllocError> {
    let Ok(tokens) = read_tokens(alloc, text) else {
        return Ok(None);
    };
    let Some(record) = first_record(&tokens) else {
        return Ok(None);
    };
    if !record.keep && field_count(record) > 10 {
        return Ok(None);
    }
    Ok(Some(orders(alloc, record)?))
}

/// The first token, where it is a record.
fn first_record(tokens: &[Token]) -> Option<&Record>
    requires { All (λ t. TokenHasNoZero (token_tree t)) tokens.now }
    ensures class { IfSome result (λ r. HasNoZero r.now.class) }
    ensures fields { IfSome result (λ r. AreBytes (fields_of r.now.fields.items)) }
{
    match tokens.first()? {
        Token::Class(record) => Some(record),
        _ => None,
    }
}

/// A way through an acceptor: where it is, and what it has read.
#[derive(Drop)]
struct Way {
    state: usize,
    text: Vec<u8>,
}

/// The texts of fewer bytes than 100, each on a line, in the order of their bytes.
fn all_texts(alloc: Global, m: &Fst) -> Result<Vec<u8>, AllocError> {
    let mut texts = Vec::new(alloc);
    let mut ways = Vec::new(alloc);
    ways.push(Way {
        state: m.start(),
        text: Vec::new(alloc),
    })?;
    for _ in 0..100 {
        ways = longer(alloc, m, &ways, &mut texts)?;
    }
    texts.sort()?;
    texts.dedup();
    let mut lines = Vec::new(alloc);
    for text in &texts {
        lines.extend_from_slice(text)?;
        lines.push(b'\n')?;
    }
    Ok(lines)
}

/// The ways of one arc more. Those that end are written down.
fn longer(
    alloc: Global,
    m: &Fst,
    ways: &[Way],
    texts: &mut Vec<Vec<u8>>,
) -> Result<Vec<Way>, AllocError> {
    let mut more = Vec::new(alloc);
    for way in ways {
        if way.state < m.len() {
            if m.final_of(way.state).is_some() {
                texts.push(Vec::from_slice(alloc, &way.text)?)?;
            }
            follow(alloc, m, way, &mut more)?;
        }
    }
    Ok(more)
}

/// A way with each arc more.
fn follow(alloc: Global, m: &Fst, way: &Way, more: &mut Vec<Way>) -> Result<(), AllocError> {
    if way.state >= m.len() {
        return Ok(());
    }
    for arc in m.arcs_of(way.state) {
        let mut text = Vec::from_slice(alloc, &way.text)?;
        text.push(u8::try_from(arc.input).unwrap_or(0))?;
        more.push(Way {
            state: arc.next,
            text,
        })?;
    }
    Ok(())
}

/// Whether a text is accepted.
fn accepts(alloc: Global, m: &Fst, text: &[u8]) -> Result<bool, AllocError> {
    let mut states = Vec::new(alloc);
    states.push(m.start())?;
    for byte in text {
        states = after(alloc, m, &states, *byte)?;
    }
    Ok(
        states
            .iter()
            .any(|s| *s < m.len() && m.final_of(*s).is_some()),
    )
}

/// The states after a byte.
fn after(alloc: Global, m: &Fst, states: &[usize], byte: u8) -> Result<Vec<usize>, AllocError> {
    let mut next = Vec::new(alloc);
    for state in states {
        if *state < m.len() {
            push_next(m, *state, byte, &mut next)?;
        }
    }
    Ok(next)
}

/// Adds the states to which a byte leads from a state.
fn push_next(m: &Fst, state: usize, byte: u8, next: &mut Vec<usize>) -> Result<(), AllocError> {
    if state >= m.len() {
        return Ok(());
    }
    for arc in m.arcs_of(state) {
        if arc.input == u16::from(byte) {
            next.push(arc.next)?;
        }
    }
    Ok(())
}
