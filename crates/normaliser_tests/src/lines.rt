//! What lines say.

use crate::rules::{Prepared, ready_for};
use normaliser::{LineFault, Spoken};
use std::alloc::{AllocError, Global};
use std::test::Fail;

/// Rules of a classifier and of a verbaliser, a line, what it is classified as, and what it says: a fault, or `= ` and words.
type Row = (
    &'static [&'static str],
    &'static [&'static str],
    &'static str,
    &'static str,
    &'static str,
);

const ROWS: [Row; 28] = [
    // of two classifications the one of less weight, then the shorter, then the one whose bytes come first
    (
        &[
            "export MAIN = ((\"a\" : \"tokens{name:v}\") <2>) | ((\"a\" : \"tokens{name:www}\") <1>);",
        ],
        &[],
        "a",
        "= tokens{name:www}",
        "= www",
    ),
    (
        &["export MAIN = (\"a\" : \"tokens{name:aaa}\") | (\"a\" : \"tokens{name:z}\");"],
        &[],
        "a",
        "= tokens{name:z}",
        "= z",
    ),
    (
        &["export MAIN = (\"a\" : \"tokens{name:b}\") | (\"a\" : \"tokens{name:a}\");"],
        &[],
        "a",
        "= tokens{name:a}",
        "= a",
    ),
    // the same of two orders
    (
        &["export MAIN = (\"a\" : \"tokens{d{x:1 y:2}}\");"],
        &["export MAIN = ((\"d|x:1|y:2|\" : \"first\") <1>) | (\"d|y:2|x:1|\" : \"second\");"],
        "a",
        "= tokens{d{x:1 y:2}}",
        "= second",
    ),
    (
        &["export MAIN = (\"a\" : \"tokens{d{x:1 y:2}}\");"],
        &["export MAIN = (\"d|x:1|y:2|\" : \"aaaa\") | (\"d|y:2|x:1|\" : \"zzz\");"],
        "a",
        "= tokens{d{x:1 y:2}}",
        "= zzz",
    ),
    (
        &["export MAIN = (\"a\" : \"tokens{d{x:1 y:2}}\");"],
        &["export MAIN = (\"d|x:1|y:2|\" : \"b\") | (\"d|y:2|x:1|\" : \"a\");"],
        "a",
        "= tokens{d{x:1 y:2}}",
        "= a",
    ),
    // and of two ways to say one order
    (
        &["export MAIN = (\"a\" : \"tokens{d{x:1 y:2}}\");"],
        &["export MAIN = ((\"d|y:2|x:1|\" : \"two\") <1>) | ((\"d|y:2|x:1|\" : \"three\") <0.5>);"],
        "a",
        "= tokens{d{x:1 y:2}}",
        "= three",
    ),
    (
        &["export MAIN = (\"a\" : \"tokens{d{x:1 y:2}}\");"],
        &["export MAIN = (\"d|y:2|x:1|\" : \"two\") | (\"d|y:2|x:1|\" : \"one\");"],
        "a",
        "= tokens{d{x:1 y:2}}",
        "= one",
    ),
    // an order that is kept is the only one
    (
        &["export MAIN = (\"a\" : \"tokens{d{x:1 y:2 preserve_order:true}}\");"],
        &["export MAIN = ((\"d|x:1|y:2|\" : \"first\") <1>) | (\"d|y:2|x:1|\" : \"second\");"],
        "a",
        "= tokens{d{x:1 y:2 preserve_order:true}}",
        "= first",
    ),
    (
        &["export MAIN = (\"a\" : \"tokens{d{x:1 y:2 preserve_order:true}}\");"],
        &["export MAIN = (\"d|y:2|x:1|\" : \"second\");"],
        "a",
        "= tokens{d{x:1 y:2 preserve_order:true}}",
        "NoWords { token: 1 }",
    ),
    // each rule reads what the one before it says
    (
        &[
            "export MAIN = (\"a\" : \"b\");",
            "export MAIN = (\"b\" : \"tokens{d{x:1 y:2}}\") | (\"a\" : \"c\");",
        ],
        &[
            "export MAIN = (\"d|y:2|x:1|\" : \"e\");",
            "export MAIN = (\"e\" : \"f\") | (\"d|y:2|x:1|\" : \"g\");",
        ],
        "a",
        "= tokens{d{x:1 y:2}}",
        "= f",
    ),
    // punctuation has no words
    (
        &["export MAIN = (\"a,b\" : \"tokens{name:a}tokens{type:PUNCT}tokens{name:b}\");"],
        &[],
        "a,b",
        "= tokens{name:a}tokens{type:PUNCT}tokens{name:b}",
        "= a b",
    ),
    (
        &["export MAIN = (\",\" : \"tokens{type:PUNCT}\");"],
        &[],
        ",",
        "= tokens{type:PUNCT}",
        "= ",
    ),
    // words without bytes have no space
    (
        &[
            "export MAIN = (\"a\" : \"tokens{name:\\\"\\\"}tokens{name:a}tokens{name:\\\"\\\"}tokens{name:b}\");",
        ],
        &[],
        "a",
        "= tokens{name:\"\"}tokens{name:a}tokens{name:\"\"}tokens{name:b}",
        "= a b",
    ),
    (
        &["export MAIN = (\"a\" : \"tokens{d{}}tokens{name:a}tokens{d{}}tokens{e{}}\");"],
        &["export MAIN = (\"d|\" : \"\") | (\"e|\" : \"b\");"],
        "a",
        "= tokens{d{}}tokens{name:a}tokens{d{}}tokens{e{}}",
        "= a b",
    ),
    // blanks within words stay
    (
        &["export MAIN = (\"a\" : \"tokens{name:\\\" a  b \\\"}tokens{name:\\\" \\\"}\");"],
        &[],
        "a",
        "= tokens{name:\" a  b \"}tokens{name:\" \"}",
        "=  a  b   ",
    ),
    // ten fields at all levels stand in any order
    (
        &["export MAIN = (\"a\" : \"tokens{c{a:1 b:1 c:1 d:1 e{f:1 g:1} h:1 i:1 j:1}}\");"],
        &["export MAIN = (\"c|j:1|i:1|h:1|e{g:1|f:1|}|d:1|c:1|b:1|a:1|\" : \"ten\");"],
        "a",
        "= tokens{c{a:1 b:1 c:1 d:1 e{f:1 g:1} h:1 i:1 j:1}}",
        "= ten",
    ),
    // eleven don't, unless their order is kept
    (
        &["export MAIN = (\"a\" : \"tokens{c{a:1 b:1 c:1 d:1 e{f:1 g:1} h:1 i:1 j:1 k:1}}\");"],
        &["export MAIN = (\"c|a:1|b:1|c:1|d:1|e{f:1|g:1|}|h:1|i:1|j:1|k:1|\" : \"eleven\");"],
        "a",
        "= tokens{c{a:1 b:1 c:1 d:1 e{f:1 g:1} h:1 i:1 j:1 k:1}}",
        "TooManyFields { token: 1 }",
    ),
    (
        &[
            "export MAIN = (\"a\" : \"tokens{c{a:1 b:1 c:1 d:1 e{f:1 g:1} h:1 i:1 j:1 k:1 preserve_order:true}}\");",
        ],
        &["export MAIN = (\"c|a:1|b:1|c:1|d:1|e{f:1|g:1|}|h:1|i:1|j:1|k:1|\" : \"eleven\");"],
        "a",
        "= tokens{c{a:1 b:1 c:1 d:1 e{f:1 g:1} h:1 i:1 j:1 k:1 preserve_order:true}}",
        "= eleven",
    ),
    // too many fields come before words that are wanting
    (
        &[
            "export MAIN = (\"a\" : \"tokens{d{}}tokens{c{a:1 b:1 c:1 d:1 e{f:1 g:1} h:1 i:1 j:1 k:1}}\");",
        ],
        &[],
        "a",
        "= tokens{d{}}tokens{c{a:1 b:1 c:1 d:1 e{f:1 g:1} h:1 i:1 j:1 k:1}}",
        "TooManyFields { token: 2 }",
    ),
    // the first token without words
    (
        &["export MAIN = (\"a\" : \"tokens{d{}}tokens{name:a}tokens{e{}}tokens{f{}}\");"],
        &["export MAIN = (\"d|\" : \"said\");"],
        "a",
        "= tokens{d{}}tokens{name:a}tokens{e{}}tokens{f{}}",
        "NoWords { token: 3 }",
    ),
    // a verbaliser of no rules
    (
        &["export MAIN = (\"a\" : \"tokens{d{}}\");"],
        &[],
        "a",
        "= tokens{d{}}",
        "NoWords { token: 1 }",
    ),
    // no tokens
    (
        &["export MAIN = (\"a\" : \"b\");"],
        &["export MAIN = (\"d|\" : \"said\");"],
        "a",
        "= b",
        "NotTokens { token: 0 }",
    ),
    (
        &["export MAIN = (\"a\" : \"tokens{name:a}tokens{d{}}tokens{\");"],
        &["export MAIN = (\"d|\" : \"said\");"],
        "a",
        "= tokens{name:a}tokens{d{}}tokens{",
        "NotTokens { token: 2 }",
    ),
    // a classification without bytes
    (
        &["export MAIN = (\"a\" : \"\");"],
        &["export MAIN = (\"d|\" : \"said\");"],
        "a",
        "= ",
        "= ",
    ),
    // the faults of lines
    (
        &["export MAIN = (\"a\" : \"tokens{name:a}\");"],
        &["export MAIN = (\"d|\" : \"said\");"],
        "b",
        "NoPath",
        "NoPath",
    ),
    (
        &["export MAIN = (\"a\" : \"tokens{name:a}\");"],
        &["export MAIN = (\"d|\" : \"said\");"],
        "a\0b\0",
        "NulByte { at: 1 }",
        "NulByte { at: 1 }",
    ),
    // an empty line isn't looked up
    (
        &["export MAIN = (\"a\" : \"tokens{name:a}\") | (\"\" : \"tokens{name:b}\");"],
        &["export MAIN = (\"d|\" : \"said\");"],
        "",
        "= ",
        "= ",
    ),
];

#[test]
fn lines(rt: HostRuntime) -> Result<(), Fail> {
    let alloc = rt.alloc();
    for (row, (classifier, verbaliser, line, classified, words)) in ROWS.iter().enumerate() {
        for places in [1, 7] {
            let Prepared {
                normaliser,
                mut caller,
            } = ready_for(alloc, *classifier, *verbaliser, places)?;
            let answer = normaliser.classify_line(alloc, &mut caller, line.as_bytes());
            assert_eq!(rt;
                told(alloc, &answer)?.as_slice(),
                classified.as_bytes(),
                "row {row}"
            );
            let answer = normaliser.speak_line(alloc, &mut caller, line.as_bytes());
            assert_eq!(rt;
                told(alloc, &answer)?.as_slice(),
                words.as_bytes(),
                "row {row}"
            );
        }
    }
    Ok(())
}

/// The second of two equal lines finds all that it looks for, unless the table was swept between them.
#[test]
fn expansions_are_kept(rt: HostRuntime) -> Result<(), Fail> {
    let alloc = rt.alloc();
    let classifier = "export MAIN = (\"a\" : \"tokens { c { d: \\\"1\\\" } }\");";
    let verbaliser = "export MAIN = (\"c|d:1|\" : \"said\");";
    let Prepared {
        normaliser,
        mut caller,
    } = ready_for(
        alloc,
        [classifier].as_slice(),
        [verbaliser].as_slice(),
        4096,
    )?;
    let answer = normaliser.speak_line(alloc, &mut caller, b"a");
    assert_eq!(rt; told(alloc, &answer)?.as_slice(), b"= said".as_slice());
    let first = caller.take_tally();
    let answer = normaliser.speak_line(alloc, &mut caller, b"a");
    assert_eq!(rt; told(alloc, &answer)?.as_slice(), b"= said".as_slice());
    let second = caller.take_tally();
    assert_eq!(rt; normaliser.sweep(&mut caller, 1).was > 0, true);
    let answer = normaliser.speak_line(alloc, &mut caller, b"a");
    assert_eq!(rt; told(alloc, &answer)?.as_slice(), b"= said".as_slice());
    let third = caller.take_tally();
    assert_eq!(rt; first.absent > 0, true);
    assert_eq!(rt; second.absent, 0);
    assert_eq!(rt; second.shown, second.looks);
    assert_eq!(rt; third, first);
    Ok(())
}

/// Lines that aren't searched make no look.
#[test]
fn no_looks(rt: HostRuntime) -> Result<(), Fail> {
    let alloc = rt.alloc();
    let Prepared {
        normaliser,
        mut caller,
    } = ready_for(
        alloc,
        ["export MAIN = \"a\"*;"].as_slice(),
        [].as_slice(),
        7,
    )?;
    let long = vec![in alloc; b'a'; 16_385]?;
    let _empty = normaliser.speak_line(alloc, &mut caller, b"");
    let _zero = normaliser.speak_line(alloc, &mut caller, b"a\0");
    let _long = normaliser.speak_line(alloc, &mut caller, &long);
    assert_eq!(rt; caller.take_tally().looks, 0);
    let _answer = normaliser.speak_line(alloc, &mut caller, b"aa");
    assert_eq!(rt; caller.take_tally().looks >= 3, true);
    Ok(())
}

/// A line that is read takes a look for each byte, and one more, whether or not it says tokens.
#[test]
fn a_look_for_each_byte(rt: HostRuntime) -> Result<(), Fail> {
    let alloc = rt.alloc();
    for bytes in [1, 16, 1000] {
        let Prepared {
            normaliser,
            mut caller,
        } = ready_for(
            alloc,
            ["export MAIN = \"a\"*;"].as_slice(),
            [].as_slice(),
            7,
        )?;
        let line = vec![in alloc; b'a'; bytes]?;
        let answer = normaliser.classify_line(alloc, &mut caller, &line);
        assert!(rt; answer.is_ok());
        let looks = caller.take_tally().looks;
        assert!(rt; looks > bytes as u64, "{looks} looks");
        let answer = normaliser.speak_line(alloc, &mut caller, &line);
        assert!(rt; matches!(answer, Err(LineFault::NotTokens { .. })));
        let looks = caller.take_tally().looks;
        assert!(rt; looks > bytes as u64, "{looks} looks");
    }
    Ok(())
}

/// What is answered, as text.
pub(crate) fn told(
    alloc: Global,
    answer: &Result<Spoken, LineFault>,
) -> Result<Vec<u8>, AllocError> {
    let mut text = Vec::new(alloc);
    match answer {
        Ok(spoken) => {
            text.extend_from_slice(b"= ")?;
            text.extend_from_slice(&spoken.words)?;
        }
        Err(fault) => text.extend_from_slice(format!(in alloc; "{fault:?}")?.as_bytes())?,
    }
    Ok(text)
}

#[test]
fn long_lines(rt: HostRuntime) -> Result<(), Fail> {
    let alloc = rt.alloc();
    let classifier = "export MAIN = (\"a\" : \"\")* (\"\" : \"tokens{name:a}\");";
    let Prepared {
        normaliser,
        mut caller,
    } = ready_for(alloc, [classifier].as_slice(), [].as_slice(), 256)?;
    let mut line = vec![in alloc; b'a'; 16_384]?;
    let answer = normaliser.speak_line(alloc, &mut caller, &line);
    assert_eq!(rt; told(alloc, &answer)?.as_slice(), b"= a".as_slice());
    line.push(b'a')?;
    let answer = normaliser.speak_line(alloc, &mut caller, &line);
    assert_eq!(rt; told(alloc, &answer)?.as_slice(), b"LongLine".as_slice());
    Ok(())
}
