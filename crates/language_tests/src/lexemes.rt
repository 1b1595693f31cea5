//! How grammars are cut into lexemes. Texts at fault are among those of `syntax`.

use std::test::Fail;
use thrax_lexer::{labels, lex};

/// A text, and how many lexemes it has.
const CASES: [(&[u8], usize); 9] = [
    (b"", 0),
    (b"# to the end", 0),
    (b" \t\r\n# a\nb", 1),
    (b"ab1_ _c", 2),
    (b"12ab", 2),
    (b"<.5> <5.> <0> <429496.7295>", 4),
    (b"\"\" \"\\\"\\\\[7][0xfF][EOS]\xff\"", 2),
    (b"'q' 'a\"b'", 2),
    (b"=;,|*+?{}-:@()[].", 17),
];

#[test]
fn lexemes_are_as_long_as_they_go(rt: HostRuntime) -> Result<(), Fail> {
    let alloc = rt.alloc();
    for (text, wanted) in CASES {
        match lex(alloc, text) {
            Ok(found) => assert_eq!(rt; found.lexemes.len(), wanted),
            Err(_) => assert!(rt; false),
        }
    }
    Ok(())
}

#[test]
fn pieces_have_labels(rt: HostRuntime) -> Result<(), Fail> {
    let alloc = rt.alloc();
    let found = labels(alloc, b"a\\n\\t\\r\\\"\\[[65][0x41][0xf][BOS][EOS]\xff")?;
    match found {
        Some(found) => {
            let wanted = [97, 10, 9, 13, 34, 91, 65, 65, 15, 256, 257, 255];
            assert_eq!(rt; found.as_slice(), wanted.as_slice());
        }
        None => assert!(rt; false),
    }
    assert!(rt; labels(alloc, b"[")?.is_none());
    Ok(())
}
