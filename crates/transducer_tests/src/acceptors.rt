//! Small acceptors, and the strings that they and what is built of them accept.

use acceptor_ops::{Dfa, complement, determinise, minus, reverse_dfa};
use fst_core::{Fst, concat, star, text, union};
use std::alloc::{AllocError, Global};
use std::test::Fail;

/// Words over `a`, `b` and `c`, and whether any number of them may be joined.
struct Row {
    words: &'static [&'static str],
    many: bool,
}

/// Twenty-one acceptors: what each accepts is told by its row alone.
const ROWS: [Row; 21] = [
    Row {
        words: &[],
        many: false,
    },
    Row {
        words: &[""],
        many: false,
    },
    Row {
        words: &["a"],
        many: false,
    },
    Row {
        words: &["a", "ab"],
        many: false,
    },
    Row {
        words: &["a", "b"],
        many: false,
    },
    Row {
        words: &["ab"],
        many: false,
    },
    Row {
        words: &["abc", "abb", "ab"],
        many: false,
    },
    Row {
        words: &["", "a", "aa", "aaa"],
        many: false,
    },
    Row {
        words: &["abca"],
        many: false,
    },
    Row {
        words: &["aab", "bab", "cab"],
        many: false,
    },
    Row {
        words: &["ca", "cb", "cc", "c"],
        many: false,
    },
    Row {
        words: &["", "abba", "baab"],
        many: false,
    },
    Row {
        words: &["a"],
        many: true,
    },
    Row {
        words: &["a", "b"],
        many: true,
    },
    Row {
        words: &["a", "b", "c"],
        many: true,
    },
    Row {
        words: &["ab"],
        many: true,
    },
    Row {
        words: &["aa"],
        many: true,
    },
    Row {
        words: &["a", "bc"],
        many: true,
    },
    Row {
        words: &["ab", "ba"],
        many: true,
    },
    Row {
        words: &["aaa", "aa"],
        many: true,
    },
    Row {
        words: &["abc", "c"],
        many: true,
    },
];

/// The letter of a number, of four of which a string of up to four letters is made.
fn letter(n: u64) -> &'static str {
    match n % 4 {
        0 => "",
        1 => "a",
        2 => "b",
        _ => "c",
    }
}

/// A string of up to four letters; each has a number below 256.
fn string_of(alloc: Global, n: u64) -> Result<String, AllocError> {
    format!(in alloc;
        "{}{}{}{}",
        letter(n),
        letter(n / 4),
        letter(n / 16),
        letter(n / 64)
    )
}

/// The same string read backwards.
fn backwards(alloc: Global, n: u64) -> Result<String, AllocError> {
    format!(in alloc;
        "{}{}{}{}",
        letter(n / 64),
        letter(n / 16),
        letter(n / 4),
        letter(n)
    )
}

/// What is left of these strings after a word.
fn stripped(alloc: Global, words: &[&str], rests: &[String]) -> Result<Vec<String>, AllocError> {
    let mut left = Vec::new(alloc);
    for rest in rests {
        for word in words {
            if let Some(end) = rest.strip_prefix(*word) {
                left.push(format!(in alloc; "{end}")?)?;
            }
        }
    }
    Ok(left)
}

/// Whether a row accepts a string, by taking its words off one after another.
fn takes(alloc: Global, row: &Row, x: &str) -> Result<bool, AllocError> {
    let mut rests = Vec::new(alloc);
    rests.push(format!(in alloc; "{x}")?)?;
    let mut found = row.many && x.is_empty();
    let most = if row.many { 4 } else { 1 };
    for _ in 0..most {
        rests = stripped(alloc, row.words, &rests)?;
        found = found || rests.iter().any(|rest| rest.is_empty());
    }
    Ok(found)
}

/// The acceptor of one word.
fn word_of(alloc: Global, word: &str) -> Result<Fst, AllocError> {
    let mut parts = Vec::new(alloc);
    for byte in word.bytes() {
        parts.push(match byte {
            97 => text(alloc, &[97])?,
            98 => text(alloc, &[98])?,
            _ => text(alloc, &[99])?,
        })?;
    }
    let m = concat(alloc, &parts)?;
    Ok(m)
}

/// The acceptor of a row.
fn acceptor_of(alloc: Global, row: &Row) -> Result<Fst, AllocError> {
    let mut parts = Vec::new(alloc);
    for word in row.words {
        parts.push(word_of(alloc, word)?)?;
    }
    let all = union(alloc, &parts)?;
    if row.many {
        let m = star(alloc, &all)?;
        Ok(m)
    } else {
        Ok(all)
    }
}

/// Whether an automaton accepts a string.
fn accepts(d: &Dfa, x: &str) -> bool {
    let mut state = d.start();
    for byte in x.bytes() {
        if state < d.len() && byte > 0 {
            state = d.step(state, u16::from(byte));
        }
    }
    state < d.len() && d.accepts(state)
}

#[test]
fn rows_accept_their_strings(rt: HostRuntime) -> Result<(), Fail> {
    let alloc = rt.alloc();
    for row in &ROWS {
        let a = acceptor_of(alloc, row)?;
        let d = determinise(alloc, &a)?;
        let others = complement(alloc, &d)?;
        let back = reverse_dfa(alloc, &a)?;
        for n in 0..256u64 {
            let x = string_of(alloc, n)?;
            let wanted = takes(alloc, row, &x)?;
            assert_eq!(rt; accepts(&d, &x), wanted);
            assert_eq!(rt; accepts(&others, &x), !wanted);
            assert_eq!(rt; accepts(&back, &backwards(alloc, n)?), wanted);
        }
    }
    Ok(())
}

/// Whether the difference of two rows accepts what the first does and the second doesn't.
fn differs(alloc: Global, first: &Row, second: &Row) -> Result<bool, AllocError> {
    let d = determinise(alloc, &acceptor_of(alloc, second)?)?;
    let rest = minus(alloc, &acceptor_of(alloc, first)?, &d)?;
    let e = determinise(alloc, &rest)?;
    let mut right = true;
    for n in 0..256u64 {
        let x = string_of(alloc, n)?;
        let wanted = takes(alloc, first, &x)? && !takes(alloc, second, &x)?;
        right = right && accepts(&e, &x) == wanted;
    }
    Ok(right)
}

#[test]
fn rows_differ(rt: HostRuntime) -> Result<(), Fail> {
    for first in &ROWS {
        for second in &ROWS {
            assert!(rt; differs(rt.alloc(), first, second)?);
        }
    }
    Ok(())
}
