//! What rewrites make of lines.

use crate::grammars::built;
use crate::readings::readings_of;
use std::alloc::{AllocError, Global};
use std::test::Fail;

/// Any text of two letters.
const AB: &str = "(\"a\" | \"b\")*";

/// A rewrite: what is written for what is read, between a left and a right context, in which texts, and whether it has to be done.
/// Each but the last is as a grammar writes it.
struct Row {
    rule: &'static str,
    left: &'static str,
    right: &'static str,
    sigma: &'static str,
    mode: &'static str,
    /// Lines, and what each becomes.
    lines: &'static [(&'static str, &'static str)],
}

const ROWS: [Row; 23] = [
    // left contexts are looked for in what was written
    Row {
        rule: "\"a\" : \"b\"",
        left: "\"a\"",
        right: "\"\"",
        sigma: AB,
        mode: "obl",
        lines: &[
            ("aaa", "aba/0 "),
            ("aaaa", "abab/0 "),
            ("baab", "babb/0 "),
            ("", "/0 "),
        ],
    },
    // an output that makes a left context
    Row {
        rule: "\"a\" : \"b\"",
        left: "\"b\"",
        right: "\"\"",
        sigma: AB,
        mode: "obl",
        lines: &[("baaa", "bbbb/0 "), ("aab", "aab/0 ")],
    },
    // the context is longer than what one rewrite writes
    Row {
        rule: "\"a\" : \"b\"",
        left: "\"ab\"",
        right: "\"\"",
        sigma: AB,
        mode: "obl",
        lines: &[("abaa", "abba/0 "), ("abaaba", "abbabb/0 ")],
    },
    // right contexts are looked for in what is unread
    Row {
        rule: "\"a\" : \"b\"",
        left: "\"\"",
        right: "\"a\"",
        sigma: AB,
        mode: "obl",
        lines: &[("aaa", "bba/0 "), ("aba", "aba/0 ")],
    },
    Row {
        rule: "\"a\" : \"x\"",
        left: "\"b\"",
        right: "\"b\"",
        sigma: AB,
        mode: "obl",
        lines: &[("babab", "bxbxb/0 "), ("baab", "baab/0 ")],
    },
    Row {
        rule: "\"a\" : \"x\"",
        left: "\"\"",
        right: "\"b\" | \"aab\"",
        sigma: AB,
        mode: "obl",
        lines: &[("aaab", "xaxb/0 "), ("aab", "axb/0 ")],
    },
    // marks stand at the ends
    Row {
        rule: "\"a\" : \"b\"",
        left: "\"[BOS]\"",
        right: "\"\"",
        sigma: AB,
        mode: "obl",
        lines: &[("aa", "ba/0 "), ("ba", "ba/0 ")],
    },
    Row {
        rule: "\"a\" : \"b\"",
        left: "\"\"",
        right: "\"[EOS]\"",
        sigma: AB,
        mode: "obl",
        lines: &[("aa", "ab/0 "), ("ab", "ab/0 ")],
    },
    Row {
        rule: "\"a\" : \"b\"",
        left: "\"[BOS]\"",
        right: "\"[EOS]\"",
        sigma: AB,
        mode: "obl",
        lines: &[("a", "b/0 "), ("aa", "aa/0 ")],
    },
    // a mark beside letters, and a mark where no line has one
    Row {
        rule: "\"a\" : \"b\"",
        left: "\"[BOS]a\"",
        right: "\"b[EOS]\" | \"[EOS]\"",
        sigma: AB,
        mode: "obl",
        lines: &[("aab", "abb/0 "), ("aaa", "aaa/0 ")],
    },
    Row {
        rule: "\"a\" : \"b\"",
        left: "\"a[BOS]\"",
        right: "\"\"",
        sigma: AB,
        mode: "obl",
        lines: &[("aaa", "aaa/0 ")],
    },
    // matches of several lengths
    Row {
        rule: "(\"a\" : \"x\") | (\"aa\" : \"y\")",
        left: "\"\"",
        right: "\"\"",
        sigma: AB,
        mode: "obl",
        lines: &[("aa", "xx/0 y/0 "), ("aaa", "xxx/0 xy/0 yx/0 ")],
    },
    // matches that overlap: what is taken first is read
    Row {
        rule: "\"aa\" : \"b\"",
        left: "\"\"",
        right: "\"\"",
        sigma: AB,
        mode: "obl",
        lines: &[("aaa", "ba/0 "), ("aaaa", "bb/0 ")],
    },
    Row {
        rule: "(\"ab\" : \"x\") | (\"bc\" : \"y\")",
        left: "\"\"",
        right: "\"\"",
        sigma: "(\"a\" | \"b\" | \"c\")*",
        mode: "obl",
        lines: &[("abc", "xc/0 "), ("bcab", "yx/0 ")],
    },
    // a deletion, and one that makes its own context again
    Row {
        rule: "\"ab\" : \"\"",
        left: "\"\"",
        right: "\"\"",
        sigma: AB,
        mode: "obl",
        lines: &[("aabb", "ab/0 ")],
    },
    Row {
        rule: "\"a\" : \"\"",
        left: "\"b\"",
        right: "\"\"",
        sigma: AB,
        mode: "obl",
        lines: &[("baaab", "bb/0 ")],
    },
    // a rewrite that may be done, or not
    Row {
        rule: "\"a\" : \"b\"",
        left: "\"\"",
        right: "\"\"",
        sigma: AB,
        mode: "opt",
        lines: &[
            ("aa", "aa/0 ab/0 ba/0 bb/0 "),
            ("aaa", "aaa/0 aab/0 aba/0 abb/0 baa/0 bab/0 bba/0 bbb/0 "),
        ],
    },
    Row {
        rule: "\"a\" : \"b\"",
        left: "\"a\"",
        right: "\"\"",
        sigma: AB,
        mode: "opt",
        lines: &[("aaa", "aaa/0 aab/0 aba/0 ")],
    },
    Row {
        rule: "\"a\" : \"b\"",
        left: "\"\"",
        right: "\"\"",
        sigma: AB,
        mode: "obl",
        lines: &[("aaa", "bbb/0 "), ("bab", "bbb/0 "), ("ac", "")],
    },
    // what is written needs no sigma
    Row {
        rule: "\"a\" : \"z\"",
        left: "\"z\" | \"[BOS]\"",
        right: "\"\"",
        sigma: AB,
        mode: "obl",
        lines: &[("aaba", "zzba/0 ")],
    },
    // a sigma that isn't closed
    Row {
        rule: "\"a\" : \"b\"",
        left: "\"a\"",
        right: "\"\"",
        sigma: "\"\" | \"aa\" | \"aaaa\"",
        mode: "obl",
        lines: &[("aa", "ab/0 "), ("aaa", ""), ("aaaa", "abab/0 ")],
    },
    // weights are those of the rewrites
    Row {
        rule: "(\"a\" : \"x\" <.0003>) | (\"a\" : \"y\" <.0005>) | (\"ab\" : \"z\" <.0007>)",
        left: "\"\"",
        right: "\"\"",
        sigma: AB,
        mode: "obl",
        lines: &[
            ("ab", "xb/3 yb/5 z/7 "),
            ("aa", "xx/6 xy/8 yx/8 yy/10 "),
            ("bb", "bb/0 "),
        ],
    },
    Row {
        rule: "\"a\" : \"b\" <.0004>",
        left: "\"\"",
        right: "\"\"",
        sigma: AB,
        mode: "opt",
        lines: &[("aa", "aa/0 ab/4 ba/4 bb/8 ")],
    },
];

/// The grammar of a row.
fn grammar_of(alloc: Global, row: &Row) -> Result<String, AllocError> {
    format!(in alloc;
        "export MAIN = CDRewrite[{}, {}, {}, {}, 'ltr', '{}'];",
        row.rule, row.left, row.right, row.sigma, row.mode
    )
}

#[test]
fn lines_are_rewritten(rt: HostRuntime) -> Result<(), Fail> {
    let alloc = rt.alloc();
    for row in &ROWS {
        let grammar = grammar_of(alloc, row)?;
        let m = built(alloc, &grammar)?.expect(&rt, row.rule);
        for (line, expected) in row.lines {
            let told = readings_of(alloc, &m, *line, 80)?;
            assert_eq!(rt; told.as_str(), *expected, "{grammar} {line}");
        }
    }
    Ok(())
}
