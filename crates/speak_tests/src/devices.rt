//! Runs whose devices fail, or give and take so many bytes at a call.

use crate::speaking::{TOY_CLASSIFY, TOY_SETUP, TOY_VERBALIZE, run_on};
use std::alloc::{AllocError, Global};
use std::test::Fail;

const SPEAK: [&str; 3] = ["speak", "--setup", "s"];

const REPORT: [&str; 4] = ["speak", "--setup", "s", "--report"];

const CHECK: [&str; 5] = ["speak", "--setup", "s", "--mode", "check"];

// So many copies of a line.
fn copies(alloc: Global, line: &[u8], count: usize) -> Result<Vec<u8>, AllocError> {
    let mut all = Vec::new(alloc);
    for _ in 0..count {
        all.extend_from_slice(line)?;
    }
    Ok(all)
}

// The words, how many bytes a call gives or takes, which calls of the shelf, the source, the output and the errors fail, how many bytes the
// output gets of 2,050 lines of 5, the errors, the status.
const RUNS: [(&[&str], usize, [&[u64]; 4], usize, &[u8], u8); 14] = [
    // the source: a call gives a line, and the last one nothing
    (&SPEAK, 7, [&[], &[1], &[], &[]], 0, b"outside fault\n", 4),
    (&SPEAK, 7, [&[], &[2], &[], &[]], 0, b"outside fault\n", 4),
    (
        &SPEAK,
        7,
        [&[], &[1024], &[], &[]],
        0,
        b"outside fault\n",
        4,
    ),
    (
        &SPEAK,
        7,
        [&[], &[1100], &[], &[]],
        5 * 1024,
        b"outside fault\n",
        4,
    ),
    (
        &SPEAK,
        7,
        [&[], &[2051], &[], &[]],
        5 * 2048,
        b"outside fault\n",
        4,
    ),
    // the output: a batch takes 732 calls, of which the last takes 3 bytes
    (&SPEAK, 7, [&[], &[], &[1], &[]], 0, b"outside fault\n", 4),
    (&SPEAK, 7, [&[], &[], &[2], &[]], 7, b"outside fault\n", 4),
    (
        &SPEAK,
        7,
        [&[], &[], &[1000], &[]],
        5 * 1024 + 7 * 267,
        b"outside fault\n",
        4,
    ),
    // the shelf
    (&SPEAK, 7, [&[1], &[], &[], &[]], 0, b"outside fault\n", 4),
    (&SPEAK, 7, [&[2], &[], &[], &[]], 0, b"outside fault\n", 4),
    (&SPEAK, 7, [&[3], &[], &[], &[]], 0, b"outside fault\n", 4),
    // the errors
    (
        &REPORT,
        7,
        [&[], &[], &[], &[1]],
        5 * 1024,
        b"outside fault\n",
        4,
    ),
    // none
    (&SPEAK, 1, [&[]; 4], 5 * 2050, b"", 0),
    (&SPEAK, 65_536, [&[]; 4], 5 * 2050, b"", 0),
];

#[test]
fn batches_before_a_stop_are_written(rt: HostRuntime) -> Result<(), Fail> {
    let alloc = rt.alloc();
    let files = [
        ("s", TOY_SETUP),
        ("toy_classify.grm", TOY_CLASSIFY),
        ("toy_verbalize.grm", TOY_VERBALIZE),
    ];
    let input = copies(alloc, b"rain .\n", 2050)?;
    let all = copies(alloc, b"rain\n", 2050)?;
    for (command, piece, fails, size, err, status) in RUNS {
        let left = run_on(&rt, alloc, command, &files, &input, [piece; 3], &fails)?;
        assert_eq!(rt; left.status, status);
        assert_eq!(rt; left.out.bytes().len(), size);
        assert!(rt; all.starts_with(left.out.bytes()));
        assert_eq!(rt; left.err.bytes(), err);
    }
    Ok(())
}

// A line that comes in pieces, among others that come at once: how many bytes a call gives.
#[test]
fn a_long_line_is_kept_until_its_end(rt: HostRuntime) -> Result<(), Fail> {
    let alloc = rt.alloc();
    let files = [
        (
            "s",
            b"tokenizer_grammar: \"g.grm\"\ntokenizer_rule: \"MAIN\"\n".as_slice(),
        ),
        ("g.grm", b"export MAIN = \"a\"* (\"b\" : \"c\");"),
    ];
    let command = ["speak", "--setup", "s", "--mode", "classify"];
    let mut input = copies(alloc, b"b\n", 1500)?;
    input.extend_from_slice(&copies(alloc, b"a", 16_000)?)?;
    input.extend_from_slice(b"b\r\n\nb")?;
    let mut wanted = copies(alloc, b"c\n", 1500)?;
    wanted.extend_from_slice(&copies(alloc, b"a", 16_000)?)?;
    wanted.extend_from_slice(b"c\n\nc\n")?;
    for piece in [1, 7, 4096, 65_536] {
        let left = run_on(&rt, alloc, &command, &files, &input, [piece; 3], &[&[]; 4])?;
        assert_eq!(rt; left.out.bytes(), wanted.as_slice());
        assert_eq!(rt; left.err.bytes(), b"".as_slice());
        assert_eq!(rt; left.status, 0);
    }
    Ok(())
}

const DATES: &[u8] =
    b"export MAIN = (\"2 may\" : \"tokens { date { day: \\\"2\\\" month: \\\"may\\\" } }\");";

const DATE_WORDS: &[u8] = b"export V = (\"date|month:may|day:2|\" : \"may second\");\n";

const DATE_SETUP: &[u8] =
    b"tokenizer_grammar: \"g.grm\"\ntokenizer_rule: \"MAIN\"\nverbalizer_grammar: \"v.grm\"\nverbalizer_rule: \"V\"\n";

// A grammar that is cut off anywhere is refused, and so is a setup that lacks more than its last line feed.
#[test]
fn fronts_of_files_are_refused(rt: HostRuntime) -> Result<(), Fail> {
    let alloc = rt.alloc();
    for size in 0..=DATES.len() {
        let files = [
            ("s", DATE_SETUP),
            ("g.grm", &DATES[..size]),
            ("v.grm", DATE_WORDS),
        ];
        let left = run_on(&rt, alloc, &CHECK, &files, b"", [7; 3], &[&[]; 4])?;
        assert_eq!(rt; left.status == 0, size == DATES.len(), "{size} bytes");
        assert_eq!(rt; left.status == 3, size < DATES.len(), "{size} bytes");
        assert_eq!(rt;
            left.out.bytes().is_empty(),
            size < DATES.len(),
            "{size} bytes"
        );
    }
    for size in 0..=TOY_SETUP.len() {
        let files = [
            ("s", &TOY_SETUP[..size]),
            ("toy_classify.grm", TOY_CLASSIFY),
            ("toy_verbalize.grm", TOY_VERBALIZE),
        ];
        let is_whole = size + 1 >= TOY_SETUP.len();
        let left = run_on(&rt, alloc, &CHECK, &files, b"", [7; 3], &[&[]; 4])?;
        assert_eq!(rt; left.status == 0, is_whole, "{size} bytes");
        assert_eq!(rt; left.status == 3, !is_whole, "{size} bytes");
        assert_eq!(rt; left.out.bytes().is_empty(), !is_whole, "{size} bytes");
    }
    Ok(())
}
