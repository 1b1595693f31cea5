//! Whole runs of the top call.

use norm_base::{Failed, MemShelf, MemSink, MemSource, Name, Source};
use speak_core::{NoWatch, speak};
use std::alloc::{AllocError, Global};
use std::test::Fail;
use std::thread::Threads;

const SETUP: &[u8] = b"tokenizer_grammar: \"g.grm\"\ntokenizer_rule: \"MAIN\"\n";

const CLASSIFY: [&str; 5] = ["speak", "--setup", "s", "--mode", "classify"];

const SPEAK: [&str; 5] = ["speak", "--setup", "s", "--mode", "speak"];

const BOTH: &[u8] =
    b"tokenizer_grammar: \"g.grm\"\ntokenizer_rule: \"MAIN\"\nverbalizer_grammar: \"v.grm\"\nverbalizer_rule: \"V\"\n";

// What a run left: its status, its output and its errors.
#[derive(Drop)]
pub(crate) struct Left {
    pub(crate) status: u8,
    pub(crate) out: MemSink,
    pub(crate) err: MemSink,
}

fn words(alloc: Global, all: &[&str]) -> Result<Vec<String>, AllocError> {
    let mut words = Vec::new(alloc);
    for word in all {
        words.push(String::from_str(alloc, *word)?)?;
    }
    Ok(words)
}

fn files_of(alloc: Global, files: &[(&str, &[u8])]) -> Result<Vec<(Name, Vec<u8>)>, AllocError> {
    let mut all = Vec::new(alloc);
    for (name, bytes) in files {
        all.push((
            Name::new(alloc, name.as_bytes())?,
            Vec::from_slice(alloc, *bytes)?,
        ))?;
    }
    Ok(all)
}

// A run of mode classify over these files and one more, which is the setup, on devices that don't fail.
fn run_files<R: Threads + Sync>(
    rt: &R,
    alloc: Global,
    setup: &[u8],
    grammar: &[u8],
    other: (&str, &[u8]),
    input: &[u8],
) -> Result<Left, AllocError> {
    let files = [("s", setup), ("g.grm", grammar), other];
    run(rt, alloc, &CLASSIFY, &files, input)
}

// A run of these words over these files, on devices that don't fail.
fn run<R: Threads + Sync>(
    rt: &R,
    alloc: Global,
    command: &[&str],
    files: &[(&str, &[u8])],
    input: &[u8],
) -> Result<Left, AllocError> {
    run_on(rt, alloc, command, files, input, [2, 1, 5], &[&[]; 4])
}

// A run of these words over these files. The source, the output and the errors give or take so many bytes at a call, and these calls fail: the
// shelf's, the source's, the output's and the errors'.
pub(crate) fn run_on<R: Threads + Sync>(
    rt: &R,
    alloc: Global,
    command: &[&str],
    files: &[(&str, &[u8])],
    input: &[u8],
    pieces: [usize; 3],
    fails: &[&[u64]; 4],
) -> Result<Left, AllocError> {
    let input = Vec::from_slice(alloc, input)?;
    let source = MemSource::new(input, pieces[0].max(1), Vec::from_slice(alloc, fails[1])?);
    let files = files_of(alloc, files)?;
    let others = [fails[0], fails[2], fails[3]];
    run_with(
        rt,
        alloc,
        command,
        files,
        source,
        [pieces[1], pieces[2]],
        &others,
    )
}

// A run of these words. The output and the errors take so many bytes at a call, and these calls fail: the shelf's, the output's and the errors'.
fn run_with<R: Threads + Sync, S: Source + Drop>(
    rt: &R,
    alloc: Global,
    command: &[&str],
    files: Vec<(Name, Vec<u8>)>,
    source: S,
    pieces: [usize; 2],
    fails: &[&[u64]; 3],
) -> Result<Left, AllocError> {
    let words = words(alloc, command)?;
    let mut shelf = MemShelf::new(alloc, files, Vec::from_slice(alloc, fails[0])?);
    let mut source = source;
    let mut out = MemSink::new(alloc, pieces[0].max(1), Vec::from_slice(alloc, fails[1])?);
    let mut err = MemSink::new(alloc, pieces[1].max(1), Vec::from_slice(alloc, fails[2])?);
    let mut callers = Vec::new(alloc);
    let status = speak(
        rt,
        alloc,
        &words,
        &mut shelf,
        &mut source,
        &mut out,
        &mut err,
        &NoWatch,
        &mut callers,
    );
    Ok(Left { status, out, err })
}

// A grammar, one more file, an input, the output, the errors, the status.
const SPOKEN: [(&[u8], (&str, &[u8]), &[u8], &[u8], &[u8], u8); 11] = [
    (
        b"export MAIN = (\"a\" : \"b\") | (\"a\" : (\"c\" <2>));",
        ("", b""),
        b"a\n\na\n",
        b"b\n\nb\n",
        b"",
        0,
    ),
    (
        b"export MAIN = (\"a\" : \"b\") | (\"a\" : (\"c\" <2>));",
        ("", b""),
        b"a\r\na",
        b"b\nb\n",
        b"",
        0,
    ),
    (
        b"export MAIN = (\"a\" : \"b\") | (\"a\" : (\"c\" <2>));",
        ("", b""),
        b"",
        b"",
        b"",
        0,
    ),
    (
        b"export MAIN = \"a\" : \"b\";",
        ("", b""),
        b"a\n\nb\n",
        b"b\n\n\n",
        b"line 3: no path\n",
        1,
    ),
    (
        b"export MAIN = \"a\" : \"b\";",
        ("", b""),
        b"\n\n",
        b"\n\n",
        b"",
        0,
    ),
    (
        b"export MAIN = \"a\" : \"b\";",
        ("", b""),
        b"a\r",
        b"\n",
        b"line 1: no path\n",
        1,
    ),
    (
        b"export MAIN = \"a[13]\" : \"b\";",
        ("", b""),
        b"a\r\r\na\r\n",
        b"b\n\n",
        b"line 2: no path\n",
        1,
    ),
    (
        b"export MAIN = \"a\"*;",
        ("", b""),
        b"a\0a\naa\n",
        b"\naa\n",
        b"line 1: byte 0 at 1\n",
        1,
    ),
    (
        b"export MAIN = StringFile['p.txt'];",
        ("p.txt", b"one\tun\t0.5\none\tuno\ntwo\n"),
        b"one\ntwo\n",
        b"uno\ntwo\n",
        b"",
        0,
    ),
    // names, functions and imports
    (
        b"import 'lib.grm' as lib; export MAIN = lib.Double[\"a\" : \"b\"];",
        ("lib.grm", b"func Double[x] { return x x; }"),
        b"aa\n",
        b"bb\n",
        b"",
        0,
    ),
    (
        b"import 'lib.grm' as lib; export MAIN = lib.digit+;",
        ("lib.grm", b"export digit = \"0\" : \"zero \";"),
        b"00\n",
        b"zero zero \n",
        b"",
        0,
    ),
];

// A grammar, one more file, the text of its refusal.
const REFUSED: [(&[u8], (&str, &[u8]), &[u8]); 4] = [
    (
        b"import 'h.grm' as h;",
        ("h.grm", b"x = ~;"),
        b"h.grm: byte 4: bad lexeme\n",
    ),
    (
        b"import 'h.grm' as h; export MAIN = h.x;",
        ("h.grm", b"x = \"a\";"),
        b"g.grm: statement 2: h.x not exported\n",
    ),
    (
        b"import 'h.grm' as h;",
        ("h.grm", b"import 'g.grm' as g;"),
        b"h.grm: statement 1: g.grm imports itself\n",
    ),
    (
        b"export MAIN = StringFile['p.txt'];",
        ("p.txt", b"one\na\tb\t1\tc\n"),
        b"g.grm: statement 1: bad pair in p.txt line 2\n",
    ),
];

// A setup, the text of its refusal.
const SETUPS: [(&[u8], &[u8]); 8] = [
    (b"", b"setup: tokenizer_grammar is missing\n"),
    (
        b"tokenizer_grammar: \"g.grm\"\n",
        b"setup: tokenizer_rule is missing\n",
    ),
    (
        b"# one\n\ntokenizer_grammar \"g.grm\"\n",
        b"setup: line 3 not understood\n",
    ),
    (
        b"tokenizer_grammar: \"g.grm\"\ntokenizer_grammar: \"g.grm\"\n",
        b"setup: line 2 repeats a key\n",
    ),
    (
        b"tokenizer_grammar: \"no.grm\"\ntokenizer_rule: \"A\"\ntokenizer_rule: \"B\"\n",
        b"no.grm: statement 0: not found no.grm\n",
    ),
    (
        b"tokenizer_rule: \"A\"\ntokenizer_rule: \"B\"\n",
        b"setup: tokenizer_grammar is missing\n",
    ),
    (
        b"tokenizer_grammar: \"no.grm\"\ntokenizer_rule: \"MAIN\"\n",
        b"no.grm: statement 0: not found no.grm\n",
    ),
    (
        b"tokenizer_grammar: \"g.grm\"\ntokenizer_rule: \"OTHER\"\n",
        b"setup: no rule OTHER in g.grm\n",
    ),
];

// The names of some rules, their grammar, an input, the output, the errors, the status.
const CASCADES: [(&[&str], &[u8], &[u8], &[u8], &[u8], u8); 17] = [
    // moves that read nothing and moves that write nothing
    (
        &["A", "B", "C", "D"],
        b"export A = \"a\" : \"b\"; export B = \"b\" : \"\"; export C = \"\" : \"c\"; export D = \"c\" : \"d\";",
        b"a\n",
        b"d\n",
        b"",
        0,
    ),
    (
        &["ONE", "TWO"],
        b"export ONE = (\"a\" : \"\"); export TWO = (\"\" : \"z\");",
        b"a\n",
        b"z\n",
        b"",
        0,
    ),
    (
        &["A", "B", "C"],
        b"export A = \"a\" : \"\"; export B = (\"\" : \"x\")*; export C = \"xx\" : \"y\";",
        b"a\n",
        b"y\n",
        b"",
        0,
    ),
    (
        &["A", "B", "C", "D"],
        b"export A = (\"a\" : \"\") (\"\" : \"x\"); export B = (\"x\" : \"\") (\"\" : \"y\"); export C = (\"\" : \"\")* (\"y\" : \"z\"); export D = (\"\" : \"p\")* (\"z\" : \"q\") (\"\" : \"r\");",
        b"a\n",
        b"qr\n",
        b"",
        0,
    ),
    // cycles that read and write nothing in the middle rule, where each round has a weight
    (
        &["A", "B", "C"],
        b"export A = \"a\" : \"b\"; export B = (\"\" : \"\" <1>)* (\"b\" : \"c\") (\"\" : \"\" <1>){2,4}; export C = (\"c\" : \"d\" <2>) | (\"\" : \"\")* (\"c\" : \"e\" <2.0001>);",
        b"a\n",
        b"d\n",
        b"",
        0,
    ),
    // ties in each rule
    (
        &["A", "B", "C"],
        b"export A = (\"a\" : \"b\") | (\"a\" : \"c\"); export B = (\"b\" : \"d\") | (\"c\" : \"d\") | (\"c\" : \"e\"); export C = (\"d\" : \"x\") | (\"e\" : \"x\") | (\"d\" : \"wv\") | (\"e\" : \"w\");",
        b"a\n",
        b"w\n",
        b"",
        0,
    ),
    // a rule twice, and the order of the rules
    (
        &["A", "A"],
        b"export A = (\"a\" : \"b\") | (\"b\" : \"c\");",
        b"a\nb\n",
        b"c\n\n",
        b"line 2: no path\n",
        1,
    ),
    (
        &["B", "A"],
        b"export A = \"a\" : \"b\"; export B = \"b\" : \"a\";",
        b"b\na\n",
        b"b\n\n",
        b"line 2: no path\n",
        1,
    ),
    // the weights of all rules are added, and ties are broken by what the last one writes
    (
        &["A", "B"],
        b"export A = (\"a\" : \"b\" <2>) | (\"a\" : \"c\" <1>); export B = (\"b\" : \"x\") | (\"c\" : \"y\" <2>);",
        b"a\n",
        b"x\n",
        b"",
        0,
    ),
    (
        &["A", "B"],
        b"export A = (\"a\" : \"b\" <2>) | (\"a\" : \"c\" <1>); export B = (\"b\" : \"x\" <.5>) | (\"c\" : \"yy\" <1.4999>);",
        b"a\n",
        b"yy\n",
        b"",
        0,
    ),
    (
        &["A", "B"],
        b"export A = (\"a\" : \"bb\") | (\"a\" : \"c\"); export B = (\"bb\" : \"x\") | (\"c\" : \"xx\") | (\"c\" : \"w\");",
        b"a\n",
        b"w\n",
        b"",
        0,
    ),
    (
        &["A", "B"],
        b"s = (\"a\" | \"b\")*; export A = CDRewrite[\"a\" : \"b\", \"a\", \"\", s]; export B = CDRewrite[\"b\" : \"\", \"b\", \"\", s];",
        b"aaa\nabb\n",
        b"aba\nab\n",
        b"",
        0,
    ),
    // the first rule that isn't exported or is marked, and only then the first that rewrites the empty text
    (
        &["A", "MARKED", "MISSING"],
        b"export A = \"a\"; export MARKED = \"[BOS]\";",
        b"a\n",
        b"",
        b"setup: rule MARKED in g.grm holds a mark\n",
        3,
    ),
    (
        &["A", "MISSING", "MARKED"],
        b"export A = \"a\"; export MARKED = \"[BOS]\";",
        b"a\n",
        b"",
        b"setup: no rule MISSING in g.grm\n",
        3,
    ),
    (
        &["EMPTY", "MISSING"],
        b"export EMPTY = CDRewrite[\"\" : \"b\", \"\", \"\", \"a\"*];",
        b"a\n",
        b"",
        b"setup: no rule MISSING in g.grm\n",
        3,
    ),
    (
        &["A", "EMPTY", "MARKED"],
        b"export A = \"a\"; export EMPTY = CDRewrite[\"\" : \"b\", \"\", \"\", \"a\"*]; export MARKED = \"[EOS]\";",
        b"a\n",
        b"",
        b"setup: rule MARKED in g.grm holds a mark\n",
        3,
    ),
    (
        &["A", "SECOND", "FIRST"],
        b"export A = \"a\"; export FIRST = CDRewrite[\"\" : \"b\", \"\", \"\", \"a\"*]; export SECOND = \"a\" | FIRST;",
        b"a\n",
        b"",
        b"setup: rule SECOND rewrites the empty text\n",
        3,
    ),
];

/// The setup of these rules of `g.grm`.
fn setup_of(alloc: Global, rules: &[&str]) -> Result<String, AllocError> {
    let mut setup = String::from_str(alloc, "tokenizer_grammar: \"g.grm\"\n")?;
    for rule in rules {
        setup.push_str(&format!(in alloc; "tokenizer_rule: \"{rule}\"\n")?)?;
    }
    Ok(setup)
}

#[test]
fn cascades_are_spoken(rt: HostRuntime) -> Result<(), Fail> {
    for (rules, grammar, input, out, err, status) in CASCADES {
        let setup = setup_of(rt.alloc(), rules)?;
        let left = run_files(&rt, rt.alloc(), setup.as_bytes(), grammar, ("", b""), input)?;
        assert_eq!(rt; left.err.bytes(), err);
        assert_eq!(rt; left.out.bytes(), out);
        assert_eq!(rt; left.status, status);
    }
    Ok(())
}

#[test]
fn lines_are_spoken(rt: HostRuntime) -> Result<(), Fail> {
    for (grammar, other, input, out, err, status) in SPOKEN {
        let left = run_files(&rt, rt.alloc(), SETUP, grammar, other, input)?;
        assert_eq!(rt; left.err.bytes(), err);
        assert_eq!(rt; left.out.bytes(), out);
        assert_eq!(rt; left.status, status);
    }
    Ok(())
}

#[test]
fn grammars_are_refused(rt: HostRuntime) -> Result<(), Fail> {
    for (grammar, other, err) in REFUSED {
        let left = run_files(&rt, rt.alloc(), SETUP, grammar, other, b"a\n")?;
        assert_eq!(rt; left.err.bytes(), err);
        assert_eq!(rt; left.out.bytes(), b"".as_slice());
        assert_eq!(rt; left.status, 3);
    }
    Ok(())
}

#[test]
fn setups_are_refused(rt: HostRuntime) -> Result<(), Fail> {
    for (setup, err) in SETUPS {
        let left = run_files(
            &rt,
            rt.alloc(),
            setup,
            b"export MAIN = \"a\";",
            ("", b""),
            b"a\n",
        )?;
        assert_eq!(rt; left.err.bytes(), err);
        assert_eq!(rt; left.out.bytes(), b"".as_slice());
        assert_eq!(rt; left.status, 3);
    }
    Ok(())
}

/// The 33 files of a chain of imports, and the setup.
fn chain(alloc: Global) -> Result<Vec<(Name, Vec<u8>)>, AllocError> {
    let mut files = Vec::new(alloc);
    files.push((Name::new(alloc, b"s")?, Vec::from_slice(alloc, SETUP)?))?;
    files.push((
        Name::new(alloc, b"g.grm")?,
        Vec::from_slice(alloc, b"import '2' as a;")?,
    ))?;
    for number in 2..33u64 {
        let next = number + 1;
        let name = format!(in alloc; "{number}")?;
        let text = format!(in alloc; "import '{next}' as a;")?;
        files.push((
            Name::new(alloc, name.as_bytes())?,
            Vec::from_slice(alloc, text.as_bytes())?,
        ))?;
    }
    Ok(files)
}

#[test]
fn a_chain_of_33_files_is_refused(rt: HostRuntime) -> Result<(), Fail> {
    let alloc = rt.alloc();
    let source = MemSource::new(Vec::new(alloc), 1, Vec::new(alloc));
    let left = run_with(
        &rt,
        alloc,
        &CLASSIFY,
        chain(alloc)?,
        source,
        [1, 5],
        &[&[]; 3],
    )?;
    assert_eq!(rt;
        left.err.bytes(),
        b"32: statement 1: imports deeper than 32\n".as_slice()
    );
    assert_eq!(rt; left.status, 3);
    Ok(())
}

// A text and so many bytes `a`, as a line.
fn line_of(alloc: Global, text: &[u8], count: usize) -> Result<Vec<u8>, AllocError> {
    let mut line = Vec::from_slice(alloc, text)?;
    line.extend_from_slice(&vec![in alloc; b'a'; count]?)?;
    line.push(b'\n')?;
    Ok(line)
}

#[test]
fn the_first_fault_of_a_line_is_told(rt: HostRuntime) -> Result<(), Fail> {
    let alloc = rt.alloc();
    let mut input = Vec::from_slice(alloc, b"ab\0\n")?;
    input.extend_from_slice(&line_of(alloc, b"", 16_385)?)?;
    input.extend_from_slice(&line_of(alloc, b"", 16_384)?)?;
    input.extend_from_slice(&line_of(alloc, b"\0b\0", 16_385)?)?;
    input.extend_from_slice(b"b\n")?;
    let left = run_files(
        &rt,
        alloc,
        SETUP,
        b"export MAIN = \"a\"*;",
        ("", b""),
        &input,
    )?;
    let mut out = Vec::from_slice(alloc, b"\n\n")?;
    out.extend_from_slice(&line_of(alloc, b"", 16_384)?)?;
    out.extend_from_slice(b"\n\n")?;
    assert_eq!(rt; left.out.bytes(), out.as_slice());
    assert_eq!(rt;
        left.err.bytes(),
        b"line 1: byte 0 at 2\nline 2: longer than 16384 bytes\nline 4: byte 0 at 0\nline 5: no path\n".as_slice()
    );
    assert_eq!(rt; left.status, 1);
    Ok(())
}

// Words, the output, the errors, the status.
const WORDS: [(&[&str], &[u8], &[u8], u8); 14] = [
    (&[], b"", b"bad arguments\n", 2),
    (&["speak"], b"", b"bad arguments\n", 2),
    (
        &["speak", "--setup", "s"],
        b"",
        b"setup: verbalizer_grammar is missing\n",
        3,
    ),
    (&["speak", "--mode", "speak"], b"", b"bad arguments\n", 2),
    (
        &["speak", "--setup", "s", "--jobs", "64"],
        b"",
        b"bad arguments\n",
        2,
    ),
    (
        &["speak", "--mode", "sample", "--setup", "s"],
        b"",
        b"bad arguments\n",
        2,
    ),
    (
        &["speak", "--setup", "s", "--mode"],
        b"",
        b"bad arguments\n",
        2,
    ),
    (
        &["speak", "--setup", "s", "--mode", "check"],
        b"",
        b"setup: verbalizer_grammar is missing\n",
        3,
    ),
    (&SPEAK, b"", b"setup: verbalizer_grammar is missing\n", 3),
    (
        &["speak", "--setup", "s", "--mode", "Classify"],
        b"",
        b"bad arguments\n",
        2,
    ),
    (
        &["speak", "--setup=", "s", "--mode", "classify"],
        b"",
        b"bad arguments\n",
        2,
    ),
    (
        &["speak", "--mode=classify", "--setup", "s"],
        b"b\n\n",
        b"line 2: no path\n",
        1,
    ),
    (
        &["speak", "--setup", "s", "--mode", "classify", "--reports"],
        b"",
        b"bad arguments\n",
        2,
    ),
    (
        &["speak", "--setup", "no", "--mode", "classify"],
        b"",
        b"setup: not found\n",
        3,
    ),
];

// The same where calls of these numbers fail, the shelf's, the source's, the output's and the errors'.
const FAILING: [(&[&str], [&[u64]; 4], &[u8], &[u8], u8); 16] = [
    // a refusal that cannot be told keeps its status
    (&["speak"], [&[], &[], &[], &[2]], b"", b"bad a", 2),
    // a device that fails ends a run
    (&CLASSIFY, [&[1], &[], &[], &[]], b"", b"outside fault\n", 4),
    (&CLASSIFY, [&[2], &[], &[], &[]], b"", b"outside fault\n", 4),
    (&CLASSIFY, [&[], &[1], &[], &[]], b"", b"outside fault\n", 4),
    (&CLASSIFY, [&[], &[2], &[], &[]], b"", b"outside fault\n", 4),
    (&CLASSIFY, [&[], &[3], &[], &[]], b"", b"outside fault\n", 4),
    (
        &CLASSIFY,
        [&[], &[], &[1], &[]],
        b"",
        b"line 2: no path\noutside fault\n",
        4,
    ),
    (
        &CLASSIFY,
        [&[], &[], &[3], &[]],
        b"b\n",
        b"line 2: no path\noutside fault\n",
        4,
    ),
    (
        &CLASSIFY,
        [&[], &[], &[], &[1]],
        b"b\n\n",
        b"outside fault\n",
        4,
    ),
    (
        &CLASSIFY,
        [&[], &[], &[], &[2]],
        b"b\n\n",
        b"line outside fault\n",
        4,
    ),
    (&CLASSIFY, [&[], &[], &[], &[1, 3]], b"b\n\n", b"outsi", 4),
    (&CLASSIFY, [&[], &[], &[4], &[1, 2]], b"b\n\n", b"", 4),
    // a sample calls neither the shelf nor the source, and is the same at each run
    (&SAMPLE, [&[1, 2, 3], &[1, 2], &[], &[]], SUMMARY, b"", 0),
    (&SAMPLE, [&[], &[], &[], &[1]], SUMMARY, b"", 0),
    (&SAMPLE, [&[], &[], &[3], &[]], b"li", b"outside fault\n", 4),
    (
        &["speak", "--count=1", "--mode=sample", "--start=0"],
        [&[1], &[1], &[], &[]],
        b"lines 1\nspoken 1\nrefused 0\nbytes 13\nsum 1221\nfirst eighty eight\nlast eighty eight\n",
        b"",
        0,
    ),
];

const SAMPLE: [&str; 5] = ["speak", "--mode", "sample", "--count", "2"];

const SUMMARY: &[u8] = b"lines 2\nspoken 2\nrefused 0\nbytes 56\nsum 5408\nfirst dogs
last rain eighty six january twenty seventh twenty five\n";

// Makes a run over one grammar and two lines, and compares what it leaves with what is wanted.
fn ends<R: Threads + Sync>(
    rt: &R,
    alloc: Global,
    command: &[&str],
    fails: &[&[u64]; 4],
    wanted: (&[u8], &[u8], u8),
) -> Result<bool, AllocError> {
    let grammar = b"export MAIN = \"a\" : \"b\";".as_slice();
    let files = [("s", SETUP), ("g.grm", grammar)];
    let left = run_on(rt, alloc, command, &files, b"a\nb\n", [2, 1, 5], fails)?;
    Ok((left.out.bytes(), left.err.bytes(), left.status) == wanted)
}

#[test]
fn words_are_taken(rt: HostRuntime) -> Result<(), Fail> {
    let alloc = rt.alloc();
    for (i, (command, out, err, status)) in WORDS.into_iter().enumerate() {
        let is_so = ends(&rt, alloc, command, &[&[]; 4], (out, err, status))?;
        assert!(rt; is_so, "row {i}");
    }
    Ok(())
}

#[test]
fn runs_end_with_their_status(rt: HostRuntime) -> Result<(), Fail> {
    let alloc = rt.alloc();
    for (i, (command, fails, out, err, status)) in FAILING.into_iter().enumerate() {
        let is_so = ends(&rt, alloc, command, &fails, (out, err, status))?;
        assert!(rt; is_so, "row {i}");
    }
    Ok(())
}

// The classifier's output for the line x, an input, the output, the errors, the status. The verbaliser knows one order of ten
// fields, one of a date, and a letter.
const TOKENS: [(&str, &[u8], &[u8], &[u8], u8); 10] = [
    // any order of the fields
    (
        "tokens { date { day: \\\"2\\\" month: \\\"may\\\" } }",
        b"x\n",
        b"may second\n",
        b"",
        0,
    ),
    (
        "tokens { date { day: \\\"2\\\" month: \\\"may\\\" preserve_order: true } }",
        b"x\n",
        b"\n",
        b"line 1: token 1 has no words\n",
        1,
    ),
    (
        "tokens { c { a: \\\"1\\\" b: \\\"1\\\" c: \\\"1\\\" d: \\\"1\\\" e: \\\"1\\\" f: \\\"1\\\" g: \\\"1\\\" h: \\\"1\\\" i: \\\"1\\\" j: \\\"1\\\" k: \\\"1\\\" } }",
        b"x\ny\n",
        b"\nok\n",
        b"line 1: token 1 has more than 10 fields\n",
        1,
    ),
    // tokens, and what is between them
    (
        "tokens{name:\\\"a\\\"}tokens{type:PUNCT}tokens{name:\\\"b\\\"}",
        b"x\n\nx\n",
        b"a b\n\na b\n",
        b"",
        0,
    ),
    (
        "tokens { name: \\\"a\\\" } tokens {",
        b"x\n",
        b"\n",
        b"line 1: not token text after 1 tokens\n",
        1,
    ),
    (
        "y",
        b"x\n",
        b"\n",
        b"line 1: not token text after 0 tokens\n",
        1,
    ),
    ("", b"x\n", b"\n", b"", 0),
    // the first fault of a line
    (
        "tokens { l { l: \\\"a\\\" } } tokens { l { l: \\\"b\\\" } } tokens { l { l: \\\"c\\\" } }",
        b"x\n",
        b"\n",
        b"line 1: token 2 has no words\n",
        1,
    ),
    (
        "tokens { name: \\\"a\\\" } tokens { l { l: \\\"a\\\" } }",
        b"x\nz\nx\n",
        b"a letter\n\na letter\n",
        b"line 2: no path\n",
        1,
    ),
    (
        "tokens { l { l: \\\"b\\\" } }",
        b"\0x\nx\n",
        b"\n\n",
        b"line 1: byte 0 at 0\nline 2: token 1 has no words\n",
        1,
    ),
];

const VERBALIZER: &[u8] =
    b"export V = (\"date|month:may|day:2|\" : \"may second\") | (\"l|l:a|\" : \"letter\") | (\"c|j:1|i:1|h:1|g:1|f:1|e:1|d:1|c:1|b:1|a:1|\" : \"ok\");";

#[test]
fn tokens_are_spoken(rt: HostRuntime) -> Result<(), Fail> {
    let alloc = rt.alloc();
    let ten =
        "tokens { c { a: \\\"1\\\" b: \\\"1\\\" c: \\\"1\\\" d: \\\"1\\\" e: \\\"1\\\" f: \\\"1\\\" g: \\\"1\\\" h: \\\"1\\\" i: \\\"1\\\" j: \\\"1\\\" } }";
    for (tokens, input, out, err, status) in TOKENS {
        let grammar = format!(in alloc;
            "export MAIN = (\"x\" : \"{tokens}\") | (\"y\" : \"{ten}\");"
        )?;
        let files = [
            ("s", BOTH),
            ("g.grm", grammar.as_bytes()),
            ("v.grm", VERBALIZER),
        ];
        let left = run(&rt, alloc, &SPEAK, &files, input)?;
        assert_eq!(rt; left.err.bytes(), err);
        assert_eq!(rt; left.out.bytes(), out);
        assert_eq!(rt; left.status, status);
    }
    Ok(())
}

pub(crate) const TOY_SETUP: &[u8] =
    b"tokenizer_grammar: \"toy_classify.grm\"\ntokenizer_rule: \"MAIN\"\nverbalizer_grammar: \"toy_verbalize.grm\"\nverbalizer_rule: \"WORDS\"\n";

pub(crate) const TOY_CLASSIFY: &[u8] =
    b"nonzero = \"1\" | \"2\" | \"3\" | \"4\" | \"5\" | \"6\" | \"7\" | \"8\" | \"9\";\ndigit = \"0\" | nonzero;\nletter = \"a\" | \"b\" | \"c\" | \"d\" | \"e\" | \"f\" | \"g\" | \"h\" | \"i\" | \"j\" | \"k\" | \"l\" | \"m\"\n       | \"n\" | \"o\" | \"p\" | \"q\" | \"r\" | \"s\" | \"t\" | \"u\" | \"v\" | \"w\" | \"x\" | \"y\" | \"z\";\nmonth = \"january\" | \"february\" | \"march\" | \"april\" | \"may\" | \"june\" | \"july\"\n      | \"august\" | \"september\" | \"october\" | \"november\" | \"december\";\nnumber = digit | (nonzero digit);\nday = nonzero | ((\"1\" | \"2\") digit) | \"30\" | \"31\";\nname = (\"\" : \"tokens { name: \\\"\") (letter+) (\"\" : \"\\\" }\");\ncardinal = (\"\" : \"tokens { cardinal { integer: \\\"\") number (\"\" : \"\\\" } }\");\ndate = (\"\" : \"tokens { date { day: \\\"\") day (\" \" : \"\\\" month: \\\"\") month (\"\" : \"\\\" } }\");\nstop = \".\" : \"tokens { name: \\\".\\\" type: PUNCT }\";\nitem = (name | cardinal | date | stop) <1>;\nexport MAIN = item (\" \" item)*;\n";

pub(crate) const TOY_VERBALIZE: &[u8] =
    b"unit = (\"1\" : \"one\") | (\"2\" : \"two\") | (\"3\" : \"three\") | (\"4\" : \"four\") | (\"5\" : \"five\")\n     | (\"6\" : \"six\") | (\"7\" : \"seven\") | (\"8\" : \"eight\") | (\"9\" : \"nine\");\nteen = (\"10\" : \"ten\") | (\"11\" : \"eleven\") | (\"12\" : \"twelve\") | (\"13\" : \"thirteen\")\n     | (\"14\" : \"fourteen\") | (\"15\" : \"fifteen\") | (\"16\" : \"sixteen\")\n     | (\"17\" : \"seventeen\") | (\"18\" : \"eighteen\") | (\"19\" : \"nineteen\");\nten = (\"2\" : \"twenty\") | (\"3\" : \"thirty\") | (\"4\" : \"forty\") | (\"5\" : \"fifty\")\n    | (\"6\" : \"sixty\") | (\"7\" : \"seventy\") | (\"8\" : \"eighty\") | (\"9\" : \"ninety\");\nnumber = (\"0\" : \"zero\") | unit | teen | (ten (\"0\" : \"\")) | (ten (\"\" : \" \") unit);\nnth = (\"1\" : \"first\") | (\"2\" : \"second\") | (\"3\" : \"third\") | (\"4\" : \"fourth\")\n    | (\"5\" : \"fifth\") | (\"6\" : \"sixth\") | (\"7\" : \"seventh\") | (\"8\" : \"eighth\")\n    | (\"9\" : \"ninth\");\nday = nth | (\"10\" : \"tenth\") | (\"11\" : \"eleventh\") | (\"12\" : \"twelfth\")\n    | (\"13\" : \"thirteenth\") | (\"14\" : \"fourteenth\") | (\"15\" : \"fifteenth\")\n    | (\"16\" : \"sixteenth\") | (\"17\" : \"seventeenth\") | (\"18\" : \"eighteenth\")\n    | (\"19\" : \"nineteenth\") | (\"20\" : \"twentieth\") | ((\"2\" : \"twenty \") nth)\n    | (\"30\" : \"thirtieth\") | (\"31\" : \"thirty first\");\nmonth = \"january\" | \"february\" | \"march\" | \"april\" | \"may\" | \"june\" | \"july\"\n      | \"august\" | \"september\" | \"october\" | \"november\" | \"december\";\ncardinal = (\"cardinal|integer:\" : \"\") number (\"|\" : \"\");\ndate = (\"date|month:\" : \"\") month (\"|day:\" : \" \") day (\"|\" : \"\");\nexport WORDS = cardinal | date;\n";

// The grammar of the example `toy`: names, numbers, dates and stops.
#[test]
fn a_toy_grammar_speaks(rt: HostRuntime) -> Result<(), Fail> {
    let files = [
        ("s", TOY_SETUP),
        ("toy_classify.grm", TOY_CLASSIFY),
        ("toy_verbalize.grm", TOY_VERBALIZE),
    ];
    let input = b"3 cats\nrain .\n2 may\n31 december 20 dogs\nRain\n.\n";
    let left = run(&rt, rt.alloc(), &SPEAK, &files, input)?;
    assert_eq!(rt; left.err.bytes(), b"line 5: no path\n".as_slice());
    assert_eq!(rt;
        left.out.bytes(),
        b"three cats\nrain\nmay second\ndecember thirty first twenty dogs\n\n\n".as_slice()
    );
    assert_eq!(rt; left.status, 1);
    Ok(())
}

// The verbaliser's grammar, a classifier, the refusal of mode speak.
const UNSPOKEN: [(&[u8], &[u8], &[u8]); 6] = [
    (
        b"",
        b"export MAIN = \"a\" : \"b\";",
        b"setup: no rule V in v.grm\n",
    ),
    (
        b"V = \"[BOS]\"; export W = \"a\";",
        b"export MAIN = \"a\" : \"b\";",
        b"setup: no rule V in v.grm\n",
    ),
    (
        b"export V = ;",
        b"export MAIN = \"a\" : \"b\";",
        b"v.grm: statement 1: syntax\n",
    ),
    (
        b"export V = \"[BOS]\" | CDRewrite[\"\" : \"b\", \"\", \"\", \"a\"*];",
        b"export MAIN = \"a\" : \"b\";",
        b"setup: rule V in v.grm holds a mark\n",
    ),
    (
        b"export V = CDRewrite[\"\" : \"b\", \"\", \"\", \"a\"*];",
        b"export MAIN = \"a\" : \"b\";",
        b"setup: rule V rewrites the empty text\n",
    ),
    (
        b"import 'no.grm' as no; export V = \"a\";",
        b"export MAIN = \"a\" : \"b\";",
        b"v.grm: statement 1: not found no.grm\n",
    ),
];

// A verbaliser that is refused in mode speak isn't looked at in mode classify.
#[test]
fn verbalisers_are_refused(rt: HostRuntime) -> Result<(), Fail> {
    let alloc = rt.alloc();
    for (verbaliser, grammar, err) in UNSPOKEN {
        let files = [("s", BOTH), ("g.grm", grammar), ("v.grm", verbaliser)];
        let left = run(&rt, alloc, &SPEAK, &files, b"a\n")?;
        assert_eq!(rt; left.err.bytes(), err);
        assert_eq!(rt; left.out.bytes(), b"".as_slice());
        assert_eq!(rt; left.status, 3);
        let left = run(&rt, alloc, &CLASSIFY, &files, b"a\n")?;
        assert_eq!(rt; left.out.bytes(), b"b\n".as_slice());
        assert_eq!(rt; left.status, 0);
    }
    Ok(())
}

// Setups and classifiers whose refusal comes before the verbaliser's, or beside it.
const FIRST: [(&[u8], &[u8], &[u8]); 5] = [
    (
        b"tokenizer_grammar: \"g.grm\"\ntokenizer_rule: \"MAIN\"\nverbalizer_grammar: \"v.grm\"\n",
        b"export MAIN = \"a\";",
        b"setup: verbalizer_rule is missing\n",
    ),
    (
        b"tokenizer_grammar: \"g.grm\"\ntokenizer_rule: \"NONE\"\nverbalizer_grammar: \"no.grm\"\nverbalizer_rule: \"V\"\n",
        b"export MAIN = \"a\";",
        b"setup: no rule NONE in g.grm\n",
    ),
    (
        b"tokenizer_grammar: \"g.grm\"\ntokenizer_rule: \"MAIN\"\nverbalizer_grammar: \"no.grm\"\nverbalizer_rule: \"V\"\n",
        b"export MAIN = CDRewrite[\"\" : \"b\", \"\", \"\", \"a\"*];",
        b"no.grm: statement 0: not found no.grm\n",
    ),
    (
        b"tokenizer_grammar: \"g.grm\"\ntokenizer_rule: \"MAIN\"\nverbalizer_grammar: \"g.grm\"\nverbalizer_rule: \"FULL\"\nverbalizer_rule: \"EMPTY\"\n",
        b"export MAIN = \"a\"; export FULL = \"a\"; export EMPTY = CDRewrite[\"\" : \"b\", \"\", \"\", \"a\"*];",
        b"setup: rule EMPTY rewrites the empty text\n",
    ),
    (
        b"tokenizer_grammar: \"g.grm\"\ntokenizer_rule: \"EMPTY\"\nverbalizer_grammar: \"g.grm\"\nverbalizer_rule: \"TOO\"\n",
        b"export EMPTY = CDRewrite[\"\" : \"b\", \"\", \"\", \"a\"*]; export TOO = EMPTY;",
        b"setup: rule EMPTY rewrites the empty text\n",
    ),
];

#[test]
fn the_first_refusal_is_told(rt: HostRuntime) -> Result<(), Fail> {
    for (setup, grammar, err) in FIRST {
        let files = [("s", setup), ("g.grm", grammar)];
        let left = run(&rt, rt.alloc(), &SPEAK, &files, b"a\n")?;
        assert_eq!(rt; left.err.bytes(), err);
        assert_eq!(rt; left.out.bytes(), b"".as_slice());
        assert_eq!(rt; left.status, 3);
    }
    Ok(())
}

// A batch has 1,024 lines.
#[test]
fn a_line_past_a_batch_is_spoken(rt: HostRuntime) -> Result<(), Fail> {
    let alloc = rt.alloc();
    let mut input = Vec::new(alloc);
    let mut out = Vec::new(alloc);
    for _ in 0..1024 {
        input.extend_from_slice(b"a\n")?;
        out.extend_from_slice(b"b\n")?;
    }
    input.extend_from_slice(b"c")?;
    out.push(b'\n')?;
    let left = run_files(
        &rt,
        alloc,
        SETUP,
        b"export MAIN = \"a\" : \"b\";",
        ("", b""),
        &input,
    )?;
    assert_eq!(rt; left.out.bytes(), out.as_slice());
    assert_eq!(rt; left.err.bytes(), b"line 1025: no path\n".as_slice());
    assert_eq!(rt; left.status, 1);
    Ok(())
}

// Gives so many times the byte a.
#[derive(Drop)]
struct Long {
    left: u64,
}

impl Source for Long {
    ghost use Rattle.std.specs.Prelude.{None, ◌<◌, ◌^◌};
    ghost use Rattle.std.proofs.Common.{rules};

    ghost left = { λ s. None };

    ghost faults = { λ s. 0 };

    ghost counted = { λ s. Prim.search rules };

    fn read(&mut self, into: &mut [u8]) -> Result<usize, Failed> {
        let count = self.left.min(into.len() as u64);
        for byte in into[..count as usize].iter_mut() {
            *byte = b'a';
        }
        self.left -= count;
        Ok(count as usize)
    }
}

#[test]
fn an_input_past_its_limit_is_refused(rt: HostRuntime) -> Result<(), Fail> {
    let alloc = rt.alloc();
    let files = files_of(alloc, &[("s", SETUP), ("g.grm", b"export MAIN = \"b\";")])?;
    let source = Long { left: 268_435_457 };
    let left = run_with(&rt, alloc, &CLASSIFY, files, source, [1, 5], &[&[]; 3])?;
    assert_eq!(rt; left.status, 6);
    assert_eq!(rt; left.out.bytes(), b"".as_slice());
    assert_eq!(rt; left.err.bytes(), b"input too long\n".as_slice());
    Ok(())
}

/// What is written and told is the same for every number of places.
#[test]
fn places_change_nothing(rt: HostRuntime) -> Result<(), Fail> {
    let alloc = rt.alloc();
    let grammar = b"export MAIN = (\"a\" : \"b\" <1>)* | (\"a\" : \"c\")* \"d\";".as_slice();
    let files = [("s", SETUP), ("g.grm", grammar)];
    for places in ["1", "2", "7", "256", "4096"] {
        let command = [
            "speak", "--setup", "s", "--mode", "classify", "--places", places,
        ];
        let left = run(&rt, alloc, &command, &files, b"aaa\naad\n\nda\n")?;
        assert_eq!(rt; left.out.bytes(), b"bbb\nccd\n\n\n".as_slice());
        assert_eq!(rt; left.err.bytes(), b"line 4: no path\n".as_slice());
        assert_eq!(rt; left.status, 1);
    }
    Ok(())
}

/// The second of two equal lines finds all that it looks for. An empty line makes no looks.
#[test]
fn a_report(rt: HostRuntime) -> Result<(), Fail> {
    let alloc = rt.alloc();
    let grammar = b"export MAIN = \"a\" : \"b\";".as_slice();
    let files = [("s", SETUP), ("g.grm", grammar)];
    let command = [
        "speak", "--setup", "s", "--mode", "classify", "--report", "--places", "4096",
    ];
    let left = run(&rt, alloc, &command, &files, b"a\na\n\nb\n")?;
    assert_eq!(rt; left.out.bytes(), b"b\nb\n\n\n".as_slice());
    let told = left.err.bytes();
    let mut lines = told.split(|b| *b == b'\n');
    let first = lines.next().unwrap_or(&[]);
    let second = lines.next().unwrap_or(&[]);
    assert!(rt; first.starts_with(b"report line 1: looks "));
    assert!(rt; second.starts_with(b"report line 2: looks "));
    assert!(rt; second.ends_with(b" absent 0 published 0 no_place 0 wide 0"));
    assert_eq!(rt;
        lines.next().unwrap_or(&[]),
        b"report line 3: looks 0 shown 0 absent 0 published 0 no_place 0 wide 0".as_slice()
    );
    assert_eq!(rt; lines.next().unwrap_or(&[]), b"line 4: no path".as_slice());
    assert!(rt;
        lines
            .next()
            .unwrap_or(&[])
            .starts_with(b"report line 4: looks ")
    );
    assert!(rt;
        lines
            .next()
            .unwrap_or(&[])
            .starts_with(b"report total: lines 4 looks ")
    );
    Ok(())
}
