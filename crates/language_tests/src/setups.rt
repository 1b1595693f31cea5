//! What setups say, or their first fault.

use norm_base::Name;
use speak_setup::{Need, Setup, SetupFault, read_setup};
use std::alloc::{AllocError, Global};
use std::test::Fail;

const BOTH: &[u8] =
    b"verbalizer_rule: \"W\"\r\n\n# a comment\n\ttokenizer_rule\t:\"A\"  \n \t# one more\n tokenizer_grammar : \"c d.grm\"\ntokenizer_rule:\"B\"\nverbalizer_grammar:  \"v.grm\"";

/// The names of a setup, each followed by a semicolon; the fault and its line or key.
fn told(alloc: Global, read: &Result<Setup, SetupFault>) -> Result<String, AllocError> {
    match read {
        Ok(setup) => names(alloc, setup),
        Err(SetupFault::BadLine { line }) => format!(in alloc; "bad {line}"),
        Err(SetupFault::Repeated { line }) => format!(in alloc; "repeated {line}"),
        Err(SetupFault::Missing { key }) => {
            let mut text = String::from_str(alloc, "missing ")?;
            add(&mut text, key)?;
            Ok(text)
        }
        Err(SetupFault::Memory) => Err(AllocError),
    }
}

fn names(alloc: Global, setup: &Setup) -> Result<String, AllocError> {
    let mut text = String::new(alloc);
    add(&mut text, &setup.tokenizer)?;
    for rule in &setup.tokenizer_rules {
        add(&mut text, rule)?;
    }
    if let Some(grammar) = &setup.verbalizer {
        add(&mut text, grammar)?;
    }
    for rule in &setup.verbalizer_rules {
        add(&mut text, rule)?;
    }
    Ok(text)
}

fn add(text: &mut String, name: &Name) -> Result<(), AllocError> {
    for byte in name.bytes() {
        text.push(*byte as char)?;
    }
    text.push(';')
}

/// A text, what is needed, what it is.
const CASES: [(&[u8], Need, &str); 22] = [
    (BOTH, Need::Both, "c d.grm;A;B;v.grm;W;"),
    (BOTH, Need::Classifier, "c d.grm;A;B;v.grm;W;"),
    (
        b"tokenizer_grammar:\"g\"\ntokenizer_rule:\"M\"\n",
        Need::Classifier,
        "g;M;",
    ),
    (
        b"tokenizer_grammar:\"g\"\ntokenizer_rule:\"M\"\n",
        Need::Both,
        "missing verbalizer_grammar;",
    ),
    (
        b"tokenizer_grammar:\"g\"\ntokenizer_rule:\"M\"\nverbalizer_grammar:\"v\"",
        Need::Both,
        "missing verbalizer_rule;",
    ),
    (b"", Need::Both, "missing tokenizer_grammar;"),
    (
        b"# nothing\n",
        Need::Classifier,
        "missing tokenizer_grammar;",
    ),
    (
        b"tokenizer_grammar: \"g\"",
        Need::Classifier,
        "missing tokenizer_rule;",
    ),
    (
        b"verbalizer_rule:\"1\"\ntokenizer_rule:\"2\"",
        Need::Classifier,
        "missing tokenizer_grammar;",
    ),
    (b"x\n", Need::Both, "bad 1"),
    (b"x", Need::Classifier, "bad 1"),
    (b"tokenizer_grammar: \"g\"\r", Need::Classifier, "bad 1"),
    (b"\ntokenizer_grammar \"g\"", Need::Classifier, "bad 2"),
    (b"tokenizer_rules: \"g\"", Need::Classifier, "bad 1"),
    (b"tokenizer_rule: \"\"", Need::Classifier, "bad 1"),
    (b"tokenizer_rule: \"a\\b\"", Need::Classifier, "bad 1"),
    (b"tokenizer_rule: \"a\" b", Need::Classifier, "bad 1"),
    (b"tokenizer_rule: a", Need::Classifier, "bad 1"),
    (b"tokenizer_rule: \"a\tb\"", Need::Classifier, "bad 1"),
    (
        b"tokenizer_grammar:\"g\"\n#\ntokenizer_grammar:\"g\"\nx",
        Need::Classifier,
        "repeated 3",
    ),
    (
        b"verbalizer_grammar:\"g\"\nverbalizer_grammar:\"h\"",
        Need::Classifier,
        "repeated 2",
    ),
    (
        b"tokenizer_rule:\"A\"\ntokenizer_rule:\"A\"\ntokenizer_rule:\"A\"\ntokenizer_rule:\"A\"\ntokenizer_rule:\"A\"\n",
        Need::Classifier,
        "repeated 5",
    ),
];

#[test]
fn a_setup_or_its_first_fault(rt: HostRuntime) -> Result<(), Fail> {
    for (text, need, expected) in CASES {
        let read = read_setup(rt.alloc(), text, need);
        let told = told(rt.alloc(), &read)?;
        assert_eq!(rt; told.as_str(), expected);
    }
    Ok(())
}

#[test]
fn a_value_has_at_most_255_bytes(rt: HostRuntime) -> Result<(), Fail> {
    let value = vec![in rt.alloc(); b'a'; 255]?;
    let mut text = Vec::from_slice(rt.alloc(), b"tokenizer_grammar:\"g\"\ntokenizer_rule:\"")?;
    text.extend_from_slice(&value)?;
    let mut long = Vec::from_slice(rt.alloc(), &text)?;
    text.push(b'"')?;
    long.extend_from_slice(b"a\"")?;
    let setup = read_setup(rt.alloc(), &text, Need::Classifier)?;
    assert_eq!(rt; setup.tokenizer_rules[0].bytes(), value.as_slice());
    let refused = read_setup(rt.alloc(), &long, Need::Classifier);
    assert!(rt; matches!(&refused, Err(SetupFault::BadLine { line: 2 })));
    Ok(())
}
