//! Transducers of grammars, and what joined operations read.

use crate::readings::readings;
use fst_core::Fst;
use grammar_build::{BuildFault, build};
use norm_base::{Name, SureShelf};
use std::alloc::{AllocError, Global};
use std::test::Fail;
use thrax_link::link;

/// The transducer of the rule `MAIN` of a grammar file, or none where a rewrite may read the empty text.
#[tactic(auto, using(weighted_relations::specs::LiteralLaws::sound_literals))]
pub fn built(alloc: Global, grammar: &str) -> Result<Option<Fst>, Fail> {
    let mut files = Vec::new(alloc);
    files.push((
        Name::new(alloc, b"g")?,
        Vec::from_slice(alloc, grammar.as_bytes())?,
    ))?;
    let mut shelf = SureShelf::new(alloc, files);
    let name = Name::new(alloc, b"g")?;
    let Ok(grammar) = link(alloc, &mut shelf, &name) else {
        return Err("the grammar is refused")?;
    };
    let main = Name::new(alloc, b"MAIN")?;
    let Some(rule) = grammar.rule(&main) else {
        return Err("no rule MAIN")?;
    };
    match build(alloc, rule) {
        Ok(m) => Ok(Some(m)),
        Err(BuildFault::RewritesEmpty) => Ok(None),
        Err(BuildFault::Memory) => Err(AllocError)?,
    }
}

/// A grammar, the greatest number of arcs of a path, and the readings of its transducer; `none` where there is none.
type Row = (&'static str, u8, &'static str);

const ROWS: [Row; 18] = [
    (
        "export MAIN = (\"a\" : \"b\") (\"a\" : \"b\");",
        12,
        "aa|bb|0 ",
    ),
    ("export MAIN = \"a\"*;", 7, "aa|aa|0 a|a|0 ||0 "),
    (
        "export MAIN = \"a\" | \"[EOS]b\";",
        5,
        "a|a|0 \u{101}b|\u{101}b|0 ",
    ),
    (
        "export MAIN = (\"a\" | \"b\" : \"c\") <0.0005>;",
        9,
        "a|a|5 b|c|5 ",
    ),
    ("export MAIN = Invert[\"a\" : \"b\"];", 9, "b|a|0 "),
    (
        "export MAIN = Project[\"a\" : \"b\", 'input'];",
        9,
        "a|a|0 ",
    ),
    (
        "export MAIN = Project[\"a\" : \"b\", 'output'];",
        9,
        "b|b|0 ",
    ),
    ("export MAIN = (\"a\" | \"b\") - \"b\";", 9, "a|a|0 "),
    // empty outputs and empty inputs are composed in one order
    (
        "export MAIN = (\"a\" : \"\") @ (\"\" : \"z\");",
        20,
        "a|z|0 ",
    ),
    (
        "export MAIN = (\"a\" : \"\") @ (\"\" : \"c\")* @ \"c\";",
        20,
        "a|c|0 ",
    ),
    // weights are added on the way through a composition
    (
        "export MAIN = Invert[(\"a\" : \"b\" <1>) @ ((\"b\" : \"c\" <2>) | (\"b\" : \"a\" <1.5>))];",
        12,
        "a|a|25000 c|a|30000 ",
    ),
    // a string, a pair with two weights, and a composition
    (
        "export MAIN = \"a\" | ((\"a\" : \"b\") <0.0003> <0.0004>) | ((\"a\" : \"\") @ (\"\" : \"c\"));",
        12,
        "a|a|0 a|b|7 a|c|0 ",
    ),
    // rewrites below other operations
    (
        "s = (\"a\" | \"b\")*; export MAIN = Project[\"aaa\" @ (CDRewrite[\"a\" : \"b\", \"a\", \"\", s] | \"c\"), 'output'];",
        12,
        "aba|aba|0 ",
    ),
    (
        "s = (\"a\" | \"b\")*; export MAIN = Project[\"aaa\" @ (CDRewrite[\"a\" : \"b\", \"a\", \"\", s] | \"c\"), 'input'];",
        12,
        "aaa|aaa|0 ",
    ),
    (
        "s = (\"a\" | \"b\")*; export MAIN = Project[\"aaa\" @ (CDRewrite[\"a\" : \"b\", \"a\", \"\", s, 'ltr', 'opt'] | \"c\"), 'output'];",
        12,
        "aaa|aaa|0 aab|aab|0 aba|aba|0 ",
    ),
    // a rewrite of the empty text, alone and below others
    (
        "export MAIN = CDRewrite[\"\" : \"b\", \"\", \"\", \"a\"*];",
        1,
        "none",
    ),
    (
        "export MAIN = \"c\" | CDRewrite[\"\" : \"b\", \"\", \"\", \"a\"*];",
        1,
        "none",
    ),
    (
        "export MAIN = \"c\" | CDRewrite[\"a\"? : \"b\", \"\", \"\", \"a\"*];",
        1,
        "none",
    ),
];

#[test]
fn operations_that_are_joined(rt: HostRuntime) -> Result<(), Fail> {
    let alloc = rt.alloc();
    for (grammar, arcs, expected) in &ROWS {
        let told = match built(alloc, *grammar)? {
            Some(m) => readings(alloc, &m, *arcs)?,
            None => String::from_str(alloc, "none")?,
        };
        assert_eq!(rt; told.as_str(), *expected, "{grammar}");
    }
    Ok(())
}
