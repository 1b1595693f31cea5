//! Files and what comes of linking them: the size of the rule `MAIN`, or the first refusal.

use core_expressions::Expr;
use norm_base::{MemShelf, Name};
use std::alloc::{AllocError, Global};
use std::str::from_utf8;
use std::test::Fail;
use thrax_link::{LinkFault, Why, link};

/// Files beside the file `g`, and texts of this one with what comes of each: nothing where there is no rule `MAIN`.
struct Group {
    others: &'static [(&'static str, &'static str)],
    cases: &'static [(&'static str, &'static str)],
}

const STRING_FILE: &str = "export MAIN = StringFile['p'];";

const GROUPS: [Group; 23] = [
    // a file is there and is read
    Group {
        others: &[("bad", "x = ;")],
        cases: &[
            ("", ""),
            ("x = \"a", "g 0 BadLexeme { at: 4 }"),
            ("x = \"a\" <a>;", "g 0 BadWeight { at: 8 }"),
            ("x = \"a\"; y = ;", "g 0 Syntax { statement: 2 }"),
            ("x = \"a\"; import 'h' as h;", "g 2 NotFound h"),
            (
                "x = \"a\"; import 'bad' as h;",
                "bad 0 Syntax { statement: 1 }",
            ),
            ("x = y; import 'bad' as h;", "g 1 Unknown y"),
        ],
    },
    // names are defined before their use
    Group {
        others: &[
            (
                "h",
                "x = \"a\"; export y = x; func F[z] { return z x; } func G[] { return w; } w = x;",
            ),
            ("i", "x = \"a\"; y = q;"),
        ],
        cases: &[
            ("x = y;", "g 1 Unknown y"),
            ("x = x;", "g 1 Unknown x"),
            ("x = y; y = \"a\";", "g 1 Unknown y"),
            ("x = \"a\"; y = x[\"b\"];", "g 2 Unknown x"),
            ("x = \"a\"; y = x.y;", "g 2 Unknown x.y"),
            ("func F[] { return \"a\"; } y = F;", "g 2 Unknown F"),
            ("func F[] { return F[]; } y = F[];", "g 2 Unknown F"),
            (
                "func F[] { return z; } z = \"a\"; y = F[];",
                "g 3 Unknown z",
            ),
            ("func F[] { return z; }", ""),
            ("z = \"a\"; func F[] { return z; } y = F[];", ""),
            ("y = h.y;", "g 1 Unknown h.y"),
            ("import 'h' as h; y = h.x;", "g 2 NotExported h.x"),
            ("import 'h' as h; y = h.q;", "g 2 Unknown h.q"),
            ("import 'h' as h; y = h.F;", "g 2 Unknown h.F"),
            (
                "import 'h' as h; y = h.Invert[\"a\"];",
                "g 2 Unknown h.Invert",
            ),
            ("import 'h' as h; y = h.F[h.y];", ""),
            ("import 'h' as h; y = h.G[];", "g 2 Unknown w"),
            ("y = \"a\"; import 'i' as i;", "i 2 Unknown q"),
        ],
    },
    // names of a file differ
    Group {
        others: &[("h", "export x = \"a\";")],
        cases: &[
            ("x = \"a\"; x = y;", "g 2 Twice x"),
            ("Invert = \"a\";", "g 1 Twice Invert"),
            ("h = \"a\"; import 'nowhere' as h;", "g 2 Twice h"),
            ("import 'h' as h; func h[] { return \"a\"; }", "g 2 Twice h"),
            ("x = \"a\"; func x[y, y] { return y; }", "g 2 Twice x"),
            ("func F[x, y, x, y] { return x; }", "g 1 Twice x"),
            ("func F[x] { y = x; x = y; return x; }", "g 1 Twice x"),
            (
                "func F[] { y = \"a\"; y = \"b\"; return y; }",
                "g 1 Twice y",
            ),
            ("x = \"a\"; func F[x] { y = x; return y; } y = F[x];", ""),
        ],
    },
    // files import one another
    Group {
        others: &[
            ("h", "x = \"a\"; import 'g' as g;"),
            ("i", "import 'i' as i;"),
            ("j", "export x = \"a\";"),
        ],
        cases: &[
            ("import 'g' as h;", "g 1 ImportLoop g"),
            ("import 'h' as h;", "h 2 ImportLoop g"),
            ("import 'i' as h;", "i 1 ImportLoop i"),
            ("import 'j' as a; import 'j' as b; y = a.x b.x;", ""),
        ],
    },
    // a rule is an exported name of the file itself
    Group {
        others: &[(
            "lib",
            "func Double[x] { return x x; } export y = \"a\"; export MAIN = y;",
        )],
        cases: &[
            (
                "import 'lib' as lib; x = \"a\"; export MAIN = lib.Double[x : \"b\"];",
                "11",
            ),
            ("MAIN = \"a\";", ""),
            ("import 'lib' as MAIN;", ""),
            ("func MAIN[] { return \"a\"; }", ""),
        ],
    },
    // what is taken keeps the kinds
    Group {
        others: &[],
        cases: &[
            ("func F[x] { return x; } y = F[z, z];", "g 2 Arity 1 2"),
            ("func F[x] { return x; } y = F[];", "g 2 Arity 1 0"),
            ("func F[x] { return x; } y = F['a'];", "g 2 Unsupported"),
            ("x = CDRewrite[\"a\"];", "g 1 Arity 4 1"),
            ("x = Project[\"a\"];", "g 1 Arity 2 1"),
            ("x = Project[\"a\", 'both'];", "g 1 Unsupported"),
            ("x = StringFile['v'];", "g 1 NotFound v"),
            ("x = (\"a\" : \"b\") : y;", "g 1 Unknown y"),
            ("x = (\"a\" : \"b\") : \"c\";", "g 1 NotAcceptor"),
            ("x = \"a\" : (\"b\" : \"c\");", "g 1 NotAcceptor"),
            ("x = \"a\" - ((\"a\" : \"b\") <1>);", "g 1 NotAcceptor"),
            ("x = (\"a\" : \"b\") - (\"a\" <1>);", "g 1 NotAcceptor"),
            ("x = \"a\" - (\"b\" <1>);", "g 1 IsWeighted"),
            ("export MAIN = (\"a\" <1>) - \"b\";", "6"),
            ("export MAIN = \"a\" - (\"b\" <0>);", "6"),
            (
                "x = CDRewrite[\"a\" : \"b\", \"a\" : \"b\", \"\", \"a\"];",
                "g 1 NotAcceptor",
            ),
            (
                "x = CDRewrite[\"a\" : \"b\", \"\", \"\", \"a\", 'rtl'];",
                "g 1 Unsupported",
            ),
            (
                "x = CDRewrite[\"a\" : \"b\", \"\", \"\", \"a\", 'ltr', 'obl', 'obl'];",
                "g 1 Arity 6 7",
            ),
        ],
    },
    // sizes, and whether a rule may hold a mark
    Group {
        others: &[],
        cases: &[
            ("export MAIN = \"\";", "1"),
            ("export MAIN = (\"a\" : \"b\") (\"a\" : \"b\");", "11"),
            (
                "func F[x] { q = x x; return q \"z\"; } export MAIN = F[\"c\"];",
                "8",
            ),
            (
                "func F[x] { q = x x; return q \"z\"; } export MAIN = F[\"c\" : \"d\"];",
                "14",
            ),
            ("export MAIN = Optimize[\"a\" : \"b\"];", "5"),
            ("export MAIN = \"a\" @ \"b\";", "5"),
            ("export MAIN = \"[255]\" : \"[255]\";", "5"),
            ("export MAIN = \"a\" : \"[BOS]\";", "5 marked"),
            ("export MAIN = \"[EOS]\" : \"a\";", "5 marked"),
            ("export MAIN = \"a\" - \"[BOS]\";", "5 marked"),
            ("export MAIN = \"[BOS]\" <0.0007>;", "3 marked"),
            ("export MAIN = Project[Invert[\"a\"*], 'output'];", "5"),
            (
                "export MAIN = Project[Invert[\"[EOS]\"*], 'output'];",
                "5 marked",
            ),
            (
                "export MAIN = CDRewrite[\"a\" : \"b\", \"[BOS]\"*, \"[EOS]\"*, \"a\"*, 'ltr', 'opt'];",
                "15",
            ),
            ("export MAIN = \"a\"{1,3};", "11"),
            ("export MAIN = \"aaaaa\"{7133,7133}{98,98};", "4194303"),
            // 1 + 4718 * (1 + 296 * 3) is 2^22 - 1, and 1 + 2049 * (1 + 682 * 3) is 2^22
            ("export MAIN = \"ab\"{296,296}{4718,4718};", "4194303"),
            ("export MAIN = \"ab\"{682,682}{2049,2049};", "g 1 TooLarge"),
            ("export MAIN = \"a\"{9999,9999}{9999,9999};", "g 1 TooLarge"),
        ],
    },
    // string files
    Group {
        others: &[("p", "")],
        cases: &[(STRING_FILE, "1")],
    },
    Group {
        others: &[("p", "one")],
        cases: &[(STRING_FILE, "5")],
    },
    Group {
        others: &[("p", "one\tun\n")],
        cases: &[(STRING_FILE, "9")],
    },
    Group {
        others: &[("p", "one\tun\t0.5\n")],
        cases: &[(STRING_FILE, "10")],
    },
    Group {
        others: &[("p", "\tun\n")],
        cases: &[(STRING_FILE, "6")],
    },
    Group {
        others: &[("p", "one\t\t.5\n")],
        cases: &[(STRING_FILE, "8")],
    },
    Group {
        others: &[("p", "\t\n")],
        cases: &[(STRING_FILE, "4")],
    },
    Group {
        others: &[("p", "one\r\n\r\n\ntwo\r\n")],
        cases: &[(STRING_FILE, "9")],
    },
    Group {
        others: &[("p", "one\none\n")],
        cases: &[(STRING_FILE, "9")],
    },
    Group {
        others: &[("p", "a\tb\t1\tc\n")],
        cases: &[(STRING_FILE, "g 1 BadPair p 1")],
    },
    Group {
        others: &[("p", "a\tb\n\nc\td\te\tf\n")],
        cases: &[(STRING_FILE, "g 1 BadPair p 3")],
    },
    Group {
        others: &[("p", "a\n\na\tb\t0.00001\n")],
        cases: &[(STRING_FILE, "g 1 BadPair p 3")],
    },
    Group {
        others: &[("p", "a\tb\t\n")],
        cases: &[(STRING_FILE, "g 1 BadPair p 1")],
    },
    Group {
        others: &[("p", "a\n\0\n")],
        cases: &[(STRING_FILE, "g 1 BadPair p 2")],
    },
    Group {
        others: &[("p", "a\tb\t429496.7296\n")],
        cases: &[(STRING_FILE, "g 1 BadPair p 1")],
    },
    Group {
        others: &[("p", "a\tb\t429496.7295\n")],
        cases: &[(STRING_FILE, "7")],
    },
];

/// Puts a file among others.
fn put(
    alloc: Global,
    files: &mut Vec<(Name, Vec<u8>)>,
    name: &str,
    text: &str,
) -> Result<(), AllocError> {
    let name = Name::new(alloc, name.as_bytes())?;
    let text = Vec::from_slice(alloc, text.as_bytes())?;
    files.push((name, text))?;
    Ok(())
}

/// A shelf of the file `g` and others, whose fetches of these numbers fail.
fn shelf(
    alloc: Global,
    grammar: &str,
    others: &[(&str, &str)],
    fails: &[u64],
) -> Result<MemShelf, AllocError> {
    let mut files = Vec::new(alloc);
    put(alloc, &mut files, "g", grammar)?;
    for (name, text) in others {
        put(alloc, &mut files, *name, *text)?;
    }
    Ok(MemShelf::new(alloc, files, Vec::from_slice(alloc, fails)?))
}

fn text(name: &Name) -> &str {
    from_utf8(name.bytes()).unwrap_or("no text")
}

/// A cause in words.
fn cause(alloc: Global, why: &Why) -> Result<String, AllocError> {
    match why {
        Why::Read(fault) => format!(in alloc; "{fault:?}"),
        Why::NotFound { name } => format!(in alloc; "NotFound {}", text(name)),
        Why::Unknown { name } => format!(in alloc; "Unknown {}", text(name)),
        Why::NotExported { name } => format!(in alloc; "NotExported {}", text(name)),
        Why::Twice { name } => format!(in alloc; "Twice {}", text(name)),
        Why::ImportLoop { name } => format!(in alloc; "ImportLoop {}", text(name)),
        Why::Arity { wanted, given } => format!(in alloc; "Arity {wanted} {given}"),
        Why::BadPair { file, line } => format!(in alloc; "BadPair {} {line}", text(file)),
        other => format!(in alloc; "{other:?}"),
    }
}

/// The size of a rule, and whether it may hold a mark, both of a copy where it is small.
fn sized(alloc: Global, rule: &Expr) -> Result<String, AllocError> {
    let size = rule.size();
    if size > 100 {
        return format!(in alloc; "{size}");
    }
    let copied = rule.copy(alloc)?;
    let mark = if copied.is_marked() { " marked" } else { "" };
    format!(in alloc; "{}{mark}", copied.size())
}

/// What comes of linking the file `g`.
fn outcome(alloc: Global, shelf: &mut MemShelf) -> Result<String, AllocError> {
    match link(alloc, shelf, &Name::new(alloc, b"g")?) {
        Ok(grammar) => match grammar.rule(&Name::new(alloc, b"MAIN")?) {
            Some(rule) => sized(alloc, rule),
            None => String::from_str(alloc, ""),
        },
        Err(LinkFault::ShelfFault) => String::from_str(alloc, "ShelfFault"),
        Err(LinkFault::Memory) => Err(AllocError),
        Err(
            LinkFault::Refused {
                file,
                statement,
                why,
            },
        ) => {
            let cause = cause(alloc, &why)?;
            format!(in alloc; "{} {statement} {}", text(&file), cause.as_str())
        }
    }
}

#[test]
fn grammars_have_their_outcomes(rt: HostRuntime) -> Result<(), Fail> {
    let alloc = rt.alloc();
    for group in &GROUPS {
        for (grammar, wanted) in group.cases {
            let mut shelf = shelf(alloc, *grammar, group.others, &[])?;
            assert_eq!(rt; outcome(alloc, &mut shelf)?.as_str(), *wanted, "{grammar}");
        }
    }
    let mut empty = MemShelf::new(alloc, Vec::new(alloc), Vec::new(alloc));
    assert_eq!(rt; outcome(alloc, &mut empty)?.as_str(), "g 0 NotFound g");
    Ok(())
}

/// A file `g` that begins a chain of so many files, each of which imports the next.
fn chain(alloc: Global, count: u8) -> Result<MemShelf, AllocError> {
    let mut files = Vec::new(alloc);
    let mut name = String::from_str(alloc, "g")?;
    for number in 1..count {
        let next = format!(in alloc; "f{number}")?;
        let text = format!(in alloc; "x = \"a\"; import '{next}' as n;")?;
        put(alloc, &mut files, &name, &text)?;
        name = next;
    }
    put(alloc, &mut files, &name, "export x = \"a\";")?;
    Ok(MemShelf::new(alloc, files, Vec::new(alloc)))
}

#[test]
fn a_chain_has_32_files_at_most(rt: HostRuntime) -> Result<(), Fail> {
    let alloc = rt.alloc();
    assert_eq!(rt; outcome(alloc, &mut chain(alloc, 32)?)?.as_str(), "");
    assert_eq!(rt;
        outcome(alloc, &mut chain(alloc, 33)?)?.as_str(),
        "f31 2 ImportDepth"
    );
    Ok(())
}

#[test]
fn a_shelf_that_fails_is_told(rt: HostRuntime) -> Result<(), Fail> {
    let alloc = rt.alloc();
    // a file that was linked isn't fetched again, so that a third fetch that fails is never made
    for (fails, wanted) in [(1, "ShelfFault"), (2, "ShelfFault"), (3, "")] {
        let grammar = "import 'h' as h; import 'h' as i;";
        let mut shelf = shelf(alloc, grammar, &[("h", "")], &[fails])?;
        assert_eq!(rt; outcome(alloc, &mut shelf)?.as_str(), wanted);
    }
    Ok(())
}
