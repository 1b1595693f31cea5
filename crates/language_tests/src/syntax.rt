//! What grammar files say, or their first fault.

use norm_base::Name;
use std::alloc::{AllocError, Global};
use thrax_syntax::{File, ReadFault, Statement, Tree, read_file};

fn show_labels(labels: &[u16], out: &mut Vec<u8>) -> Result<(), AllocError> {
    out.push(b'"')?;
    for label in labels {
        match *label {
            256 => out.push(b'^')?,
            257 => out.push(b'$')?,
            byte => out.push(u8::try_from(byte).unwrap_or(b'?'))?,
        }
    }
    out.push(b'"')?;
    Ok(())
}

fn show_number(number: u32, out: &mut Vec<u8>) -> Result<(), AllocError> {
    let mut digits = [b'0'; 10];
    let mut left = number;
    for place in digits.iter_mut() {
        *place = b'0' + u8::try_from(left % 10).unwrap_or(0);
        left /= 10;
    }
    let mut begun = false;
    for digit in digits.iter().rev() {
        begun = begun || *digit != b'0';
        if begun {
            out.push(*digit)?;
        }
    }
    if !begun {
        out.push(b'0')?;
    }
    Ok(())
}

fn show_dotted(alias: &Name, name: &Name, out: &mut Vec<u8>) -> Result<(), AllocError> {
    out.extend_from_slice(alias.bytes())?;
    out.push(b'.')?;
    out.extend_from_slice(name.bytes())?;
    Ok(())
}

/// Writes the arguments of a call.
#[cycle(show)]
fn show_arguments(arguments: &[Tree], out: &mut Vec<u8>) -> Result<(), AllocError> {
    out.push(b'[')?;
    for argument in arguments {
        show(argument, out)?;
        out.push(b';')?;
    }
    out.push(b']')?;
    Ok(())
}

/// Writes an operation of any number of trees.
#[cycle(show)]
fn show_members(sign: u8, members: &[Tree], out: &mut Vec<u8>) -> Result<(), AllocError> {
    out.push(b'(')?;
    out.push(sign)?;
    for member in members {
        out.push(b' ')?;
        show(member, out)?;
    }
    out.push(b')')?;
    Ok(())
}

/// Writes a tree: operations as `(SIGN member member ..)`, marks of repetition behind the tree, weights before it.
#[cycle(show)]
fn show(tree: &Tree, out: &mut Vec<u8>) -> Result<(), AllocError> {
    match tree {
        Tree::Text(labels) => show_labels(labels, out)?,
        Tree::Quoted(bytes) => {
            out.push(b'\'')?;
            out.extend_from_slice(bytes.bytes())?;
            out.push(b'\'')?;
        }
        Tree::Use(name) => out.extend_from_slice(name.bytes())?,
        Tree::Member(alias, name) => show_dotted(alias, name, out)?,
        Tree::Call(name, arguments) => {
            out.extend_from_slice(name.bytes())?;
            show_arguments(arguments, out)?;
        }
        Tree::CallMember(alias, name, arguments) => {
            show_dotted(alias, name, out)?;
            show_arguments(arguments, out)?;
        }
        Tree::Union(members) => show_members(b'|', members, out)?,
        Tree::Concat(members) => show_members(b'&', members, out)?,
        _ => show_of_two(tree, out)?,
    }
    Ok(())
}

/// Writes an operation of two trees, or of one.
#[cycle(show)]
fn show_of_two(tree: &Tree, out: &mut Vec<u8>) -> Result<(), AllocError> {
    match tree {
        Tree::Cross(input, output) => {
            out.extend_from_slice(b"(: ")?;
            show(input, out)?;
            out.push(b' ')?;
            show(output, out)?;
            out.push(b')')?;
        }
        Tree::Compose(first, second) => {
            out.extend_from_slice(b"(@ ")?;
            show(first, out)?;
            out.push(b' ')?;
            show(second, out)?;
            out.push(b')')?;
        }
        Tree::Minus(all, without) => {
            out.extend_from_slice(b"(- ")?;
            show(all, out)?;
            out.push(b' ')?;
            show(without, out)?;
            out.push(b')')?;
        }
        _ => show_of_one(tree, out)?,
    }
    Ok(())
}

/// Writes an operation of one tree.
#[cycle(show)]
fn show_of_one(tree: &Tree, out: &mut Vec<u8>) -> Result<(), AllocError> {
    match tree {
        Tree::Weighted(inner, weight) => {
            out.push(b'<')?;
            show_number(*weight, out)?;
            out.push(b'>')?;
            show(inner, out)?;
        }
        Tree::Star(inner) => {
            show(inner, out)?;
            out.push(b'*')?;
        }
        Tree::Plus(inner) => {
            show(inner, out)?;
            out.push(b'+')?;
        }
        Tree::Maybe(inner) => {
            show(inner, out)?;
            out.push(b'?')?;
        }
        Tree::Times(inner, least, most) => {
            show(inner, out)?;
            out.push(b'{')?;
            show_number(*least, out)?;
            out.push(b',')?;
            show_number(*most, out)?;
            out.push(b'}')?;
        }
        // the other kinds don't come here, and no test wants this
        _ => out.extend_from_slice(b"(no operation)")?,
    }
    Ok(())
}

fn show_statement(statement: &Statement, out: &mut Vec<u8>) -> Result<(), AllocError> {
    match statement {
        Statement::Import { file, alias } => {
            out.extend_from_slice(file.bytes())?;
            out.extend_from_slice(b" as ")?;
            out.extend_from_slice(alias.bytes())?;
        }
        Statement::Define {
            export,
            name,
            value,
        } => {
            if *export {
                out.extend_from_slice(b"export ")?;
            }
            out.extend_from_slice(name.bytes())?;
            out.push(b'=')?;
            show(value, out)?;
        }
        Statement::Func {
            name,
            params,
            body,
            result,
        } => {
            out.extend_from_slice(name.bytes())?;
            for param in params {
                out.push(b' ')?;
                out.extend_from_slice(param.bytes())?;
            }
            out.push(b':')?;
            for local in body {
                out.push(b' ')?;
                out.extend_from_slice(local.name.bytes())?;
                out.push(b'=')?;
                show(&local.value, out)?;
            }
            out.extend_from_slice(b" return ")?;
            show(result, out)?;
        }
    }
    out.push(b'\n')?;
    Ok(())
}

/// The statements of a file, or the name of the fault.
fn shown(alloc: Global, text: &[u8]) -> Result<Vec<u8>, AllocError> {
    let mut out = Vec::new(alloc);
    match read_file(alloc, text) {
        Ok(File { statements }) => {
            for statement in &statements {
                show_statement(statement, &mut out)?;
            }
        }
        Err(_) => out.extend_from_slice(b"fault")?,
    }
    Ok(out)
}

/// A text, and its statements.
const STATEMENTS: [(&[u8], &[u8]); 17] = [
    (b"", b""),
    (b"# nothing, to the end", b""),
    (b"x = \"a\";", b"x=\"a\"\n"),
    (b"x=y;#c\nexport z\r\n=\t w ;\r\n", b"x=y\nexport z=w\n"),
    (b"import 'a b.grm' as m;", b"a b.grm as m\n"),
    (b"func f[] { return \"a\"; }", b"f: return \"a\"\n"),
    (
        b"export func f[a, b] { c = a; d = c b; return d; }",
        b"f a b: c=a d=(& c b) return d\n",
    ),
    (b"Optimize = Invert[x];", b"Optimize=Invert[x;]\n"),
    (
        b"exports = as_; _9 = returned;",
        b"exports=as_\n_9=returned\n",
    ),
    (b"x = \"\";", b"x=\"\"\n"),
    (
        b"x = \"\\n\\t\\r\\\"\\\\\\[\\]\\'\";",
        b"x=\"\n\t\r\"\\[]'\"\n",
    ),
    (b"x = \"[65][0x41][0x4a][7][0xF]\";", b"x=\"AAJ\x07\x0f\"\n"),
    (b"x = \"[BOS]a[EOS]\";", b"x=\"^a$\"\n"),
    (b"x = \"\xc8[255];#'\";", b"x=\"\xc8\xff;#'\"\n"),
    (b"x = a <.5> <5.> <0>;", b"x=<0><50000><5000>a\n"),
    (b"x = a <429496.7295>;", b"x=<4294967295>a\n"),
    (b"x = a <0.0001> | b <2>;", b"x=(| <1>a <20000>b)\n"),
];

#[test]
fn texts_have_their_statements(rt: HostRuntime) -> Result<(), AllocError> {
    let alloc = rt.alloc();
    for (text, wanted) in STATEMENTS {
        assert!(rt; shown(alloc, text)?.as_slice() == wanted);
    }
    Ok(())
}

/// A text, and its trees.
const TREES: [(&[u8], &[u8]); 29] = [
    (b"x = a | b @ c | d;", b"x=(| a (@ b c) d)\n"),
    (b"x = a @ b : c @ d;", b"x=(@ (@ a (: b c)) d)\n"),
    (b"x = a : b - c : d;", b"x=(: (: a (- b c)) d)\n"),
    (b"x = a - b <1> - c;", b"x=(- (- a <10000>b) c)\n"),
    (b"x = a b <1>;", b"x=<10000>(& a b)\n"),
    (b"x = a b* c;", b"x=(& a b* c)\n"),
    (b"x = a | b | c;", b"x=(| a b c)\n"),
    (b"x = a @ b @ c;", b"x=(@ (@ a b) c)\n"),
    (b"x = a : b : c;", b"x=(: (: a b) c)\n"),
    (b"x = a - b - c;", b"x=(- (- a b) c)\n"),
    (b"x = a b c;", b"x=(& a b c)\n"),
    (b"x = a b* <1> <2>;", b"x=<20000><10000>(& a b*)\n"),
    (b"x = a*+?{2,3}{0,0}*;", b"x=a*+?{2,3}{0,0}*\n"),
    (b"x = (a | b) | c;", b"x=(| (| a b) c)\n"),
    (b"x = a | (b | c);", b"x=(| a (| b c))\n"),
    (b"x = a (b c);", b"x=(& a (& b c))\n"),
    (b"x = a - (b - c);", b"x=(- a (- b c))\n"),
    (b"x = (a : b) - c;", b"x=(- (: a b) c)\n"),
    (b"x = (a | b)+ \"c\"?;", b"x=(& (| a b)+ \"c\"?)\n"),
    (b"x = ((a <1>)) <2>;", b"x=<20000><10000>a\n"),
    (b"x = ((a));", b"x=a\n"),
    (b"x = f[];", b"x=f[]\n"),
    (b"x = f[a, 'x'];", b"x=f[a;'x';]\n"),
    (b"x = f ['x', a | b, g[c]];", b"x=f['x';(| a b);g[c;];]\n"),
    (b"x = m.n o;", b"x=(& m.n o)\n"),
    (b"x = m . f [a] g;", b"x=(& m.f[a;] g)\n"),
    (b"x = f[a]* : m.n+;", b"x=(: f[a;]* m.n+)\n"),
    (b"x = \"a\"\"b\";", b"x=(& \"a\" \"b\")\n"),
    (b"x = a(b)c;", b"x=(& a b c)\n"),
];

#[test]
fn expressions_have_their_trees(rt: HostRuntime) -> Result<(), AllocError> {
    let alloc = rt.alloc();
    for (text, wanted) in TREES {
        assert!(rt; shown(alloc, text)?.as_slice() == wanted);
    }
    Ok(())
}

/// A text, and its first fault.
const FAULTS: [(&[u8], ReadFault); 26] = [
    (b"x = \"a", ReadFault::BadLexeme { at: 4 }),
    (b"x = \"a\n\";", ReadFault::BadLexeme { at: 4 }),
    (b"x = \"[0]\";", ReadFault::BadLexeme { at: 4 }),
    (b"x = \"[256]\";", ReadFault::BadLexeme { at: 4 }),
    (b"x = \"[0x00]\";", ReadFault::BadLexeme { at: 4 }),
    (b"x = \"[0x100]\";", ReadFault::BadLexeme { at: 4 }),
    (b"x = \"[bos]\";", ReadFault::BadLexeme { at: 4 }),
    (b"x = \"]\";", ReadFault::BadLexeme { at: 4 }),
    (b"x = \"\\a\";", ReadFault::BadLexeme { at: 4 }),
    (b"x = a{1,12345};", ReadFault::BadLexeme { at: 8 }),
    (b"import '' as m;", ReadFault::BadLexeme { at: 7 }),
    (b"import 'a\n' as m;", ReadFault::BadLexeme { at: 7 }),
    (b"x = a\0;", ReadFault::BadLexeme { at: 5 }),
    (b"x = \xc8;", ReadFault::BadLexeme { at: 4 }),
    (b"x = $;", ReadFault::BadLexeme { at: 4 }),
    (b"x = a <0.00001>;", ReadFault::BadWeight { at: 6 }),
    (b"x = a <429496.7296>;", ReadFault::BadWeight { at: 6 }),
    (b"x = a <>;", ReadFault::BadWeight { at: 6 }),
    (b"x = a <.>;", ReadFault::BadWeight { at: 6 }),
    (b"x = a <1\n>;", ReadFault::BadWeight { at: 6 }),
    (b"x = a <1", ReadFault::BadWeight { at: 6 }),
    (b"x = a <4294967296>;", ReadFault::BadWeight { at: 6 }),
    (b"x = a <1 >;", ReadFault::BadWeight { at: 6 }),
    // by place, and before syntax
    (b"x = ; <> $", ReadFault::BadWeight { at: 6 }),
    (b"x = ; $ <>", ReadFault::BadLexeme { at: 6 }),
    (b"; \"", ReadFault::BadLexeme { at: 2 }),
];

#[test]
fn the_first_fault_is_answered(rt: HostRuntime) -> Result<(), AllocError> {
    let alloc = rt.alloc();
    for (text, wanted) in FAULTS {
        match read_file(alloc, text) {
            Ok(_) => assert!(rt; false),
            Err(fault) => assert!(rt; fault == wanted),
        }
    }
    Ok(())
}

/// A text, and the number of the first statement that isn't whole.
const NOT_WHOLE: [(&[u8], u64); 47] = [
    (b"x = ;", 1),
    (b"x = a; y = ;", 2),
    (b"x = a; y = b", 2),
    (b"x = a; y = b; z", 3),
    (b";", 1),
    (b"x = a;;", 2),
    (b"x a;", 1),
    (b"x : a;", 1),
    (b"= a;", 1),
    (b"export = a;", 1),
    (b"x = as;", 1),
    (b"x = func[a];", 1),
    (b"import 'a' as return;", 1),
    (b"import a as m;", 1),
    (b"import 'a';", 1),
    (b"import 'a' as m", 1),
    (b"export import 'a' as m;", 1),
    (b"export export x = a;", 1),
    (b"func f { return a; }", 1),
    (b"func f[a,] { return a; }", 1),
    (b"func f[,] { return a; }", 1),
    (b"func f[a b] { return a; }", 1),
    (b"func f[export] { return a; }", 1),
    (b"func f['a'] { return a; }", 1),
    (b"func f[] { a = b; }", 1),
    (b"func f[] { return a }", 1),
    (b"func f[] { return a; b = c; }", 1),
    (b"func f[] { return a;", 1),
    (b"func f[] { export a = b; return a; }", 1),
    (b"x = m.f[a].g;", 1),
    (b"x = m.n.o;", 1),
    (b"x = m.;", 1),
    (b"x = m.export;", 1),
    (b"x = f[a][b];", 1),
    (b"x = f[a,];", 1),
    (b"x = f[,a];", 1),
    (b"x = f[a;", 1),
    (b"x = f['a' b];", 1),
    (b"x = 'a';", 1),
    (b"x = a{3,2};", 1),
    (b"x = a{2};", 1),
    (b"x = a{2,3;", 1),
    (b"x = (a;", 1),
    (b"x = a);", 1),
    (b"x = a |;", 1),
    (b"x = a - <1>;", 1),
    (b"x = *a;", 1),
];

#[test]
fn a_statement_that_is_not_whole_has_its_number(rt: HostRuntime) -> Result<(), AllocError> {
    let alloc = rt.alloc();
    for (text, statement) in NOT_WHOLE {
        match read_file(alloc, text) {
            Ok(_) => assert!(rt; false),
            Err(fault) => assert!(rt; fault == ReadFault::Syntax { statement }),
        }
    }
    Ok(())
}

/// A text with so many brackets behind one another.
fn nested(alloc: Global, front: &[u8], count: usize, back: &[u8]) -> Result<Vec<u8>, AllocError> {
    let mut text = Vec::from_slice(alloc, front)?;
    for _ in 0..count {
        text.push(b'(')?;
    }
    text.extend_from_slice(back)?;
    for _ in 0..count {
        text.push(b')')?;
    }
    text.extend_from_slice(b";")?;
    Ok(text)
}

/// What stands before so many brackets and after them, and the fault.
const NESTED: [(&[u8], usize, &[u8], Option<ReadFault>); 7] = [
    (b"x = ", 128, b"a", None),
    (b"x = (a) ", 128, b"a", None),
    (b"x = ", 129, b"a", Some(ReadFault::TooDeep { at: 132 })),
    // a depth is no fault of syntax, and comes before one
    (b"; ", 129, b"", Some(ReadFault::TooDeep { at: 130 })),
    (b"x = ", 128, b"", Some(ReadFault::Syntax { statement: 1 })),
    (b"x = f[", 128, b"a", Some(ReadFault::TooDeep { at: 133 })),
    (b"x = ) ", 129, b"{", Some(ReadFault::TooDeep { at: 134 })),
];

#[test]
fn brackets_are_open_to_a_limit(rt: HostRuntime) -> Result<(), AllocError> {
    let alloc = rt.alloc();
    for (front, count, back, wanted) in NESTED {
        let text = nested(alloc, front, count, back)?;
        match read_file(alloc, &text) {
            Ok(_) => assert!(rt; wanted.is_none()),
            Err(fault) => assert!(rt; wanted == Some(fault)),
        }
    }
    Ok(())
}
