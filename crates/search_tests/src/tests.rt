// Small transducers with lines, and their least readings worked out by hand.

ghost use Rattle.std.specs.Prelude.{◌∷◌, [], IsTrue, IfOk, All};
ghost use Rattle.weighted_relations.specs.Relations.{IsAcceptor, IsLabel, IsUnmarked};
ghost use Rattle.weighted_relations.specs.Machines.{Reads};
ghost use Rattle.state_tuples.specs.Cascades.{first_tuple};
ghost use Rattle.least_path.specs.Starting.{WritesBytes};

use crate::{Reading, least_of};
use fst_core::{Fst, concat, cross, star, text, union, weighted};
use least_path::{Least, least, least_by_queue};
use state_tuples::{Cascade, Private};
use std::alloc::{AllocError, Global};
use std::process::Abort;
use std::test::Fail;

mod agreement;
mod giving_up;
mod often;

/// The labels of a line, without its bytes 0.
fn labels_of(alloc: Global, line: &[u8]) -> Result<Vec<u16>, AllocError>
    ensures { IfOk result (λ v. All IsLabel v.items) }
{
    let mut labels = Vec::new(alloc);
    for b in line {
        if *b != 0 {
            labels.push(*b as u16)?;
        }
    }
    Ok(labels)
}

/// `"line"`
fn plain(alloc: Global, line: &[u8]) -> Result<Fst, AllocError>
    ensures { IfOk result (λ m. IsAcceptor (Reads m)) }
{
    text(alloc, &labels_of(alloc, line)?)
}

/// `("input" : "output") <weight>`
fn pair(alloc: Global, input: &str, output: &str, weight: u32) -> Result<Fst, AllocError> {
    let crossed = cross(
        alloc,
        &plain(alloc, input.as_bytes())?,
        &plain(alloc, output.as_bytes())?,
    )?;
    weighted(alloc, &crossed, weight)
}

/// Whether no arc has a mark.
fn has_no_mark(rule: &Fst) -> bool
    ensures { IsTrue result → IsUnmarked (Reads rule.now) }
{
    for state in 0..rule.len() {
        for arc in rule.arcs_of(state) {
            if arc.input > 255 || arc.output > 255 {
                return false;
            }
        }
    }
    true
}

/// An input, an output and a weight.
type Member<'a> = (&'a str, &'a str, u32);

/// A rule, a line, and the weight and the output of its least reading. The rule is one of the heads,
/// within so many stars, and then one of the tails.
type Case<'a> = (
    &'a [Member<'a>],
    usize,
    &'a [Member<'a>],
    &'a str,
    Option<(u128, &'a str)>,
);

/// One of the members.
fn one_of(alloc: Global, members: &[Member]) -> Result<Fst, AllocError> {
    let mut parts = Vec::new(alloc);
    for (input, output, weight) in members {
        parts.push(pair(alloc, input, output, *weight)?)?;
    }
    union(alloc, &parts)
}

/// One of the heads, within so many stars, and then one of the tails.
fn rule_of(
    alloc: Global,
    heads: &[Member],
    stars: usize,
    tails: &[Member],
) -> Result<Fst, AllocError> {
    let mut head = one_of(alloc, heads)?;
    for _ in 0..stars {
        head = star(alloc, &head)?;
    }
    concat(alloc, &[head, one_of(alloc, tails)?])
}

/// A weight and an output as they are answered.
fn answer_of(alloc: Global, want: Option<(u128, &str)>) -> Result<Option<Least>, AllocError> {
    match want {
        Some((weight, output)) => Ok(Some(Least {
            weight,
            output: Vec::from_slice(alloc, output.as_bytes())?,
        })),
        None => Ok(None),
    }
}

/// An answer of the search as the plain program gives it.
fn as_reading(alloc: Global, answer: &Option<Least>) -> Result<Option<Reading>, AllocError> {
    let Some(found) = answer else {
        return Ok(None);
    };
    let mut labels = Vec::new(alloc);
    for b in &found.output {
        labels.push(*b as u16)?;
    }
    Ok(Some(Reading {
        weight: found.weight,
        labels,
    }))
}

/// The cascade of one part.
fn cascade_of(alloc: Global, rule: Fst) -> Result<Cascade, AllocError>
    requires { IsUnmarked (Reads rule) }
    ensures { IfOk result (λ c. WritesBytes (c ∷ []) (first_tuple c)) }
{
    let mut parts = Vec::new(alloc);
    parts.push(rule)?;
    let cascade = Cascade::looking_ahead(alloc, 3, parts)?;
    Ok(cascade)
}

/// The cascade of two parts.
fn cascade_of_two(alloc: Global, first: Fst, second: Fst) -> Result<Cascade, AllocError>
    requires { IsUnmarked (Reads second) }
    ensures { IfOk result (λ c. WritesBytes (c ∷ []) (first_tuple c)) }
{
    let mut parts = Vec::new(alloc);
    parts.push(first)?;
    parts.push(second)?;
    let cascade = Cascade::looking_ahead(alloc, 4, parts)?;
    Ok(cascade)
}

/// The least reading of a cascade at the inputs of a source.
fn least_at(alloc: Global, source: &Fst, cascade: &Cascade) -> Result<Option<Least>, AllocError>
    requires { WritesBytes (cascade.now ∷ []) (first_tuple cascade.now) }
{
    let mut x = Private::new(alloc, cascade);
    least(alloc, source, &mut x, &cascade.start())
}

/// The same by the queue alone.
fn least_by_queue_at(
    alloc: Global,
    source: &Fst,
    cascade: &Cascade,
) -> Result<Option<Least>, AllocError>
    requires { WritesBytes (cascade.now ∷ []) (first_tuple cascade.now) }
{
    let mut x = Private::new(alloc, cascade);
    least_by_queue(alloc, source, &mut x, &cascade.start())
}

/// Compares the answers of all searches to a case. A line with a byte 0 is no source.
fn check_case(rt: &impl Abort, alloc: Global, case: &Case) -> Result<(), Fail> {
    let (heads, stars, tails, line, want) = *case;
    let rule = rule_of(alloc, heads, stars, tails)?;
    assert!(rt; has_no_mark(&rule));
    let want = answer_of(alloc, want)?;
    let plainly = least_of(alloc, &rule, line.as_bytes())?;
    assert_eq!(rt; plainly, as_reading(alloc, &want)?, "at {line:?}");
    if !line.as_bytes().contains(&0) {
        let cascade = cascade_of(alloc, rule)?;
        let source = plain(alloc, line.as_bytes())?;
        assert_eq!(rt; least_at(alloc, &source, &cascade)?, want, "at {line:?}");
        assert_eq!(rt;
            least_by_queue_at(alloc, &source, &cascade)?,
            want,
            "at {line:?}"
        );
    }
    Ok(())
}

#[test]
fn answers_the_least(rt: HostRuntime) -> Result<(), Fail> {
    let end: &[Member] = &[("", "", 0)];
    let one: &[Member] = &[("a", "b", 0)];
    let empties: &[Member] = &[("", "", 0), ("", "", 0), ("", "", 1)];
    let writes: &[Member] = &[("", "x", 0)];
    let many: &[Member] = &[("a", "b", 3), ("a", "cc", 3), ("", "q", 1)];
    let light: &[Member] = &[("a", "b", 1)];
    let last: &[Member] = &[("", "", 7)];
    let late: &[Member] = &[("a", "x", 0), ("ab", "y", 4)];
    let ends: &[Member] = &[("", "", 0), ("b", "d", 4), ("c", "c", 0)];
    let cases: [Case; 24] = [
        (one, 0, end, "a", Some((0, "b"))),
        (one, 0, end, "", None),
        (one, 0, end, "aa", None),
        (one, 0, end, "\0", None),
        (one, 1, end, "a\0", None),
        (one, 1, end, "", Some((0, ""))),
        (one, 2, end, "aaa", Some((0, "bbb"))),
        // the weight comes first, then the length, then the bytes
        (
            &[("a", "x", 2), ("a", "yy", 1)],
            0,
            end,
            "a",
            Some((1, "yy")),
        ),
        (
            &[("a", "aaa", 3), ("a", "zz", 3)],
            0,
            end,
            "a",
            Some((3, "zz")),
        ),
        (
            &[("a", "zy", 0), ("a", "yz", 0)],
            0,
            end,
            "a",
            Some((0, "yz")),
        ),
        (&[("a", "b", 5), ("a", "b", 5)], 0, end, "a", Some((5, "b"))),
        (
            &[("a", "é", 0), ("a", "zz", 0)],
            0,
            end,
            "a",
            Some((0, "zz")),
        ),
        // stars of what reads nothing
        (writes, 1, end, "", Some((0, ""))),
        (writes, 1, end, "a", None),
        (end, 2, end, "", Some((0, ""))),
        (end, 2, end, "a", None),
        (empties, 1, one, "a", Some((0, "b"))),
        (many, 1, end, "aa", Some((6, "bb"))),
        // weights at the end, and ways that come to no end
        (light, 1, last, "", Some((7, ""))),
        (light, 1, last, "aa", Some((9, "bb"))),
        (late, 0, ends, "ab", Some((4, "y"))),
        (late, 0, ends, "abc", Some((4, "yc"))),
        (late, 0, ends, "ac", Some((0, "xc"))),
        (late, 0, ends, "b", None),
    ];
    for case in &cases {
        check_case(&rt, rt.alloc(), case)?;
    }
    Ok(())
}

#[test]
fn reads_a_long_line(rt: HostRuntime) -> Result<(), Fail> {
    let alloc = rt.alloc();
    let rule = star(alloc, &one_of(alloc, &[("a", "b", 1), ("aa", "c", 1)])?)?;
    assert!(rt; has_no_mark(&rule));
    let line = vec![in alloc; b'a'; 3001]?;
    // one `a` alone and 1,500 twos: the one first, since `b` comes before `c`
    let mut output = vec![in alloc; b'b'; 1]?;
    output.extend_from_slice(&vec![in alloc; b'c'; 1500]?)?;
    let want = Some(Least {
        weight: 1501,
        output,
    });
    assert!(rt; least_of(alloc, &rule, &line)? == as_reading(alloc, &want)?);
    let source = plain(alloc, &line)?;
    let cascade = cascade_of(alloc, rule)?;
    assert!(rt; least_at(alloc, &source, &cascade)? == want);
    assert!(rt; least_by_queue_at(alloc, &source, &cascade)? == want);
    Ok(())
}
