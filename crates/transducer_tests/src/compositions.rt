//! Compositions of small transducers, with the readings of their paths.

ghost use Rattle.std.specs.Prelude.{◌↔◌, ◌<◌, ◌^◌, All, IsTrue};

use crate::machines::{End, Step, machine};
use crate::readings::readings;
use compose_filter::{Filter, Move, Taken, compose, moves};
use fst_core::{Arc, ByInput, Fst, trim};
use std::alloc::{AllocError, Global};
use std::test::Fail;

/// The composition without its dead ends, where the weights are small.
fn composed(alloc: Global, a: &Fst, b: &Fst) -> Result<Option<Fst>, AllocError> {
    if a.top() < 1 << 53 && b.top() < 1 << 53 {
        let m = trim(alloc, &compose(alloc, a, b)?)?;
        Ok(Some(m))
    } else {
        Ok(None)
    }
}

/// Two transducers, the greatest number of arcs of a path, and the readings of their composition's paths.
struct Row {
    name: &'static str,
    first: &'static [Step],
    first_ends: &'static [End],
    second: &'static [Step],
    second_ends: &'static [End],
    arcs: u8,
    expected: &'static str,
}

const ROWS: [Row; 24] = [
    Row {
        name: "one label between",
        first: &[(0, b'a', b'b', 0, 1)],
        first_ends: &[(1, 0)],
        second: &[(0, b'b', b'c', 0, 1)],
        second_ends: &[(1, 0)],
        arcs: 4,
        expected: "a|c|0 ",
    },
    Row {
        name: "nothing between, with all weights",
        first: &[(0, b'a', b'-', 2, 1)],
        first_ends: &[(1, 1)],
        second: &[(0, b'-', b'z', 3, 1)],
        second_ends: &[(1, 1)],
        arcs: 4,
        expected: "a|z|7 ",
    },
    Row {
        name: "other labels",
        first: &[(0, b'a', b'b', 0, 1)],
        first_ends: &[(1, 0)],
        second: &[(0, b'c', b'd', 0, 1)],
        second_ends: &[(1, 0)],
        arcs: 4,
        expected: "",
    },
    Row {
        name: "two empty outputs and two empty inputs",
        first: &[(0, b'a', b'-', 0, 1), (1, b'b', b'-', 0, 2)],
        first_ends: &[(2, 0)],
        second: &[(0, b'-', b'x', 0, 1), (1, b'-', b'y', 0, 2)],
        second_ends: &[(2, 0)],
        arcs: 6,
        expected: "ab|xy|0 ",
    },
    Row {
        name: "empty outputs alone",
        first: &[(0, b'a', b'-', 0, 1)],
        first_ends: &[(1, 0)],
        second: &[],
        second_ends: &[(0, 0)],
        arcs: 4,
        expected: "a||0 ",
    },
    Row {
        name: "empty inputs alone",
        first: &[],
        first_ends: &[(0, 0)],
        second: &[(0, b'-', b'z', 0, 1)],
        second_ends: &[(1, 0)],
        arcs: 4,
        expected: "|z|0 ",
    },
    Row {
        name: "no arcs",
        first: &[],
        first_ends: &[(0, 2)],
        second: &[],
        second_ends: &[(0, 3)],
        arcs: 4,
        expected: "||5 ",
    },
    Row {
        name: "two arcs on each side",
        first: &[(0, b'a', b'b', 1, 1), (0, b'a', b'b', 2, 1)],
        first_ends: &[(1, 0)],
        second: &[(0, b'b', b'c', 0, 1), (0, b'b', b'c', 5, 1)],
        second_ends: &[(1, 0)],
        arcs: 4,
        expected: "a|c|1 a|c|2 a|c|6 a|c|7 ",
    },
    Row {
        name: "a cycle of empties in the first",
        first: &[(0, b'-', b'-', 1, 0), (0, b'a', b'a', 0, 1)],
        first_ends: &[(1, 0)],
        second: &[(0, b'a', b'b', 0, 1)],
        second_ends: &[(1, 0)],
        arcs: 3,
        expected: "a|b|0 a|b|1 a|b|2 ",
    },
    Row {
        name: "a cycle of empties in the second",
        first: &[(0, b'a', b'a', 0, 1)],
        first_ends: &[(1, 0)],
        second: &[(0, b'-', b'-', 1, 0), (0, b'a', b'b', 0, 1)],
        second_ends: &[(1, 0)],
        arcs: 3,
        expected: "a|b|0 a|b|1 a|b|2 ",
    },
    Row {
        name: "cycles of empties in both",
        first: &[(0, b'-', b'-', 1, 0), (0, b'a', b'a', 0, 1)],
        first_ends: &[(1, 0)],
        second: &[(0, b'-', b'-', 4, 0), (0, b'a', b'b', 0, 1)],
        second_ends: &[(1, 0)],
        arcs: 3,
        expected: "a|b|0 a|b|1 a|b|2 a|b|4 a|b|5 a|b|8 ",
    },
    Row {
        name: "one label read later",
        first: &[(0, b'a', b'x', 0, 1), (1, b'-', b'y', 0, 2)],
        first_ends: &[(2, 0)],
        second: &[(0, b'x', b'-', 0, 1), (1, b'y', b'p', 0, 2)],
        second_ends: &[(2, 0)],
        arcs: 4,
        expected: "a|p|0 ",
    },
    Row {
        name: "labels between that neither side shows",
        first: &[(0, b'-', b'x', 0, 1)],
        first_ends: &[(1, 0)],
        second: &[(0, b'x', b'-', 0, 1)],
        second_ends: &[(1, 0)],
        arcs: 4,
        expected: "||0 ",
    },
    Row {
        name: "empties before a label",
        first: &[(0, b'a', b'-', 0, 1), (1, b'b', b'y', 0, 2)],
        first_ends: &[(2, 0)],
        second: &[(0, b'-', b'p', 0, 1), (1, b'y', b'q', 0, 2)],
        second_ends: &[(2, 0)],
        arcs: 6,
        expected: "ab|pq|0 ",
    },
    Row {
        name: "final at the start in the first alone",
        first: &[(0, b'a', b'b', 0, 1)],
        first_ends: &[(0, 0), (1, 0)],
        second: &[(0, b'b', b'c', 0, 1)],
        second_ends: &[(1, 0)],
        arcs: 4,
        expected: "a|c|0 ",
    },
    Row {
        name: "final at the start in the second alone",
        first: &[(0, b'a', b'b', 0, 1)],
        first_ends: &[(1, 3)],
        second: &[(0, b'b', b'c', 0, 1)],
        second_ends: &[(0, 0), (1, 4)],
        arcs: 4,
        expected: "a|c|7 ",
    },
    Row {
        name: "the second writes more",
        first: &[(0, b'a', b'b', 0, 1)],
        first_ends: &[(1, 0)],
        second: &[(0, b'b', b'c', 0, 1), (1, b'-', b'd', 0, 2)],
        second_ends: &[(2, 0)],
        arcs: 4,
        expected: "a|cd|0 ",
    },
    Row {
        name: "the first reads more",
        first: &[(0, b'a', b'b', 0, 1), (1, b'c', b'-', 0, 2)],
        first_ends: &[(2, 0)],
        second: &[(0, b'b', b'd', 0, 1)],
        second_ends: &[(1, 0)],
        arcs: 4,
        expected: "ac|d|0 ",
    },
    Row {
        name: "empties after a label",
        first: &[(0, b'a', b'b', 0, 1), (1, b'c', b'-', 0, 2)],
        first_ends: &[(2, 0)],
        second: &[(0, b'b', b'd', 0, 1), (1, b'-', b'e', 0, 2)],
        second_ends: &[(2, 0)],
        arcs: 4,
        expected: "ac|de|0 ",
    },
    Row {
        name: "two labels between",
        first: &[(0, b'a', b'x', 0, 1), (0, b'a', b'y', 0, 1)],
        first_ends: &[(1, 0)],
        second: &[(0, b'x', b'p', 0, 1), (0, b'y', b'p', 0, 1)],
        second_ends: &[(1, 0)],
        arcs: 4,
        expected: "a|p|0 a|p|0 ",
    },
    Row {
        name: "arcs that read and write nothing",
        first: &[(0, b'-', b'-', 1, 1)],
        first_ends: &[(1, 0)],
        second: &[(0, b'-', b'-', 2, 1)],
        second_ends: &[(1, 0)],
        arcs: 4,
        expected: "||3 ",
    },
    Row {
        name: "loops",
        first: &[(0, b'a', b'a', 0, 0)],
        first_ends: &[(0, 0)],
        second: &[(0, b'a', b'b', 1, 0)],
        second_ends: &[(0, 0)],
        arcs: 3,
        expected: "aaa|bbb|3 aa|bb|2 a|b|1 ||0 ",
    },
    Row {
        name: "a loop that reads, and one that writes",
        first: &[(0, b'a', b'-', 0, 0)],
        first_ends: &[(0, 0)],
        second: &[(0, b'-', b'z', 0, 0)],
        second_ends: &[(0, 0)],
        arcs: 2,
        expected: "aa||0 a|z|0 a||0 |zz|0 |z|0 ||0 ",
    },
    Row {
        name: "arcs out of the order of their inputs",
        first: &[(0, b'a', b'y', 0, 1), (0, b'b', b'-', 0, 1)],
        first_ends: &[(1, 0)],
        second: &[
            (0, b'y', b'p', 0, 1),
            (0, b'-', b'q', 0, 2),
            (0, b'x', b'r', 0, 1),
            (2, b'-', b's', 0, 1),
            (0, b'y', b't', 0, 1),
        ],
        second_ends: &[(1, 0)],
        arcs: 4,
        expected: "a|p|0 a|t|0 b|qs|0 ",
    },
];

#[test]
fn compositions_read(rt: HostRuntime) -> Result<(), Fail> {
    let alloc = rt.alloc();
    for row in &ROWS {
        let first = machine(alloc, 3, row.first, row.first_ends)?.expect(&rt, row.name);
        let second = machine(alloc, 3, row.second, row.second_ends)?.expect(&rt, row.name);
        let m = composed(alloc, &first, &second)?.expect(&rt, row.name);
        assert_eq!(rt;
            readings(alloc, &m, row.arcs)?.as_str(),
            row.expected,
            "{}",
            row.name
        );
    }
    Ok(())
}

#[test]
fn dead_ends_are_left_out(rt: HostRuntime) -> Result<(), Fail> {
    let alloc = rt.alloc();
    let first = machine(
        alloc,
        4,
        &[
            (0, b'a', b'b', 0, 1),
            (0, b'a', b'd', 9, 2),
            (2, b'a', b'd', 9, 3),
        ],
        &[(1, 0)],
    )?
    .expect(&rt, "the parts fit");
    let second = machine(
        alloc,
        2,
        &[
            (0, b'b', b'c', 0, 1),
            (0, b'd', b'e', 0, 1),
            (1, b'd', b'e', 0, 1),
        ],
        &[(1, 0)],
    )?
    .expect(&rt, "the parts fit");
    let m = composed(alloc, &first, &second)?.expect(&rt, "small weights");
    assert_eq!(rt; m.len(), 2);
    assert_eq!(rt; m.top(), 0);
    assert_eq!(rt; readings(alloc, &m, 9)?.as_str(), "a|c|0 ");
    let none = composed(alloc, &second, &second)?.expect(&rt, "small weights");
    assert_eq!(rt; none.len(), 1);
    Ok(())
}

/// The moves of the arcs at the start of `a` with those at the start of `b`, where the weights are small.
fn first_moves(
    alloc: Global,
    a: &Fst,
    b: &Fst,
    f: Filter,
) -> Result<Option<Vec<Move>>, AllocError> {
    let left = a.arcs_of(a.start());
    if a.top() < 1 << 53 && b.top() < 1 << 53 && are_light(left) {
        let found = moves(alloc, left, a.start(), b, b.start(), f)?;
        Ok(Some(found))
    } else {
        Ok(None)
    }
}

fn are_light(row: &[Arc]) -> bool
    ensures { IsTrue result ↔ All (λ x. x.weight < 2 ^ 62) row.now }
{
    row.iter().all(|x| x.weight < 1 << 62)
}

/// How many arcs of the first state read a label.
fn first_readers(order: &ByInput, label: u16) -> Option<usize> {
    if order.as_fst().len() > 0 {
        Some(order.reading(0, label).len())
    } else {
        None
    }
}

#[test]
fn one_move_of_both(rt: HostRuntime) -> Result<(), Fail> {
    let alloc = rt.alloc();
    let f = machine(alloc, 2, &[(0, b'a', b'b', 5, 1)], &[(1, 0)])?.expect(&rt, "the parts fit");
    let g = machine(alloc, 2, &[(0, b'b', b'a', 5, 1)], &[(1, 0)])?.expect(&rt, "the parts fit");
    let found = first_moves(alloc, &f, &g, Filter::Open)?.expect(&rt, "small weights");
    let expected = Move {
        input: 97,
        output: 97,
        weight: 10,
        qa: 1,
        qb: 1,
        filter: Filter::Open,
        taken: Taken::Both,
    };
    assert_eq!(rt; found.as_slice(), [expected].as_slice());
    let order = ByInput::new(alloc, &g)?;
    assert_eq!(rt; first_readers(&order, 98), Some(1));
    assert_eq!(rt; first_readers(&order, 97), Some(0));
    Ok(())
}

/// A chain of so many states, with an arc that leads nowhere from the first, and at each a loop that reads nothing
/// where this is asked for.
fn chain(
    alloc: Global,
    states: usize,
    input: u16,
    output: u16,
    loops: bool,
) -> Result<Option<Fst>, AllocError> {
    let mut arcs = Vec::new(alloc);
    let mut finals = Vec::new(alloc);
    for s in 0..states {
        let mut row = Vec::new(alloc);
        if s + 1 < states {
            row.push(Arc {
                input,
                output,
                weight: 0,
                next: s + 1,
            })?;
        }
        if s == 0 {
            row.push(Arc {
                input,
                output,
                weight: 0,
                next: states,
            })?;
        }
        if loops {
            row.push(Arc {
                input: 0,
                output,
                weight: 0,
                next: s,
            })?;
        }
        arcs.push(row)?;
        finals.push(if s + 1 == states { Some(0) } else { None })?;
    }
    arcs.push(Vec::new(alloc))?;
    finals.push(None)?;
    Ok(Fst::new(0, arcs, finals))
}

#[test]
fn chains_of_ten_thousand_states(rt: HostRuntime) -> Result<(), Fail> {
    let alloc = rt.alloc();
    let first = chain(alloc, 10_000, 97, 98, false)?.expect(&rt, "the parts fit");
    let second = chain(alloc, 10_000, 98, 99, true)?.expect(&rt, "the parts fit");
    let m = composed(alloc, &first, &second)?.expect(&rt, "small weights");
    assert_eq!(rt; m.len(), 20_000);
    Ok(())
}
