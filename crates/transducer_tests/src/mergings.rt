//! Small transducers, and what is left of them where arcs are merged.

use crate::machines::{End, Step, machine};
use crate::readings::readings;
use fst_core::Fst;
use merged_arcs::{Outcome, merge_arcs};
use std::test::Fail;

/// A transducer of five states, the greatest number of states of the merged one, what becomes of it, and what the answer has: its
/// states, its arcs, and the readings of its paths of up to four arcs.
struct Row {
    name: &'static str,
    steps: &'static [Step],
    ends: &'static [End],
    most: usize,
    outcome: Outcome,
    states: usize,
    arcs: usize,
    expected: &'static str,
}

const ROWS: [Row; 11] = [
    Row {
        name: "guesses of which one goes on",
        steps: &[
            (0, b'a', b'a', 0, 1),
            (0, b'a', b'a', 0, 2),
            (0, b'a', b'a', 0, 3),
            (1, b'b', b'b', 0, 4),
        ],
        ends: &[(4, 0)],
        most: 3,
        outcome: Outcome::Merged,
        states: 3,
        arcs: 2,
        expected: "ab|ab|0 ",
    },
    Row {
        name: "one state over the greatest number",
        steps: &[
            (0, b'a', b'a', 0, 1),
            (0, b'a', b'a', 0, 2),
            (0, b'a', b'a', 0, 3),
            (1, b'b', b'b', 0, 4),
        ],
        ends: &[(4, 0)],
        most: 2,
        outcome: Outcome::TooMany,
        states: 5,
        arcs: 4,
        expected: "ab|ab|0 ",
    },
    Row {
        name: "other outputs and weights",
        steps: &[
            (0, b'a', b'a', 0, 1),
            (0, b'a', b'b', 0, 2),
            (0, b'a', b'a', 5, 3),
            (0, b'a', b'a', 0, 4),
        ],
        ends: &[(1, 0), (2, 0), (3, 0), (4, 0)],
        most: 9,
        outcome: Outcome::Merged,
        states: 4,
        arcs: 3,
        expected: "a|a|0 a|a|5 a|b|0 ",
    },
    Row {
        name: "two final weights",
        steps: &[(0, b'a', b'a', 0, 1), (0, b'a', b'a', 0, 2)],
        ends: &[(1, 0), (2, 7)],
        most: 9,
        outcome: Outcome::Differs,
        states: 5,
        arcs: 2,
        expected: "a|a|0 a|a|7 ",
    },
    Row {
        name: "one final weight of a state that is not the first",
        steps: &[(0, b'a', b'a', 0, 1), (0, b'a', b'a', 0, 2)],
        ends: &[(2, 7)],
        most: 9,
        outcome: Outcome::Merged,
        states: 2,
        arcs: 1,
        expected: "a|a|7 ",
    },
    Row {
        name: "merged already",
        steps: &[
            (0, b'a', b'a', 0, 1),
            (0, b'a', b'b', 0, 1),
            (1, b'a', b'a', 0, 1),
        ],
        ends: &[(1, 0)],
        most: 9,
        outcome: Outcome::Already,
        states: 5,
        arcs: 3,
        expected: "aaaa|aaaa|0 aaaa|baaa|0 aaa|aaa|0 aaa|baa|0 aa|aa|0 aa|ba|0 a|a|0 a|b|0 ",
    },
    Row {
        name: "a loop beside a way out",
        steps: &[
            (0, b'a', b'a', 0, 0),
            (0, b'a', b'a', 0, 1),
            (1, b'b', b'b', 0, 2),
        ],
        ends: &[(2, 0)],
        most: 9,
        outcome: Outcome::Merged,
        states: 3,
        arcs: 3,
        expected: "aaab|aaab|0 aab|aab|0 ab|ab|0 ",
    },
    Row {
        name: "empty labels are as others",
        steps: &[
            (0, b'-', b'-', 1, 1),
            (0, b'-', b'-', 1, 2),
            (1, b'a', b'x', 0, 3),
            (2, b'b', b'-', 2, 3),
        ],
        ends: &[(3, 0)],
        most: 9,
        outcome: Outcome::Merged,
        states: 3,
        arcs: 3,
        expected: "a|x|1 b||3 ",
    },
    Row {
        name: "two arcs that are equal",
        steps: &[(0, b'a', b'a', 0, 1), (0, b'a', b'a', 0, 1)],
        ends: &[(1, 0)],
        most: 9,
        outcome: Outcome::Merged,
        states: 2,
        arcs: 1,
        expected: "a|a|0 ",
    },
    Row {
        name: "the same set by two ways",
        steps: &[
            (0, b'a', b'a', 0, 2),
            (0, b'a', b'a', 0, 1),
            (0, b'b', b'b', 0, 1),
            (0, b'b', b'b', 0, 2),
            (1, b'c', b'c', 0, 3),
        ],
        ends: &[(3, 4)],
        most: 9,
        outcome: Outcome::Merged,
        states: 3,
        arcs: 3,
        expected: "ac|ac|4 bc|bc|4 ",
    },
    Row {
        name: "alike after a merge alone",
        steps: &[
            (0, b'a', b'a', 0, 1),
            (0, b'a', b'a', 0, 2),
            (1, b'b', b'b', 0, 3),
            (2, b'b', b'b', 0, 4),
        ],
        ends: &[(3, 0), (4, 0)],
        most: 9,
        outcome: Outcome::Merged,
        states: 3,
        arcs: 2,
        expected: "ab|ab|0 ",
    },
];

/// The number of all arcs.
fn count_arcs(m: &Fst) -> usize {
    let mut count = 0usize;
    for s in 0..m.len() {
        count = count.saturating_add(m.arcs_of(s).len());
    }
    count
}

fn is_same(one: Outcome, other: Outcome) -> bool {
    one == other
}

#[test]
fn arcs_that_are_alike_are_merged(rt: HostRuntime) -> Result<(), Fail> {
    let alloc = rt.alloc();
    for row in &ROWS {
        let a = machine(alloc, 5, row.steps, row.ends)?.expect(&rt, row.name);
        let merging = merge_arcs(alloc, a, row.most)?;
        assert!(rt; is_same(merging.outcome, row.outcome));
        assert_eq!(rt; merging.fst.len(), row.states);
        assert_eq!(rt; count_arcs(&merging.fst), row.arcs);
        assert_eq!(rt; readings(alloc, &merging.fst, 4)?.as_str(), row.expected);
    }
    Ok(())
}
