//! Small transducers, and what they become when they read before they write.

use crate::machines::{End, Step, machine};
use crate::readings::readings;
use fst_core::Fst;
use reading_first::read_first;
use std::alloc::{AllocError, Global};
use std::test::Fail;

/// A transducer of six states, the greatest number of states of the shaped one, and what this has: its states, its arcs that read
/// nothing, and the readings of its paths of up to seven arcs. Where there is none, `states` is 0.
struct Row {
    name: &'static str,
    steps: &'static [Step],
    ends: &'static [End],
    limit: usize,
    states: usize,
    silent: usize,
    expected: &'static str,
}

const HALF: u64 = 1 << 53;

const ROWS: [Row; 8] = [
    Row {
        name: "two classes that open with a text",
        steps: &[
            (0, b'-', b't', 1, 1),
            (1, b'-', b'n', 2, 2),
            (2, b'1', b'1', 4, 3),
            (0, b'-', b't', 8, 4),
            (4, b'-', b'w', 16, 5),
            (5, b'a', b'b', 32, 3),
        ],
        ends: &[(3, 64)],
        limit: 9,
        states: 6,
        silent: 4,
        expected: "1|tn1|71 a|twb|120 ",
    },
    Row {
        name: "one state over the limit",
        steps: &[
            (0, b'-', b't', 1, 1),
            (1, b'-', b'n', 2, 2),
            (2, b'1', b'1', 4, 3),
            (0, b'-', b't', 8, 4),
            (4, b'-', b'w', 16, 5),
            (5, b'a', b'b', 32, 3),
        ],
        ends: &[(3, 64)],
        limit: 5,
        states: 0,
        silent: 0,
        expected: "",
    },
    Row {
        name: "nothing is chosen",
        steps: &[
            (0, b'-', b't', 1, 1),
            (1, b'a', b'a', 2, 2),
            (2, b'-', b'u', 4, 3),
        ],
        ends: &[(3, 8)],
        limit: 9,
        states: 4,
        silent: 2,
        expected: "a|tau|15 ",
    },
    Row {
        name: "a text before an end, or before more",
        steps: &[
            (0, b'a', b'a', 1, 1),
            (1, b'b', b'b', 1, 5),
            (1, b'-', b'x', 2, 2),
            (2, b'-', b'-', 4, 3),
            (3, b'-', b'y', 8, 4),
            (4, b'b', b'b', 16, 5),
        ],
        ends: &[(1, 32), (4, 64), (5, 0)],
        limit: 9,
        states: 7,
        silent: 4,
        expected: "ab|ab|2 ab|axyb|31 a|axy|79 a|a|33 ",
    },
    Row {
        name: "an end behind no text",
        steps: &[(0, b'-', b'-', 1, 1), (0, b'a', b'b', 2, 1)],
        ends: &[(0, 4), (1, 8)],
        limit: 9,
        states: 3,
        silent: 1,
        expected: "a|b|10 ||4 ||9 ",
    },
    Row {
        name: "a cycle that reads nothing",
        steps: &[
            (0, b'-', b'-', 0, 1),
            (1, b'-', b'-', 0, 0),
            (1, b'a', b'a', 0, 2),
        ],
        ends: &[(2, 0)],
        limit: 99,
        states: 0,
        silent: 0,
        expected: "",
    },
    Row {
        name: "a weight that is just too great",
        steps: &[
            (0, b'-', b'x', HALF, 1),
            (0, b'a', b'a', 0, 1),
            (1, b'b', b'b', HALF, 1),
        ],
        ends: &[(1, 0)],
        limit: 99,
        states: 0,
        silent: 0,
        expected: "",
    },
    Row {
        name: "the greatest weight",
        steps: &[
            (0, b'-', b'x', HALF - 1, 1),
            (0, b'a', b'a', 0, 2),
            (1, b'b', b'b', HALF, 2),
        ],
        ends: &[(2, 0)],
        limit: 99,
        states: 3,
        silent: 1,
        expected: "a|a|0 b|xb|18014398509481983 ",
    },
];

/// The number of all arcs that read nothing.
fn count_silent(m: &Fst) -> usize {
    let mut count = 0usize;
    for s in 0..m.len() {
        for arc in m.arcs_of(s) {
            if arc.input == 0 {
                count = count.saturating_add(1);
            }
        }
    }
    count
}

/// What came of a transducer.
#[derive(Drop)]
struct Made {
    states: usize,
    silent: usize,
    readings: String,
}

fn shaped(alloc: Global, found: Option<Fst>) -> Result<Made, AllocError> {
    match found {
        Some(m) => Ok(Made {
            states: m.len(),
            silent: count_silent(&m),
            readings: readings(alloc, &m, 7)?,
        }),
        None => Ok(Made {
            states: 0,
            silent: 0,
            readings: String::new(alloc),
        }),
    }
}

#[test]
fn what_is_inserted_comes_behind_what_is_read(rt: HostRuntime) -> Result<(), Fail> {
    let alloc = rt.alloc();
    for row in &ROWS {
        let a = machine(alloc, 6, row.steps, row.ends)?.expect(&rt, row.name);
        let made = shaped(alloc, read_first(alloc, &a, row.limit)?)?;
        assert_eq!(rt; made.states, row.states);
        assert_eq!(rt; made.silent, row.silent);
        assert_eq!(rt; made.readings.as_str(), row.expected);
    }
    Ok(())
}
