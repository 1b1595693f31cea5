//! Small transducers, and what the ways from their states read next.

use crate::machines::{End, Step, machine};
use fst_core::Fst;
use look_ahead::LookAhead;
use std::alloc::{AllocError, Global};
use std::test::Fail;

/// A transducer of six states, and the set of each of its states: the letters that may be read next, and `$` where a way that reads
/// nothing may end.
struct Row {
    name: &'static str,
    steps: &'static [Step],
    ends: &'static [End],
    expected: &'static str,
}

const ROWS: [Row; 5] = [
    Row {
        name: "two classes that open with a text",
        steps: &[
            (0, b'-', b't', 1, 1),
            (1, b'-', b'n', 2, 2),
            (2, b'1', b'1', 4, 3),
            (0, b'-', b't', 8, 4),
            (4, b'-', b'w', 16, 5),
            (5, b'a', b'b', 32, 3),
        ],
        ends: &[(3, 64)],
        expected: "1a 1 1 $ a a ",
    },
    Row {
        name: "empty arcs in a circle",
        steps: &[
            (0, b'-', b'x', 1, 1),
            (1, b'-', b'y', 1, 2),
            (2, b'-', b'-', 0, 0),
            (2, b'b', b'-', 0, 3),
        ],
        ends: &[(1, 0), (3, 7)],
        expected: "$b $b $b $   ",
    },
    Row {
        name: "arcs from higher to lower states",
        steps: &[
            (5, b'-', b'x', 0, 4),
            (4, b'-', b'y', 0, 3),
            (3, b'-', b'-', 0, 2),
            (2, b'c', b'-', 0, 1),
            (1, b'-', b'-', 0, 0),
        ],
        ends: &[(0, 0)],
        expected: "$ $ c c c c ",
    },
    Row {
        name: "up and down",
        steps: &[
            (0, b'-', b'x', 0, 5),
            (5, b'-', b'y', 0, 1),
            (1, b'-', b'-', 0, 4),
            (4, b'-', b'-', 0, 2),
            (2, b'-', b'-', 0, 3),
            (3, b'd', b'-', 0, 3),
            (4, b'e', b'-', 0, 0),
        ],
        ends: &[(3, 0)],
        expected: "$de $de $d $d $de $de ",
    },
    Row {
        name: "an arc that leads to no end counts as well",
        steps: &[(0, b'a', b'a', 0, 1), (0, b'b', b'-', 0, 2)],
        ends: &[(1, 0), (0, 0)],
        expected: "$ab $     ",
    },
];

/// The sets of the states, a blank after each.
fn sets_of(alloc: Global, m: &Fst) -> Result<Vec<u8>, AllocError> {
    let ahead = LookAhead::new(alloc, m)?;
    let mut text = Vec::new(alloc);
    for state in 0..m.len() {
        put_set(&ahead, state, &mut text)?;
        text.push(b' ')?;
    }
    Ok(text)
}

fn put_set(ahead: &LookAhead, state: usize, text: &mut Vec<u8>) -> Result<(), AllocError> {
    if ahead.may(state, 0) {
        text.push(b'$')?;
    }
    for label in 1..256 {
        if ahead.may(state, label) {
            text.push(label as u8)?;
        }
    }
    Ok(())
}

#[test]
fn sets_have_what_is_read_next(rt: HostRuntime) -> Result<(), Fail> {
    let alloc = rt.alloc();
    for row in &ROWS {
        let made = machine(alloc, 6, row.steps, row.ends)?;
        let m = made.expect(&rt, row.name);
        assert!(rt;
            sets_of(alloc, &m)?.as_slice() == row.expected.as_bytes(),
            "{}",
            row.name
        );
    }
    Ok(())
}
