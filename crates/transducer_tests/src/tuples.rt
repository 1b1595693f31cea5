//! Expansions of small cascades.

ghost use Rattle.std.specs.Prelude.{◌≤◌};
ghost use Rattle.state_tuples.specs.Calls.{IsKnown};

use crate::machines::{End, Step, label_of, machine_at};
use state_tuples::{Cascade, Expander, Private, Tuple, TupleArc};
use std::alloc::{AllocError, Global};
use std::test::Fail;

/// A part with states 0 to 2: its arcs, and its final states with their weights.
#[derive(Clone, Copy)]
struct Part {
    steps: &'static [Step],
    ends: &'static [End],
}

/// The answer at the start of a cascade, whose parts start at these states: its final weight, and its moves or those that read a
/// label, each with its labels, weight, filters and the states of its parts.
struct Row {
    parts: &'static [Part],
    starts: &'static [usize],
    label: Option<u8>,
    expected: &'static str,
}

const FIRST: Part = Part {
    steps: &[
        (0, b'-', b'x', 3, 0),
        (0, b'a', b'x', 1, 1),
        (0, b'b', b'-', 2, 1),
    ],
    ends: &[(0, 10), (1, 20)],
};

const SECOND: Part = Part {
    steps: &[
        (0, b'-', b'r', 6, 1),
        (0, b'x', b'p', 4, 1),
        (0, b'x', b'q', 5, 0),
    ],
    ends: &[(0, 100)],
};

const THIRD: Part = Part {
    steps: &[(0, b'-', b'z', 7, 1), (0, b'p', b's', 8, 0)],
    ends: &[(0, 1000), (1, 2000)],
};

const FOURTH: Part = Part {
    steps: &[
        (0, b'-', b'y', 10, 1),
        (0, b's', b'-', 9, 1),
        (0, b'z', b'w', 11, 0),
    ],
    ends: &[(0, 10_000)],
};

/// Its arcs are out of the order of their inputs, and one stands twice.
const TWICE: Part = Part {
    steps: &[
        (0, b'a', b'b', 5, 1),
        (0, b'a', b'b', 5, 1),
        (0, b'-', b'c', 2, 0),
        (0, b'a', b'a', 9, 2),
    ],
    ends: &[(0, 3)],
};

/// The second part with its arcs out of the order of their inputs.
const SECOND_OUT_OF_ORDER: Part = Part {
    steps: &[
        (0, b'x', b'p', 4, 1),
        (0, b'-', b'r', 6, 1),
        (0, b'x', b'q', 5, 0),
    ],
    ends: &[(0, 100)],
};

const ROWS: [Row; 11] = [
    Row {
        parts: &[TWICE],
        starts: &[0],
        label: None,
        expected: "3; -:c/2 0 0; a:a/9 0 2; a:b/5 0 1; a:b/5 0 1",
    },
    Row {
        parts: &[TWICE],
        starts: &[0],
        label: Some(b'a'),
        expected: "3; a:a/9 0 2; a:b/5 0 1; a:b/5 0 1",
    },
    Row {
        parts: &[FIRST],
        starts: &[0],
        label: Some(b'-'),
        expected: "10; -:x/3 0 0",
    },
    Row {
        parts: &[FIRST, SECOND],
        starts: &[0, 0],
        label: None,
        expected: "110; -:p/7 0 01; -:q/8 0 00; -:r/6 1 01; a:p/5 0 11; a:q/6 0 10; b:-/2 0 10",
    },
    Row {
        parts: &[FIRST, SECOND],
        starts: &[0, 1],
        label: None,
        expected: "none; b:-/2 0 11",
    },
    Row {
        parts: &[FIRST, SECOND_OUT_OF_ORDER],
        starts: &[0, 0],
        label: Some(b'-'),
        expected: "110; -:p/7 0 01; -:q/8 0 00; -:r/6 1 01",
    },
    Row {
        parts: &[FIRST, SECOND],
        starts: &[0, 0],
        label: Some(b'a'),
        expected: "110; a:p/5 0 11; a:q/6 0 10",
    },
    Row {
        parts: &[FIRST, SECOND, THIRD],
        starts: &[0, 0, 0],
        label: None,
        expected: "1110; -:s/15 0 010; -:z/7 2 001; a:s/13 0 110; b:-/2 0 100",
    },
    Row {
        parts: &[FIRST, SECOND, THIRD, FOURTH],
        starts: &[0, 0, 0, 0],
        label: None,
        expected: "11110; -:-/24 0 0101; -:w/18 2 0010; -:y/10 4 0001; a:-/22 0 1101; b:-/2 0 1000",
    },
    Row {
        parts: &[FIRST, SECOND, THIRD, FOURTH],
        starts: &[0, 0, 0, 0],
        label: Some(b'a'),
        expected: "11110; a:-/22 0 1101",
    },
    Row {
        parts: &[FIRST, SECOND, THIRD, FOURTH],
        starts: &[1, 0, 1, 0],
        label: Some(b'-'),
        expected: "12120; -:y/10 4 1011",
    },
];

fn letter(label: u16) -> char {
    match u8::try_from(label) {
        Ok(name) if name != 0 => char::from(name),
        _ => '-',
    }
}

/// The cascade of a row, with the number 9.
fn cascade_of(alloc: Global, row: &Row) -> Result<Option<Cascade>, AllocError> {
    let mut machines = Vec::new(alloc);
    for (part, start) in row.parts.iter().zip(row.starts) {
        match machine_at(alloc, *start, 3, part.steps, part.ends)? {
            Some(m) => machines.push(m)?,
            None => return Ok(None),
        }
    }
    if machines.is_empty() || machines.len() > 4 {
        return Ok(None);
    }
    Ok(Some(Cascade::new(9, machines)))
}

/// The final weight and the moves on a label, by any expander. What stood in `into` before goes.
fn on_label<X: Expander>(
    x: &mut X,
    t: &Tuple,
    label: u16,
    into: &mut Vec<TupleArc>,
) -> Result<Option<u64>, AllocError>
    requires ready { X.is_ready x.old }
    requires known { IsKnown (X.cascades x.old) t.now }
    requires label { label ≤ 257 }
{
    x.arcs_on(t, label, into)?;
    x.finality(t)
}

/// A final weight, and moves of so many parts.
fn shown(
    alloc: Global,
    end: Option<u64>,
    arcs: &[TupleArc],
    parts: usize,
) -> Result<String, AllocError> {
    let mut text = match end {
        Some(weight) => format!(in alloc; "{weight}")?,
        None => String::from_str(alloc, "none")?,
    };
    for a in arcs {
        let input = letter(a.input);
        let output = letter(a.output);
        let one = format!(in alloc; "; {input}:{output}/{} {} ", a.weight, a.filters)?;
        text.push_str(&one)?;
        for state in a.states.iter().take(parts) {
            text.push_str(&format!(in alloc; "{state}")?)?;
        }
    }
    Ok(text)
}

/// The answer at the start of the cascade of a row.
fn answer(alloc: Global, cascade: &Cascade, row: &Row) -> Result<String, AllocError> {
    let t = cascade.start();
    match row.label {
        None => {
            let x = cascade.expand(alloc, &t)?;
            shown(alloc, x.finality, &x.arcs, row.parts.len())
        }
        Some(name) => {
            let mut arcs = Vec::new(alloc);
            let mut first = Private::new(alloc, cascade);
            let _other = on_label(&mut first, &t, label_of(b'-'), &mut arcs)?;
            let mut second = Private::new(alloc, cascade);
            let end = on_label(&mut second, &t, label_of(name), &mut arcs)?;
            shown(alloc, end, &arcs, row.parts.len())
        }
    }
}

#[test]
fn answers_at_tuples(rt: HostRuntime) -> Result<(), Fail> {
    let alloc = rt.alloc();
    for row in &ROWS {
        let cascade = cascade_of(alloc, row)?.expect(&rt, row.expected);
        assert_eq!(rt; cascade.start().cascade, 9);
        assert_eq!(rt; answer(alloc, &cascade, row)?.as_str(), row.expected);
    }
    Ok(())
}
