// Random small transducers, and the least readings that all searches find.

ghost use Rattle.std.specs.Prelude.{◌<◌};

use super::{
    as_reading, cascade_of, cascade_of_two, has_no_mark, least_at, least_by_queue_at, plain,
};
use crate::{Reading, least_of};
use fst_core::{Arc, Fst, union};
use std::alloc::{AllocError, Global};
use std::process::Abort;
use std::test::Fail;

/// The letters that a rule reads and those that it writes.
struct Letters {
    read: (u16, u16),
    written: (u16, u16),
}

const FIRST: Letters = Letters {
    read: (97, 98),
    written: (120, 121),
};

const SECOND: Letters = Letters {
    read: (120, 121),
    written: (112, 113),
};

/// A fixed sequence of numbers, after Knuth's linear congruential generator.
#[derive(Drop)]
struct Numbers {
    state: u64,
}

impl Numbers {
    /// The next number, below a bound.
    fn below(&mut self, bound: u64) -> u64
        requires { 0 < bound }
        ensures { result < bound }
    {
        self.state = self
            .state
            .wrapping_mul(6_364_136_223_846_793_005)
            .wrapping_add(1_442_695_040_888_963_407);
        (self.state >> 33) % bound
    }

    /// The empty label as often as not, or one of two letters.
    fn label(&mut self, letters: (u16, u16)) -> u16 {
        match self.below(4) {
            0 => letters.0,
            1 => letters.1,
            _ => 0,
        }
    }

    /// An arc to one of so many states.
    fn arc(&mut self, letters: &Letters, states: u64) -> Arc
        requires { 0 < states }
    {
        Arc {
            input: self.label(letters.read),
            output: self.label(letters.written),
            weight: self.below(3),
            next: self.below(states) as usize,
        }
    }
}

/// A transducer of at most five states, with at most five arcs each.
fn random_rule(
    alloc: Global,
    numbers: &mut Numbers,
    letters: &Letters,
) -> Result<Option<Fst>, AllocError> {
    let mut arcs = Vec::new(alloc);
    let mut finals = Vec::new(alloc);
    let states = 1 + numbers.below(5);
    for _ in 0..states {
        arcs.push(random_row(alloc, numbers, letters, states)?)?;
        let last = numbers.below(6);
        finals.push(if last < 3 { Some(last) } else { None })?;
    }
    Ok(Fst::new(0, arcs, finals))
}

fn random_row(
    alloc: Global,
    numbers: &mut Numbers,
    letters: &Letters,
    states: u64,
) -> Result<Vec<Arc>, AllocError>
    requires { 0 < states }
{
    let mut row = Vec::new(alloc);
    for _ in 0..numbers.below(6) {
        row.push(numbers.arc(letters, states))?;
    }
    Ok(row)
}

/// At most five letters.
fn random_line(alloc: Global, numbers: &mut Numbers) -> Result<Vec<u8>, AllocError> {
    let mut line = Vec::new(alloc);
    for _ in 0..numbers.below(6) {
        line.push(if numbers.below(2) == 0 { b'a' } else { b'b' })?;
    }
    Ok(line)
}

/// The one that comes first: by weight, then by length, then by labels.
fn lesser(a: Option<Reading>, b: Option<Reading>) -> Option<Reading> {
    match (a, b) {
        (Some(a), Some(b)) => {
            let is_first = a.weight < b.weight
                || (a.weight == b.weight
                    && (a.labels.len() < b.labels.len()
                        || (a.labels.len() == b.labels.len()
                            && a.labels.as_slice() <= b.labels.as_slice())));
            Some(if is_first { a } else { b })
        }
        (a, None) => a,
        (None, b) => b,
    }
}

/// Compares the searches over tuples with the plain one at two lines. Whether they have a reading.
fn agree(
    rt: &impl Abort,
    alloc: Global,
    rule: Fst,
    first: &[u8],
    second: &[u8],
) -> Result<bool, Fail> {
    assert!(rt; has_no_mark(&rule));
    let want = lesser(
        least_of(alloc, &rule, first)?,
        least_of(alloc, &rule, second)?,
    );
    let source = union(alloc, &[plain(alloc, first)?, plain(alloc, second)?])?;
    let cascade = cascade_of(alloc, rule)?;
    let answer = least_at(alloc, &source, &cascade)?;
    let found = as_reading(alloc, &answer)?;
    assert_eq!(rt; found, want, "at {first:?} and {second:?}");
    let queued = least_by_queue_at(alloc, &source, &cascade)?;
    assert!(rt; queued == answer, "at {first:?} and {second:?}");
    Ok(answer.is_some())
}

#[test]
fn all_searches_agree(rt: HostRuntime) -> Result<(), Fail> {
    let alloc = rt.alloc();
    let mut numbers = Numbers { state: 20_261_201 };
    let mut found: u32 = 0;
    for _ in 0..4000 {
        if let Some(rule) = random_rule(alloc, &mut numbers, &FIRST)? {
            let first = random_line(alloc, &mut numbers)?;
            let second = random_line(alloc, &mut numbers)?;
            if agree(&rt, alloc, rule, &first, &second)? {
                found = found.saturating_add(1);
            }
        }
    }
    assert!(rt; found > 1000, "{found} readings");
    assert!(rt; found < 3500, "{found} readings");
    Ok(())
}

/// Compares the search that looks ahead with the queue, which doesn't, on a cascade of two parts. Whether it has a reading.
fn agree_on_two(
    rt: &impl Abort,
    alloc: Global,
    first: Fst,
    second: Fst,
    line: &[u8],
) -> Result<bool, Fail> {
    assert!(rt; has_no_mark(&second));
    let source = plain(alloc, line)?;
    let cascade = cascade_of_two(alloc, first, second)?;
    let answer = least_at(alloc, &source, &cascade)?;
    let queued = least_by_queue_at(alloc, &source, &cascade)?;
    assert!(rt; queued == answer, "at {line:?}");
    Ok(answer.is_some())
}

#[test]
fn searches_agree_on_two_parts(rt: HostRuntime) -> Result<(), Fail> {
    let alloc = rt.alloc();
    let mut numbers = Numbers { state: 20_261_202 };
    let mut found: u32 = 0;
    for _ in 0..2000 {
        let first = random_rule(alloc, &mut numbers, &FIRST)?;
        let second = random_rule(alloc, &mut numbers, &SECOND)?;
        let line = random_line(alloc, &mut numbers)?;
        if let (Some(first), Some(second)) = (first, second) {
            if agree_on_two(&rt, alloc, first, second, &line)? {
                found = found.saturating_add(1);
            }
        }
    }
    assert!(rt; found > 100, "{found} readings");
    assert!(rt; found < 1900, "{found} readings");
    Ok(())
}
