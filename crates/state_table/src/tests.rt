// Keys of three types, which get numbers as they come.

ghost use Rattle.std.proofs.Common.{rules};

use crate::*;
use std::alloc::{AllocError, Global};
use std::test::Fail;

/// Whether the first of two may move.
#[derive(Clone, Copy, PartialEq, Eq, Hash)]
enum Gate {
    Open,
    Closed,
}

/// Two states and what lies between.
#[derive(Clone, Copy, PartialEq, Eq, Hash)]
struct Triple {
    first: usize,
    second: usize,
    gate: Gate,
}

impl Key for Triple {
    ghost same = { Prim.search rules };
}

fn between(first: usize, second: usize, gate: Gate) -> Triple {
    Triple {
        first,
        second,
        gate,
    }
}

/// The set of these states.
fn set(alloc: Global, states: &[usize]) -> Result<StateSet, AllocError> {
    Ok(StateSet::new(Vec::from_slice(alloc, states)?))
}

/// The numbers that keys get, one after the other.
fn numbers<K: Key>(alloc: Global, keys: Vec<K>) -> Result<Vec<usize>, AllocError> {
    let mut table = StateTable::new(alloc);
    let mut found = Vec::new(alloc);
    for key in keys {
        found.push(table.number(key)?)?;
    }
    Ok(found)
}

#[test]
fn keys_keep_the_numbers_of_their_first_arrival(rt: HostRuntime) -> Result<(), Fail> {
    let alloc = rt.alloc();
    let pairs = vec![in alloc; (3, 4), (4, 3), (3, 4), (0, 0), (4, 3)]?;
    assert_eq!(rt;
        numbers(alloc, pairs)?.as_slice(),
        [0, 1, 0, 2, 1].as_slice()
    );
    let sets = vec![in alloc;
        set(alloc, &[])?,
        set(alloc, &[7, 8])?,
        set(alloc, &[8, 7])?,
        set(alloc, &[7, 8])?,
        set(alloc, &[])?,
    ]?;
    assert_eq!(rt;
        numbers(alloc, sets)?.as_slice(),
        [0, 1, 2, 1, 0].as_slice()
    );
    let triples = vec![in alloc;
        between(1, 2, Gate::Open),
        between(1, 2, Gate::Closed),
        between(1, 2, Gate::Open),
    ]?;
    assert_eq!(rt; numbers(alloc, triples)?.as_slice(), [0, 1, 0].as_slice());
    Ok(())
}

#[test]
fn numbers_lead_back_to_keys(rt: HostRuntime) -> Result<(), Fail> {
    let mut table = StateTable::new(rt.alloc());
    assert_eq!(rt; table.number((5, 6))?, 0);
    assert_eq!(rt; table.number((6, 5))?, 1);
    assert_eq!(rt; table.len(), 2);
    assert_eq!(rt; *table.key(1), (6, 5));
    assert_eq!(rt; table.find(&(6, 5)), Some(1));
    assert_eq!(rt; table.find(&(5, 5)), None);
    Ok(())
}
