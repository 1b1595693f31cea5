//! Codes of expansions.

ghost use Rattle.state_tuples.specs.Cascades.{IsOf};

use fst_core::{Arc, Fst};
use state_tuples::{Cascade, Encoded, MOST_WORDS, Tuple, encode, key_of};
use std::alloc::{AllocError, Global};
use std::test::Fail;

/// What room for a code holds before one is written there.
pub(crate) const NOTHING: u64 = u64::MAX;

/// The words of the code of a tuple's expansion, where there is room for it, and its length.
fn code_of(alloc: Global, cascade: &Cascade, t: &Tuple) -> Result<(Vec<u64>, usize), AllocError>
    requires known { IsOf cascade.now t.now }
{
    let x = cascade.expand(alloc, t)?;
    let mut room = [NOTHING; MOST_WORDS];
    match encode(t, &x, &mut room) {
        Encoded::Wide(length) => Ok((Vec::new(alloc), length)),
        Encoded::Fits(length) => Ok((Vec::from_slice(alloc, &room[..length])?, length)),
    }
}

/// A cascade of this number and of one part, with so many arcs from its start to its end, that read a few labels.
pub(crate) fn fan(alloc: Global, number: u32, count: usize) -> Result<Option<Cascade>, AllocError> {
    let mut row = Vec::new(alloc);
    for k in 0..count {
        row.push(Arc {
            input: (97 + k % 7) as u16,
            output: 98,
            weight: 5 + k as u64 % 11,
            next: 1,
        })?;
    }
    let mut arcs = Vec::new(alloc);
    arcs.push(row)?;
    arcs.push(Vec::new(alloc))?;
    let mut finals = Vec::new(alloc);
    finals.push(None)?;
    finals.push(Some(0))?;
    let Some(part) = Fst::new(0, arcs, finals) else {
        return Ok(None);
    };
    let mut parts = Vec::new(alloc);
    parts.push(part)?;
    Ok(Some(Cascade::new(number, parts)))
}

#[test]
fn one_arc_as_words(rt: HostRuntime) -> Result<(), Fail> {
    let alloc = rt.alloc();
    let cascade = fan(alloc, 7, 1)?.expect(&rt, "a transducer");
    let (code, _) = code_of(alloc, &cascade, &cascade.start())?;
    let words = [15, 7, 0, 0, 0, 0, 0, 0, 0, 416618250240, 5, 1, 0, 0, 0];
    assert_eq!(rt; code.as_slice(), words.as_slice());
    assert_eq!(rt; key_of(&cascade.start()), [7, 0, 0, 0, 0, 0]);
    Ok(())
}

/// Numbers of arcs, and the lengths of their codes, of which the last has no room.
#[test]
fn codes_of_many_arcs(rt: HostRuntime) -> Result<(), Fail> {
    let alloc = rt.alloc();
    for (count, length) in [(0, 9), (1, 15), (8, 57), (339, 2043), (340, 2049)] {
        let cascade = fan(alloc, 1, count)?.expect(&rt, "a transducer");
        let (code, told) = code_of(alloc, &cascade, &cascade.start())?;
        assert_eq!(rt; told, length);
        assert_eq!(rt; code.len(), if length == 2049 { 0 } else { length });
    }
    Ok(())
}
