//! A hand at a table answers as the cascade does, and its caller counts what it found.

ghost use Rattle.std.specs.Prelude.{◌≡◌, IfOk, IfSome, length};
ghost use Rattle.state_tuples.specs.Calls.{IsKnown};
ghost use Rattle.shared_cascade.specs.Callers.{IsReady, cascades_in};

use fst_core::{Arc, Fst};
use shared_cascade::{Caller, Hand, Shared, Tally};
use state_tuples::{Cascade, Expander, Tuple, TupleArc};
use std::alloc::{AllocError, Global};
use std::test::Fail;

/// A cascade of this number and of one part: so many arcs from its start to its end read `a`, and one reads `b`.
fn fan(alloc: Global, number: u32, count: usize) -> Result<Option<Cascade>, AllocError>
    ensures { IfOk result (λ made. IfSome made (λ c. c.number ≡ number)) }
{
    let mut row = Vec::new(alloc);
    for k in 0..count {
        row.push(Arc {
            input: 97,
            output: 120,
            weight: k as u64 % 16,
            next: 1,
        })?;
    }
    row.push(Arc {
        input: 98,
        output: 121,
        weight: 7,
        next: 0,
    })?;
    let mut arcs = Vec::new(alloc);
    arcs.push(row)?;
    arcs.push(Vec::new(alloc))?;
    let mut finals = Vec::new(alloc);
    finals.push(Some(3))?;
    finals.push(None)?;
    let Some(part) = Fst::new(0, arcs, finals) else {
        return Ok(None);
    };
    let mut parts = Vec::new(alloc);
    parts.push(part)?;
    Ok(Some(Cascade::new(number, parts)))
}

/// How many arcs from a tuple read each of the labels 0, `a` and `b`, and its final weight, by a hand: four looks.
fn asked(
    shared: &Shared,
    caller: &mut Caller,
    t: &Tuple,
    into: &mut Vec<TupleArc>,
) -> Result<([usize; 3], Option<u64>), AllocError>
    requires ready { IsReady shared.now caller.old }
    requires known { IsKnown (cascades_in shared.now) t.now }
    ensures ready { IsReady shared.now caller.new }
{
    let mut hand = Hand { shared, caller };
    let mut counts = [0; 3];
    hand.arcs_on(t, 0, into)?;
    counts[0] = into.len();
    hand.arcs_on(t, 97, into)?;
    counts[1] = into.len();
    hand.arcs_on(t, 98, into)?;
    counts[2] = into.len();
    let end = hand.finality(t)?;
    Ok((counts, end))
}

/// What a caller counts, in the order of its tally.
fn numbers(tally: &Tally) -> [u64; 6] {
    [
        tally.looks,
        tally.shown,
        tally.absent,
        tally.published,
        tally.no_place,
        tally.wide,
    ]
}

#[test]
fn expansions_are_kept(rt: HostRuntime) -> Result<(), Fail> {
    let alloc = rt.alloc();
    for places in [1, 2, 7, 256, 4096] {
        let classifier = fan(alloc, 0, 3)?.expect(&rt, "a transducer");
        let verbaliser = fan(alloc, 1, 339)?.expect(&rt, "a transducer");
        let small = classifier.start();
        let large = verbaliser.start();
        let (shared, mut callers) = Shared::open(alloc, classifier, verbaliser, places, 1)?;
        let mut caller = callers.pop().expect(&rt, "a caller");
        let mut into = Vec::new(alloc);
        assert!(rt; asked(&shared, &mut caller, &small, &mut into)? == ([0, 3, 1], Some(3)));
        assert_eq!(rt; numbers(&caller.take_tally()), [4, 3, 1, 1, 0, 0]);
        assert!(rt; asked(&shared, &mut caller, &large, &mut into)? == ([0, 339, 1], Some(3)));
        assert_eq!(rt; numbers(&caller.take_tally()), [4, 0, 4, 0, 0, 4]);
        assert!(rt; asked(&shared, &mut caller, &small, &mut into)? == ([0, 3, 1], Some(3)));
        assert_eq!(rt; numbers(&caller.take_tally()), [4, 4, 0, 0, 0, 0]);
        // one place has a code, and a sweep takes it away
        let swept = shared.sweep(&mut caller, 2);
        assert!(rt; swept.done == 1 && swept.was == 2 * u64::from(places) - 1);
        assert_eq!(rt; numbers(&caller.take_tally()), [0, 0, 0, 0, 0, 0]);
        assert!(rt; asked(&shared, &mut caller, &small, &mut into)? == ([0, 3, 1], Some(3)));
        assert_eq!(rt; numbers(&caller.take_tally()), [4, 3, 1, 1, 0, 0]);
    }
    Ok(())
}
