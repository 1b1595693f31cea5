//! What is decoded of the codes of all tuples that are reached in random cascades.

ghost use Rattle.std.specs.Prelude.{◌≡◌, ◌<◌, ◌≤◌, All, IfOk, OnOk};
ghost use Rattle.state_tuples.specs.Cascades.{IsOf, next_of};
ghost use Rattle.state_tuples.specs.Orders.{IsExpansion};

use crate::codes::{NOTHING, fan};
use fst_core::{Arc, Fst};
use state_tuples::{Cascade, Encoded, Expansion, MOST_WORDS, Tuple, TupleArc, decode, encode};
use std::alloc::{AllocError, Global};
use std::process::Abort;
use std::test::Fail;

/// How many tuples of a cascade are looked at.
const MOST_REACHED: usize = 60;

const LABELS: [u16; 4] = [0, 97, 255, 257];

/// The last one is the greatest that an arc may have.
const WEIGHTS: [u64; 4] = [0, 5, 4_294_967_296, 18_014_398_509_481_983];

/// A fixed sequence of numbers, after Knuth's linear congruential generator.
#[derive(Drop)]
struct Numbers {
    state: u64,
}

impl Numbers {
    /// The next number, below a bound.
    fn below(&mut self, bound: usize) -> usize
        requires { 0 < bound }
        ensures { result < bound }
    {
        self.state = self
            .state
            .wrapping_mul(6_364_136_223_846_793_005)
            .wrapping_add(1_442_695_040_888_963_407);
        (self.state >> 33) as usize % bound
    }

    /// An arc to one of so many states.
    fn arc(&mut self, states: usize) -> Arc
        requires { 0 < states }
    {
        Arc {
            input: LABELS[self.below(4)],
            output: LABELS[self.below(4)],
            weight: WEIGHTS[self.below(4)],
            next: self.below(states),
        }
    }

    /// A final weight as often as not.
    fn end(&mut self) -> Option<u64> {
        if self.below(2) == 0 {
            None
        } else {
            Some(WEIGHTS[self.below(4)])
        }
    }
}

/// At most six arcs.
fn random_row(alloc: Global, numbers: &mut Numbers, states: usize) -> Result<Vec<Arc>, AllocError>
    requires { 0 < states }
{
    let mut row = Vec::new(alloc);
    for _ in 0..numbers.below(7) {
        row.push(numbers.arc(states))?;
    }
    Ok(row)
}

/// A transducer of at most three states.
fn random_part(alloc: Global, numbers: &mut Numbers) -> Result<Option<Fst>, AllocError> {
    let mut arcs = Vec::new(alloc);
    let mut finals = Vec::new(alloc);
    let states = 1 + numbers.below(3);
    for _ in 0..states {
        arcs.push(random_row(alloc, numbers, states)?)?;
        finals.push(numbers.end())?;
    }
    Ok(Fst::new(0, arcs, finals))
}

/// The cascade of up to four such parts. None is made where one of them is no transducer.
fn random_cascade(
    alloc: Global,
    numbers: &mut Numbers,
    count: usize,
) -> Result<Option<Cascade>, AllocError>
    requires some { 0 < count }
    requires few { count ≤ 4 }
{
    let mut parts = Vec::new(alloc);
    for _ in 0..count {
        let Some(part) = random_part(alloc, numbers)? else {
            return Ok(None);
        };
        parts.push(part)?;
    }
    Ok(Some(Cascade::new(numbers.below(4_294_967_296) as u32, parts)))
}

/// What the code of a tuple's expansion is decoded as, where there is room for it.
fn read_back(
    alloc: Global,
    cascade: &Cascade,
    t: &Tuple,
    x: &Expansion,
) -> Result<Option<(Tuple, Expansion)>, AllocError>
    requires known { IsOf cascade.now t.now }
    requires expansion { IsExpansion cascade.now t.now x.now }
{
    let _start = cascade.start();
    let _number = cascade.number();
    let mut room = [NOTHING; MOST_WORDS];
    match encode(t, x, &mut room) {
        Encoded::Wide(_) => Ok(None),
        Encoded::Fits(length) => Ok(Some(decode(alloc, &room[..length])?)),
    }
}

/// Whether the code of a tuple's expansion is decoded as what it was made of, and is too long just where it has more than 339 arcs.
fn comes_back(
    alloc: Global,
    cascade: &Cascade,
    t: &Tuple,
    x: &Expansion,
) -> Result<bool, AllocError>
    requires known { IsOf cascade.now t.now }
    requires expansion { IsExpansion cascade.now t.now x.now }
{
    let count = x.arcs.len();
    let Some((tuple, told)) = read_back(alloc, cascade, t, x)? else {
        return Ok(count > 339);
    };
    Ok(count <= 339 && tuple == *t && told.finality == x.finality && told.arcs == x.arcs)
}

/// The tuple that a move leads to.
fn next_tuple(t: &Tuple, a: &TupleArc) -> Tuple
    ensures { result ≡ next_of t.now a.now }
{
    Tuple {
        cascade: t.cascade,
        states: a.states,
        filters: a.filters,
    }
}

/// The expansion of a tuple. The tuples that its moves lead to are put behind those that were reached, where they aren't among them.
fn go_on(
    alloc: Global,
    cascade: &Cascade,
    t: &Tuple,
    reached: &mut Vec<Tuple>,
) -> Result<Expansion, AllocError>
    requires known { IsOf cascade.now t.now }
    requires reached { All (IsOf cascade.now) reached.old.items }
    ensures expansion { IfOk result (IsExpansion cascade.now t.now) }
    ensures reached { OnOk result (All (IsOf cascade.now) reached.new.items) }
{
    let _start = cascade.start();
    let x = cascade.expand(alloc, t)?;
    for a in &x.arcs {
        let next = next_tuple(t, a);
        if !reached.contains(&next) {
            reached.push(next)?;
        }
    }
    Ok(x)
}

/// What was met at tuples: how many there were, how many of these are final, and how many moves read a label and read none.
#[derive(Debug, Drop)]
struct Met {
    tuples: usize,
    finals: usize,
    reading: usize,
    silent: usize,
}

impl Met {
    /// Counts a tuple with its moves.
    fn add(&mut self, x: &Expansion) {
        self.tuples = self.tuples.saturating_add(1);
        if x.finality.is_some() {
            self.finals = self.finals.saturating_add(1);
        }
        for a in &x.arcs {
            if a.input == 0 {
                self.silent = self.silent.saturating_add(1);
            } else {
                self.reading = self.reading.saturating_add(1);
            }
        }
    }
}

/// Looks at the tuples that are reached from the start of a cascade, the first ones first.
fn check_reached(
    rt: &impl Abort,
    alloc: Global,
    cascade: &Cascade,
    met: &mut Met,
) -> Result<(), Fail> {
    let mut reached = Vec::new(alloc);
    reached.push(cascade.start())?;
    for k in 0..MOST_REACHED {
        if k >= reached.len() {
            return Ok(());
        }
        let t = reached[k];
        let x = go_on(alloc, cascade, &t, &mut reached)?;
        assert!(rt; comes_back(alloc, cascade, &t, &x)?, "at {t:?}");
        met.add(&x);
    }
    Ok(())
}

#[test]
fn random_expansions_come_back(rt: HostRuntime) -> Result<(), Fail> {
    let alloc = rt.alloc();
    let mut numbers = Numbers { state: 20_261_204 };
    for count in 1..5 {
        let mut met = Met {
            tuples: 0,
            finals: 0,
            reading: 0,
            silent: 0,
        };
        for _ in 0..60 {
            let cascade = random_cascade(alloc, &mut numbers, count)?.expect(&rt, "transducers");
            check_reached(&rt, alloc, &cascade, &mut met)?;
        }
        assert!(rt; met.tuples > 60, "{count} parts: {met:?}");
        assert!(rt; met.finals > 0, "{count} parts: {met:?}");
        assert!(rt; met.reading > 100, "{count} parts: {met:?}");
        assert!(rt; met.silent > 60, "{count} parts: {met:?}");
    }
    Ok(())
}

/// With 339 arcs there is room for a code, and with one more there isn't.
#[test]
fn few_and_many_arcs_come_back(rt: HostRuntime) -> Result<(), Fail> {
    let alloc = rt.alloc();
    for count in [0, 1, 339, 340] {
        let cascade = fan(alloc, 4_294_967_295, count)?.expect(&rt, "a transducer");
        let t = cascade.start();
        let x = cascade.expand(alloc, &t)?;
        assert_eq!(rt; x.arcs.len(), count);
        assert!(rt; comes_back(alloc, &cascade, &t, &x)?, "{count} arcs");
    }
    Ok(())
}
