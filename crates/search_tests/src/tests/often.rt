// A transducer on which a search by lists takes each node again and again, and leaves the answer to the queue.

ghost use Rattle.std.specs.Prelude.{◌≡◌, ◌<◌, ◌≤◌, ◌∷◌, [], length};
ghost use Rattle.state_tuples.specs.Cascades.{first_tuple};
ghost use Rattle.least_path.specs.Starting.{WritesBytes};

use super::giving_up::GivingUp;
use super::{cascade_of, has_no_mark, least_by_queue_at, plain};
use fst_core::{Arc, Fst};
use least_path::{Least, least};
use state_tuples::{Cascade, Private};
use std::alloc::{AllocError, Global};
use std::test::Fail;

/// How many steps lead to the end.
const STEPS: usize = 120;

/// The arcs from a state to all that come after it. The weight of one is the square of the steps that it goes, so that single steps are the
/// lightest; and the further one goes, the earlier it stands in the order of arcs, by what it writes.
fn arcs_from(alloc: Global, state: usize) -> Result<Vec<Arc>, AllocError>
    requires { state ≤ 120 }
{
    let mut arcs = Vec::new(alloc);
    for next in state + 1..STEPS + 1 {
        let steps = next - state;
        arcs.push(Arc {
            input: 0,
            output: (250 - steps) as u16,
            weight: (steps * steps) as u64,
            next,
        })?;
    }
    Ok(arcs)
}

/// All steps without input, to an end.
fn steep(alloc: Global) -> Result<Option<Fst>, AllocError> {
    let mut arcs = Vec::new(alloc);
    let mut finals = Vec::new(alloc);
    for state in 0..STEPS + 1 {
        arcs.push(arcs_from(alloc, state)?)?;
        finals.push(if state == STEPS { Some(0) } else { None })?;
    }
    Ok(Fst::new(0, arcs, finals))
}

/// The answer of a search, and how often it asked the expander.
fn counted(
    alloc: Global,
    source: &Fst,
    cascade: &Cascade,
) -> Result<(Option<Least>, usize), AllocError>
    requires { WritesBytes (cascade.now ∷ []) (first_tuple cascade.now) }
{
    let most = 1_000_000;
    let mut x = GivingUp {
        inner: Private::new(alloc, cascade),
        calls: Some(most),
    };
    let answer = least(alloc, source, &mut x, &cascade.start())?;
    let left = x.calls.unwrap_or(0);
    Ok((answer, most.saturating_sub(left)))
}

#[test]
fn the_queue_answers_where_nodes_are_taken_often(rt: HostRuntime) -> Result<(), Fail> {
    let alloc = rt.alloc();
    let rule = steep(alloc)?.expect(&rt, "all arcs lead to states");
    assert!(rt; has_no_mark(&rule));
    let cascade = cascade_of(alloc, rule)?;
    let source = plain(alloc, b"")?;
    let want = Some(Least {
        weight: STEPS as u128,
        output: vec![in alloc; 249; STEPS]?,
    });
    assert!(rt; least_by_queue_at(alloc, &source, &cascade)? == want);
    let (answer, calls) = counted(alloc, &source, &cascade)?;
    assert!(rt; answer == want);
    // lists alone would take 7,260 nodes
    assert!(rt; calls > 3000, "{calls} calls");
    assert!(rt; calls < 7000, "{calls} calls");
    Ok(())
}
