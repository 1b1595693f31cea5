// An expander that gives up at one of its calls.

ghost use Rattle.std.specs.Prelude.{◌≡◌, ◌∷◌, []};
ghost use Rattle.state_tuples.specs.Cascades.{IsSound, first_tuple};
ghost use Rattle.least_path.specs.Starting.{WritesBytes};

use super::{Member, cascade_of, has_no_mark, least_at, plain, rule_of};
use fst_core::Fst;
use least_path::{Least, least};
use state_tuples::{Cascade, Expander, Onward, Private, Tuple, TupleArc};
use std::alloc::{AllocError, Global};
use std::marker::Model;
use std::process::Abort;
use std::test::Fail;

/// Gives up once, at the call after so many, and no more after it.
#[derive(Drop)]
pub(super) struct GivingUp<'a> {
    pub(super) inner: Private<'a>,
    pub(super) calls: Option<usize>,
}

impl<'a> Model for GivingUp<'a> {
    ghost use Rattle.state_tuples.specs.Cascades.{Cascaded};

    ghost Value = { Cascaded };

    ghost view = { λ g. g.inner };
}

impl<'a> GivingUp<'a> {
    /// Whether this is the call.
    fn is_now(&mut self) -> bool
        ensures { self.new ≡ self.old }
    {
        match self.calls {
            Some(0) => {
                self.calls = None;
                true
            }
            Some(n) => {
                self.calls = Some(n - 1);
                false
            }
            None => false,
        }
    }
}

impl<'a> Expander for GivingUp<'a> {
    ghost use Rattle.std.specs.Prelude.{◌≡◌, ◌∷◌, [], None};
    ghost use Rattle.state_tuples.specs.Cascades.{IsSound};
    ghost use Rattle.state_tuples.specs.OneCascade.{sound, own_numbers, stays, on_self, on_again};

    ghost cascades = { λ g. g ∷ [] };

    ghost is_ready = { IsSound };

    ghost goes_on = { λ g h. h ≡ g };

    ghost gives_up = { λ g h. h ≡ g };

    ghost calls = { λ g. None };

    fn arcs_on(
        &mut self,
        t: &Tuple,
        label: u16,
        into: &mut Vec<TupleArc>,
    ) -> Result<(), AllocError> {
        if self.is_now() {
            into.clear();
            return Err(AllocError);
        }
        self.inner.arcs_on(t, label, into)
    }

    fn finality(&mut self, t: &Tuple) -> Result<Option<u64>, AllocError> {
        if self.is_now() {
            return Err(AllocError);
        }
        self.inner.finality(t)
    }

    fn may_read(&self, t: &Tuple, label: u16) -> bool {
        self.inner.may_read(t, label)
    }

    fn onward(&self, t: &Tuple) -> Onward {
        self.inner.onward(t)
    }

    ghost sound = { sound };

    ghost own_numbers = { own_numbers };

    ghost on_stays = { stays };

    ghost up_stays = { stays };

    ghost on_self = { on_self };

    ghost on_again = { on_again };
}

/// The answer of a search that may give up once, and whether it did.
fn answer(
    alloc: Global,
    source: &Fst,
    x: &mut GivingUp,
    start: &Tuple,
) -> Result<(Option<Least>, bool), AllocError>
    requires ready { IsSound x.old }
    requires start { start.now ≡ first_tuple x.old }
    requires bytes { WritesBytes (x.old ∷ []) start.now }
{
    match least(alloc, source, x, start) {
        Ok(answer) => Ok((answer, false)),
        Err(_) => Ok((least(alloc, source, x, start)?, true)),
    }
}

/// Gives up at each call in turn. The next search answers as one that never gave up.
fn check(
    rt: &impl Abort,
    alloc: Global,
    source: &Fst,
    cascade: &Cascade,
    want: &Option<Least>,
) -> Result<usize, Fail>
    requires bytes { WritesBytes (cascade.now ∷ []) (first_tuple cascade.now) }
{
    let start = cascade.start();
    for calls in 0..10_000 {
        let mut x = GivingUp {
            inner: Private::new(alloc, cascade),
            calls: Some(calls),
        };
        let (answer, gave_up) = answer(alloc, source, &mut x, &start)?;
        assert!(rt; answer == *want);
        assert!(rt; gave_up == x.calls.is_none());
        if !gave_up {
            return Ok(calls);
        }
    }
    Ok(0)
}

#[test]
fn gives_up_at_each_call(rt: HostRuntime) -> Result<(), Fail> {
    let alloc = rt.alloc();
    let heads: &[Member] = &[("a", "b", 3), ("a", "cc", 3), ("", "q", 1)];
    let rule = rule_of(alloc, heads, 1, &[("b", "", 5)])?;
    assert!(rt; has_no_mark(&rule));
    let cascade = cascade_of(alloc, rule)?;
    let source = plain(alloc, b"aab")?;
    let want = least_at(alloc, &source, &cascade)?;
    assert!(rt; want.is_some());
    let calls = check(&rt, alloc, &source, &cascade, &want)?;
    assert!(rt; calls > 10, "{calls} calls");
    Ok(())
}
