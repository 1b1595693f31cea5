//! What each step tells, and how the view of all seats is dealt.
ghost use Rattle.std.specs.Prelude.{true, false};
ghost use Rattle.place_words.specs.Modes.{lower, upper};
ghost use Rattle.place_words.specs.Plays.{knocks, leaves, reads, takes_empty, takes_shown, empties, writes, shows};

use crate::fact::Fact;
use crate::view::View;
use atomic_table::{Play, Split};
use std::marker::PhantomData;

pub(crate) struct Knocks;

impl<T> Play<(), View<T>> for Knocks {
    ghost then = { knocks };
}

pub(crate) struct Hits;

impl<T> Play<(), View<T>> for Hits {
    ghost then = { leaves true };
}

pub(crate) struct Misses;

impl<T> Play<(), View<T>> for Misses {
    ghost then = { leaves false };
}

pub(crate) struct Reads<F> {
    fact: PhantomData<F>,
}

impl<F: Fact> Play<(), View<F::Tag>> for Reads<F> {
    ghost then = { reads F.right };
}

pub(crate) struct TakesEmpty;

impl<T> Play<(), View<T>> for TakesEmpty {
    ghost then = { takes_empty };
}

pub(crate) struct TakesShown;

impl<T> Play<(), View<T>> for TakesShown {
    ghost then = { takes_shown };
}

pub(crate) struct Empties;

impl<T> Play<(), View<T>> for Empties {
    ghost then = { empties };
}

pub(crate) struct Writes;

impl<T> Play<(), View<T>> for Writes {
    ghost then = { writes };
}

pub(crate) struct Shows;

impl<T> Play<(), View<T>> for Shows {
    ghost then = { shows };
}

pub(crate) struct Cut;

impl<T> Split<View<T>> for Cut {
    ghost left = { lower };

    ghost right = { upper };
}
