// The places of the machine of a rewrite.

ghost use Rattle.std.proofs.Common.{rules};

use state_table::Key;

/// Whether a rewrite that reads nothing may still come between what was written and what is unread.
#[derive(Clone, Copy, Debug, PartialEq, Eq, Hash)]
pub(crate) enum Gap {
    Open,
    Shut,
}

/// What a rewrite has read so far: nothing since it began at a gap, or something.
#[derive(Clone, Copy, Debug, PartialEq, Eq, Hash)]
pub(crate) enum Held {
    Fresh(Gap),
    Used,
}

/// A place of the machine: the states of sigma's, the left context's and the backward automaton, with the gap
/// outside of a rewrite, and with the state of tau and what was read inside of one.
#[derive(Clone, Copy, Debug, PartialEq, Eq, Hash)]
pub(crate) enum Spot {
    /// Where the backward automaton's state is still to be guessed.
    Hub,
    Outside {
        sigma: usize,
        left: usize,
        back: usize,
        gap: Gap,
    },
    Inside {
        sigma: usize,
        left: usize,
        back: usize,
        tau: usize,
        held: Held,
    },
}

impl Key for Spot {
    ghost same = { Prim.search rules };
}
