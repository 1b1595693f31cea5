// What the states stand for, which are keys of a state table.

ghost use Rattle.std.proofs.Common.{rules};

use state_table::Key;

/// What a state stands for.
#[derive(Clone, Copy, Debug, PartialEq, Eq, Hash)]
pub(crate) enum Part {
    /// A state of the transducer.
    At(usize),
    /// A label that is written, and the number of the part that comes then.
    Writes(u16, usize),
    /// An end.
    Ended,
}

impl Key for Part {
    ghost same = { Prim.search rules };
}
