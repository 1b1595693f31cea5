// Triples of two states and a filter, which are keys of a state table.

ghost use Rattle.std.proofs.Common.{rules};

use crate::filters::Filter;
use state_table::Key;

/// A state of each of two transducers, and the filter between them.
#[derive(Clone, Copy, Debug, PartialEq, Eq, Hash)]
pub struct Triple {
    pub qa: usize,
    pub qb: usize,
    pub filter: Filter,
}

impl Key for Triple {
    ghost same = { Prim.search rules };
}
