// A node of the search.

use state_tuples::Tuple;

/// A node of the search: a state of the source and a tuple, or the end of a reading.
#[derive(Clone, Copy, PartialEq, Eq)]
pub(crate) enum Node {
    At(usize, Tuple),
    End,
}
