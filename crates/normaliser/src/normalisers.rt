//! A classifier and a verbaliser over one table.

ghost use Rattle.normaliser.specs.Cascades.{AreUnmarked, Begins};
ghost use Rattle.shared_cascade.specs.Callers.{cascades_in};

use shared_cascade::Shared;
use state_tuples::Tuple;

/// A classifier and a verbaliser, each as a cascade that isn't composed: a search makes what it needs of it, and what it makes is kept in a
/// table that callers share.
///
/// Without rules for the verbaliser it is a cascade that reads nothing, and no record has words.
#[derive(Drop)]
pub struct Normaliser {
    pub(crate) shared: Shared,
    /// Where the classifier begins.
    pub(crate) classifier: Tuple,
    /// Where the verbaliser begins.
    pub(crate) verbaliser: Tuple,
    ghost unmarked: { AreUnmarked (cascades_in shared) },
    ghost classifying: { Begins (cascades_in shared) 0 classifier },
    ghost verbalising: { Begins (cascades_in shared) 1 verbaliser },
}

/// What is said of a line.
#[derive(Debug, PartialEq, Eq, Drop)]
pub struct Spoken {
    pub words: Vec<u8>,
}
