// What makes a code right.

use place_words::Fact;
use state_tuples::Cascade;

/// The cascades whose expansions a table keeps.
#[derive(Drop)]
pub struct Grammars {
    pub(crate) classifier: Cascade,
    pub(crate) verbaliser: Cascade,
}

impl Fact for Grammars {
    ghost use Rattle.shared_cascade.specs.Grammars.{cascades_of};
    ghost use Rattle.shared_cascade.specs.RightCodes.{IsRight};
    ghost use Rattle.shared_cascade.specs.RightSizes.{sized};

    type Tag = Grammars;

    ghost tag = { λ g. g };

    ghost right = { λ g code. IsRight (cascades_of g) code };

    ghost sized = { sized };
}
