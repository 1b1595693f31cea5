// The laws of composition.

ghost use Rattle.std.specs.Prelude.{◌≡◌, ℕ, List, [], ◌∷◌, map};
ghost use Rattle.weighted_relations.specs.Machines.{Machine};
ghost use Rattle.compose_filter.specs.declared.filters.Filter.{Filter};
ghost use Rattle.compose_filter.specs.declared.triples.Triple.{Triple};
ghost use Rattle.compose_filter.specs.ComposedPaths.{OneToOne};
ghost use Rattle.compose_filter.specs.Compositions.{filters, moves_from, states};
ghost use Rattle.compose_filter.specs.Expansions.{expansion};
ghost use Rattle.compose_filter.specs.Listings.{IsPlace, Listed, step_of};

/// For any number of transducers, composed paths and matched paths are one to one, and read the same.
///
/// It does nothing: its contract is the law.
pub fn one_composed_path()
    ensures law { (ms : List Machine) → OneToOne ms }
{}

/// The list of the moves of any number of transducers, at their states and filters, has each combination of their
/// arcs that the law of composition speaks of, with its labels, its weight and the next states and filters, once.
/// The list of the moves of two transducers is this one.
///
/// It does nothing: its contract is the law.
pub fn each_move_once()
    ensures listed { (ms : List Machine) (qs : List ℕ) (fs : List Filter) → IsPlace ms qs fs → Listed ms qs fs }
    ensures two { (a b : Machine) (t : Triple) → map step_of (moves_from a b t) ≡ expansion (b ∷ a ∷ []) (states t) (filters t) }
{}
