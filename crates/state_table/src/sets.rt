// Sets of states as keys.

ghost use Rattle.std.specs.Prelude.{◌≡◌, nat_eq};
ghost use Rattle.std.proofs.Common.{rules};
ghost use Rattle.std.specs.Cmp.{partial_equiv_from_equiv};
ghost use Rattle.std.specs.Cmp.Lexicographic.{nat_list_eq_equiv, pointwise};
ghost use Rattle.std.specs.Cmp.Rules.{hashing};
ghost use Rattle.std.specs.Hash as fed;
ghost use Rattle.state_table.specs.SameKeys.{same_set};

use crate::keys::Key;
use std::hash::{Hash, Hasher};
use std::marker::Model;

/// A set of states, told by the list of them: the same states in another order are another key.
#[derive(Drop)]
pub struct StateSet {
    states: Vec<usize>,
}

impl Model for StateSet {
    ghost use Rattle.std.specs.Prelude.{List, ℕ};

    ghost Value = { List ℕ };

    ghost view = { λ s. s.states.items };
}

impl StateSet {
    /// The set of these states.
    pub fn new(states: Vec<usize>) -> StateSet
        ensures value { result ≡ states.items }
    {
        StateSet { states }
    }

    /// The states.
    pub fn states(&self) -> &[usize]
        ensures value { result.now ≡ self.now }
    {
        self.states.as_slice()
    }
}

impl PartialEq for StateSet {
    ghost eq = { pointwise nat_eq };

    ghost laws = { partial_equiv_from_equiv nat_list_eq_equiv };

    fn eq(&self, other: &StateSet) -> bool {
        self.states == other.states
    }
}

impl Eq for StateSet {
    ghost laws = { nat_list_eq_equiv };
}

impl Hash for StateSet {
    ghost hash_input = { fed.slice fed.usize };

    ghost respects_eq = { Prim.search (hashing, rules) };

    fn hash<H: Hasher>(&self, state: &mut H) {
        self.states.hash(state);
    }
}

impl Key for StateSet {
    ghost same = { same_set };
}
