// The table of the keys.

ghost use Rattle.std.specs.Prelude.{◌≡◌, ◌<◌, ◌^◌, ℕ, [], length, Some, slice_get, IfOk, OnErr, IfSome, IfNone};
ghost use Rattle.state_table.specs.Numbers.{Distinct, Numbers};

use crate::keys::Key;
use indexmap::IndexSet;
use std::alloc::{AllocError, Global};
use std::marker::Model;

/// Keys that are numbered from 0, in the order in which they came first.
#[derive(Drop)]
pub struct StateTable<K: Key> {
    keys: IndexSet<K>,
}

impl<K: Key> Model for StateTable<K> {
    ghost use Rattle.std.specs.Prelude.{List};
    ghost use Rattle.state_table.specs.Numbers.{Distinct};

    ghost Value = { List K };

    ghost view = { λ t. t.keys.keys };

    ghost invariant = { λ t. Distinct t.keys.keys };
}

impl<K: Key> StateTable<K> {
    /// No keys.
    pub fn new(alloc: Global) -> StateTable<K>
        ensures value { result ≡ [] }
    {
        StateTable {
            keys: IndexSet::new(alloc),
        }
    }

    /// How many keys have a number.
    pub fn len(&self) -> usize
        ensures count { result ≡ length self.now }
        ensures small { result < 2 ^ 63 }
        ensures distinct { Distinct self.now }
    {
        self.keys.len()
    }

    /// The key of a number.
    pub fn key(&self, number: usize) -> &K
        requires within { number < length self.now }
        ensures value { slice_get self.now number ≡ Some result.now }
        ensures distinct { Distinct self.now }
    {
        &self.keys.as_slice()[number]
    }

    /// The number of a key. A key that has none gets the next.
    pub fn number(&mut self, key: K) -> Result<usize, AllocError>
        ensures number { IfOk result (Numbers self.old self.new key) }
        ensures unchanged { OnErr result (self.new ≡ self.old) }
        ensures distinct { Distinct self.new }
    {
        let (number, _) = self.keys.insert_full(key)?;
        Ok(number)
    }

    /// The number of a key, where it has one.
    pub fn find(&self, key: &K) -> Option<usize>
        ensures found { IfSome result (λ number. slice_get self.now number ≡ Some key.now) }
        ensures absent { IfNone result ((number : ℕ) → slice_get self.now number ≡ Some key.now → ⊥) }
        ensures distinct { Distinct self.now }
    {
        self.keys.get_index_of(key)
    }
}
