//! Places of names.

ghost use Rattle.std.specs.Prelude.{◌≡◌, ◌∷◌, ◌++◌, [], List, ℕ, OnOk, OnErr, length};
ghost use Rattle.std.specs.HashMap.{IsUnchanged};
ghost use Rattle.thrax_meaning.specs.Index.{IsIndex, newest};

use norm_base::Name;
use std::alloc::{AllocError, Global};
use std::collections::HashMap;

/// The place of the newest of each name of a list.
#[derive(Drop)]
pub struct NameIndex {
    pub places: HashMap<Vec<u8>, usize>,
}

impl NameIndex {
    /// The index of no names.
    pub fn new(alloc: Global) -> NameIndex
        ensures { IsIndex result.places [] }
    {
        NameIndex {
            places: HashMap::new(alloc),
        }
    }

    /// Gives a name its place, which is behind all others.
    pub fn set(&mut self, alloc: Global, name: &Name, at: usize) -> Result<(), AllocError>
        ensures ok { OnOk result ((names : List (List ℕ)) → at ≡ length names → IsIndex self.old.places names → IsIndex self.new.places (names ++ name.now ∷ [])) }
        ensures err { OnErr result (IsUnchanged self.old.places self.new.places) }
    {
        let key = Vec::from_slice(alloc, name.bytes())?;
        self.places.insert(key, at)?;
        Ok(())
    }

    /// The place of the newest that is this name.
    pub fn newest(&self, name: &Name) -> Option<usize>
        ensures { (names : List (List ℕ)) → IsIndex self.now.places names → result ≡ newest names name.now }
    {
        self.places.get(name.bytes()).copied()
    }
}
