//! The files that are finished.

ghost use Rattle.std.specs.Prelude.{◌≡◌, ◌∷◌, ◌++◌, ◌<◌, [], ℕ, IfOk, IfNone, IfSome, List, MatchOption, OnOk, length, None, Some};
ghost use Rattle.norm_base.specs.Files.{Files};
ghost use Rattle.thrax_link.specs.Linking.{finished_names};
ghost use Rattle.thrax_link.specs.Progress.{Grows, IsPlaced, finished_of, scope_at};

use norm_base::Name;
use std::alloc::{AllocError, Global};
use thrax_meaning::{NameIndex, Table};

/// The files that were linked, in the order in which they were finished, each found at once by its name.
#[derive(Drop)]
pub(crate) struct Done {
    pub names: Vec<Name>,
    pub tables: Vec<Table>,
    pub index: NameIndex,
}

impl Done {
    /// No files.
    pub fn new(alloc: Global) -> Done
        ensures placed { IsPlaced result }
        ensures none { result.tables.items ≡ [] }
        ensures finished { (files : Files) → finished_of files result ≡ [] }
    {
        Done {
            names: Vec::new(alloc),
            tables: Vec::new(alloc),
            index: NameIndex::new(alloc),
        }
    }

    /// The place of a file.
    pub fn find(&self, name: &Name) -> Option<usize>
        requires { IsPlaced self.now }
        ensures { (files : Files) → MatchOption result (finished_names (finished_of files self.now) name.now ≡ None)
            (λ k. (k < length self.now.tables.items) × (finished_names (finished_of files self.now) name.now ≡ Some (scope_at files self.now.tables.items k))) }
    {
        self.index.newest(name)
    }

    /// One more file, and its place.
    pub fn finish(&mut self, alloc: Global, name: &Name, table: Table) -> Result<usize, AllocError>
        requires { IsPlaced self.old }
        ensures place { IfOk result (λ k. k ≡ length self.old.tables.items) }
        ensures names { OnOk result (self.new.names.items ≡ self.old.names.items ++ name.now ∷ []) }
        ensures tables { OnOk result (self.new.tables.items ≡ self.old.tables.items ++ table ∷ []) }
        ensures placed { OnOk result (IsPlaced self.new) }
    {
        let place = self.tables.len();
        self.names.push(Name::new(alloc, name.bytes())?)?;
        self.tables.push(table)?;
        self.index.set(alloc, name, place)?;
        Ok(place)
    }
}
