//! The names that a file has defined so far.

ghost use Rattle.std.specs.Prelude.{◌≡◌, ◌<◌, ◌≤◌, ◌+◌, [], ◌∷◌, ◌++◌, OnOk, OnErr, IfSome, MatchOption, Some, None, List, ℕ, length, take, is_some};
ghost use Rattle.norm_base.specs.Files.{Files};
ghost use Rattle.thrax_meaning.specs.Meaning.{found, Scope};
ghost use Rattle.thrax_meaning.specs.Tables.{scope_of, meaning_of, weight, kind_weight};

use crate::Value;
use crate::name_index::NameIndex;
use norm_base::Name;
use std::alloc::{AllocError, Global};
use std::marker::Model;
use std::rc::Rc;
use thrax_syntax::{Local, Tree};

/// A function of a grammar file, which is taken at each call.
#[derive(Drop)]
pub struct Function {
    pub params: Vec<Name>,
    pub body: Vec<Local>,
    pub result: Tree,
}

/// A parameter or local name of a function, with its expression.
#[derive(Drop)]
pub struct Bound {
    pub name: Name,
    pub value: Rc<Value>,
}

/// What a name is.
#[derive(Drop)]
pub enum Kind {
    /// An expression, and whether other files see it.
    Value(bool, Rc<Value>),
    Function(Function),
    /// The place of an imported file among the finished files.
    File(usize),
}

/// A name that a file defines.
#[derive(Drop)]
pub struct Entry {
    pub name: Name,
    pub kind: Kind,
}

/// The names that a file has defined so far, in order, with the place of the newest entry of each name.
#[derive(Drop)]
pub struct Table {
    entries: Vec<Entry>,
    index: NameIndex,
}

impl Model for Table {
    ghost use Rattle.std.specs.Prelude.{List, map};
    ghost use Rattle.std.specs.Coded.{codes};
    ghost use Rattle.core_expressions.specs.contracts.expressions.Expr as expr;
    ghost use Rattle.thrax_syntax.specs.contracts.tree.Tree as tree;
    ghost use Rattle.thrax_meaning.specs.Index.{IsIndex};
    ghost use Rattle.thrax_meaning.specs.declared.table.Entry.{Entry};

    ghost Value = { List Entry };

    ghost view = { λ t. t.entries.items };

    ghost invariant = { λ t. IsIndex t.index.places (map (λ e. e.name) t.entries.items) };

    ghost coded = { Prim.hlevel (codes, expr.the_row.coded, tree.the_row.coded) };
}

impl Table {
    /// No names.
    pub fn new(alloc: Global) -> Table
        ensures { result ≡ [] }
    {
        Table {
            entries: Vec::new(alloc),
            index: NameIndex::new(alloc),
        }
    }

    /// Adds a name.
    pub fn define(&mut self, name: Name, kind: Kind) -> Result<(), AllocError>
        ensures ok { OnOk result (self.new ≡ self.old ++ record { name = name; kind = kind } ∷ []) }
        ensures err { OnErr result (self.new ≡ self.old) }
    {
        let alloc = *self.entries.allocator();
        let at = self.entries.len();
        // With room for the entry, nothing can fail once the name has its place.
        self.entries.reserve(1)?;
        self.index.set(alloc, &name, at)?;
        self.entries.push(Entry { name, kind })?;
        Ok(())
    }

    /// How many names there are.
    pub fn len(&self) -> usize
        ensures { result ≡ length self.now }
    {
        self.entries.len()
    }

    /// What the newest of the first `count` names that is this one is, with its place.
    pub(crate) fn find(&self, count: usize, name: &Name) -> Option<(usize, &Kind)>
        requires { count ≤ length self.now }
        ensures kind { (f : Files) → (done : List Scope) → MatchOption result (found (scope_of f done (take count self.now)) name.now ≡ None)
            (λ r. found (scope_of f done (take count self.now)) name.now ≡ Some (meaning_of f done (scope_of f done (take r.0 self.now)) r.1.now)) }
        ensures before { IfSome result (λ r. (r.0 < count) × (weight (take r.0 self.now) + kind_weight r.1.now ≤ weight (take count self.now))) }
    {
        match self.index.newest(name) {
            Some(place) if place < count => Some((place, &self.entries[place].kind)),
            Some(_) => find_among(&self.entries, count, name),
            None => None,
        }
    }

    /// Whether a name is defined.
    pub fn is_defined(&self, name: &Name) -> bool
        ensures { (f : Files) → (done : List Scope) → result ≡ is_some (found (scope_of f done self.now) name.now) }
    {
        self.index.newest(name).is_some()
    }

    /// The entries, in order.
    pub fn into_entries(self) -> Vec<Entry>
        ensures { result.items ≡ self }
    {
        self.entries
    }
}

/// What the newest of the first `count` entries of a name is, with its place.
fn find_among<'a>(entries: &'a [Entry], count: usize, name: &Name) -> Option<(usize, &'a Kind)>
    requires { count ≤ length entries.now }
    ensures kind { (f : Files) → (done : List Scope) → MatchOption result (found (scope_of f done (take count entries.now)) name.now ≡ None)
        (λ r. found (scope_of f done (take count entries.now)) name.now ≡ Some (meaning_of f done (scope_of f done (take r.0 entries.now)) r.1.now)) }
    ensures before { IfSome result (λ r. (r.0 < count) × (weight (take r.0 entries.now) + kind_weight r.1.now ≤ weight (take count entries.now))) }
{
    let mut at = count;
    while at > 0 {
        at -= 1;
        let entry = &entries[at];
        if entry.name == *name {
            return Some((at, &entry.kind));
        }
    }
    None
}
