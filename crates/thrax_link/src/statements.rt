//! Statements that need no other file: definitions and functions.

ghost use Rattle.std.specs.Prelude.{◌≡◌, ◌∷◌, ◌++◌, [], IfErr, IfOk, List, OnOk, length, map, not, option_map, Vec, ℕ};
ghost use Rattle.norm_base.specs.Files.{Files};
ghost use Rattle.thrax_meaning.specs.Answers.{WhereTold};
ghost use Rattle.thrax_meaning.specs.Meaning.{Scope, function, function_of, meant};
ghost use Rattle.thrax_meaning.specs.Tables.{meaning_of_function, scope_of, scope_over};
ghost use Rattle.thrax_syntax.specs.Trees.{local_term, tree_term};
ghost use Rattle.thrax_link.specs.Answers.{Counts};
ghost use Rattle.thrax_link.specs.Linking.{defined, is_among, is_used, repeated as repeated_name, with_function};
ghost use Rattle.thrax_link.specs.Progress.{Defines, Holds, IsLocal, IsWithin, finished_of};

use crate::done::Done;
use crate::fault::LinkFault;
use crate::refusals::{refusal, twice};
use norm_base::{Name, Shelf};
use std::alloc::{AllocError, Global};
use std::collections::HashSet;
use thrax_meaning::{BuiltIn, Function, Kind, Stop, Table, take};
use thrax_syntax::{Local, Tree};

/// Whether the file has a name already, or a built-in function has it.
pub(crate) fn is_used(table: &Table, name: &Name) -> bool
    ensures { (files : Files) → (done : List Scope) → result ≡ is_used (scope_of files done table.now) name.now }
{
    table.is_defined(name) || BuiltIn::named(name).is_some()
}

/// A definition, whose name is new.
pub(crate) fn define<H: Shelf>(
    alloc: Global,
    shelf: &mut H,
    done: &Done,
    table: &mut Table,
    file: &Name,
    statement: u64,
    exported: bool,
    name: Name,
    value: &Tree,
) -> Result<(), LinkFault>
    requires { IsWithin (length done.now.tables.items) table.old }
    ensures takes { WhereTold (H.files shelf.old) (λ files. Defines files done.now table.new result
        (defined file.now statement (finished_of files done.now) (scope_over files done.now.tables.items table.old) exported name
        (meant files (scope_over files done.now.tables.items table.old) [] (tree_term value.now)))) }
    ensures within { OnOk result (IsWithin (length done.now.tables.items) table.new) }
    ensures files { H.files shelf.new ≡ H.files shelf.old }
    ensures counts { Counts (H.faults shelf.old) (H.faults shelf.new) result }
{
    match take(alloc, shelf, &done.tables, table, value) {
        Ok(value) => add(table, name, Kind::Value(exported, value)),
        Err(Stop::Refused(why)) => Err(refusal(alloc, file, statement, why)),
        Err(Stop::ShelfFault) => Err(LinkFault::ShelfFault),
        Err(Stop::Memory) => Err(LinkFault::Memory),
    }
}

/// One more name.
pub(crate) fn add(table: &mut Table, name: Name, kind: Kind) -> Result<(), LinkFault>
    ensures ok { OnOk result (table.new ≡ table.old ++ record { name = name; kind = kind } ∷ []) }
    ensures err { IfErr result (λ fault. fault ≡ LinkFault.Memory) }
{
    table.define(name, kind)?;
    Ok(())
}

/// A function, whose name is new. Its parameters and local names have to differ.
pub(crate) fn define_function(
    alloc: Global,
    done: &Done,
    table: &mut Table,
    file: &Name,
    statement: u64,
    name: Name,
    defined: Function,
) -> Result<(), LinkFault>
    requires { IsWithin (length done.now.tables.items) table.old }
    ensures takes { (files : Files) → Defines files done.now table.new result
        (with_function file.now statement (finished_of files done.now) (scope_over files done.now.tables.items table.old) name
        (meaning_of_function files (scope_over files done.now.tables.items table.old) defined)
        (repeated_name [] (defined.params.items ++ map (λ l. l.name) (map local_term defined.body.items)))) }
    ensures within { OnOk result (IsWithin (length done.now.tables.items) table.new) }
    ensures stops { IfErr result IsLocal }
{
    match repeated(alloc, &defined.params, &defined.body) {
        Ok(None) => add(table, name, Kind::Function(defined)),
        Ok(Some(inner)) => Err(twice(alloc, file, statement, inner)),
        Err(_) => Err(LinkFault::Memory),
    }
}

/// The first parameter or local name that comes a second time.
fn repeated<'a>(
    alloc: Global,
    params: &'a [Name],
    body: &'a [Local],
) -> Result<Option<&'a Name>, AllocError>
    ensures { IfOk result (λ found. option_map (λ n. n.now) found ≡ repeated_name [] (params.now ++ map (λ l. l.name) (map local_term body.now))) }
{
    let mut seen = HashSet::new(alloc);
    for name in params {
        if !is_new(alloc, &mut seen, name)? {
            return Ok(Some(name));
        }
    }
    for local in body {
        if !is_new(alloc, &mut seen, &local.name)? {
            return Ok(Some(&local.name));
        }
    }
    Ok(None)
}

/// Whether a name is new among those seen, to which it is added.
fn is_new(alloc: Global, seen: &mut HashSet<Vec<u8>>, name: &Name) -> Result<bool, AllocError>
    ensures { IfOk result (λ new. (before : List (List ℕ)) → Holds seen.old before → (new ≡ not (is_among name.now before)) × Holds seen.new (before ++ name.now ∷ [])) }
{
    let key = Vec::from_slice(alloc, name.bytes())?;
    Ok(seen.insert(key)?)
}
