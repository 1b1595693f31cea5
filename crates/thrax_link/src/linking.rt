//! Linking a file with all that it imports.

ghost use Rattle.std.specs.Prelude.{◌≡◌, ◌≤◌, ◌<◌, ◌∷◌, ◌++◌, [], All, IfErr, IfOk, OnOk, length, map, option_map, MatchOption, MatchResult};
ghost use Rattle.weighted_relations.specs.Expressions.{IsSound};
ghost use Rattle.norm_base.specs.Files.{Files};
ghost use Rattle.thrax_meaning.specs.Answers.{WhereTold};
ghost use Rattle.thrax_meaning.specs.Meaning.{empty, named_file};
ghost use Rattle.thrax_meaning.specs.Tables.{scope_over};
ghost use Rattle.thrax_syntax.specs.Trees.{import_of, statement_term};
ghost use Rattle.thrax_link.specs.Answers.{Counts, IsLinked, IsOutcome};
ghost use Rattle.thrax_link.specs.Exports.{export_term, exports_of, exported_as, exported_entries};
ghost use Rattle.thrax_link.specs.Linking.{Adds, Linked, LinksFetched, LinksRead, LinksText, LinksUnder, Outcome, Takes as TakesOne, TakesAll as TakesEach, is_among, name_of, exports};
ghost use Rattle.thrax_link.specs.Progress.{Grows, Imports, IsPlaced, IsUnread, IsWithin, Takes, TakesAll, finished_of, scope_at};
ghost use Rattle.thrax_link.specs.declared.fault.LinkFault.TheVariants.{Memory as LinkMemory};
ghost use Rattle.std.specs.Prelude.{Ok as OkOf};

use crate::done::Done;
use crate::fault::LinkFault;
use crate::grammar::{Export, Grammar};
use crate::refusals::{import_loop, not_found, refusal, twice};
use crate::statements::{add, define, define_function, is_used};
use norm_base::{FetchFault, Name, Shelf};
use std::alloc::{AllocError, Global};
use std::collections::VecDeque;
use thrax_meaning::{Entry, Function, Kind, Table, Why, fetch};
use thrax_syntax::{ReadFault, Statement, read_file};

/// How many files that import one another a chain has at most.
const LONGEST_CHAIN: u32 = 32;

/// The grammar that the file of this name is, with all that it imports, or the first refusal.
pub fn link<H: Shelf>(alloc: Global, shelf: &mut H, name: &Name) -> Result<Grammar, LinkFault>
    requires { All (λ b. (32 ≤ b) × (b ≤ 126)) name.now }
    // the answer is what comes of linking the file
    ensures linked { WhereTold (H.files shelf.old) (λ files. IsLinked files name.now result) }
    // and nothing else comes of it
    ensures only { WhereTold (H.files shelf.old) (λ files. (outcome : Outcome) → Linked files name.now outcome → IsOutcome result outcome) }
    ensures sound { IfOk result (λ grammar. All (λ rule. IsSound rule.1) (exports_of grammar)) }
    ensures files { H.files shelf.new ≡ H.files shelf.old }
    ensures counts { Counts (H.faults shelf.old) (H.faults shelf.new) result }
{
    let mut done = Done::new(alloc);
    let chain = Vec::new(alloc);
    match import(
        alloc,
        shelf,
        &mut done,
        &chain,
        LONGEST_CHAIN,
        name,
        0,
        name,
    ) {
        Err(fault) => Err(fault),
        Ok(place) => grammar_at(alloc, done.tables, place),
    }
}

/// What the file at a place exports.
fn grammar_at(alloc: Global, mut tables: Vec<Table>, place: usize) -> Result<Grammar, LinkFault>
    requires { place < length tables.items }
    ensures { MatchResult result (λ grammar. (files : Files) → exports (scope_at files tables.items place) ≡ exports_of grammar) (λ fault. fault ≡ LinkMemory) }
{
    let table = tables.swap_remove(place);
    let exports = exported(alloc, table)?;
    Ok(Grammar::new(exports))
}

/// The place of an imported file, which is linked where it wasn't before. The chain may grow by `left` files.
#[cycle(link)]
fn import<H: Shelf>(
    alloc: Global,
    shelf: &mut H,
    done: &mut Done,
    chain: &[Name],
    left: u32,
    file: &Name,
    statement: u64,
    target: &Name,
) -> Result<usize, LinkFault>
    requires { IsPlaced done.old }
    ensures links { WhereTold (H.files shelf.old) (λ files. Imports files done.new result (LinksUnder files left chain.now file.now statement (finished_of files done.old) target.now)) }
    ensures within { IfOk result (λ k. k < length done.new.tables.items) }
    ensures grows { OnOk result (Grows done.old done.new) }
    ensures files { H.files shelf.new ≡ H.files shelf.old }
    ensures counts { Counts (H.faults shelf.old) (H.faults shelf.new) result }
{
    if is_in_chain(target, chain) {
        return Err(import_loop(alloc, file, statement, target));
    }
    match done.find(target) {
        Some(place) => Ok(place),
        None => {
            if left == 0 {
                return Err(refusal(alloc, file, statement, Why::ImportDepth));
            }
            open(alloc, shelf, done, chain, left - 1, file, statement, target)
        }
    }
}

/// Whether a file of the chain has the name.
fn is_in_chain(name: &Name, chain: &[Name]) -> bool
    ensures { result ≡ is_among name.now chain.now }
{
    chain.iter().any(|file| *file == *name)
}

/// The place of a file that is fetched and linked.
#[cycle(link)]
fn open<H: Shelf>(
    alloc: Global,
    shelf: &mut H,
    done: &mut Done,
    chain: &[Name],
    left: u32,
    file: &Name,
    statement: u64,
    target: &Name,
) -> Result<usize, LinkFault>
    requires { IsPlaced done.old }
    ensures links { WhereTold (H.files shelf.old) (λ files. Imports files done.new result (LinksFetched files (LinksUnder files left (chain.now ++ target.now ∷ [])) file.now statement (finished_of files done.old) target.now (named_file files target.now))) }
    ensures within { IfOk result (λ k. k < length done.new.tables.items) }
    ensures grows { OnOk result (Grows done.old done.new) }
    ensures files { H.files shelf.new ≡ H.files shelf.old }
    ensures counts { Counts (H.faults shelf.old) (H.faults shelf.new) result }
{
    match fetch(shelf, target) {
        Ok(Some(text)) => link_text(alloc, shelf, done, chain, left, target, &text),
        Ok(None) => Err(not_found(alloc, file, statement, target)),
        Err(FetchFault::Failed) => Err(LinkFault::ShelfFault),
        Err(FetchFault::Memory) => Err(LinkFault::Memory),
    }
}

/// The place of a file with this text.
#[cycle(link)]
fn link_text<H: Shelf>(
    alloc: Global,
    shelf: &mut H,
    done: &mut Done,
    chain: &[Name],
    left: u32,
    name: &Name,
    text: &[u8],
) -> Result<usize, LinkFault>
    requires { IsPlaced done.old }
    ensures links { WhereTold (H.files shelf.old) (λ files. Imports files done.new result (LinksText files (LinksUnder files left (chain.now ++ name.now ∷ [])) (finished_of files done.old) name.now text.now)) }
    ensures within { IfOk result (λ k. k < length done.new.tables.items) }
    ensures grows { OnOk result (Grows done.old done.new) }
    ensures files { H.files shelf.new ≡ H.files shelf.old }
    ensures counts { Counts (H.faults shelf.old) (H.faults shelf.new) result }
{
    match read_file(alloc, text) {
        Ok(read) => link_statements(alloc, shelf, done, chain, left, name, read.statements),
        Err(fault) => Err(unread(alloc, name, fault)),
    }
}

/// The refusal of a text that is no grammar file.
fn unread(alloc: Global, name: &Name, fault: ReadFault) -> LinkFault
    ensures { IsUnread name.now fault result }
{
    match fault {
        ReadFault::Memory => LinkFault::Memory,
        _ => refusal(alloc, name, 0, Why::Read(fault)),
    }
}

/// The place of a file of these statements.
#[cycle(link)]
fn link_statements<H: Shelf>(
    alloc: Global,
    shelf: &mut H,
    done: &mut Done,
    chain: &[Name],
    left: u32,
    name: &Name,
    statements: Vec<Statement>,
) -> Result<usize, LinkFault>
    requires { IsPlaced done.old }
    ensures links { WhereTold (H.files shelf.old) (λ files. Imports files done.new result (LinksRead files (LinksUnder files left (chain.now ++ name.now ∷ [])) (finished_of files done.old) name.now (OkOf (map statement_term statements.items)))) }
    ensures within { IfOk result (λ k. k < length done.new.tables.items) }
    ensures grows { OnOk result (Grows done.old done.new) }
    ensures files { H.files shelf.new ≡ H.files shelf.old }
    ensures counts { Counts (H.faults shelf.old) (H.faults shelf.new) result }
{
    match longer(alloc, chain, name) {
        Err(_) => Err(LinkFault::Memory),
        Ok(below) => match take_all(alloc, shelf, done, &below, left, name, statements) {
            Err(fault) => Err(fault),
            Ok(table) => match done.finish(alloc, name, table) {
                Err(_) => Err(LinkFault::Memory),
                Ok(place) => Ok(place),
            },
        },
    }
}

/// The chain with one file more.
fn longer(alloc: Global, chain: &[Name], name: &Name) -> Result<Vec<Name>, AllocError>
    ensures { IfOk result (λ below. below.items ≡ chain.now ++ name.now ∷ []) }
{
    let mut below = Vec::new(alloc);
    for file in chain {
        below.push(Name::new(alloc, file.bytes())?)?;
    }
    below.push(Name::new(alloc, name.bytes())?)?;
    Ok(below)
}

/// The names of a file, its statements taken in order.
#[cycle(link)]
fn take_all<H: Shelf>(
    alloc: Global,
    shelf: &mut H,
    done: &mut Done,
    chain: &[Name],
    left: u32,
    file: &Name,
    statements: Vec<Statement>,
) -> Result<Table, LinkFault>
    requires { IsPlaced done.old }
    ensures takes { WhereTold (H.files shelf.old) (λ files. TakesAll files done.new result (TakesEach files (LinksUnder files left chain.now) file.now 1 (finished_of files done.old) empty (map statement_term statements.items))) }
    ensures within { IfOk result (λ table. IsWithin (length done.new.tables.items) table) }
    ensures grows { OnOk result (Grows done.old done.new) }
    ensures files { H.files shelf.new ≡ H.files shelf.old }
    ensures counts { Counts (H.faults shelf.old) (H.faults shelf.new) result }
{
    let mut table = Table::new(alloc);
    let mut rest = VecDeque::from(statements);
    let mut number = 0u64;
    while let Some(statement) = rest.pop_front() {
        number += 1;
        match take_statement(
            alloc, shelf, done, chain, left, &mut table, file, number, statement,
        ) {
            Ok(()) => {}
            Err(fault) => return Err(fault),
        }
    }
    Ok(table)
}

/// The name that a statement defines.
fn defined_name(statement: &Statement) -> &Name
    ensures { result.now ≡ name_of (statement_term statement.now) }
{
    match statement {
        Statement::Import { alias, .. } => alias,
        Statement::Define { name, .. } | Statement::Func { name, .. } => name,
    }
}

/// The names with that of one statement more.
#[cycle(link)]
fn take_statement<H: Shelf>(
    alloc: Global,
    shelf: &mut H,
    done: &mut Done,
    chain: &[Name],
    left: u32,
    table: &mut Table,
    file: &Name,
    number: u64,
    statement: Statement,
) -> Result<(), LinkFault>
    requires placed { IsPlaced done.old }
    requires within { IsWithin (length done.old.tables.items) table.old }
    ensures takes { WhereTold (H.files shelf.old) (λ files. Takes files done.new table.new result (TakesOne files (LinksUnder files left chain.now) file.now number (finished_of files done.old) (scope_over files done.old.tables.items table.old) (statement_term statement))) }
    ensures within { OnOk result (IsWithin (length done.new.tables.items) table.new) }
    ensures grows { OnOk result (Grows done.old done.new) }
    ensures files { H.files shelf.new ≡ H.files shelf.old }
    ensures counts { Counts (H.faults shelf.old) (H.faults shelf.new) result }
{
    if is_used(table, defined_name(&statement)) {
        return Err(twice(alloc, file, number, defined_name(&statement)));
    }
    match statement {
        Statement::Import {
            file: target,
            alias,
        } => add_import(
            alloc, shelf, done, chain, left, table, file, number, &target, alias,
        ),
        Statement::Define {
            export,
            name,
            value,
        } => define(
            alloc, shelf, done, table, file, number, export, name, &value,
        ),
        Statement::Func {
            name,
            params,
            body,
            result,
        } => {
            let function = Function {
                params,
                body,
                result,
            };
            define_function(alloc, done, table, file, number, name, function)
        }
    }
}

/// The names with an alias of an imported file.
#[cycle(link)]
fn add_import<H: Shelf>(
    alloc: Global,
    shelf: &mut H,
    done: &mut Done,
    chain: &[Name],
    left: u32,
    table: &mut Table,
    file: &Name,
    number: u64,
    target: &Name,
    alias: Name,
) -> Result<(), LinkFault>
    requires placed { IsPlaced done.old }
    requires within { IsWithin (length done.old.tables.items) table.old }
    ensures takes { WhereTold (H.files shelf.old) (λ files. Takes files done.new table.new result (Adds files (LinksUnder files left chain.now) file.now number (finished_of files done.old) (scope_over files done.old.tables.items table.old) (import_of target.now alias))) }
    ensures within { OnOk result (IsWithin (length done.new.tables.items) table.new) }
    ensures grows { OnOk result (Grows done.old done.new) }
    ensures files { H.files shelf.new ≡ H.files shelf.old }
    ensures counts { Counts (H.faults shelf.old) (H.faults shelf.new) result }
{
    match import(alloc, shelf, done, chain, left, file, number, target) {
        Err(fault) => Err(fault),
        Ok(place) => add(table, alias, Kind::File(place)),
    }
}

/// The exported names of a file.
fn exported(alloc: Global, table: Table) -> Result<Vec<Export>, AllocError>
    ensures { IfOk result (λ exports. exports_of exports.items ≡ exported_entries table) }
{
    let mut exports = Vec::new(alloc);
    for entry in table.into_entries() {
        match export_of(entry) {
            None => {}
            Some(export) => exports.push(export)?,
        }
    }
    Ok(exports)
}

/// What an entry exports.
fn export_of(entry: Entry) -> Option<Export>
    ensures { MatchOption result (exported_as entry.name entry.kind ≡ []) (λ export. exported_as entry.name entry.kind ≡ export_term export ∷ []) }
{
    let Entry { name, kind } = entry;
    match kind {
        Kind::Value(exported, value) => {
            if exported {
                Some(Export { name, value })
            } else {
                None
            }
        }
        Kind::Function(_) => None,
        Kind::File(_) => None,
    }
}
