//! Taking the expressions of trees.

ghost use Rattle.std.specs.Prelude.{◌≡◌, ◌<◌, ◌≤◌, ◌+◌, [], ◌++◌, ℕ, List, length, map, take, IfOk};
ghost use Rattle.norm_base.specs.Files.{Files};
ghost use Rattle.std.specs.Option.{option_map};
ghost use Rattle.core_expressions.specs.Views.{manner_of};
ghost use Rattle.thrax_syntax.specs.Trees.{tree_term, local_term, terms};
ghost use Rattle.thrax_syntax.specs.Trees as tree;
ghost use Rattle.thrax_syntax.specs.declared.tree.Tree.{size-Tree};
ghost use denote.Param.Weighed.{most};
ghost use Rattle.thrax_meaning.specs.Calls.{given, rewritten};
ghost use Rattle.checked_expressions.specs.Answers.{shared_of};
ghost use Rattle.thrax_meaning.specs.Answers.{Gives, GivesAll, Counts, IsQuiet, WhereTold};
ghost use Rattle.thrax_meaning.specs.Meaning.{refused, applied, arguments, built_in_call, bind, meant, meant_each, in_turn, function_of, options_of, rewrite_told, count, Scope, Local as LocalName};
ghost use Rattle.thrax_meaning.specs.Tables.{scope_over, scope_at, locals_at, local_of, place_weight, body_size};

use crate::answers::answer;
use crate::args::{
    RewriteArgs, both, four, function_arity, invert_arity, is_arity, only, optimize_arity,
    project_arity, rewrite_few, rewrite_many, string_file_arity,
};
use crate::built_ins::{BuiltIn, goes_right, mode_named, project_side, quoted};
use crate::files::string_file;
use crate::names::{copied, dotted, unknown};
use crate::place::Place;
use crate::table::{Bound, Function, Kind};
use crate::{Stop, Table, Value, Why};
use checked_expressions::{
    compose, concat, cross, invert, maybe, minus, plus, rewrite, star, text, times, union, weighted,
};
use core_expressions::Mode;
use norm_base::{Name, Shelf};
use std::alloc::{AllocError, Global};
use std::rc::Rc;
use thrax_syntax::{Local, Tree};

/// What a tree means in the scope of `table`, the names that its file has defined so far, over the tables of the
/// finished files.
pub fn take<H: Shelf>(
    alloc: Global,
    shelf: &mut H,
    files: &[Table],
    table: &Table,
    tree: &Tree,
) -> Result<Rc<Value>, Stop>
    ensures means { WhereTold (H.files shelf.old) (λ known. Gives result (meant known (scope_over known files.now table.now) [] (tree_term tree.now))) }
    ensures files { H.files shelf.new ≡ H.files shelf.old }
    ensures counts { Counts (H.faults shelf.old) (H.faults shelf.new) result }
{
    let place = Place {
        files,
        table,
        count: table.len(),
        locals: &[],
    };
    take_at(alloc, shelf, &place, tree)
}

/// What a tree means at a place.
#[cycle(take)]
fn take_at<H: Shelf>(
    alloc: Global,
    shelf: &mut H,
    place: &Place<'_>,
    tree: &Tree,
) -> Result<Rc<Value>, Stop>
    ensures means { WhereTold (H.files shelf.old) (λ known. Gives result (meant known (scope_at known place.now) (locals_at place.now) (tree_term tree.now))) }
    ensures files { H.files shelf.new ≡ H.files shelf.old }
    ensures counts { Counts (H.faults shelf.old) (H.faults shelf.new) result }
{
    match tree {
        Tree::Text(labels) => answer(text(alloc, labels)),
        Tree::Quoted(_) => Err(Stop::Refused(Why::Unsupported)),
        Tree::Use(name) => place.used(alloc, name),
        Tree::Member(alias, name) => place.member(alloc, alias, name),
        Tree::Call(name, args) => call(alloc, shelf, place, name, args),
        Tree::CallMember(alias, name, args) => call_member(alloc, shelf, place, alias, name, args),
        Tree::Union(parts) => answer(union(alloc, take_each(alloc, shelf, place, parts)?)),
        Tree::Concat(parts) => answer(concat(alloc, take_each(alloc, shelf, place, parts)?)),
        Tree::Cross(a, b) => {
            let input = take_at(alloc, shelf, place, a)?;
            let output = take_at(alloc, shelf, place, b)?;
            answer(cross(alloc, input, output))
        }
        Tree::Compose(a, b) => {
            let first = take_at(alloc, shelf, place, a)?;
            let second = take_at(alloc, shelf, place, b)?;
            answer(compose(alloc, first, second))
        }
        Tree::Minus(a, b) => {
            let all = take_at(alloc, shelf, place, a)?;
            let without = take_at(alloc, shelf, place, b)?;
            answer(minus(alloc, all, without))
        }
        Tree::Weighted(part, weight) => {
            answer(weighted(alloc, take_at(alloc, shelf, place, part)?, *weight))
        }
        Tree::Star(part) => answer(star(alloc, take_at(alloc, shelf, place, part)?)),
        Tree::Plus(part) => answer(plus(alloc, take_at(alloc, shelf, place, part)?)),
        Tree::Maybe(part) => answer(maybe(alloc, take_at(alloc, shelf, place, part)?)),
        Tree::Times(part, least, most) => {
            answer(times(alloc, take_at(alloc, shelf, place, part)?, *least, *most))
        }
    }
}

/// What trees mean at a place, in order.
#[cycle(take)]
fn take_each<H: Shelf>(
    alloc: Global,
    shelf: &mut H,
    place: &Place<'_>,
    parts: &[Tree],
) -> Result<Vec<Rc<Value>>, Stop>
    ensures means { WhereTold (H.files shelf.old) (λ known. GivesAll result (meant_each known (scope_at known place.now) (locals_at place.now) (terms (map tree_term parts.now)))) }
    ensures files { H.files shelf.new ≡ H.files shelf.old }
    ensures counts { Counts (H.faults shelf.old) (H.faults shelf.new) result }
{
    let mut all = Vec::new(alloc);
    for part in parts {
        match take_at(alloc, shelf, place, part) {
            Ok(value) => all.push(value)?,
            Err(stop) => return Err(stop),
        }
    }
    Ok(all)
}

/// What a call of a name means.
#[cycle(take)]
fn call<H: Shelf>(
    alloc: Global,
    shelf: &mut H,
    place: &Place<'_>,
    name: &Name,
    args: &[Tree],
) -> Result<Rc<Value>, Stop>
    ensures means { WhereTold (H.files shelf.old) (λ known. Gives result (meant known (scope_at known place.now) (locals_at place.now) (tree.call name.now (terms (map tree_term args.now))))) }
    ensures files { H.files shelf.new ≡ H.files shelf.old }
    ensures counts { Counts (H.faults shelf.old) (H.faults shelf.new) result }
{
    if let Some(built_in) = BuiltIn::named(name) {
        return call_built_in(alloc, shelf, place, built_in, args);
    }
    match place.table.find(place.count, name) {
        Some((count, Kind::Function(function))) => {
            let home = Place {
                files: place.files,
                table: place.table,
                count,
                locals: &[],
            };
            apply(alloc, shelf, place, &home, function, args)
        }
        _ => unknown(copied(alloc, name)?),
    }
}

/// What a call of a function of an imported file means.
#[cycle(take)]
fn call_member<H: Shelf>(
    alloc: Global,
    shelf: &mut H,
    place: &Place<'_>,
    alias: &Name,
    name: &Name,
    args: &[Tree],
) -> Result<Rc<Value>, Stop>
    ensures means { WhereTold (H.files shelf.old) (λ known. Gives result (meant known (scope_at known place.now) (locals_at place.now) (tree.call_member alias.now name.now (terms (map tree_term args.now))))) }
    ensures files { H.files shelf.new ≡ H.files shelf.old }
    ensures counts { Counts (H.faults shelf.old) (H.faults shelf.new) result }
{
    let Some(file) = place.aliased(alias) else {
        return unknown(dotted(alloc, alias, name)?);
    };
    match file.table.find(file.count, name) {
        Some((count, Kind::Function(function))) => {
            let home = Place {
                files: file.files,
                table: file.table,
                count,
                locals: &[],
            };
            apply(alloc, shelf, place, &home, function, args)
        }
        _ => unknown(dotted(alloc, alias, name)?),
    }
}

/// A function's expression for its arguments. `home` is the place of its definition.
#[cycle(take)]
fn apply<H: Shelf>(
    alloc: Global,
    shelf: &mut H,
    place: &Place<'_>,
    home: &Place<'_>,
    function: &Function,
    args: &[Tree],
) -> Result<Rc<Value>, Stop>
    requires { place_weight home.now + (1 + body_size function.now.body.items + size-Tree function.now.result) ≤ place_weight place.now }
    ensures means { WhereTold (H.files shelf.old) (λ known. Gives result (applied (length function.now.params.items)
        (function_of known (scope_at known home.now) function.now.params.items (map local_term function.now.body.items) (tree_term function.now.result)) (count (terms (map tree_term args.now)))
        (meant_each known (scope_at known place.now) (locals_at place.now) (terms (map tree_term args.now))))) }
    ensures files { H.files shelf.new ≡ H.files shelf.old }
    ensures counts { Counts (H.faults shelf.old) (H.faults shelf.new) result }
{
    if !is_arity(function, args) {
        return function_arity(function, args);
    }
    let values = take_each(alloc, shelf, place, args)?;
    let locals = bound(alloc, &function.params, values)?;
    run(alloc, shelf, home, locals, &function.body, &function.result)
}

/// The parameters with their values.
fn bound(alloc: Global, params: &[Name], values: Vec<Rc<Value>>) -> Result<Vec<Bound>, AllocError>
    ensures { IfOk result (λ b. map local_of b.items ≡ bind params.now (map shared_of values.items)) }
{
    let mut all = Vec::new(alloc);
    for value in values {
        let at = all.len();
        if at < params.len() {
            let name = copied(alloc, &params[at])?;
            all.push(Bound { name, value })?;
        }
    }
    Ok(all)
}

/// The expression of a function's result, after its local definitions.
#[cycle(take)]
fn run<H: Shelf>(
    alloc: Global,
    shelf: &mut H,
    home: &Place<'_>,
    locals: Vec<Bound>,
    body: &[Local],
    last: &Tree,
) -> Result<Rc<Value>, Stop>
    ensures means { WhereTold (H.files shelf.old) (λ known. Gives result (in_turn known (scope_at known home.now) (map local_of locals.items) (map local_term body.now) (tree_term last.now))) }
    ensures files { H.files shelf.new ≡ H.files shelf.old }
    ensures counts { Counts (H.faults shelf.old) (H.faults shelf.new) result }
{
    let mut locals = locals;
    let place = Place {
        files: home.files,
        table: home.table,
        count: home.count,
        locals: &locals,
    };
    match body {
        [] => take_at(alloc, shelf, &place, last),
        [step, after @ ..] => {
            let value = take_at(alloc, shelf, &place, &step.value)?;
            let name = copied(alloc, &step.name)?;
            locals.push(Bound { name, value })?;
            run(alloc, shelf, home, locals, after, last)
        }
    }
}

/// What a call of a built-in function means.
#[cycle(take)]
fn call_built_in<H: Shelf>(
    alloc: Global,
    shelf: &mut H,
    place: &Place<'_>,
    built_in: BuiltIn,
    args: &[Tree],
) -> Result<Rc<Value>, Stop>
    ensures means { WhereTold (H.files shelf.old) (λ known. Gives result (built_in_call known built_in (arguments known (scope_at known place.now) (locals_at place.now) (terms (map tree_term args.now))))) }
    ensures files { H.files shelf.new ≡ H.files shelf.old }
    ensures counts { Counts (H.faults shelf.old) (H.faults shelf.new) result }
{
    match built_in {
        BuiltIn::Optimize => match only(args) {
            Some(part) => take_at(alloc, shelf, place, part),
            None => optimize_arity(args),
        },
        BuiltIn::Invert => match only(args) {
            Some(part) => answer(invert(alloc, take_at(alloc, shelf, place, part)?)),
            None => invert_arity(args),
        },
        BuiltIn::Project => match both(args) {
            Some((part, side)) => {
                let value = take_at(alloc, shelf, place, part)?;
                project_side(alloc, value, quoted(side))
            }
            None => project_arity(args),
        },
        BuiltIn::StringFile => match only(args) {
            Some(name) => string_file(alloc, shelf, quoted(name)),
            None => string_file_arity(args),
        },
        BuiltIn::CDRewrite => call_rewrite(alloc, shelf, place, args),
    }
}

/// What a call of the context rewrite means.
#[cycle(take)]
fn call_rewrite<H: Shelf>(
    alloc: Global,
    shelf: &mut H,
    place: &Place<'_>,
    args: &[Tree],
) -> Result<Rc<Value>, Stop>
    ensures means { WhereTold (H.files shelf.old) (λ known. Gives result (built_in_call known BuiltIn.CDRewrite (arguments known (scope_at known place.now) (locals_at place.now) (terms (map tree_term args.now))))) }
    ensures files { H.files shelf.new ≡ H.files shelf.old }
    ensures counts { Counts (H.faults shelf.old) (H.faults shelf.new) result }
{
    let Some(parts) = four(args) else {
        return rewrite_few(args);
    };
    if parts.options.len() > 2 {
        return rewrite_many(args, &parts);
    }
    take_rewrite(alloc, shelf, place, args, &parts)
}

/// What a rewrite of trees means.
#[cycle(take)]
fn take_rewrite<H: Shelf>(
    alloc: Global,
    shelf: &mut H,
    place: &Place<'_>,
    args: &[Tree],
    parts: &RewriteArgs<'_>,
) -> Result<Rc<Value>, Stop>
    requires { (size-Tree parts.now.tau.now ≤ most size-Tree args.now) × (size-Tree parts.now.left.now ≤ most size-Tree args.now) × (size-Tree parts.now.right.now ≤ most size-Tree args.now) × (size-Tree parts.now.sigma.now ≤ most size-Tree args.now) }
    ensures means { WhereTold (H.files shelf.old) (λ known. Gives result (rewritten known (scope_at known place.now) (locals_at place.now) parts.now.tau.now parts.now.left.now parts.now.right.now parts.now.sigma.now parts.now.options.now)) }
    ensures files { H.files shelf.new ≡ H.files shelf.old }
    ensures counts { Counts (H.faults shelf.old) (H.faults shelf.new) result }
{
    let tau = take_at(alloc, shelf, place, parts.tau)?;
    let left = take_at(alloc, shelf, place, parts.left)?;
    let right = take_at(alloc, shelf, place, parts.right)?;
    let sigma = take_at(alloc, shelf, place, parts.sigma)?;
    told_rewrite(alloc, tau, left, right, sigma, parts.options)
}

/// A rewrite by its options.
fn told_rewrite(
    alloc: Global,
    tau: Rc<Value>,
    left: Rc<Value>,
    right: Rc<Value>,
    sigma: Rc<Value>,
    options: &[Tree],
) -> Result<Rc<Value>, Stop>
    ensures means { (f : Files) → (s : Scope) → (l : List LocalName) → Gives result (rewrite_told (options_of (given f s l options.now)) (shared_of tau) (shared_of left) (shared_of right) (shared_of sigma)) }
    ensures quiet { IsQuiet result }
{
    match mode_of(options) {
        Some(mode) => answer(rewrite(alloc, mode, tau, left, right, sigma)),
        None => Err(Stop::Refused(Why::Unsupported)),
    }
}

/// The mode of a rewrite by its options, where they are ones.
fn mode_of(options: &[Tree]) -> Option<Mode>
    ensures { (f : Files) → (s : Scope) → (l : List LocalName) → option_map manner_of result ≡ options_of (arguments f s l (terms (map tree_term options.now))) }
{
    match options {
        [] => Some(Mode::Obligatory),
        [way] => {
            if goes_right(quoted(way)) {
                Some(Mode::Obligatory)
            } else {
                None
            }
        }
        [way, mode, ..] => {
            if goes_right(quoted(way)) {
                mode_named(quoted(mode))
            } else {
                None
            }
        }
    }
}
