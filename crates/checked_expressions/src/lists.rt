//! Unions and concatenations, and what is made of them: once or more, at most once, so many times.

ghost use Rattle.std.specs.Prelude.{◌≡◌, ◌+◌, ◌*◌, ◌-◌, ◌<◌, ◌≤◌, ℕ, IfOk, OnOk, map, min, ◌++◌, replicate};
ghost use Rattle.weighted_relations.specs.Expressions.{union, concat, star, members, sizes, size as size_of, are_acceptors, some_weighted, some_marked};
ghost use Rattle.core_expressions.specs.Views.{expression_of};
ghost use Rattle.checked_expressions.specs.Answers.{Makes, shared_of};
ghost use Rattle.checked_expressions.specs.Nodes.{sized, plus, maybe, times};

use crate::nodes::{LIMIT, into_expr, shared, star, text};
use crate::{CheckFault, KindFault, Value};
use core_expressions::Expr;
use std::alloc::{AllocError, Global};
use std::rc::Rc;

/// The sizes together, up to the limit.
fn total_size(values: &[Rc<Value>]) -> u64
    ensures { result ≡ min (sizes (members (map shared_of values.now))) 4194304 }
{
    let mut total = 0;
    let mut rest = values;
    while let [value, after @ ..] = rest {
        total = (total + value.size).min(LIMIT);
        rest = after;
    }
    total
}

/// Whether all are acceptors.
fn all_accept(values: &[Rc<Value>]) -> bool
    ensures { result ≡ are_acceptors (members (map shared_of values.now)) }
{
    let mut rest = values;
    while let [value, after @ ..] = rest {
        if !value.acceptor {
            return false;
        }
        rest = after;
    }
    true
}

/// Whether one is weighted.
fn one_weighs(values: &[Rc<Value>]) -> bool
    ensures { result ≡ some_weighted (members (map shared_of values.now)) }
{
    let mut rest = values;
    while let [value, after @ ..] = rest {
        if value.weighted {
            return true;
        }
        rest = after;
    }
    false
}

/// Whether one is marked.
fn one_marks(values: &[Rc<Value>]) -> bool
    ensures { result ≡ some_marked (members (map shared_of values.now)) }
{
    let mut rest = values;
    while let [value, after @ ..] = rest {
        if value.marked {
            return true;
        }
        rest = after;
    }
    false
}

/// What is said of values together: their sizes, up to the limit, whether all are acceptors, and whether one is
/// weighted or marked.
#[derive(Clone, Copy)]
struct Together {
    size: u64,
    acceptors: bool,
    weighted: bool,
    marked: bool,
}

fn summed(values: &[Rc<Value>]) -> Together
    ensures size { result.size ≡ min (sizes (members (map shared_of values.now))) 4194304 }
    ensures acceptors { result.acceptors ≡ are_acceptors (members (map shared_of values.now)) }
    ensures weighted { result.weighted ≡ some_weighted (members (map shared_of values.now)) }
    ensures marked { result.marked ≡ some_marked (members (map shared_of values.now)) }
{
    Together {
        size: total_size(values),
        acceptors: all_accept(values),
        weighted: one_weighs(values),
        marked: one_marks(values),
    }
}

/// The expressions of the values.
fn exprs_of(alloc: Global, values: Vec<Rc<Value>>) -> Result<Vec<Expr>, AllocError>
    ensures { IfOk result (λ es. map expression_of es.items ≡ map shared_of values.items) }
{
    let mut exprs = Vec::new(alloc);
    for value in values {
        exprs.push(into_expr(alloc, value)?)?;
    }
    Ok(exprs)
}

/// A choice of the values.
pub fn union(alloc: Global, values: Vec<Rc<Value>>) -> Result<Rc<Value>, CheckFault>
    ensures { Makes result (sized (union (members (map shared_of values.items)))) }
{
    let all = summed(&values);
    if all.size + 1 >= LIMIT {
        return Err(CheckFault::Refused(KindFault::TooLarge));
    }
    let expr = Expr::Union(exprs_of(alloc, values)?);
    shared(
        alloc,
        Value {
            expr,
            size: all.size + 1,
            acceptor: all.acceptors,
            weighted: all.weighted,
            marked: all.marked,
        },
    )
}

/// The values one after another.
pub fn concat(alloc: Global, values: Vec<Rc<Value>>) -> Result<Rc<Value>, CheckFault>
    ensures { Makes result (sized (concat (members (map shared_of values.items)))) }
{
    let all = summed(&values);
    if all.size + 1 >= LIMIT {
        return Err(CheckFault::Refused(KindFault::TooLarge));
    }
    let expr = Expr::Concat(exprs_of(alloc, values)?);
    shared(
        alloc,
        Value {
            expr,
            size: all.size + 1,
            acceptor: all.acceptors,
            weighted: all.weighted,
            marked: all.marked,
        },
    )
}

/// The value once or more.
pub fn plus(alloc: Global, value: Rc<Value>) -> Result<Rc<Value>, CheckFault>
    ensures { Makes result (sized (plus (shared_of value))) }
{
    if value.size * 2 + 2 >= LIMIT {
        return Err(CheckFault::Refused(KindFault::TooLarge));
    }
    let repeated = star(alloc, value.clone()?)?;
    concat(alloc, vec![in alloc; value, repeated]?)
}

/// The value once or not at all.
pub fn maybe(alloc: Global, value: Rc<Value>) -> Result<Rc<Value>, CheckFault>
    ensures { Makes result (sized (maybe (shared_of value))) }
{
    let nothing = text(alloc, &[])?;
    union(alloc, vec![in alloc; nothing, value]?)
}

/// The value at least `least` and at most `most` times.
pub fn times(
    alloc: Global,
    value: Rc<Value>,
    least: u32,
    most: u32,
) -> Result<Rc<Value>, CheckFault>
    ensures { Makes result (sized (times (shared_of value) least most)) }
{
    let further = most.saturating_sub(least);
    let size = u64::from(least) * value.size + u64::from(further) * (value.size + 2) + 1;
    if size >= LIMIT {
        return Err(CheckFault::Refused(KindFault::TooLarge));
    }
    let mut parts = Vec::new(alloc);
    append(&mut parts, &value, least)?;
    if further > 0 {
        let once = maybe(alloc, value)?;
        append(&mut parts, &once, further)?;
    }
    concat(alloc, parts)
}

/// Puts the value at the end, so many times.
fn append(parts: &mut Vec<Rc<Value>>, value: &Rc<Value>, count: u32) -> Result<(), AllocError>
    ensures { OnOk result (map shared_of parts.new.items ≡ map shared_of parts.old.items ++ replicate count (shared_of value.now)) }
{
    for _ in 0..count {
        parts.push(value.clone()?)?;
    }
    Ok(())
}
