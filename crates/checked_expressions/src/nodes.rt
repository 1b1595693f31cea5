//! Nodes of expressions, by their kinds and within the limit of sizes.
//!
//! The size of a node is known before anything of its operands is copied.

ghost use Rattle.std.specs.Prelude.{◌≡◌, ◌+◌, ◌<◌, ◌≤◌, ◌&&◌, ◌||◌, ℕ, IfOk, IfNone, IfSome, true, false};
ghost use Rattle.weighted_relations.specs.Expressions.{star, compose, weighted, invert, project, rewrite, is_marked, holds_mark};
ghost use Rattle.core_expressions.specs.Views.{expression_of, side_of, manner_of};
ghost use Rattle.checked_expressions.specs.Answers.{Makes, shared_of};
ghost use Rattle.checked_expressions.specs.Sound.{are_labels, is_plain_acceptor};
ghost use Rattle.checked_expressions.specs.Nodes.{Checked, fit, unfit, accepting, unweighted, sized, text_of, cross_of, minus_of, rewrite_of};

use crate::{CheckFault, KindFault, Value};
use core_expressions::{Expr, Mode, RewriteOf, Side};
use std::alloc::{AllocError, Global};
use std::rc::Rc;

/// Where sizes become too large.
pub const LIMIT: u64 = 4194304;

/// The value, to be shared.
pub(crate) fn shared(alloc: Global, value: Value) -> Result<Rc<Value>, CheckFault>
    ensures { Makes result (fit (expression_of value.expr)) }
{
    Ok(Rc::new(alloc, value)?)
}

/// The expression of a value, which is copied only where something else shares it.
pub(crate) fn into_expr(alloc: Global, value: Rc<Value>) -> Result<Expr, AllocError>
    ensures { IfOk result (λ e. expression_of e ≡ shared_of value) }
{
    match Rc::try_unwrap(value) {
        Ok(own) => Ok(own.expr),
        Err(other) => other.expr.copy(alloc),
    }
}

/// The expression of a value, in a box.
fn boxed(alloc: Global, value: Rc<Value>) -> Result<Box<Expr>, AllocError>
    ensures { IfOk result (λ e. expression_of e.value ≡ shared_of value) }
{
    Ok(Box::new(alloc, into_expr(alloc, value)?)?)
}

/// Any number of the expression.
pub fn star(alloc: Global, value: Rc<Value>) -> Result<Rc<Value>, CheckFault>
    ensures { Makes result (sized (star (shared_of value))) }
{
    let size = value.size + 1;
    if size >= LIMIT {
        return Err(CheckFault::Refused(KindFault::TooLarge));
    }
    let acceptor = value.acceptor;
    let weighted = value.weighted;
    let marked = value.marked;
    let inner = boxed(alloc, value)?;
    shared(
        alloc,
        Value {
            expr: Expr::Star(inner),
            size,
            acceptor,
            weighted,
            marked,
        },
    )
}

/// The expression with a weight.
pub fn weighted(alloc: Global, value: Rc<Value>, weight: u32) -> Result<Rc<Value>, CheckFault>
    ensures { Makes result (sized (weighted (shared_of value) weight)) }
{
    let size = value.size + 1;
    if size >= LIMIT {
        return Err(CheckFault::Refused(KindFault::TooLarge));
    }
    let acceptor = value.acceptor;
    let weighted = value.weighted || 0 < weight;
    let marked = value.marked;
    let inner = boxed(alloc, value)?;
    shared(
        alloc,
        Value {
            expr: Expr::Weighted(inner, weight),
            size,
            acceptor,
            weighted,
            marked,
        },
    )
}

/// Each string of the first with each of the second.
pub fn cross(alloc: Global, a: Rc<Value>, b: Rc<Value>) -> Result<Rc<Value>, CheckFault>
    ensures { Makes result (cross_of (shared_of a) (shared_of b)) }
{
    if !a.acceptor || !b.acceptor {
        return Err(CheckFault::Refused(KindFault::NotAcceptor));
    }
    let size = a.size + b.size + 1;
    if size >= LIMIT {
        return Err(CheckFault::Refused(KindFault::TooLarge));
    }
    let weighted = a.weighted || b.weighted;
    let marked = a.marked || b.marked;
    let input = boxed(alloc, a)?;
    let output = boxed(alloc, b)?;
    shared(
        alloc,
        Value {
            expr: Expr::Cross(input, output),
            size,
            acceptor: false,
            weighted,
            marked,
        },
    )
}

/// The readings of the first, each with those of the second that read its output.
pub fn compose(alloc: Global, a: Rc<Value>, b: Rc<Value>) -> Result<Rc<Value>, CheckFault>
    ensures { Makes result (sized (compose (shared_of a) (shared_of b))) }
{
    let size = a.size + b.size + 1;
    if size >= LIMIT {
        return Err(CheckFault::Refused(KindFault::TooLarge));
    }
    let acceptor = a.acceptor && b.acceptor;
    let weighted = a.weighted || b.weighted;
    let marked = a.marked || b.marked;
    let first = boxed(alloc, a)?;
    let second = boxed(alloc, b)?;
    shared(
        alloc,
        Value {
            expr: Expr::Compose(first, second),
            size,
            acceptor,
            weighted,
            marked,
        },
    )
}

/// The readings of the first whose string the second doesn't accept.
pub fn minus(alloc: Global, a: Rc<Value>, b: Rc<Value>) -> Result<Rc<Value>, CheckFault>
    ensures { Makes result (minus_of (shared_of a) (shared_of b)) }
{
    if !a.acceptor || !b.acceptor {
        return Err(CheckFault::Refused(KindFault::NotAcceptor));
    }
    if b.weighted {
        return Err(CheckFault::Refused(KindFault::IsWeighted));
    }
    let size = a.size + b.size + 1;
    if size >= LIMIT {
        return Err(CheckFault::Refused(KindFault::TooLarge));
    }
    let weighted = a.weighted;
    let marked = a.marked || b.marked;
    let all = boxed(alloc, a)?;
    let without = boxed(alloc, b)?;
    shared(
        alloc,
        Value {
            expr: Expr::Minus(all, without),
            size,
            acceptor: true,
            weighted,
            marked,
        },
    )
}

/// Input and output exchanged.
pub fn invert(alloc: Global, value: Rc<Value>) -> Result<Rc<Value>, CheckFault>
    ensures { Makes result (sized (invert (shared_of value))) }
{
    let size = value.size + 1;
    if size >= LIMIT {
        return Err(CheckFault::Refused(KindFault::TooLarge));
    }
    let acceptor = value.acceptor;
    let weighted = value.weighted;
    let marked = value.marked;
    let inner = boxed(alloc, value)?;
    shared(
        alloc,
        Value {
            expr: Expr::Invert(inner),
            size,
            acceptor,
            weighted,
            marked,
        },
    )
}

/// The chosen side as both sides.
pub fn project(alloc: Global, value: Rc<Value>, side: Side) -> Result<Rc<Value>, CheckFault>
    ensures { Makes result (sized (project (shared_of value) (side_of side))) }
{
    let size = value.size + 1;
    if size >= LIMIT {
        return Err(CheckFault::Refused(KindFault::TooLarge));
    }
    let weighted = value.weighted;
    let marked = value.marked;
    let inner = boxed(alloc, value)?;
    shared(
        alloc,
        Value {
            expr: Expr::Project(inner, side),
            size,
            acceptor: true,
            weighted,
            marked,
        },
    )
}

/// A context rewrite.
pub fn rewrite(
    alloc: Global,
    mode: Mode,
    tau: Rc<Value>,
    left: Rc<Value>,
    right: Rc<Value>,
    sigma: Rc<Value>,
) -> Result<Rc<Value>, CheckFault>
    ensures { Makes result (rewrite_of (manner_of mode) (shared_of tau) (shared_of left) (shared_of right) (shared_of sigma)) }
{
    if let Some(fault) = plain_fault(&left) {
        return Err(CheckFault::Refused(fault));
    }
    if let Some(fault) = plain_fault(&right) {
        return Err(CheckFault::Refused(fault));
    }
    if let Some(fault) = plain_fault(&sigma) {
        return Err(CheckFault::Refused(fault));
    }
    if tau.marked || sigma.marked {
        return Err(CheckFault::Refused(KindFault::Unsupported));
    }
    rewrite_node(alloc, mode, tau, left, right, sigma)
}

/// A context rewrite whose parts meet the rules on kinds.
fn rewrite_node(
    alloc: Global,
    mode: Mode,
    tau: Rc<Value>,
    left: Rc<Value>,
    right: Rc<Value>,
    sigma: Rc<Value>,
) -> Result<Rc<Value>, CheckFault>
    requires left { is_plain_acceptor (shared_of left) ≡ true }
    requires right { is_plain_acceptor (shared_of right) ≡ true }
    requires sigma { is_plain_acceptor (shared_of sigma) ≡ true }
    requires tau_unmarked { is_marked (shared_of tau) ≡ false }
    requires sigma_unmarked { is_marked (shared_of sigma) ≡ false }
    ensures { Makes result (sized (rewrite (shared_of tau) (shared_of left) (shared_of right) (shared_of sigma) (manner_of mode))) }
{
    let size = tau.size + left.size + right.size + sigma.size + 1;
    if size >= LIMIT {
        return Err(CheckFault::Refused(KindFault::TooLarge));
    }
    let weighted = tau.weighted;
    let parts = RewriteOf {
        tau: into_expr(alloc, tau)?,
        left: into_expr(alloc, left)?,
        right: into_expr(alloc, right)?,
        sigma: into_expr(alloc, sigma)?,
        mode,
    };
    shared(
        alloc,
        Value {
            expr: Expr::Rewrite(Box::new(alloc, parts)?),
            size,
            acceptor: false,
            weighted,
            marked: false,
        },
    )
}

/// Why an operand isn't an acceptor without weights, where it isn't.
fn plain_fault(value: &Value) -> Option<KindFault>
    ensures plain { IfNone result (is_plain_acceptor (expression_of value.now.expr) ≡ true) }
    ensures fault { IfSome result (λ why. (rest : Checked) → accepting (expression_of value.now.expr) (unweighted (expression_of value.now.expr) rest) ≡ unfit why) }
{
    if !value.acceptor {
        return Some(KindFault::NotAcceptor);
    }
    if value.weighted {
        return Some(KindFault::IsWeighted);
    }
    None
}

/// A text.
pub fn text(alloc: Global, labels: &[u16]) -> Result<Rc<Value>, CheckFault>
    ensures { Makes result (text_of labels.now) }
{
    if !are_labels(labels) {
        return Err(CheckFault::Refused(KindFault::Unsupported));
    }
    let count = labels.len() as u64;
    if count >= LIMIT - 1 {
        return Err(CheckFault::Refused(KindFault::TooLarge));
    }
    let marked = holds_mark(labels);
    let expr = Expr::Text(Vec::from_slice(alloc, labels)?);
    shared(
        alloc,
        Value {
            expr,
            size: count + 1,
            acceptor: true,
            weighted: false,
            marked,
        },
    )
}

/// Whether all are labels, from 1 to 257.
fn are_labels(labels: &[u16]) -> bool
    ensures { result ≡ are_labels labels.now }
{
    let mut rest = labels;
    while let [label, after @ ..] = rest {
        if *label < 1 || *label > 257 {
            return false;
        }
        rest = after;
    }
    true
}

/// Whether a mark stands among the labels.
fn holds_mark(labels: &[u16]) -> bool
    ensures { result ≡ holds_mark labels.now }
{
    let mut rest = labels;
    while let [label, after @ ..] = rest {
        if *label > 255 {
            return true;
        }
        rest = after;
    }
    false
}
