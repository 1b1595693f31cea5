//! Copies of expressions.

ghost use Rattle.std.specs.Prelude.{◌≡◌, IfOk, map};
ghost use Rattle.core_expressions.specs.Views.{expression_of, rewrite_of};

use crate::expressions::{Expr, RewriteOf};
use std::alloc::{AllocError, Global};

impl Expr {
    /// An expression equal to this one, with memory of its own.
    #[cycle(copy)]
    pub fn copy(&self, alloc: Global) -> Result<Expr, AllocError>
        ensures { IfOk result (λ e. expression_of e ≡ expression_of self.now) }
    {
        Ok(match self {
            Expr::Text(labels) => Expr::Text(Vec::from_slice(alloc, labels)?),
            Expr::Weighted(e, weight) => Expr::Weighted(boxed(alloc, e)?, *weight),
            Expr::Union(parts) => Expr::Union(copy_each(alloc, parts)?),
            Expr::Concat(parts) => Expr::Concat(copy_each(alloc, parts)?),
            Expr::Star(e) => Expr::Star(boxed(alloc, e)?),
            Expr::Cross(a, b) => Expr::Cross(boxed(alloc, a)?, boxed(alloc, b)?),
            Expr::Compose(a, b) => Expr::Compose(boxed(alloc, a)?, boxed(alloc, b)?),
            Expr::Minus(a, b) => Expr::Minus(boxed(alloc, a)?, boxed(alloc, b)?),
            Expr::Invert(e) => Expr::Invert(boxed(alloc, e)?),
            Expr::Project(e, side) => Expr::Project(boxed(alloc, e)?, *side),
            Expr::Rewrite(r) => Expr::Rewrite(Box::new(alloc, copy_rewrite(alloc, r)?)?),
        })
    }
}

/// A copy in a box of its own.
#[cycle(copy)]
fn boxed(alloc: Global, e: &Expr) -> Result<Box<Expr>, AllocError>
    ensures { IfOk result (λ copied. expression_of copied.value ≡ expression_of e.now) }
{
    Ok(Box::new(alloc, e.copy(alloc)?)?)
}

/// Copies of the parts, in order.
#[cycle(copy)]
fn copy_each(alloc: Global, parts: &[Expr]) -> Result<Vec<Expr>, AllocError>
    ensures { IfOk result (λ copies. map expression_of copies.items ≡ map expression_of parts.now) }
{
    let mut copies = Vec::new(alloc);
    for part in parts {
        copies.push(part.copy(alloc)?)?;
    }
    Ok(copies)
}

/// A copy of a rewrite.
#[cycle(copy)]
fn copy_rewrite(alloc: Global, r: &RewriteOf) -> Result<RewriteOf, AllocError>
    ensures { IfOk result (λ copied. rewrite_of copied ≡ rewrite_of r.now) }
{
    Ok(RewriteOf {
        tau: r.tau.copy(alloc)?,
        left: r.left.copy(alloc)?,
        right: r.right.copy(alloc)?,
        sigma: r.sigma.copy(alloc)?,
        mode: r.mode,
    })
}
