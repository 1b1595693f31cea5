//! The size of an expression.

ghost use Rattle.std.specs.Prelude.{◌≡◌, map, min};
ghost use Rattle.weighted_relations.specs.Expressions.{size, sizes, members};
ghost use Rattle.core_expressions.specs.Views.{expression_of};

use crate::expressions::Expr;

impl Expr {
    /// The number of nodes and of labels in texts, where a rewrite is one node beside its four parts; the greatest
    /// `u64` where there are more.
    #[cycle(size)]
    pub fn size(&self) -> u64
        ensures { result ≡ min (size (expression_of self.now)) u64.MAX }
    {
        match self {
            Expr::Text(labels) => (labels.len() as u64).saturating_add(1),
            Expr::Weighted(e, _) | Expr::Star(e) | Expr::Invert(e) | Expr::Project(e, _) => {
                e.size().saturating_add(1)
            }
            Expr::Union(parts) | Expr::Concat(parts) => sizes(parts).saturating_add(1),
            Expr::Cross(a, b) | Expr::Compose(a, b) | Expr::Minus(a, b) => {
                a.size().saturating_add(b.size()).saturating_add(1)
            }
            Expr::Rewrite(r) => {
                let contexts = r.left.size().saturating_add(r.right.size());
                let others = r.tau.size().saturating_add(r.sigma.size());
                contexts.saturating_add(others).saturating_add(1)
            }
        }
    }
}

/// The sizes of the parts together, or the greatest `u64`.
#[cycle(size)]
fn sizes(parts: &[Expr]) -> u64
    ensures { result ≡ min (sizes (members (map expression_of parts.now))) u64.MAX }
{
    let mut all = 0u64;
    for part in parts {
        all = all.saturating_add(part.size());
    }
    all
}
