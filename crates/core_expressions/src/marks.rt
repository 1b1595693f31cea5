//! Whether an expression may hold a mark.

ghost use Rattle.std.specs.Prelude.{◌≡◌, map, nat_lt};
ghost use Rattle.std.specs.List.{list_any};
ghost use Rattle.weighted_relations.specs.Expressions.{is_marked, some_marked, members};
ghost use Rattle.core_expressions.specs.Views.{expression_of};

use crate::expressions::Expr;

impl Expr {
    /// Whether a reading may hold a mark of the beginning or the end, as far as the kinds of expressions tell.
    #[cycle(marked)]
    pub fn is_marked(&self) -> bool
        ensures { result ≡ is_marked (expression_of self.now) }
    {
        match self {
            Expr::Text(labels) => holds_mark(labels),
            Expr::Weighted(e, _) | Expr::Star(e) | Expr::Invert(e) | Expr::Project(e, _) => {
                e.is_marked()
            }
            Expr::Union(parts) | Expr::Concat(parts) => some_marked(parts),
            Expr::Cross(a, b) | Expr::Compose(a, b) | Expr::Minus(a, b) => {
                a.is_marked() || b.is_marked()
            }
            Expr::Rewrite(_) => false,
        }
    }
}

/// Whether one of the parts may hold a mark.
#[cycle(marked)]
fn some_marked(parts: &[Expr]) -> bool
    ensures { result ≡ some_marked (members (map expression_of parts.now)) }
{
    for part in parts {
        if part.is_marked() {
            return true;
        }
    }
    false
}

/// Whether one of the labels is a mark.
fn holds_mark(labels: &[u16]) -> bool
    ensures { result ≡ list_any (λ label. nat_lt 255 label) labels.now }
{
    labels.iter().any(|label| *label > 255)
}
