//! Expressions with their sizes and kinds.

ghost use Rattle.std.specs.Prelude.{◌≡◌, ◌<◌, true};
ghost use Rattle.weighted_relations.specs.Expressions.{size as size_of, is_acceptor, is_weighted, is_marked};
ghost use Rattle.core_expressions.specs.Views.{expression_of};
ghost use Rattle.checked_expressions.specs.Sound.{meets_kinds};

use core_expressions::Expr;

/// A sound expression, with what is looked at where it is an operand.
#[derive(Drop)]
pub struct Value {
    pub expr: Expr,
    /// The number of nodes and of labels in texts.
    pub size: u64,
    pub acceptor: bool,
    pub weighted: bool,
    pub marked: bool,
    pub ghost counted: { size ≡ size_of (expression_of expr) },
    pub ghost bounded: { size < 4194304 },
    pub ghost accepting: { acceptor ≡ is_acceptor (expression_of expr) },
    pub ghost weighing: { weighted ≡ is_weighted (expression_of expr) },
    pub ghost marking: { marked ≡ is_marked (expression_of expr) },
    pub ghost sound: { meets_kinds (expression_of expr) ≡ true },
}
