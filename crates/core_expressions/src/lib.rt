//! Core expressions: what the names, functions and closures of a grammar stand for.
//!
//! The contracts speak of the expression that a value stands for, `expression_of` in `specs/Views.antt`. Its
//! relation, kinds and size are defined in `weighted_relations`, in `specs/Expressions.antt`.
#![tactic(auto)]

mod copies;
mod expressions;
mod marks;
mod sizes;

pub use expressions::{Expr, Mode, RewriteOf, Side};
