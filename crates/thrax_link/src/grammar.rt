//! The exported names of a file, with their expressions.

ghost use Rattle.std.specs.Prelude.{◌≡◌, IfSome, IfNone, Some, None};
ghost use Rattle.core_expressions.specs.Views.{expression_of};
ghost use Rattle.weighted_relations.specs.Expressions.{IsSound};
ghost use Rattle.thrax_link.specs.Exports.{expression_named, exports_of};

use core_expressions::Expr;
use norm_base::Name;
use std::marker::Model;
use std::rc::Rc;
use thrax_meaning::Value;

/// An exported name with its expression.
#[derive(Drop)]
pub struct Export {
    pub name: Name,
    pub value: Rc<Value>,
}

/// What a file exports: names, each with the sound expression that it stands for.
#[derive(Drop)]
pub struct Grammar {
    exports: Vec<Export>,
}

impl Model for Grammar {
    ghost use Rattle.std.specs.Prelude.{List};
    ghost use Rattle.std.specs.Coded.{codes};
    ghost use Rattle.core_expressions.specs.contracts.expressions.Expr as expr;
    ghost use Rattle.thrax_link.specs.declared.grammar.Export.{Export};

    ghost Value = { List Export };

    ghost view = { λ g. g.exports.items };

    ghost coded = { Prim.hlevel (codes, expr.the_row.coded) };
}

impl Grammar {
    /// The grammar of these names, no two of which are equal.
    pub(crate) fn new(exports: Vec<Export>) -> Grammar
        ensures { result ≡ exports.items }
    {
        Grammar { exports }
    }

    /// The expression of an exported name, or `None` where the file exports no such name. It takes no memory.
    pub fn rule(&self, name: &Name) -> Option<&Expr>
        ensures found { IfSome result (λ e. expression_named (exports_of self.now) name.now ≡ Some (expression_of e.now)) }
        ensures none { IfNone result (expression_named (exports_of self.now) name.now ≡ None) }
        ensures sound { IfSome result (λ e. IsSound (expression_of e.now)) }
    {
        let mut rest = self.exports.as_slice();
        while let [first, after @ ..] = rest {
            if first.name == *name {
                return Some(&first.value.expr);
            }
            rest = after;
        }
        None
    }
}
