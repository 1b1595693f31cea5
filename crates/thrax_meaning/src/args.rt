//! Arguments of built-in functions.

ghost use Rattle.std.specs.Prelude.{◌≡◌, ◌≢◌, ◌<◌, ◌≤◌, [], ◌∷◌, ◌==◌, ℕ, List, map, length, IfSome, IfNone};
ghost use Rattle.thrax_syntax.specs.declared.tree.Tree.{size-Tree};
ghost use denote.Param.Weighed.{most};
ghost use Rattle.norm_base.specs.Files.{Files};
ghost use Rattle.thrax_syntax.specs.Trees.{terms, tree_term};
ghost use Rattle.thrax_meaning.specs.Answers.{Gives, IsQuiet};
ghost use Rattle.thrax_meaning.specs.Calls.{given};
ghost use Rattle.thrax_meaning.specs.Meaning.{Scope, Local, refused, built_in_call, count};
ghost use Rattle.thrax_meaning.specs.declared.why.Why.TheVariants.{Arity};

use crate::built_ins::{BuiltIn, arity};
use crate::table::Function;
use crate::{Stop, Value};
use std::rc::Rc;
use thrax_syntax::Tree;

/// The argument, where there is one alone.
pub(crate) fn only(args: &[Tree]) -> Option<&Tree>
    ensures some { IfSome result (λ x. args.now ≡ x.now ∷ []) }
    ensures less { IfSome result (λ x. size-Tree x.now ≤ most size-Tree args.now) }
    ensures none { IfNone result (length args.now ≢ 1) }
{
    match args {
        [one] => Some(one),
        _ => None,
    }
}

/// The arguments, where there are two.
pub(crate) fn both(args: &[Tree]) -> Option<(&Tree, &Tree)>
    ensures some { IfSome result (λ r. args.now ≡ r.0.now ∷ r.1.now ∷ []) }
    ensures less { IfSome result (λ r. size-Tree r.0.now ≤ most size-Tree args.now) }
    ensures none { IfNone result (length args.now ≢ 2) }
{
    match args {
        [first, second] => Some((first, second)),
        _ => None,
    }
}

/// The arguments of a rewrite.
#[derive(Clone, Copy)]
pub(crate) struct RewriteArgs<'a> {
    pub tau: &'a Tree,
    pub left: &'a Tree,
    pub right: &'a Tree,
    pub sigma: &'a Tree,
    pub options: &'a [Tree],
}

/// The arguments, where there are at least four.
pub(crate) fn four(args: &[Tree]) -> Option<RewriteArgs<'_>>
    ensures some { IfSome result (λ r. args.now ≡ r.tau.now ∷ r.left.now ∷ r.right.now ∷ r.sigma.now ∷ r.options.now) }
    ensures less { IfSome result (λ r. (size-Tree r.tau.now ≤ most size-Tree args.now) × (size-Tree r.left.now ≤ most size-Tree args.now) × (size-Tree r.right.now ≤ most size-Tree args.now) × (size-Tree r.sigma.now ≤ most size-Tree args.now)) }
    ensures none { IfNone result (length args.now < 4) }
{
    match args {
        [tau, left, right, sigma, options @ ..] => Some(RewriteArgs {
            tau,
            left,
            right,
            sigma,
            options,
        }),
        _ => None,
    }
}

/// Refuses a call of `Optimize` with another number of arguments.
pub(crate) fn optimize_arity(args: &[Tree]) -> Result<Rc<Value>, Stop>
    requires { length args.now ≢ 1 }
    ensures means { (f : Files) → (s : Scope) → (l : List Local) → Gives result (built_in_call f BuiltIn.Optimize (given f s l args.now)) }
    ensures quiet { IsQuiet result }
{
    arity(1, args.len())
}

/// Refuses a call of `Invert` with another number of arguments.
pub(crate) fn invert_arity(args: &[Tree]) -> Result<Rc<Value>, Stop>
    requires { length args.now ≢ 1 }
    ensures means { (f : Files) → (s : Scope) → (l : List Local) → Gives result (built_in_call f BuiltIn.Invert (given f s l args.now)) }
    ensures quiet { IsQuiet result }
{
    arity(1, args.len())
}

/// Refuses a call of `Project` with another number of arguments.
pub(crate) fn project_arity(args: &[Tree]) -> Result<Rc<Value>, Stop>
    requires { length args.now ≢ 2 }
    ensures means { (f : Files) → (s : Scope) → (l : List Local) → Gives result (built_in_call f BuiltIn.Project (given f s l args.now)) }
    ensures quiet { IsQuiet result }
{
    arity(2, args.len())
}

/// Refuses a call of `StringFile` with another number of arguments.
pub(crate) fn string_file_arity(args: &[Tree]) -> Result<Rc<Value>, Stop>
    requires { length args.now ≢ 1 }
    ensures means { (f : Files) → (s : Scope) → (l : List Local) → Gives result (built_in_call f BuiltIn.StringFile (given f s l args.now)) }
    ensures quiet { IsQuiet result }
{
    arity(1, args.len())
}

/// Refuses a rewrite with too few arguments.
pub(crate) fn rewrite_few(args: &[Tree]) -> Result<Rc<Value>, Stop>
    requires { length args.now < 4 }
    ensures means { (f : Files) → (s : Scope) → (l : List Local) → Gives result (built_in_call f BuiltIn.CDRewrite (given f s l args.now)) }
    ensures quiet { IsQuiet result }
{
    arity(4, args.len())
}

/// Refuses a rewrite with too many arguments.
pub(crate) fn rewrite_many(args: &[Tree], parts: &RewriteArgs<'_>) -> Result<Rc<Value>, Stop>
    requires shape { args.now ≡ parts.now.tau.now ∷ parts.now.left.now ∷ parts.now.right.now ∷ parts.now.sigma.now ∷ parts.now.options.now }
    requires many { 2 < length parts.now.options.now }
    ensures means { (f : Files) → (s : Scope) → (l : List Local) → Gives result (built_in_call f BuiltIn.CDRewrite (given f s l args.now)) }
    ensures quiet { IsQuiet result }
{
    arity(6, args.len())
}

/// Whether a function is called with as many arguments as it wants.
pub(crate) fn is_arity(function: &Function, args: &[Tree]) -> bool
    ensures { result ≡ (length function.now.params.items == count (terms (map tree_term args.now))) }
{
    function.params.len() == args.len()
}

/// Refuses a call of a function with another number of arguments than it wants.
pub(crate) fn function_arity(function: &Function, args: &[Tree]) -> Result<Rc<Value>, Stop>
    ensures means { Gives result (refused (Arity (length function.now.params.items) (count (terms (map tree_term args.now))))) }
    ensures quiet { IsQuiet result }
{
    arity(function.params.len() as u64, args.len())
}
