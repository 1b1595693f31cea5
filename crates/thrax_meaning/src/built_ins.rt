//! Functions that need no definition, and their options.

ghost use Rattle.std.specs.Prelude.{◌≡◌, List, ℕ, codes};
ghost use Rattle.std.specs.Option.{option_map};
ghost use Rattle.core_expressions.specs.Views.{manner_of as manner_view};
ghost use Rattle.thrax_syntax.specs.Trees.{tree_term};
ghost use Rattle.checked_expressions.specs.Answers.{shared_of};
ghost use Rattle.thrax_meaning.specs.Answers.{Gives, IsQuiet, name_view};
ghost use Rattle.thrax_meaning.specs.Meaning.{refused, built_in, is_left_to_right, manner_of, project_of, quoted_bytes};
ghost use Rattle.thrax_meaning.specs.declared.why.Why.TheVariants.{Arity};

use crate::answers::answer;
use crate::{Stop, Value, Why};
use checked_expressions::project;
use core_expressions::{Mode, Side};
use norm_base::Name;
use std::alloc::Global;
use std::rc::Rc;
use thrax_syntax::Tree;

/// A function that needs no definition. Its name is the variant's.
#[derive(Clone, Copy, Debug, PartialEq, Eq)]
pub enum BuiltIn {
    /// The expression itself.
    Optimize,
    /// Input and output exchanged.
    Invert,
    /// One side as both sides.
    Project,
    /// The entries of a string file.
    StringFile,
    /// A context rewrite.
    CDRewrite,
}

impl BuiltIn {
    /// The function of this name.
    pub fn named(name: &Name) -> Option<BuiltIn>
        ensures { result ≡ built_in name.now }
    {
        let bytes = name.bytes();
        if bytes == b"Optimize".as_slice() {
            return Some(BuiltIn::Optimize);
        }
        if bytes == b"Invert".as_slice() {
            return Some(BuiltIn::Invert);
        }
        if bytes == b"Project".as_slice() {
            return Some(BuiltIn::Project);
        }
        if bytes == b"StringFile".as_slice() {
            return Some(BuiltIn::StringFile);
        }
        if bytes == b"CDRewrite".as_slice() {
            return Some(BuiltIn::CDRewrite);
        }
        None
    }
}

/// The bytes of a quoted argument.
pub(crate) fn quoted(tree: &Tree) -> Option<&Name>
    ensures { option_map name_view result ≡ quoted_bytes (tree_term tree.now) }
{
    match tree {
        Tree::Quoted(name) => Some(name),
        _ => None,
    }
}

/// Refuses a call with another number of arguments than is wanted.
pub(crate) fn arity(wanted: u64, given: usize) -> Result<Rc<Value>, Stop>
    ensures means { Gives result (refused (Arity wanted given)) }
    ensures quiet { IsQuiet result }
{
    Err(Stop::Refused(Why::Arity {
        wanted,
        given: given as u64,
    }))
}

/// The side of a projection that an argument names, as both sides.
pub(crate) fn project_side(
    alloc: Global,
    value: Rc<Value>,
    side: Option<&Name>,
) -> Result<Rc<Value>, Stop>
    ensures means { Gives result (project_of (shared_of value) (option_map name_view side.entry)) }
    ensures quiet { IsQuiet result }
{
    let Some(name) = side else {
        return Err(Stop::Refused(Why::Unsupported));
    };
    if name.bytes() == b"input".as_slice() {
        return answer(project(alloc, value, Side::Input));
    }
    if name.bytes() == b"output".as_slice() {
        return answer(project(alloc, value, Side::Output));
    }
    Err(Stop::Refused(Why::Unsupported))
}

/// Whether an argument says that a rewrite goes from left to right.
pub(crate) fn goes_right(way: Option<&Name>) -> bool
    ensures { result ≡ is_left_to_right (option_map name_view way.entry) }
{
    match way {
        Some(name) => name.bytes() == b"ltr".as_slice(),
        None => false,
    }
}

/// The mode that an argument names.
pub(crate) fn mode_named(mode: Option<&Name>) -> Option<Mode>
    ensures { option_map manner_view result ≡ manner_of (option_map name_view mode.entry) }
{
    let name = mode?;
    if name.bytes() == b"obl".as_slice() {
        return Some(Mode::Obligatory);
    }
    if name.bytes() == b"opt".as_slice() {
        return Some(Mode::Optional);
    }
    None
}
