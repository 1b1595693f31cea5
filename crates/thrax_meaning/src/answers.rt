//! Checked expressions as answers.

ghost use Rattle.std.specs.Prelude.{◌≡◌};
ghost use Rattle.checked_expressions.specs.Answers.{Makes};
ghost use Rattle.checked_expressions.specs.Nodes.{Checked};
ghost use Rattle.thrax_meaning.specs.Answers.{Gives, IsQuiet};
ghost use Rattle.thrax_meaning.specs.Meaning.{taken_of};

use crate::{Stop, Value, Why};
use checked_expressions::CheckFault;
use std::rc::Rc;

/// An expression that is checked, as the answer of a tree.
pub(crate) fn answer(made: Result<Rc<Value>, CheckFault>) -> Result<Rc<Value>, Stop>
    ensures means { (all : Checked) → Makes made all → Gives result (taken_of all) }
    ensures quiet { IsQuiet result }
{
    match made {
        Ok(value) => Ok(value),
        Err(CheckFault::Refused(fault)) => Err(Stop::Refused(Why::from(fault))),
        Err(CheckFault::Memory) => Err(Stop::Memory),
    }
}
