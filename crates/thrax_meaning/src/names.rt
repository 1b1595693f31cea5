//! What names stand for at a place of a grammar file.

ghost use Rattle.std.specs.Prelude.{◌≡◌, ◌<◌, ◌≤◌, ◌+◌, ℕ, List, length, map, take, get_or, MatchOption, IfOk, IfSome, None, Some};
ghost use Rattle.norm_base.specs.Files.{Files};
ghost use Rattle.checked_expressions.specs.Answers.{shared_of};
ghost use Rattle.thrax_meaning.specs.Answers.{Gives, IsQuiet};
ghost use Rattle.thrax_meaning.specs.Meaning.{refused, taken, used, exported, dotted, found, names_of, local, empty};
ghost use Rattle.thrax_meaning.specs.Tables.{scope_at, locals_at, scope_over, local_of, place_weight, weights};

use crate::place::Place;
use crate::table::{Bound, Kind};
use crate::{Stop, Value, Why};
use norm_base::Name;
use std::alloc::{AllocError, Global};
use std::rc::Rc;

/// Refuses a name that isn't defined.
pub(crate) fn unknown(name: Name) -> Result<Rc<Value>, Stop>
    ensures means { Gives result (refused (Why.Unknown name)) }
    ensures quiet { IsQuiet result }
{
    Err(Stop::Refused(Why::Unknown { name }))
}

/// A copy of a name.
pub(crate) fn copied(alloc: Global, name: &Name) -> Result<Name, AllocError>
    ensures { IfOk result (λ copy. copy ≡ name.now) }
{
    Name::new(alloc, name.bytes())
}

/// The name of a member of an imported file, as faults tell it.
pub(crate) fn dotted(alloc: Global, alias: &Name, name: &Name) -> Result<Name, AllocError>
    ensures { IfOk result (λ both. both ≡ dotted alias.now name.now) }
{
    let mut bytes = Vec::from_slice(alloc, alias.bytes())?;
    bytes.push(b'.')?;
    bytes.extend_from_slice(name.bytes())?;
    Name::new(alloc, &bytes)
}

/// The value of a parameter or local name.
fn local_value<'a>(locals: &'a [Bound], name: &Name) -> Option<&'a Rc<Value>>
    ensures { MatchOption result (local (map local_of locals.now) name.now ≡ None) (λ v. local (map local_of locals.now) name.now ≡ Some (shared_of v.now)) }
{
    let mut rest = locals;
    while let [first, after @ ..] = rest {
        if first.name == *name {
            return Some(&first.value);
        }
        rest = after;
    }
    None
}

impl Place<'_> {
    /// What a name stands for.
    pub fn used(&self, alloc: Global, name: &Name) -> Result<Rc<Value>, Stop>
        ensures means { (known : Files) → Gives result (used name.now (local (locals_at self.now) name.now) (found (scope_at known self.now) name.now)) }
        ensures quiet { IsQuiet result }
    {
        if let Some(value) = local_value(self.locals, name) {
            return Ok(value.clone()?);
        }
        match self.table.find(self.count, name) {
            Some((_, Kind::Value(_, value))) => Ok(value.clone()?),
            _ => unknown(copied(alloc, name)?),
        }
    }

    /// The finished file that an alias names, as the place at its end.
    pub fn aliased(&self, alias: &Name) -> Option<Place<'_>>
        ensures scope { (known : Files) → MatchOption result (names_of (found (scope_at known self.now) alias.now) ≡ empty)
            (λ home. names_of (found (scope_at known self.now) alias.now) ≡ scope_at known home) }
        ensures weight { IfSome result (λ home. place_weight home ≤ weights self.now.files.now) }
    {
        match self.table.find(self.count, alias) {
            Some((_, Kind::File(at))) => {
                if *at < self.files.len() {
                    let table = &self.files[*at];
                    Some(Place {
                        files: &self.files[..*at],
                        table,
                        count: table.len(),
                        locals: &[],
                    })
                } else {
                    None
                }
            }
            _ => None,
        }
    }

    /// What an exported name of an imported file stands for.
    pub fn member(&self, alloc: Global, alias: &Name, name: &Name) -> Result<Rc<Value>, Stop>
        ensures means { (known : Files) → Gives result (exported (dotted alias.now name.now) (found (names_of (found (scope_at known self.now) alias.now)) name.now)) }
        ensures quiet { IsQuiet result }
    {
        let Some(home) = self.aliased(alias) else {
            return unknown(dotted(alloc, alias, name)?);
        };
        match home.table.find(home.count, name) {
            Some((_, Kind::Value(true, value))) => Ok(value.clone()?),
            Some((_, Kind::Value(false, _))) => Err(Stop::Refused(Why::NotExported {
                name: dotted(alloc, alias, name)?,
            })),
            _ => unknown(dotted(alloc, alias, name)?),
        }
    }
}
