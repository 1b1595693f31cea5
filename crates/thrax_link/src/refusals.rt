//! Refusals, for which names are copied.

ghost use Rattle.std.specs.Prelude.{◌≡◌, MatchResult};
ghost use Rattle.thrax_link.specs.Linking.{stopped};
ghost use Rattle.thrax_link.specs.Progress.{IsRefusal};
ghost use Rattle.thrax_meaning.specs.declared.why.Why.TheVariants.{ImportLoop, NotFound, Twice};

use crate::fault::LinkFault;
use norm_base::Name;
use std::alloc::Global;
use thrax_meaning::Why;

/// A refusal at a statement of a file.
pub(crate) fn refusal(alloc: Global, file: &Name, statement: u64, why: Why) -> LinkFault
    ensures { IsRefusal result (stopped file.now statement why) }
{
    match Name::new(alloc, file.bytes()) {
        Ok(file) => LinkFault::Refused {
            file,
            statement,
            why,
        },
        Err(_) => LinkFault::Memory,
    }
}

/// The refusal of a name that comes a second time.
pub(crate) fn twice(alloc: Global, file: &Name, statement: u64, name: &Name) -> LinkFault
    ensures { IsRefusal result (stopped file.now statement (Twice name.now)) }
{
    match Name::new(alloc, name.bytes()) {
        Ok(name) => refusal(alloc, file, statement, Why::Twice { name }),
        Err(_) => LinkFault::Memory,
    }
}

/// The refusal of a file that imports itself.
pub(crate) fn import_loop(alloc: Global, file: &Name, statement: u64, name: &Name) -> LinkFault
    ensures { IsRefusal result (stopped file.now statement (ImportLoop name.now)) }
{
    match Name::new(alloc, name.bytes()) {
        Ok(name) => refusal(alloc, file, statement, Why::ImportLoop { name }),
        Err(_) => LinkFault::Memory,
    }
}

/// The refusal of a file that isn't there.
pub(crate) fn not_found(alloc: Global, file: &Name, statement: u64, name: &Name) -> LinkFault
    ensures { IsRefusal result (stopped file.now statement (NotFound name.now)) }
{
    match Name::new(alloc, name.bytes()) {
        Ok(name) => refusal(alloc, file, statement, Why::NotFound { name }),
        Err(_) => LinkFault::Memory,
    }
}
