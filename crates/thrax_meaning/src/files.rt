//! Files of the shelf.

ghost use Rattle.std.specs.Prelude.{◌≡◌, IfOk};
ghost use Rattle.std.specs.Option.{option_map};
ghost use Rattle.norm_base.specs.Causes.{FetchCause};
ghost use Rattle.string_files.specs.Lexicons.{file_lexicon};
ghost use Rattle.thrax_meaning.specs.Answers.{Gives, Counts, IsQuiet, WhereTold, name_view};
ghost use Rattle.thrax_meaning.specs.Meaning.{from_lexicon, string_file, named_file};

use crate::names::copied;
use crate::{Stop, Value, Why};
use norm_base::{FetchFault, Name, Shelf};
use std::alloc::Global;
use std::rc::Rc;
use std::str::from_utf8;
use string_files::{LexiconFault, lexicon};

/// The file of a name, where the shelf has one. A shelf is asked by text, so a name that isn't UTF-8 is no file's.
pub fn fetch<H: Shelf>(shelf: &mut H, name: &Name) -> Result<Option<Vec<u8>>, FetchFault>
    ensures found { WhereTold (H.files shelf.old) (λ known. IfOk result (λ file. option_map (λ bytes. bytes.items) file ≡ named_file known name.now)) }
    ensures files { H.files shelf.new ≡ H.files shelf.old }
    ensures cause { FetchCause (H.faults shelf.old) (H.faults shelf.new) result }
{
    let Ok(text) = from_utf8(name.bytes()) else {
        return Ok(None);
    };
    shelf.fetch(text)
}

/// The expression of the bytes of a string file.
fn read(alloc: Global, name: &Name, bytes: &[u8]) -> Result<Rc<Value>, Stop>
    ensures means { Gives result (from_lexicon name.now (file_lexicon bytes.now)) }
    ensures quiet { IsQuiet result }
{
    match lexicon(alloc, bytes) {
        Ok(value) => Ok(value),
        Err(LexiconFault::BadPair { line }) => {
            let file = copied(alloc, name)?;
            Err(Stop::Refused(Why::BadPair { file, line }))
        }
        Err(LexiconFault::Unfit(fault)) => Err(Stop::Refused(Why::from(fault))),
        Err(LexiconFault::Memory) => Err(Stop::Memory),
    }
}

/// The expression of the string file that an argument names.
pub(crate) fn string_file<H: Shelf>(
    alloc: Global,
    shelf: &mut H,
    name: Option<&Name>,
) -> Result<Rc<Value>, Stop>
    ensures means { WhereTold (H.files shelf.old) (λ known. Gives result (string_file known (option_map name_view name.entry))) }
    ensures files { H.files shelf.new ≡ H.files shelf.old }
    ensures counts { Counts (H.faults shelf.old) (H.faults shelf.new) result }
{
    let Some(name) = name else {
        return Err(Stop::Refused(Why::Unsupported));
    };
    match fetch(shelf, name) {
        Ok(Some(bytes)) => read(alloc, name, &bytes),
        Ok(None) => {
            let name = copied(alloc, name)?;
            Err(Stop::Refused(Why::NotFound { name }))
        }
        Err(FetchFault::Failed) => Err(Stop::ShelfFault),
        Err(FetchFault::Memory) => Err(Stop::Memory),
    }
}
