//! Why there is no grammar.

use norm_base::Name;
use std::alloc::{AllocError, AllocFailed};
use thrax_meaning::Why;

/// Why there is no grammar.
#[derive(Debug, PartialEq, Eq, Drop)]
pub enum LinkFault {
    /// The first refusal: the file, the number of the statement, and the cause. Statements count from 1; 0 stands for
    /// the file as a whole, where its text is no grammar file's, or where the first file isn't there.
    Refused {
        file: Name,
        statement: u64,
        why: Why,
    },
    /// The shelf failed, and its count of faults rose.
    ShelfFault,
    /// There was no memory.
    Memory,
}

impl From<AllocError> for LinkFault {
    ghost use Rattle.std.specs.Prelude.{◌≡◌};
    ghost use Rattle.thrax_link.specs.declared.fault.LinkFault.TheVariants.{Memory};

    ghost from_gives = { λ _ fault. fault ≡ Memory };

    fn from(_: AllocError) -> LinkFault {
        LinkFault::Memory
    }
}

impl<T: Drop> From<AllocFailed<T>> for LinkFault {
    ghost use Rattle.std.specs.Prelude.{◌≡◌};
    ghost use Rattle.thrax_link.specs.declared.fault.LinkFault.TheVariants.{Memory};

    ghost from_gives = { λ _ fault. fault ≡ Memory };

    fn from(_: AllocFailed<T>) -> LinkFault {
        LinkFault::Memory
    }
}
