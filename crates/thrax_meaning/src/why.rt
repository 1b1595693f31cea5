//! Why a grammar is refused.

ghost use Rattle.std.specs.Prelude.{◌≡◌};
ghost use Rattle.thrax_meaning.specs.Meaning.{why_of};
ghost use Rattle.thrax_meaning.specs.declared.why.Stop.TheVariants.{Memory as StopMemory};

use checked_expressions::KindFault;
use norm_base::Name;
use std::alloc::{AllocError, AllocFailed};
use thrax_syntax::ReadFault;

/// Why a grammar file has no meaning. Each comes exactly where it is said; of several the first counts, in the order
/// in which the file is taken.
#[derive(Debug, PartialEq, Eq, Drop)]
pub enum Why {
    /// The text of the file isn't that of a grammar file.
    Read(ReadFault),
    /// The shelf has no file of this name.
    NotFound { name: Name },
    /// The name isn't defined before its use.
    Unknown { name: Name },
    /// The imported file defines the name and doesn't export it.
    NotExported { name: Name },
    /// The name is defined a second time.
    Twice { name: Name },
    /// The file is imported while it is being linked.
    ImportLoop { name: Name },
    /// The chain of files that import one another would be too long.
    ImportDepth,
    /// A call has another number of arguments than is wanted.
    Arity { wanted: u64, given: u64 },
    /// An operand has to be an acceptor and isn't one.
    NotAcceptor,
    /// An operand has to be without weights and isn't.
    IsWeighted,
    /// An option, a quoted argument or a mark stands where it may not.
    Unsupported,
    /// This line of a string file, counted from 1, isn't an entry.
    BadPair { file: Name, line: u64 },
    /// The size of an expression reaches 2^22.
    TooLarge,
}

impl From<KindFault> for Why {
    ghost from_gives = { λ fault why. why ≡ why_of fault };

    fn from(fault: KindFault) -> Why {
        match fault {
            KindFault::NotAcceptor => Why::NotAcceptor,
            KindFault::IsWeighted => Why::IsWeighted,
            KindFault::Unsupported => Why::Unsupported,
            KindFault::TooLarge => Why::TooLarge,
        }
    }
}

/// Why there is no answer.
#[derive(Debug, PartialEq, Eq, Drop)]
pub enum Stop {
    /// The grammar is refused.
    Refused(Why),
    /// The shelf failed, and its count of faults rose.
    ShelfFault,
    /// There was no memory.
    Memory,
}

impl From<AllocError> for Stop {
    ghost from_gives = { λ _ s. s ≡ StopMemory };

    fn from(_: AllocError) -> Stop {
        Stop::Memory
    }
}

impl<T: Drop> From<AllocFailed<T>> for Stop {
    ghost from_gives = { λ _ s. s ≡ StopMemory };

    fn from(_: AllocFailed<T>) -> Stop {
        Stop::Memory
    }
}
