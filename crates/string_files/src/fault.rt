//! Why a string file has no expression.

ghost use Rattle.std.specs.Prelude.{◌≡◌};
ghost use Rattle.string_files.specs.declared.fault.LexiconFault.TheVariants.{Memory as NoMemory};

use checked_expressions::KindFault;
use std::alloc::{AllocError, AllocFailed};

/// Why the bytes of a string file have no expression.
#[derive(Clone, Copy, Debug, PartialEq, Eq)]
pub enum LexiconFault {
    /// This line, counted from 1, isn't an entry.
    BadPair { line: u64 },
    /// Each line is an entry, and their union breaks this rule.
    Unfit(KindFault),
    /// There was no memory.
    Memory,
}

impl From<AllocError> for LexiconFault {
    ghost from_gives = { λ _ fault. fault ≡ NoMemory };

    fn from(_: AllocError) -> LexiconFault {
        LexiconFault::Memory
    }
}

impl<T: Drop> From<AllocFailed<T>> for LexiconFault {
    ghost from_gives = { λ _ fault. fault ≡ NoMemory };

    fn from(_: AllocFailed<T>) -> LexiconFault {
        LexiconFault::Memory
    }
}
