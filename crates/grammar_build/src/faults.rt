//! Why no transducer was built.

ghost use Rattle.std.specs.Prelude.{◌≡◌};
ghost use Rattle.grammar_build.specs.declared.faults.BuildFault.TheVariants.{Memory};

use std::alloc::{AllocError, AllocFailed};

/// Why no transducer was built.
#[derive(Clone, Copy, Debug, PartialEq, Eq)]
pub enum BuildFault {
    /// A rewrite in the expression may read the empty text.
    RewritesEmpty,
    /// There was not enough memory.
    Memory,
}

impl From<AllocError> for BuildFault {
    ghost from_gives = { λ _ fault. fault ≡ Memory };

    fn from(_error: AllocError) -> BuildFault {
        BuildFault::Memory
    }
}

impl<T: Drop> From<AllocFailed<T>> for BuildFault {
    ghost from_gives = { λ _ fault. fault ≡ Memory };

    fn from(_error: AllocFailed<T>) -> BuildFault {
        BuildFault::Memory
    }
}
