//! Why no rules are loaded, and why a line is refused.

ghost use Rattle.std.specs.Prelude.{◌≡◌};
ghost use Rattle.normaliser.specs.declared.faults.LineFault.TheVariants.{Memory as LineMemory};
ghost use Rattle.normaliser.specs.declared.faults.LoadFault.TheVariants.{Memory as LoadMemory};

use std::alloc::{AllocError, AllocFailed};
use thiserror::Error;

/// Why no normaliser is made.
#[derive(Clone, Copy, Debug, PartialEq, Eq, Error)]
pub enum LoadFault {
    /// The rule of this number may rewrite the empty text. Rules are counted from 0, the verbaliser's after the classifier's.
    #[error("RewritesEmpty")]
    RewritesEmpty { rule: usize },
    #[error("Memory")]
    Memory,
}

impl From<AllocError> for LoadFault {
    ghost from_gives = { λ _ fault. fault ≡ LoadMemory };

    fn from(_: AllocError) -> LoadFault {
        LoadFault::Memory
    }
}

impl<T: Drop> From<AllocFailed<T>> for LoadFault {
    ghost from_gives = { λ _ fault. fault ≡ LoadMemory };

    fn from(_: AllocFailed<T>) -> LoadFault {
        LoadFault::Memory
    }
}

/// The first fault of a line, in this order. Tokens are counted from 1.
#[derive(Clone, Copy, Debug, PartialEq, Eq, Error)]
pub enum LineFault {
    /// It holds a byte 0, first at this place, from 0.
    #[error("NulByte")]
    NulByte { at: u64 },
    /// It has more than 16,384 bytes.
    #[error("LongLine")]
    LongLine,
    /// The classifier has no reading of it.
    #[error("NoPath")]
    NoPath,
    /// What the classifier says of it isn't token text, and so many whole tokens stand before the place where none can be read.
    #[error("NotTokens")]
    NotTokens { token: u64 },
    /// This token is the first with a record of more than 10 fields, at all levels, that may stand in any order.
    #[error("TooManyFields")]
    TooManyFields { token: u64 },
    /// The verbaliser has no reading of any text of this token, the first such.
    #[error("NoWords")]
    NoWords { token: u64 },
    #[error("Memory")]
    Memory,
}

impl From<AllocError> for LineFault {
    ghost from_gives = { λ _ fault. fault ≡ LineMemory };

    fn from(_: AllocError) -> LineFault {
        LineFault::Memory
    }
}

impl<T: Drop> From<AllocFailed<T>> for LineFault {
    ghost from_gives = { λ _ fault. fault ≡ LineMemory };

    fn from(_: AllocFailed<T>) -> LineFault {
        LineFault::Memory
    }
}
