//! Why an expression isn't made.

ghost use Rattle.std.specs.Prelude.{◌≡◌};
ghost use Rattle.checked_expressions.specs.declared.fault.CheckFault.TheVariants.{Memory};

use std::alloc::{AllocError, AllocFailed};

/// What an expression breaks.
#[derive(Clone, Copy, Debug, PartialEq, Eq)]
pub enum KindFault {
    /// An operand has to be an acceptor and isn't one.
    NotAcceptor,
    /// An operand has to be without weights and isn't.
    IsWeighted,
    /// A label isn't from 1 to 257, or a mark stands in what is rewritten or in its alphabet.
    Unsupported,
    /// The size reaches 2^22.
    TooLarge,
}

/// Why an expression isn't made.
#[derive(Clone, Copy, Debug, PartialEq, Eq)]
pub enum CheckFault {
    /// It breaks the rules on kinds, labels and sizes.
    Refused(KindFault),
    /// There was no memory.
    Memory,
}

impl From<AllocError> for CheckFault {
    ghost from_gives = { λ _ fault. fault ≡ Memory };

    fn from(_: AllocError) -> CheckFault {
        CheckFault::Memory
    }
}

impl<T: Drop> From<AllocFailed<T>> for CheckFault {
    ghost from_gives = { λ _ fault. fault ≡ Memory };

    fn from(_: AllocFailed<T>) -> CheckFault {
        CheckFault::Memory
    }
}
