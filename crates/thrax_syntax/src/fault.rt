use std::alloc::{AllocError, AllocFailed};
use thiserror::Error;
use thrax_lexer::LexFault;

/// Why a text is no grammar file. Places count bytes from 0, and statements count from 1.
///
/// The faults come in this order: the first place that is no lexeme, then brackets, then statements.
#[derive(Clone, Copy, Debug, PartialEq, Eq, Error)]
pub enum ReadFault {
    /// Nothing begins here, or a string, a quoted text or a number that begins here breaks its form.
    #[error("BadLexeme")]
    BadLexeme { at: u64 },
    /// The lexemes behind the whole statements are no statement; the first that isn't whole has this number.
    #[error("Syntax")]
    Syntax { statement: u64 },
    /// A weight that begins here is not closed in its line, or is no decimal in range.
    #[error("BadWeight")]
    BadWeight { at: u64 },
    /// The bracket here is the first that makes more than 128 open at once.
    #[error("TooDeep")]
    TooDeep { at: u64 },
    #[error("Memory")]
    Memory,
}

impl From<AllocError> for ReadFault {
    ghost use Rattle.std.specs.Prelude.{◌≡◌};
    ghost use Rattle.thrax_syntax.specs.declared.fault.ReadFault.TheVariants.{Memory};

    ghost from_gives = { λ _ fault. fault ≡ Memory };

    fn from(_: AllocError) -> ReadFault {
        ReadFault::Memory
    }
}

impl<T: Drop> From<AllocFailed<T>> for ReadFault {
    ghost use Rattle.std.specs.Prelude.{◌≡◌};
    ghost use Rattle.thrax_syntax.specs.declared.fault.ReadFault.TheVariants.{Memory};

    ghost from_gives = { λ _ fault. fault ≡ Memory };

    fn from(_: AllocFailed<T>) -> ReadFault {
        ReadFault::Memory
    }
}

impl From<LexFault> for ReadFault {
    ghost use Rattle.std.specs.Prelude.{◌≡◌};
    ghost use Rattle.thrax_syntax.specs.Files.{fault_of};

    ghost from_gives = { λ lexeme fault. fault ≡ fault_of lexeme };

    fn from(lexeme: LexFault) -> ReadFault {
        match lexeme {
            LexFault::BadLexeme { at } => ReadFault::BadLexeme { at },
            LexFault::BadWeight { at } => ReadFault::BadWeight { at },
            LexFault::Memory => ReadFault::Memory,
        }
    }
}
