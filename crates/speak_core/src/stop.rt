ghost use Rattle.std.specs.Prelude.{◌≡◌, MatchResult};
ghost use Rattle.speak_core.specs.Stops.{status_of, text_of};
ghost use Rattle.speak_core.specs.declared.stop.Stop.TheVariants.{Memory, Refused};

use std::alloc::{AllocError, AllocFailed};

/// Why a run ends before its lines do.
#[derive(Debug, Drop)]
pub(crate) enum Stop {
    /// The words aren't the command's.
    Words,
    /// The setup, a grammar or a rule is refused, with this text.
    Refused(Vec<u8>),
    /// A device failed.
    Outside,
    Memory,
    /// The input is longer than its limit.
    TooLong,
}

impl Stop {
    /// The refusal with this text, or want of memory where there was none for it.
    pub(crate) fn refused(text: Result<Vec<u8>, AllocError>) -> Stop
        ensures { MatchResult text (λ found. result ≡ Refused found) (λ _. result ≡ Memory) }
    {
        match text {
            Ok(text) => Stop::Refused(text),
            Err(_) => Stop::Memory,
        }
    }

    /// The status of a run that stops so.
    pub(crate) fn status(&self) -> u8
        ensures { result ≡ status_of self.now }
    {
        match self {
            Stop::Words => 2,
            Stop::Refused(_) => 3,
            Stop::Outside => 4,
            Stop::Memory => 5,
            Stop::TooLong => 6,
        }
    }

    /// What is told of it.
    pub(crate) fn text(&self) -> &[u8]
        ensures { result.now ≡ text_of self.now }
    {
        match self {
            Stop::Words => b"bad arguments\n",
            Stop::Refused(text) => text,
            Stop::Outside => b"outside fault\n",
            Stop::Memory => b"no memory\n",
            Stop::TooLong => b"input too long\n",
        }
    }
}

impl From<AllocError> for Stop {
    ghost from_gives = { λ _ stop. stop ≡ Memory };

    fn from(_: AllocError) -> Stop {
        Stop::Memory
    }
}

impl<T: Drop> From<AllocFailed<T>> for Stop {
    ghost from_gives = { λ _ stop. stop ≡ Memory };

    fn from(_: AllocFailed<T>) -> Stop {
        Stop::Memory
    }
}
