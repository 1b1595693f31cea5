ghost use Rattle.std.specs.Prelude.{◌≡◌, IfOk, IfSome, Result};
ghost use Rattle.speak_setup.specs.Setups.{HasNames, SetupNames, SetupText, names_of, outcome_of};
ghost use Rattle.speak_setup.specs.declared.setup.SetupFault.{SetupFault};
ghost use Rattle.speak_setup.specs.declared.setup.SetupFault.TheVariants.{Memory};

use crate::entries::read_entries;
use norm_base::Name;
use std::alloc::{AllocError, AllocFailed, Global};
use thiserror::Error;

/// How many rules a cascade may have.
pub const MOST_RULES: usize = 4;

/// Which parts of a setup a run needs.
#[derive(Clone, Copy, Debug, PartialEq, Eq)]
pub enum Need {
    /// The tokeniser's and the verbaliser's.
    Both,
    /// The tokeniser's alone. The verbaliser's may come.
    Classifier,
}

/// The grammars of a run and their rules. Each name has 1 to 255 bytes from 32 to 126, and neither `"` nor `\`.
#[derive(Debug, Drop)]
pub struct Setup {
    /// The name of the tokeniser's grammar.
    pub tokenizer: Name,
    /// The rules of the tokeniser, 1 to [`MOST_RULES`], in the order of their cascade.
    pub tokenizer_rules: Vec<Name>,
    /// The name of the verbaliser's grammar.
    pub verbalizer: Option<Name>,
    /// The rules of the verbaliser, at most [`MOST_RULES`], in the order of their cascade.
    pub verbalizer_rules: Vec<Name>,
}

/// Why a text is no setup.
#[derive(Debug, Drop, Error)]
pub enum SetupFault {
    /// The first line at fault is this one, from 1 on, and it is of no form.
    #[error("BadLine")]
    BadLine { line: u64 },
    /// The first line at fault is this one, and its key came as often as it may.
    #[error("Repeated")]
    Repeated { line: u64 },
    /// No line is at fault, and this is the first key that is missing.
    #[error("Missing")]
    Missing { key: Name },
    #[error("Memory")]
    Memory,
}

impl From<AllocError> for SetupFault {
    ghost from_gives = { λ _ fault. fault ≡ Memory };

    fn from(_: AllocError) -> SetupFault {
        SetupFault::Memory
    }
}

impl<T: Drop> From<AllocFailed<T>> for SetupFault {
    ghost from_gives = { λ _ fault. fault ≡ Memory };

    fn from(_: AllocFailed<T>) -> SetupFault {
        SetupFault::Memory
    }
}

/// Reads a setup.
///
/// A line gives a key a value in double quotes, as `tokenizer_rule: "MAIN"`; lines of spaces and tabs, and those that begin with
/// `#`, are skipped. The keys are `tokenizer_grammar`, `tokenizer_rule`, `verbalizer_grammar` and `verbalizer_rule`, in any order;
/// a grammar comes once and a rule up to [`MOST_RULES`] times.
pub fn read_setup(alloc: Global, text: &[u8], need: Need) -> Result<Setup, SetupFault>
    ensures read { IfSome (outcome_of result) (λ outcome. SetupText need text.now outcome) }
    ensures only { IfSome (outcome_of result) (λ outcome. (other : Result SetupNames SetupFault) → SetupText need text.now other → other ≡ outcome) }
    ensures names { IfOk result (λ setup. HasNames need (names_of setup)) }
{
    read_entries(alloc, text)?.complete(alloc, need)
}
