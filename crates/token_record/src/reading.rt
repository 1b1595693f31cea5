//! Whole texts.

ghost use Rattle.std.specs.Prelude.{◌≡◌, ◌<◌, ◌∷◌, ◌++◌, IfNone, IfOk, IfSome, List, codes, length, ℕ};
ghost use Rattle.std.specs.List.{All};
ghost use Rattle.text_forms.specs.Answers.{Next};
ghost use Rattle.token_record.specs.Lexemes.{unblanked};
ghost use Rattle.token_record.specs.Meaning.{TokenTree, token_tree, token_trees};
ghost use Rattle.token_record.specs.Writable.{IsWritable, TokenHasNoZero};
ghost use Rattle.token_record.specs.Texts.{Opens, TokenAnswers, TokenAt, TokenText};

use crate::fields::block;
use crate::lexemes::{after_blanks, after_sign};
use crate::meanings::token_of;
use crate::tokens::Token;
use std::alloc::{AllocError, AllocFailed, Global};
use thiserror::Error;

/// How many more braces may be open at once inside those of a token.
const ROOM: u64 = 15;

/// Why no tokens are read.
#[derive(Debug, Drop, Error)]
pub enum TokenFault {
    /// The text isn't token text. So many whole tokens stand before the first place where none can be read.
    #[error("NotTokens")]
    NotTokens { token: u64 },
    #[error("Memory")]
    Memory,
}

impl From<AllocError> for TokenFault {
    ghost use Rattle.std.specs.Prelude.{◌≡◌};
    ghost use Rattle.token_record.specs.declared.reading.TokenFault.TheVariants.{Memory};

    ghost from_gives = { λ _ fault. fault ≡ Memory };

    fn from(_: AllocError) -> TokenFault {
        TokenFault::Memory
    }
}

impl<T: Drop> From<AllocFailed<T>> for TokenFault {
    ghost use Rattle.std.specs.Prelude.{◌≡◌};
    ghost use Rattle.token_record.specs.declared.reading.TokenFault.TheVariants.{Memory};

    ghost from_gives = { λ _ fault. fault ≡ Memory };

    fn from(_: AllocFailed<T>) -> TokenFault {
        TokenFault::Memory
    }
}

/// The tokens that a text is, or `NotTokens` exactly where it is no token text.
pub fn read_tokens(alloc: Global, text: &[u8]) -> Result<Vec<Token>, TokenFault>
    ensures exact { TokenAnswers text.now result }
    ensures only { IfOk result (λ tokens. (ts : List TokenTree) → TokenText ts text.now → ts ≡ token_trees tokens.items) }
    ensures writable { IfOk result (λ tokens. All (λ t. IsWritable (token_tree t)) tokens.items) }
    ensures no_zero { IfOk result (λ tokens. All (λ t. TokenHasNoZero (token_tree t)) tokens.items) }
{
    let mut tokens = Vec::new(alloc);
    let mut rest = text;
    while let Some((token, after)) = front_token(alloc, rest)? {
        tokens.push(token)?;
        rest = after;
    }
    if after_blanks(rest).is_empty() {
        return Ok(tokens);
    }
    Err(TokenFault::NotTokens {
        token: tokens.len() as u64,
    })
}

/// The token that comes first, and what follows it.
fn front_token<'t>(alloc: Global, text: &'t [u8]) -> Result<Option<(Token, &'t [u8])>, AllocError>
    ensures shorter { IfOk result (λ o. IfSome o (λ x. length x.1.now < length text.now)) }
    ensures exact { IfOk result (Next (λ x. token_tree x.0) (λ x. x.1.now) (TokenAt text.now)) }
{
    let Some(inner) = opened(text) else {
        return Ok(None);
    };
    let Some((fields, rest)) = block(alloc, inner, ROOM)? else {
        return Ok(None);
    };
    match token_of(fields) {
        Some(token) => Ok(Some((token, rest))),
        None => Ok(None),
    }
}

/// What follows `tokens` and its brace.
fn opened(text: &[u8]) -> Option<&[u8]>
    ensures shorter { IfSome result (λ rest. length rest.now < length text.now) }
    ensures found { IfSome result (λ rest. Opens text.now rest.now) }
    ensures none { IfNone result ((rest : List ℕ) → Opens text.now rest → ⊥) }
{
    after_sign(after_blanks(text).strip_prefix(b"tokens".as_slice())?, b'{')
}
