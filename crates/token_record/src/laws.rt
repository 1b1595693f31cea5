//! The laws of token text.

ghost use Rattle.std.specs.Prelude.{◌≡◌, List, ℕ};
ghost use Rattle.std.specs.List.{All};
ghost use Rattle.token_record.specs.Meaning.{TokenTree};
ghost use Rattle.token_record.specs.Texts.{TokenText};
ghost use Rattle.token_record.specs.Writable.{IsWritable, TokenHasNoZero};

/// A text is no two lists of tokens, and its tokens can be written and hold no byte 0.
///
/// It does nothing: its contract is the law.
pub fn tokens_of_a_text()
    ensures once { (text : List ℕ) (ts us : List TokenTree) → TokenText ts text → TokenText us text → us ≡ ts }
    ensures writable { (text : List ℕ) (ts : List TokenTree) → TokenText ts text → All IsWritable ts }
    ensures no_zero { (text : List ℕ) (ts : List TokenTree) → TokenText ts text → All TokenHasNoZero ts }
{}
