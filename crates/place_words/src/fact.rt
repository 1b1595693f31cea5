//! Which codes are right.
ghost use Rattle.std.specs.Prelude.{◌≡◌, ℕ, ◌≤◌, List, length, slice_index};
ghost use Rattle.place_words.specs.declared.layout.TheConstants.{CODE_WORDS};

/// What codes mean: a tag of plain data, and which codes are right under it. Clauses alone see either.
///
/// The words that seats share say nothing of the meaning of a code. A value of this trait stays with them, and what is
/// shown at a place is always a code that is right under its tag.
pub trait Fact: Drop {
    /// What the right codes depend on. No value of it is made at run time.
    type Tag;

    /// The tag of this value.
    ghost tag: { Self → Self.Tag };

    /// The code is right under the tag.
    ghost right: { Self.Tag → List ℕ → Type 0 };

    /// A right code has 9 to 2,048 words, and its first word is its length.
    ghost sized: { (t : Self.Tag) (code : List ℕ) → right t code → (9 ≤ length code) × (length code ≤ CODE_WORDS) × (slice_index code 0 ≡ length code) };
}
