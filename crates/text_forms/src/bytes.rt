ghost use Rattle.std.specs.Prelude.{◌≡◌, ◌<◌, ◌∷◌, [], Bool, List, ℕ, length, IfSome, IfNone};
ghost use Rattle.text_forms.specs.Bytes.{is_of, Run};

/// A class of bytes.
pub trait ByteClass: Copy {
    ghost member: { Self → ℕ → Bool };

    /// Whether a byte is of the class.
    fn has(self, b: u8) -> bool
        ensures { result ≡ member self b };
}

/// The classes of bytes that most texts have.
#[derive(Clone, Copy, Debug, PartialEq, Eq)]
pub enum ByteKind {
    /// Letters, digits and `_`.
    Wordy,
    Digit,
    HexDigit,
}

impl ByteClass for ByteKind {
    ghost member = { is_of };

    fn has(self, b: u8) -> bool {
        match self {
            ByteKind::Wordy => b == b'_' || b.is_ascii_alphanumeric(),
            ByteKind::Digit => b.is_ascii_digit(),
            ByteKind::HexDigit => b.is_ascii_hexdigit(),
        }
    }
}

/// The longest run of bytes of a class at the front of a text, and the rest.
pub fn span<C: ByteClass>(text: &[u8], class: C) -> (&[u8], &[u8])
    ensures { Run (C.member class) text.now result.0.now result.1.now }
{
    for (i, b) in text.iter().enumerate() {
        if !class.has(*b) {
            return text.split_at(i);
        }
    }
    (text, &[])
}

/// The first byte, and the others.
pub fn front_byte(text: &[u8]) -> Option<(u8, &[u8])>
    ensures shorter { IfSome result (λ x. length x.1.now < length text.now) }
    ensures found { IfSome result (λ x. text.now ≡ x.0 ∷ x.1.now) }
    ensures none { IfNone result (text.now ≡ []) }
{
    match text {
        [first, rest @ ..] => Some((*first, rest)),
        [] => None,
    }
}

/// What follows a byte that comes first.
pub fn after_byte(text: &[u8], wanted: u8) -> Option<&[u8]>
    ensures shorter { IfSome result (λ rest. length rest.now < length text.now) }
    ensures found { IfSome result (λ rest. text.now ≡ wanted ∷ rest.now) }
    ensures none { IfNone result ((rest : List ℕ) → text.now ≡ wanted ∷ rest → ⊥) }
{
    match text {
        [first, rest @ ..] if *first == wanted => Some(rest),
        _ => None,
    }
}
