ghost use Rattle.std.specs.Prelude.{◌≡◌, ◌<◌, ◌∷◌, IfNone, IfSome, List, [], length, map, ℕ};
ghost use Rattle.thrax_lexer.specs.Lexemes.{Lex, keyword, lex_of, number, quoted, string, symbol, weight, word};
ghost use Rattle.thrax_syntax.specs.Outcomes.{begins};

use thrax_lexer::{Keyword, Lexeme, Symbol};

/// What is left of the lexemes of a file.
pub type Lexemes<'l, 't> = &'l [Lexeme<'t>];

/// The first lexeme, and the others.
pub fn front<'l, 't>(lexemes: Lexemes<'l, 't>) -> Option<(Lexeme<'t>, Lexemes<'l, 't>)>
    ensures shorter { IfSome result (λ x. length x.1.now < length lexemes.now) }
    ensures found { IfSome result (λ x. map lex_of lexemes.now ≡ lex_of x.0 ∷ map lex_of x.1.now) }
    ensures none { IfNone result (map lex_of lexemes.now ≡ []) }
{
    match lexemes {
        [first, rest @ ..] => Some((*first, rest)),
        [] => None,
    }
}

/// What follows the symbol that comes first.
pub fn after_symbol<'l, 't>(lexemes: Lexemes<'l, 't>, wanted: Symbol) -> Option<Lexemes<'l, 't>>
    ensures shorter { IfSome result (λ after. length after.now < length lexemes.now) }
    ensures found { IfSome result (λ after. map lex_of lexemes.now ≡ symbol wanted ∷ map lex_of after.now) }
    ensures none { IfNone result ((c : List Lex) → map lex_of lexemes.now ≡ symbol wanted ∷ c → ⊥) }
{
    match front(lexemes)? {
        (Lexeme::Symbol(first), rest) if first == wanted => Some(rest),
        _ => None,
    }
}

/// What follows the keyword that comes first.
pub fn after_keyword<'l, 't>(lexemes: Lexemes<'l, 't>, wanted: Keyword) -> Option<Lexemes<'l, 't>>
    ensures shorter { IfSome result (λ after. length after.now < length lexemes.now) }
    ensures found { IfSome result (λ after. map lex_of lexemes.now ≡ keyword wanted ∷ map lex_of after.now) }
    ensures none { IfNone result ((c : List Lex) → map lex_of lexemes.now ≡ keyword wanted ∷ c → ⊥) }
{
    match front(lexemes)? {
        (Lexeme::Keyword(first), rest) if first == wanted => Some(rest),
        _ => None,
    }
}

/// The name that comes first, and the others.
pub fn front_word<'l, 't>(lexemes: Lexemes<'l, 't>) -> Option<(&'t [u8], Lexemes<'l, 't>)>
    ensures shorter { IfSome result (λ x. length x.1.now < length lexemes.now) }
    ensures found { IfSome result (λ x. map lex_of lexemes.now ≡ word x.0.now ∷ map lex_of x.1.now) }
    ensures none { IfNone result ((w : List ℕ) (c : List Lex) → map lex_of lexemes.now ≡ word w ∷ c → ⊥) }
{
    match front(lexemes)? {
        (Lexeme::Word(bytes), rest) => Some((bytes, rest)),
        _ => None,
    }
}

/// The quoted text that comes first, and the others.
pub fn front_quoted<'l, 't>(lexemes: Lexemes<'l, 't>) -> Option<(&'t [u8], Lexemes<'l, 't>)>
    ensures shorter { IfSome result (λ x. length x.1.now < length lexemes.now) }
    ensures found { IfSome result (λ x. map lex_of lexemes.now ≡ quoted x.0.now ∷ map lex_of x.1.now) }
    ensures none { IfNone result ((w : List ℕ) (c : List Lex) → map lex_of lexemes.now ≡ quoted w ∷ c → ⊥) }
{
    match front(lexemes)? {
        (Lexeme::Quoted(bytes), rest) => Some((bytes, rest)),
        _ => None,
    }
}

/// What stands between the quotes of the string that comes first, and the others.
pub fn front_text<'l, 't>(lexemes: Lexemes<'l, 't>) -> Option<(&'t [u8], Lexemes<'l, 't>)>
    ensures shorter { IfSome result (λ x. length x.1.now < length lexemes.now) }
    ensures found { IfSome result (λ x. map lex_of lexemes.now ≡ string x.0.now ∷ map lex_of x.1.now) }
    ensures none { IfNone result ((w : List ℕ) (c : List Lex) → map lex_of lexemes.now ≡ string w ∷ c → ⊥) }
{
    match front(lexemes)? {
        (Lexeme::Text(pieces), rest) => Some((pieces, rest)),
        _ => None,
    }
}

/// The weight that comes first, and the others.
pub fn front_weight<'l, 't>(lexemes: Lexemes<'l, 't>) -> Option<(u32, Lexemes<'l, 't>)>
    ensures shorter { IfSome result (λ x. length x.1.now < length lexemes.now) }
    ensures found { IfSome result (λ x. map lex_of lexemes.now ≡ weight x.0 ∷ map lex_of x.1.now) }
    ensures none { IfNone result ((w : ℕ) (c : List Lex) → map lex_of lexemes.now ≡ weight w ∷ c → ⊥) }
{
    match front(lexemes)? {
        (Lexeme::Weight(weight), rest) => Some((weight, rest)),
        _ => None,
    }
}

/// The number that comes first, and the others.
pub fn front_number<'l, 't>(lexemes: Lexemes<'l, 't>) -> Option<(u32, Lexemes<'l, 't>)>
    ensures shorter { IfSome result (λ x. length x.1.now < length lexemes.now) }
    ensures found { IfSome result (λ x. map lex_of lexemes.now ≡ number x.0 ∷ map lex_of x.1.now) }
    ensures none { IfNone result ((n : ℕ) (c : List Lex) → map lex_of lexemes.now ≡ number n ∷ c → ⊥) }
{
    match front(lexemes)? {
        (Lexeme::Number(number), rest) => Some((number, rest)),
        _ => None,
    }
}

/// The name that comes first before a symbol, and what follows the symbol.
pub fn front_name<'l, 't>(
    lexemes: Lexemes<'l, 't>,
    before: Symbol,
) -> Option<(&'t [u8], Lexemes<'l, 't>)>
    ensures shorter { IfSome result (λ x. length x.1.now < length lexemes.now) }
    ensures found { IfSome result (λ x. map lex_of lexemes.now ≡ word x.0.now ∷ symbol before ∷ map lex_of x.1.now) }
    ensures none { IfNone result ((w : List ℕ) (c : List Lex) → map lex_of lexemes.now ≡ word w ∷ symbol before ∷ c → ⊥) }
{
    let (name, rest) = front_word(lexemes)?;
    Some((name, after_symbol(rest, before)?))
}

/// The name that comes first behind a symbol, and what follows the name.
pub fn named_after<'l, 't>(
    lexemes: Lexemes<'l, 't>,
    behind: Symbol,
) -> Option<(&'t [u8], Lexemes<'l, 't>)>
    ensures shorter { IfSome result (λ x. length x.1.now < length lexemes.now) }
    ensures found { IfSome result (λ x. map lex_of lexemes.now ≡ symbol behind ∷ word x.0.now ∷ map lex_of x.1.now) }
    ensures none { IfNone result ((w : List ℕ) (c : List Lex) → map lex_of lexemes.now ≡ symbol behind ∷ word w ∷ c → ⊥) }
{
    front_word(after_symbol(lexemes, behind)?)
}

/// Whether a string, a name or an opening bracket comes first.
pub fn begins_atom<'l, 't>(lexemes: Lexemes<'l, 't>) -> bool
    ensures { result ≡ begins (map lex_of lexemes.now) }
{
    matches!(
        front(lexemes),
        Some((
            Lexeme::Text(_) | Lexeme::Word(_) | Lexeme::Symbol(Symbol::OpenParen),
            _
        ))
    )
}
