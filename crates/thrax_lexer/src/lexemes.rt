ghost use Rattle.std.specs.Prelude.{◌≡◌};
ghost use Rattle.thrax_lexer.specs.Lexemes.{keyword_named, word_lex, lex_of};

/// A word with a meaning of its own, which is no name.
#[derive(Clone, Copy, Debug, PartialEq, Eq)]
pub enum Keyword {
    Export,
    Import,
    As,
    Func,
    Return,
}

/// A lexeme. Words and texts lie in the file that was read.
#[derive(Clone, Copy)]
pub enum Lexeme<'t> {
    /// A word that is no keyword.
    Word(&'t [u8]),
    Keyword(Keyword),
    /// One to four digits.
    Number(u32),
    /// A weight in ten-thousandths.
    Weight(u32),
    /// The bytes between double quotes, as they are written: `labels` says what they mean.
    Text(&'t [u8]),
    /// The bytes between single quotes.
    Quoted(&'t [u8]),
    Symbol(super::Symbol),
}

fn keyword_named(word: &[u8]) -> Option<Keyword>
    ensures { result ≡ keyword_named word.now }
{
    if word == b"export".as_slice() {
        return Some(Keyword::Export);
    }
    if word == b"import".as_slice() {
        return Some(Keyword::Import);
    }
    if word == b"as".as_slice() {
        return Some(Keyword::As);
    }
    if word == b"func".as_slice() {
        return Some(Keyword::Func);
    }
    if word == b"return".as_slice() {
        return Some(Keyword::Return);
    }
    None
}

/// The keyword or the name that a word is.
pub fn word_lexeme(word: &[u8]) -> Lexeme<'_>
    ensures { lex_of result ≡ word_lex word.now }
{
    match keyword_named(word) {
        Some(keyword) => Lexeme::Keyword(keyword),
        None => Lexeme::Word(word),
    }
}
