ghost use Rattle.std.specs.Prelude.{◌≡◌};
ghost use Rattle.thrax_lexer.specs.Bytes.{is_inside, starts, symbol_at};

use text_forms::ByteClass;

/// A symbol of one byte.
#[derive(Clone, Copy, Debug, PartialEq, Eq)]
pub enum Symbol {
    Equals,
    Semicolon,
    Comma,
    Bar,
    Star,
    Plus,
    Question,
    OpenBrace,
    CloseBrace,
    Minus,
    Colon,
    At,
    OpenParen,
    CloseParen,
    OpenBracket,
    CloseBracket,
    Dot,
}

/// What a byte begins, where a blank, a comment or a lexeme may begin.
#[derive(Clone, Copy, Debug, PartialEq, Eq)]
pub enum Start {
    Blank,
    Comment,
    Word,
    Number,
    Weight,
    Text,
    Quoted,
    Symbol(Symbol),
    Nothing,
}

/// The classes of bytes that may stand inside a comment or a lexeme.
#[derive(Clone, Copy, Debug, PartialEq, Eq)]
pub enum Inside {
    /// What may stand between single quotes.
    Quotes,
    Comment,
    /// What stands before the `>` of a weight.
    Weight,
    /// What stands before the `]` of a label in brackets.
    Brackets,
}

impl ByteClass for Inside {
    ghost member = { is_inside };

    fn has(self, b: u8) -> bool {
        match self {
            Inside::Quotes => b >= 32 && b <= 126 && b != b'\'',
            Inside::Comment => b != b'\n',
            Inside::Weight => b != b'>' && b != b'\n',
            Inside::Brackets => b != b']',
        }
    }
}

fn symbol_at(b: u8) -> Option<Symbol>
    ensures { result ≡ symbol_at b }
{
    match b {
        b'=' => Some(Symbol::Equals),
        b';' => Some(Symbol::Semicolon),
        b',' => Some(Symbol::Comma),
        b'|' => Some(Symbol::Bar),
        b'*' => Some(Symbol::Star),
        b'+' => Some(Symbol::Plus),
        b'?' => Some(Symbol::Question),
        b'{' => Some(Symbol::OpenBrace),
        b'}' => Some(Symbol::CloseBrace),
        b'-' => Some(Symbol::Minus),
        b':' => Some(Symbol::Colon),
        b'@' => Some(Symbol::At),
        b'(' => Some(Symbol::OpenParen),
        b')' => Some(Symbol::CloseParen),
        b'[' => Some(Symbol::OpenBracket),
        b']' => Some(Symbol::CloseBracket),
        b'.' => Some(Symbol::Dot),
        _ => None,
    }
}

/// What a byte begins.
pub fn begun_by(b: u8) -> Start
    ensures { result ≡ starts b }
{
    match b {
        b' ' | b'\t' | b'\r' | b'\n' => Start::Blank,
        b'#' => Start::Comment,
        b'A'..=b'Z' | b'a'..=b'z' | b'_' => Start::Word,
        b'0'..=b'9' => Start::Number,
        b'<' => Start::Weight,
        b'"' => Start::Text,
        b'\'' => Start::Quoted,
        _ => match symbol_at(b) {
            Some(symbol) => Start::Symbol(symbol),
            None => Start::Nothing,
        },
    }
}
