//! The lexemes of a grammar file: words, keywords, numbers, weights, strings, quoted texts and symbols.
//!
//! `lex` reads a whole text. It gives the lexemes of the one list of blanks, comments and lexemes that the text is, and the place of
//! the first bracket that is too deep; or else the first place where nothing begins, or what begins there breaks its form.
//! `specs/Lexemes.antt` says what stands at the front of a text, `specs/Strings.antt` what strings mean (numbers and weights are
//! those of `text_forms`), and `specs/Reading.antt` what `lex` answers.
#![tactic(auto)]

mod bytes;
mod lexemes;
mod pieces;
mod reading;
mod strings;

pub use bytes::{Inside, Start, Symbol};
pub use lexemes::{Keyword, Lexeme};
pub use reading::{LexFault, Lexed, Nesting, lex};
pub use strings::labels;
