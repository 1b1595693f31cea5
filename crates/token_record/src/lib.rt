//! Token text: what the classifier says of a line.
//!
//! [`read_tokens`] reads it, or tells how many whole tokens stand before the first fault. [`write_tokens`] writes the one form that
//! tokens have, which is read as those tokens and no others, and [`field_count`] counts a record's fields.
//!
//! `specs/Fields.antt` says what fields are to contracts, `specs/Lexemes.antt` and `specs/Grammar.antt` define the grammar,
//! `specs/Meaning.antt` what a token is by its fields, `specs/Texts.antt` which tokens a text is and how many whole ones stand at its
//! front, `specs/Written.antt` the written form, and `specs/Writable.antt` which tokens have one. `specs/Answers.antt` is what the
//! parts of the reader answer each other.
#![tactic(auto)]

mod counting;
mod fields;
mod laws;
mod lexemes;
mod meanings;
mod reading;
mod tokens;
mod writing;

pub use counting::field_count;
pub use laws::tokens_of_a_text;
pub use reading::{TokenFault, read_tokens};
pub use tokens::{Field, Record, Token, Value};
pub use writing::write_tokens;
