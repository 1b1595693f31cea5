//! The reader of grammar files.
//!
//! [`read_file`] answers the [`File`] that a text is, or its first [`ReadFault`]. Its contract says that the answer is a reading of
//! the text, and that a text has no other. `specs/Files.antt` says what a reading is, `specs/Statements.antt` and
//! `specs/Grammar.antt` are the grammar over lexemes, and the crate `thrax_lexer` has the lexemes. The pure trees that
//! contracts speak of are in `specs/Trees.antt`.
#![tactic(auto)]

mod building;
mod expressions;
mod fault;
mod files;
mod fronts;
mod operators;
mod statements;
mod stop;
mod tree;

pub use fault::ReadFault;
pub use files::read_file;
pub use tree::{File, Local, Statement, Tree};
