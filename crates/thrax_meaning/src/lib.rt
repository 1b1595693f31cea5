//! What the trees of grammar files mean: core expressions, or the first refusal.
//!
//! [`take`] answers what a tree means in the scope of a [`Table`], over the tables of finished files: the expression
//! that it stands for, with names, functions and string files put in, or why there is none. `specs/Meaning.antt` says
//! what a tree means (over the nodes of `checked_expressions` and the entries of `string_files`), and `specs/Tables.antt`
//! which scope a table stands for.
#![tactic(auto)]

mod answers;
mod args;
mod built_ins;
mod files;
mod name_index;
mod names;
mod place;
mod table;
mod taking;
mod why;

pub use built_ins::BuiltIn;
pub use checked_expressions::Value;
pub use files::fetch;
pub use name_index::NameIndex;
pub use table::{Bound, Entry, Function, Kind, Table};
pub use taking::take;
pub use why::{Stop, Why};
