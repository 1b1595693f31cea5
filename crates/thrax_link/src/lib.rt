//! Linking: from a grammar file and all that it imports to the expressions of its exported names.
//!
//! [`link`] answers the [`Grammar`] that the file of a name is, or a [`LinkFault`] with the file, the statement and the
//! cause of the first refusal. Its contract says that this is what comes of linking the file, and that nothing else
//! does, where the shelf tells its files. `specs/Linking.antt` says what comes of linking (`Linked`), over what a tree
//! means, which `thrax_meaning` says, and over what a text is read as, which `thrax_syntax` says.
#![tactic(auto)]

mod done;
mod fault;
mod grammar;
mod linking;
mod refusals;
mod statements;

pub use core_expressions::{Expr, Mode, RewriteOf, Side};
pub use fault::LinkFault;
pub use grammar::Grammar;
pub use linking::link;
pub use thrax_meaning::Why;
