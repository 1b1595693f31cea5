//! A place of a grammar file.

ghost use Rattle.std.specs.Prelude.{◌≤◌, length};

use crate::table::{Bound, Table};

/// A place of a grammar file: the finished files that it may import, the names that are defined before it, which are
/// the first `count` of a table, and the names of the function that is called.
#[derive(Drop)]
pub(crate) struct Place<'a> {
    pub files: &'a [Table],
    pub table: &'a Table,
    pub count: usize,
    pub locals: &'a [Bound],
    pub ghost within: { count ≤ length table.now },
}
