// The strings that an automaton does not accept.

ghost use Rattle.std.specs.Prelude.{◌≡◌, ◌↔◌, ◌<◌, [], ℕ, List, length, get_or, IfOk};
ghost use Rattle.acceptor_ops.specs.Tables.{Accepts, Others};

use crate::dfa::{Dfa, Rows};
use std::alloc::{AllocError, Global};

/// An automaton that accepts all other strings of labels.
pub fn complement(alloc: Global, d: &Dfa) -> Result<Dfa, AllocError>
    ensures strings { IfOk result (λ e. (x : List ℕ) → Accepts e x ↔ Others (Accepts d.now) x) }
{
    let mut rows = Rows::new(alloc);
    for s in 0..d.len() {
        rows.push(copied(alloc, d.row(s))?, !d.accepts(s))?;
    }
    let classes = copied(alloc, d.classes())?;
    Ok(Dfa::from_rows(d.start(), classes, rows))
}

/// The same numbers.
fn copied(alloc: Global, row: &[usize]) -> Result<Vec<usize>, AllocError>
    ensures items { IfOk result (λ v. v.items ≡ row.now) }
{
    row.iter().copied().collect(alloc)
}
