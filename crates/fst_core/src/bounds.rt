// The greatest weights of a transducer's parts.

ghost use Rattle.std.specs.Prelude.{◌≡◌, unwrap_or};
ghost use Rattle.fst_core.specs.Top.{row_top, greatest};

use std::cmp::max;
use weighted_relations::Arc;

/// The greatest weight of an arc.
pub(crate) fn rows_top(arcs: &[Vec<Arc>]) -> u64
    ensures { result ≡ greatest (λ row. row_top row.items) arcs.now }
{
    arcs.iter().fold(0, |t, row| max(t, row_top(row)))
}

/// The greatest weight of an arc of a state.
fn row_top(row: &[Arc]) -> u64
    ensures { result ≡ row_top row.now }
{
    row.iter().fold(0, |t, a| max(t, a.weight))
}

/// The greatest final weight.
pub(crate) fn ends_top(finals: &[Option<u64>]) -> u64
    ensures { result ≡ greatest (λ o. unwrap_or o 0) finals.now }
{
    finals.iter().fold(0, |t, last| max(t, last.unwrap_or(0)))
}
