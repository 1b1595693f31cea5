// Nodes that are known not to lead to the end.

ghost use Rattle.std.specs.Prelude.{◌≡◌, ◌<◌, ℕ, All, IsTrue, Some, length};
ghost use Rattle.state_tuples.specs.Calls.{CannotRead};
ghost use Rattle.least_path.specs.Ending.{IsDead, IsRefused};

use fst_core::{Arc, Fst};
use state_tuples::{Expander, Tuple};

/// Whether nothing can be read from a node to the end, as far as the expander knows: the tuple can't read next what an arc of the source
/// reads at this state, and can't end where the source is at an end.
pub(crate) fn is_dead<X: Expander>(x: &X, source: &Fst, state: usize, tuple: &Tuple) -> bool
    requires { state < length source.now.arcs }
    ensures { IsTrue result → IsDead source.now (X.cascades x.now) state tuple.now }
{
    are_refused(x, tuple, source.arcs_of(state)) && is_no_end(x, tuple, source.final_of(state))
}

/// Whether the tuple can go on along none of these arcs of the source.
fn are_refused<X: Expander>(x: &X, tuple: &Tuple, row: &[Arc]) -> bool
    ensures { IsTrue result → All (IsRefused (X.cascades x.now) tuple.now) row.now }
{
    for arc in row {
        if !is_refused(x, tuple, arc) {
            return false;
        }
    }
    true
}

fn is_refused<X: Expander>(x: &X, tuple: &Tuple, arc: &Arc) -> bool
    ensures { IsTrue result → IsRefused (X.cascades x.now) tuple.now arc.now }
{
    arc.input != 0 && !x.may_read(tuple, arc.input)
}

/// Whether the source isn't at an end, or the tuple can't end.
fn is_no_end<X: Expander>(x: &X, tuple: &Tuple, last: Option<u64>) -> bool
    ensures { IsTrue result → (w : ℕ) → last ≡ Some w → CannotRead (X.cascades x.now) tuple.now 0 }
{
    last.is_none() || !x.may_read(tuple, 0)
}
