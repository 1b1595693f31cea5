// Whether parts make a transducer.

ghost use Rattle.std.specs.Prelude.{◌↔◌, ◌<◌, ◌^◌, length, IfSome, IsTrue, All};
ghost use Rattle.weighted_relations.specs.Machines.{ArcFits};
ghost use Rattle.fst_core.specs.Made.{PartsFit};

use weighted_relations::Arc;

/// Whether these parts make a transducer.
pub(crate) fn parts_fit(start: usize, arcs: &[Vec<Arc>], finals: &[Option<u64>]) -> bool
    ensures { IsTrue result ↔ PartsFit start arcs.now finals.now }
{
    finals.len() == arcs.len()
        && start < arcs.len()
        && rows_fit(arcs, arcs.len())
        && finals_fit(finals)
}

/// Whether each arc fits a transducer with n states.
fn rows_fit(arcs: &[Vec<Arc>], n: usize) -> bool
    ensures { IsTrue result ↔ All (λ row. All (ArcFits n) row.items) arcs.now }
{
    arcs.iter().all(|row| row_fits(row, n))
}

/// Whether each arc of a state does.
fn row_fits(row: &[Arc], n: usize) -> bool
    ensures { IsTrue result ↔ All (ArcFits n) row.now }
{
    row.iter().all(|arc| arc_fits(arc, n))
}

/// Whether one arc does.
fn arc_fits(arc: &Arc, n: usize) -> bool
    ensures { IsTrue result ↔ ArcFits n arc.now }
{
    arc.input <= 257 && arc.output <= 257 && arc.weight < 1 << 54 && arc.next < n
}

/// Whether each final weight is in range.
fn finals_fit(finals: &[Option<u64>]) -> bool
    ensures { IsTrue result ↔ All (λ last. IfSome last (λ w. w < 2 ^ 54)) finals.now }
{
    finals.iter().all(|last| end_fits(*last))
}

/// Whether a final weight is.
fn end_fits(last: Option<u64>) -> bool
    ensures { IsTrue result ↔ IfSome last (λ w. w < 2 ^ 54) }
{
    match last {
        Some(w) => w < 1 << 54,
        None => true,
    }
}
