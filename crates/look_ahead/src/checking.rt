// Whether sets hold what they are to hold.

ghost use Rattle.std.specs.Prelude.{◌≡◌, ◌↔◌, ◌<◌, ℕ, IsTrue, All, length, slice_get};
ghost use Rattle.weighted_relations.specs.Machines.{WellFormed};
ghost use Rattle.look_ahead.specs.Aheads.{Covers, HasAlong, HasEnd, IsAhead, IsClosedAt, may};

use crate::aheads::LookAhead;
use crate::labels::ALL_LABELS;
use fst_core::{Arc, Fst};

/// Whether each state's set has what its arcs read, what lies behind its arcs that read nothing, and its end. Then it has what any way
/// reads next.
pub(crate) fn is_closed(m: &Fst, sets: &LookAhead) -> bool
    ensures { IsTrue result → IsAhead m.now sets.now }
{
    let _start = m.start();
    for s in 0..m.len() {
        if !is_closed_at(m, sets, s) {
            return false;
        }
    }
    true
}

/// Whether it is so with one state.
fn is_closed_at(m: &Fst, sets: &LookAhead, s: usize) -> bool
    requires { s < length m.now.arcs }
    ensures { IsTrue result → IsClosedAt m.now sets.now s }
{
    has_arcs(sets, s, m.arcs_of(s)) && has_end(sets, s, m.final_of(s))
}

fn has_arcs(sets: &LookAhead, s: usize, row: &[Arc]) -> bool
    ensures { IsTrue result ↔ All (λ a. HasAlong sets.now s a.input a.next) row.now }
{
    row.iter().all(|a| has_along(sets, s, a))
}

fn has_along(sets: &LookAhead, s: usize, a: &Arc) -> bool
    ensures { IsTrue result ↔ HasAlong sets.now s a.now.input a.now.next }
{
    if a.input == 0 {
        return covers(sets, s, a.next);
    }
    sets.may(s, a.input)
}

fn has_end(sets: &LookAhead, s: usize, last: Option<u64>) -> bool
    ensures { IsTrue result ↔ HasEnd sets.now s last }
{
    match last {
        Some(_) => sets.may(s, 0),
        None => true,
    }
}

/// Whether one state's set has what another's has.
fn covers(sets: &LookAhead, s: usize, t: usize) -> bool
    ensures { IsTrue result ↔ Covers sets.now s t }
{
    if sets.place(s) == sets.place(t) {
        return true;
    }
    has_all(sets, s, t)
}

fn has_all(sets: &LookAhead, s: usize, t: usize) -> bool
    ensures { IsTrue result ↔ Covers sets.now s t }
{
    for label in 0..ALL_LABELS {
        if sets.may(t, label) && !sets.may(s, label) {
            return false;
        }
    }
    true
}
