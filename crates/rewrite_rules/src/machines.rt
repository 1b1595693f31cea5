// The transducer of the machine of a rewrite.

ghost use Rattle.std.specs.Prelude.{◌≡◌, ◌↔◌, ◌<◌, ◌≤◌, ℕ, length, IfOk, Some};
ghost use Rattle.fst_core.specs.Top.{top_of};
ghost use Rattle.weighted_relations.specs.Relations.{Same};
ghost use Rattle.weighted_relations.specs.Machines.{Reads};
ghost use Rattle.rewrite_rules.specs.Moves.{Run};
ghost use Rattle.rewrite_rules.specs.Bimachine.{bimachine, Ends};
ghost use Rattle.rewrite_rules.specs.PartsOf.{parts, InRange};
ghost use Rattle.rewrite_rules.specs.Tables.{Ready};

use crate::arcs::{Place, Tables, row_of};
use crate::automata::Automata;
use crate::spots::{Gap, Spot};
use fst_core::{Builder, Fst};
use state_table::StateTable;
use std::alloc::{AllocError, Global};

/// The transducer of the machine: the places that its start leads to.
///
/// It ends: each turn adds a state, and a list has fewer than 2^63 elements. So `AllocError` comes from the
/// allocator alone.
pub(crate) fn machine(alloc: Global, tau: &Fst, t: &Tables) -> Result<Fst, AllocError>
    requires ready { Ready tau.now t.now }
    ensures readings { IfOk result (λ m. Same (Reads m) (Run (bimachine (parts tau.now t.now.automata)) Spot.Hub)) }
    ensures top { IfOk result (λ m. top_of m ≤ top_of tau.now) }
{
    let mut spots = StateTable::new(alloc);
    let start = spots.number(Spot::Hub)?;
    let mut built = Builder::new(alloc);
    'rows: while built.len() < spots.len() {
        let spot = *spots.key(built.len());
        let row = row_of(alloc, tau, t, spot, &mut spots)?;
        built.push(row, end_of(tau, &t.automata, spot))?;
    }
    Ok(built.finish(start))
}

/// The final weight of a place.
fn end_of(tau: &Fst, t: &Automata, spot: Spot) -> Option<u64>
    requires spot { InRange tau.now t.now spot }
    ensures value { (w : ℕ) → (result ≡ Some w) ↔ Ends (parts tau.now t.now) spot w }
{
    match spot {
        Spot::Outside {
            sigma,
            left,
            back,
            gap,
        } => outside_end(tau, t, Place { sigma, left, back }, gap),
        _ => None,
    }
}

/// The final weight of a place outside of a rewrite.
fn outside_end(tau: &Fst, t: &Automata, at: Place, gap: Gap) -> Option<u64>
    requires sigma { at.sigma < length t.now.sigma.next }
    requires left { at.left < length t.now.left.next }
    requires back { at.back < length t.now.back.next }
    ensures value { (w : ℕ) → (result ≡ Some w) ↔ Ends (parts tau.now t.now) (Spot.Outside at.sigma at.left at.back gap) w }
{
    if t.sigma.accepts(at.sigma) && at.back == t.back_start && t.may_pass(at.left, gap, at.back) {
        Some(0)
    } else {
        None
    }
}
