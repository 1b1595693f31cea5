// The states from which a final one can be reached.

ghost use Rattle.std.specs.Prelude.{◌≡◌, ◌↔◌, ℕ, length, IfOk, OnOk};
ghost use Rattle.std.specs.List.{Contains};
ghost use Rattle.fst_core.specs.Turned.{TurnedArcs, Below};
ghost use Rattle.fst_core.specs.Useful.{IsAlive, FinalsFound};

use crate::fst::Fst;
use crate::reverses::{one_final, turn};
use crate::search::{Follow, Search};
use std::alloc::{AllocError, Global};

/// The states from which a final one can be reached, by one search backwards from the final states.
pub fn live_states(alloc: Global, a: &Fst) -> Result<Search, AllocError>
    ensures size { IfOk result (λ f. f.size ≡ length a.now.arcs) }
    ensures states { IfOk result (λ f. (s : ℕ) → Contains f.states s ↔ IsAlive a.now s) }
{
    let _start = a.start();
    let back = backwards(alloc, a)?;
    let mut search = Search::new(alloc, a.len())?;
    add_finals(a, &mut search)?;
    search.run(&back, Follow::Every)?;
    Ok(search)
}

/// The final states are found.
fn add_finals(a: &Fst, search: &mut Search) -> Result<(), AllocError>
    requires size { search.old.size ≡ length a.now.arcs }
    ensures size { OnOk result (search.new.size ≡ search.old.size) }
    ensures found { OnOk result (FinalsFound a.now (length a.now.arcs) search.old.states search.new.states) }
{
    for s in 0..a.len() {
        if a.final_of(s).is_some() {
            search.add(s)?;
        }
    }
    Ok(())
}

/// The arcs turned round, with no final state.
fn backwards(alloc: Global, a: &Fst) -> Result<Fst, AllocError>
    ensures arcs { IfOk result (λ back. TurnedArcs a.now (Below (length a.now.arcs)) back.arcs) }
{
    let start = a.start();
    let mut built = one_final(alloc, a.len(), a.len())?;
    for s in 0..a.len() {
        turn(a, s, &mut built)?;
    }
    Ok(built.finish(start))
}
