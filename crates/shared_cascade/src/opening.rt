// A table that is empty, and its callers.

ghost use Rattle.std.specs.Prelude.{◌≡◌, ◌≤◌, ◌∷◌, ℕ, [], All, IfOk, Some, map, slice_get, vec_len};
ghost use Rattle.shared_cascade.specs.declared.callers.Caller.{Caller};
ghost use Rattle.shared_cascade.specs.Callers.{IsNew, cascades_in, number_in, places_in, seats_of};
ghost use Rattle.shared_cascade.specs.Tallies.{no_tally};

use crate::callers::Caller;
use crate::facts::Grammars;
use crate::shared::Shared;
use place_table::Table;
use place_words::Seat;
use state_tuples::Cascade;
use std::alloc::{AllocError, Global};

impl Shared {
    /// An empty table of so many places for the expansions of two cascades, and all callers that may use it, in the order of the numbers of their
    /// seats, from 0.
    pub fn open(
        alloc: Global,
        classifier: Cascade,
        verbaliser: Cascade,
        places: u32,
        seats: u32,
    ) -> Result<(Shared, Vec<Caller>), AllocError>
        requires numbers { (classifier.number ≡ 0) × (verbaliser.number ≡ 1) }
        requires places { (1 ≤ places) × (places ≤ 4096) }
        requires seats { (1 ≤ seats) × (seats ≤ 64) }
        ensures cascades { IfOk result (λ t. cascades_in t.0 ≡ classifier ∷ verbaliser ∷ []) }
        ensures places { IfOk result (λ t. places_in t.0 ≡ places) }
        ensures count { IfOk result (λ t. vec_len t.1 ≡ seats) }
        ensures callers { IfOk result (λ t. All (IsNew t.0) t.1.items) }
        ensures seats { IfOk result (λ t. All (λ c. seats_of c ≡ seats) t.1.items) }
        ensures numbers { IfOk result (λ t. (k : ℕ) (c : Caller) → slice_get t.1.items k ≡ Some c → number_in c ≡ k) }
    {
        let _first = classifier.start();
        let _second = verbaliser.start();
        let grammars = Grammars {
            classifier,
            verbaliser,
        };
        let (table, all) = Table::open(alloc, grammars, places, seats)?;
        let shared = Shared { table };
        let callers = seated(alloc, all)?;
        Ok((shared, callers))
    }
}

/// A caller for each seat, in order.
fn seated(alloc: Global, all: Vec<Seat<Grammars>>) -> Result<Vec<Caller>, AllocError>
    ensures seats { IfOk result (λ v. map (λ c. c.seat) v.items ≡ all.items) }
    ensures tallies { IfOk result (λ v. All (λ c. c.tally ≡ no_tally) v.items) }
    ensures before { IfOk result (λ v. All (λ c. c.before.value ≡ c.seat) v.items) }
{
    let mut callers = Vec::with_capacity(alloc, all.len())?;
    for seat in all {
        callers.push(Caller::new(alloc, seat)?)?;
    }
    Ok(callers)
}
