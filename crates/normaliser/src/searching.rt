//! The least reading of a cascade.

ghost use Rattle.std.specs.Prelude.{IfOk, IfSome, OnErr, OnOk, Some, ℕ};
ghost use Rattle.std.specs.Option.{option_map};
ghost use Rattle.least_path.specs.Counting.{CallsForEach};
ghost use Rattle.least_path.specs.Starting.{IsLeastFrom};
ghost use Rattle.weighted_relations.specs.Machines.{Reads};
ghost use Rattle.weighted_relations.specs.Relations.{IsInput, IsUnmarked};
ghost use Rattle.shared_cascade.specs.Callers.{IsReady, cascades_in, looks_of};
ghost use Rattle.shared_cascade.specs.Hands.{IsStill};
ghost use Rattle.normaliser.specs.Cascades.{Begins, relation_at};
ghost use Rattle.normaliser.specs.Parts.{IsOutput};
ghost use Rattle.normaliser.specs.Searches.{Searched, Stopped};

use fst_core::Fst;
use least_path::{Least, Room, least_in};
use shared_cascade::{Caller, Hand, Shared};
use state_tuples::Tuple;
use std::alloc::{AllocError, Global};

/// The output of the least reading of the cascade that begins at a tuple, at the inputs of a source, if there is one.
pub(crate) fn output_of(
    alloc: Global,
    shared: &Shared,
    caller: &mut Caller,
    start: &Tuple,
    source: &Fst,
    room: &mut Room,
) -> Result<Option<Vec<u8>>, AllocError>
    requires ready { IsReady shared.now caller.old }
    requires begins { (n : ℕ) × Begins (cascades_in shared.now) n start.now × IsUnmarked (relation_at n (cascades_in shared.now)) }
    ensures output { (n : ℕ) → Begins (cascades_in shared.now) n start.now → IfOk result (IsOutput (relation_at n (cascades_in shared.now)) (IsInput (Reads source.now))) }
    ensures looks { IfOk result (λ output. IfSome output (λ _. CallsForEach source.now (Some (looks_of shared.now caller.old)) (Some (looks_of shared.now caller.new)))) }
    ensures ready { IsReady shared.now caller.new }
    ensures searched { OnOk result (Searched shared.now caller.old caller.new) }
    ensures stopped { OnErr result (Stopped shared.now caller.old caller.new) }
{
    let mut hand = Hand { shared, caller };
    match least_by(alloc, source, &mut hand, start, room) {
        Ok(Some(found)) => Ok(Some(found.output)),
        Ok(None) => Ok(None),
        Err(e) => Err(e),
    }
}

/// The least reading of the cascade that begins at a tuple, by a hand at the table. It stays at that table, and holds the same caller.
fn least_by(
    alloc: Global,
    source: &Fst,
    hand: &mut Hand<'_>,
    start: &Tuple,
    room: &mut Room,
) -> Result<Option<Least>, AllocError>
    requires ready { IsReady hand.old.shared.now hand.old.caller.now }
    requires begins { (n : ℕ) × Begins (cascades_in hand.old.shared.now) n start.now × IsUnmarked (relation_at n (cascades_in hand.old.shared.now)) }
    ensures least { IfOk result (λ answer. IsLeastFrom source.now (cascades_in hand.old.shared.now) start.now (option_map (λ l. (l.weight, l.output.items)) answer)) }
    ensures looks { IfOk result (λ answer. IfSome answer (λ _. CallsForEach source.now (Some (looks_of hand.old.shared.now hand.old.caller.now)) (Some (looks_of hand.old.shared.now hand.new.caller.now)))) }
    ensures ready { IsReady hand.new.shared.now hand.new.caller.now }
    ensures still { IsStill hand.old hand.new }
    ensures searched { OnOk result (Searched hand.old.shared.now hand.old.caller.now hand.new.caller.now) }
    ensures stopped { OnErr result (Stopped hand.old.shared.now hand.old.caller.now hand.new.caller.now) }
{
    least_in(alloc, room, source, hand, start)
}
