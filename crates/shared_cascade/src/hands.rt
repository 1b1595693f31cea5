// A caller as an expander.

ghost use Rattle.std.specs.Prelude.{◌≡◌, ◌<◌, OnErr, OnOk, nat_eq, [], length};
ghost use Rattle.std.specs.List.{filter};
ghost use Rattle.std.specs.Vec.{vec_capacity};

use crate::callers::Caller;
use crate::shared::Shared;
use crate::visits::Visit;
use state_tuples::{Expander, Onward, Tuple, TupleArc};
use std::alloc::AllocError;

/// A caller at its table: an [`Expander`] of both cascades that keeps expansions there, and takes them from there.
///
/// Each call makes one look. Where it finds the code it reads, in place, what it wants of it: the arcs of the label, whose first it finds by
/// halving, or the final weight. Where it finds nothing, the expansion is made, and there is one attempt to publish it. Beside what every
/// expander owes, the clauses say that a call adds one episode to the log, for the key of its tuple; where memory is wanting it may be a look
/// alone that found nothing. Else memory is wanting only where `into` had no room for the arcs. Where the look is Shown, a call that gives `k`
/// arcs has read 38 and 6 times `k` words at most, and one that gives a final weight 30.
#[derive(Drop)]
pub struct Hand<'a> {
    pub shared: &'a Shared,
    pub caller: &'a mut Caller,
}

impl<'a> Expander for Hand<'a> {
    ghost use Rattle.std.specs.Prelude.{◌≡◌, ◌≤◌, ◌⊎◌, ◌+◌, ◌*◌, IfOk, OnErr, OnOk, Some, [], length};
    ghost use Rattle.std.specs.Vec.{vec_capacity};
    ghost use Rattle.state_tuples.specs.Calls.{AreArcsOn, IsCounted, IsEndOf, IsKnown};
    ghost use Rattle.state_tuples.specs.Codes.{key};
    ghost use Rattle.shared_cascade.specs.Episodes.{Episode, Missed};
    ghost use Rattle.shared_cascade.specs.Hands.{GivesUp, GoesOn, HadNoRoom, ShortEpisode, Wanting};
    ghost use Rattle.shared_cascade.specs.HandLaws.{on_again, on_self, on_stays, own_numbers, sound, up_stays};
    ghost use Rattle.shared_cascade.specs.Callers.{Adds, IsReady, cascades_in, looks_of, places_in};

    ghost cascades = { λ h. cascades_in h.shared.now };

    ghost is_ready = { λ h. IsReady h.shared.now h.caller.now };

    ghost goes_on = { GoesOn };

    ghost gives_up = { GivesUp };

    ghost calls = { λ h. Some (looks_of h.shared.now h.caller.now) };

    fn arcs_on(&mut self, t: &Tuple, label: u16, into: &mut Vec<TupleArc>) -> Result<(), AllocError>
        requires ready { IsReady self.old.shared.now self.old.caller.now }
        requires known { IsKnown (cascades_in self.old.shared.now) t.now }
        requires label { label ≤ 257 }
        ensures arcs { OnOk result (AreArcsOn (cascades_in self.old.shared.now) t.now label into.new.items) }
        ensures none { OnErr result (into.new.items ≡ []) }
        ensures ready { IsReady self.new.shared.now self.new.caller.now }
        ensures on { OnOk result (GoesOn self.old self.new) }
        ensures up { OnErr result (GivesUp self.old self.new) }
        ensures counted { IsCounted (Some (looks_of self.old.shared.now self.old.caller.now)) (Some (looks_of self.new.shared.now self.new.caller.now)) }
        ensures episode { OnOk result (Adds self.old.caller.now self.new.caller.now (Episode (cascades_in self.old.shared.now) (places_in self.old.shared.now) (key t.now))) }
        ensures refused { OnErr result (Adds self.old.caller.now self.new.caller.now (λ o es. Episode (cascades_in self.old.shared.now) (places_in self.old.shared.now) (key t.now) o es ⊎ Missed (places_in self.old.shared.now) (key t.now) es)) }
        ensures read { OnOk result (Adds self.old.caller.now self.new.caller.now (ShortEpisode (cascades_in self.old.shared.now) (places_in self.old.shared.now) (key t.now) (38 + 6 * length into.new.items))) }
        ensures wanting { OnErr result (Adds self.old.caller.now self.new.caller.now (Wanting (cascades_in self.old.shared.now) (places_in self.old.shared.now) (key t.now) (HadNoRoom (cascades_in self.old.shared.now) t.now label (vec_capacity into.old)))) }
    {
        into.clear();
        match self.shared.visit(self.caller, t)? {
            Visit::Held => self.shared.take_arcs(self.caller, label, into),
            Visit::Made(_) => put_readers(&self.caller.arcs, label, into),
        }
    }

    fn finality(&mut self, t: &Tuple) -> Result<Option<u64>, AllocError>
        requires ready { IsReady self.old.shared.now self.old.caller.now }
        requires known { IsKnown (cascades_in self.old.shared.now) t.now }
        ensures end { IfOk result (IsEndOf (cascades_in self.old.shared.now) t.now) }
        ensures ready { IsReady self.new.shared.now self.new.caller.now }
        ensures on { OnOk result (GoesOn self.old self.new) }
        ensures up { OnErr result (GivesUp self.old self.new) }
        ensures counted { IsCounted (Some (looks_of self.old.shared.now self.old.caller.now)) (Some (looks_of self.new.shared.now self.new.caller.now)) }
        ensures episode { OnOk result (Adds self.old.caller.now self.new.caller.now (Episode (cascades_in self.old.shared.now) (places_in self.old.shared.now) (key t.now))) }
        ensures refused { OnErr result (Adds self.old.caller.now self.new.caller.now (λ o es. Missed (places_in self.old.shared.now) (key t.now) es)) }
        ensures read { OnOk result (Adds self.old.caller.now self.new.caller.now (ShortEpisode (cascades_in self.old.shared.now) (places_in self.old.shared.now) (key t.now) 30)) }
    {
        match self.shared.visit(self.caller, t)? {
            Visit::Held => Ok(self.shared.take_end(self.caller)),
            Visit::Made(finality) => Ok(finality),
        }
    }

    fn may_read(&self, t: &Tuple, label: u16) -> bool {
        self.shared.cascade_of(t).may_read(t, label)
    }

    fn onward(&self, t: &Tuple) -> Onward {
        self.shared.cascade_of(t).onward(t)
    }

    ghost sound = { sound };

    ghost own_numbers = { own_numbers };

    ghost on_stays = { on_stays };

    ghost up_stays = { up_stays };

    ghost on_self = { on_self };

    ghost on_again = { on_again };
}

/// Puts those that read the label into `into`, in order, in place of what is there.
fn put_readers(arcs: &[TupleArc], label: u16, into: &mut Vec<TupleArc>) -> Result<(), AllocError>
    ensures arcs { OnOk result (into.new.items ≡ filter (λ a. nat_eq a.input label) arcs.now) }
    ensures none { OnErr result (into.new.items ≡ []) }
    ensures full { OnErr result (vec_capacity into.old < length (filter (λ a. nat_eq a.input label) arcs.now)) }
{
    into.clear();
    for arc in arcs {
        if arc.input == label {
            if let Err(e) = into.push(*arc) {
                into.clear();
                return Err(e.into());
            }
        }
    }
    Ok(())
}
